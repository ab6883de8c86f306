//! The table, and its seats.
ghost use Rattle.std.specs.Prelude.{◌≡◌, ◌+◌, ◌<◌, ◌≤◌, [], ◌∷◌, ◌++◌, length, map, drop, All, None, IfOk};
ghost use Rattle.std.specs.Arc.{arc_value};
ghost use Rattle.sk_machine.specs.Coarse.{blank_mine};
ghost use Rattle.sk_machine.specs.declared.views.Post.TheVariants.{Guest, Root, Updater};
ghost use Rattle.sk_gate.specs.Slots.{full, trunk};
ghost use Rattle.sk_gate.specs.Views.{admitted_sizes};
ghost use Rattle.sk_gate.specs.Starts.{AreFirstWords, blank_view, empty_handed, blank_of, IsBlank, AreNew, IsMade};
ghost use Rattle.sk_model.specs.Limits.{most_updaters};

use crate::load::{Load, Trunk};
use crate::plays::{Copying, NextUpdater};
use crate::rule::{About, Hub, Slot};
use crate::seat::{HeartSeat, Propagator, UpdaterSeat};
use crate::token::TokenSeat;
use atomic_table::{Seat, Table};
use sk_compose::{Composable, Parcel};
use sk_machine::views::View;
use sk_model::OutOfMemory;
use std::alloc::Global;
use std::marker::PhantomData;
use std::snapshot::Snapshot;
use std::sync::Arc;

/// The seats of a table: the heart's, those of the updaters in number order, and a token's.
#[derive(Drop)]
pub struct Made<C: Composable> {
    pub heart: HeartSeat<C>,
    pub updaters: Vec<UpdaterSeat<C>>,
    pub token: TokenSeat<C>,
}

// The published word, the words of the updaters, and the turn.
fn first_words<C: Composable>(alloc: Global, n: u32, global: &C) -> Result<Vec<u64>, OutOfMemory>
    requires most { n ≤ most_updaters }
    requires fresh { C.is_of global.now [] }
    ensures { IfOk result (λ words. AreFirstWords (C.packed_of (C.numbers global.now) [])
        (C.hint_of (C.numbers global.now) []) n words.items) }
{
    let mut words = Vec::from_elem(alloc, global.hint(), n as usize + 2)?;
    words[0] = global.packed();
    words[n as usize + 1] = 0;
    Ok(words)
}

// The parcels, and the trunk after them.
fn first_slots<C: Composable>(
    alloc: Global,
    parcels: Vec<Parcel<C::Told>>,
    global: Box<C>,
) -> Result<Vec<Slot<C>>, OutOfMemory>
    requires few { length parcels.items ≤ most_updaters }
    ensures { IfOk result (λ slots. slots.items
        ≡ map (λ p. full p) parcels.items ++ trunk (record { global = global; held = None }) ∷ []) }
{
    let mut slots = Vec::with_capacity(alloc, parcels.len() + 1)?;
    'parcel: for parcel in parcels {
        slots.push(Some(Load::Parcel(parcel)))?;
    }
    let held = None;
    slots.push(Some(Load::Trunk(Trunk { global, held })))?;
    Ok(slots)
}

// The table, and its first seat.
fn new_table<C: Composable>(
    alloc: Global,
    n: u32,
    admitted: u32,
    global: C,
    parcels: Vec<Parcel<C::Told>>,
) -> Result<(Arc<Hub<C>, Global>, Seat<Slot<C>, View>), OutOfMemory>
    requires most { n ≤ most_updaters }
    requires count { length parcels.items ≡ n }
    requires empty { All (λ p. (p.buffer.items ≡ []) × (p.told ≡ None)) parcels.items }
    requires rooms { All (λ p. 1 ≤ p.buffer.capacity) parcels.items }
    requires placeholders { All (λ p. p.buffer.capacity ≡ 1) (drop admitted parcels.items) }
    requires fresh { C.is_of global [] }
    ensures table { IfOk result (λ made. made.1.table_id ≡ (arc_value made.0).shared.table_id) }
    ensures words { IfOk result (λ made. made.1.table_id.words ≡ n + 2) }
    ensures slots { IfOk result (λ made. made.1.table_id.slots ≡ n + 1) }
    ensures me { IfOk result (λ made. made.1.me
        ≡ (blank_view (admitted_sizes admitted parcels.items) (C.numbers global) (C.name global) (Root 0) 0, [])) }
{
    let words = first_words(alloc, n, &global)?;
    let about = About {
        sketch: Snapshot::of(&global),
        parcels: Snapshot::of(&parcels),
        admitted,
    };
    let global = Box::new(alloc, global)?;
    let slots = first_slots(alloc, parcels, global)?;
    match Table::new(alloc, words.as_slice(), slots, &about) {
        Ok((table, seat)) => Ok((Arc::new(alloc, table)?, seat)),
        Err(_) => Err(OutOfMemory),
    }
}

// The seat of the next updater, which is refused before its step.
fn next_updater<C: Composable>(
    hub: &Arc<Hub<C>, Global>,
    seat: &mut Seat<Slot<C>, View>,
    number: u32,
    updaters: u32,
) -> Result<UpdaterSeat<C>, OutOfMemory>
    requires table { seat.old.table_id ≡ (arc_value hub.now).shared.table_id }
    requires words { seat.old.table_id.words ≡ updaters + 2 }
    requires slots { seat.old.table_id.slots ≡ updaters + 1 }
    requires most { updaters ≤ most_updaters }
    requires within { number < updaters }
    requires sizes { length seat.old.me.0.sizes ≡ updaters }
    requires blank { IsBlank seat.old.me.0 (Root number) number seat.old.me }
    ensures table { seat.new.table_id ≡ seat.old.table_id }
    ensures first { IfOk result (λ _. IsBlank seat.old.me.0 (Root (number + 1)) (number + 1) seat.new.me) }
    ensures updater { IfOk result (λ updater. updater
        ≡ empty_handed (blank_of seat.old.me.0 (Updater number blank_mine) (number + 1))
        seat.old.table_id number) }
{
    let hub = Arc::try_clone(hub)?;
    let table = &hub;
    let seat = table.shared.split_seat::<NextUpdater>(seat);
    Ok(Propagator {
        hub,
        seat,
        number,
        updaters,
        front: 0,
        own: false,
        role: PhantomData,
    })
}

// The seats of the updaters, in number order.
fn all_updaters<C: Composable>(
    alloc: Global,
    hub: &Arc<Hub<C>, Global>,
    seat: &mut Seat<Slot<C>, View>,
    n: u32,
) -> Result<Vec<UpdaterSeat<C>>, OutOfMemory>
    requires table { seat.old.table_id ≡ (arc_value hub.now).shared.table_id }
    requires words { seat.old.table_id.words ≡ n + 2 }
    requires slots { seat.old.table_id.slots ≡ n + 1 }
    requires most { n ≤ most_updaters }
    requires sizes { length seat.old.me.0.sizes ≡ n }
    requires blank { IsBlank seat.old.me.0 (Root 0) 0 seat.old.me }
    ensures table { seat.new.table_id ≡ seat.old.table_id }
    ensures first { IfOk result (λ _. IsBlank seat.old.me.0 (Root n) n seat.new.me) }
    ensures count { IfOk result (λ updaters. length updaters.items ≡ n) }
    ensures updaters { IfOk result (λ updaters. AreNew seat.old.me.0 seat.old.table_id updaters.items) }
{
    let mut updaters = Vec::with_capacity(alloc, n as usize)?;
    'number: for number in 0..n {
        updaters.push(next_updater(hub, seat, number, n)?)?;
    }
    Ok(updaters)
}

// The seat of a token, which is refused before its step.
fn first_token<C: Composable>(
    hub: &Arc<Hub<C>, Global>,
    seat: &mut Seat<Slot<C>, View>,
    n: u32,
) -> Result<TokenSeat<C>, OutOfMemory>
    requires table { seat.old.table_id ≡ (arc_value hub.now).shared.table_id }
    requires words { seat.old.table_id.words ≡ n + 2 }
    requires slots { seat.old.table_id.slots ≡ n + 1 }
    requires blank { IsBlank seat.old.me.0 (Root n) n seat.old.me }
    ensures table { seat.new.table_id ≡ seat.old.table_id }
    ensures first { IfOk result (λ _. IsBlank seat.old.me.0 (Root n) (n + 1) seat.new.me) }
    ensures token { IfOk result (λ token. token
        ≡ record { view = blank_of seat.old.me.0 Guest (n + 1); table = seat.old.table_id }) }
{
    let hub = Arc::try_clone(hub)?;
    let table = &hub;
    let seat = table.shared.split_seat::<Copying>(seat);
    Ok(TokenSeat { hub, seat })
}

/// A table for n updaters, from 1 to 64, of which those below `admitted` are admitted, with buffers as large as
/// their parcels'. The parcels of the others are placeholders, with room for one item.
pub fn make<C: Composable>(
    alloc: Global,
    n: u32,
    admitted: u32,
    global: C,
    parcels: Vec<Parcel<C::Told>>,
) -> Result<Made<C>, OutOfMemory>
    requires least { 1 ≤ n }
    requires most { n ≤ most_updaters }
    requires admitted { admitted ≤ n }
    requires count { length parcels.items ≡ n }
    requires empty { All (λ p. (p.buffer.items ≡ []) × (p.told ≡ None)) parcels.items }
    requires rooms { All (λ p. 1 ≤ p.buffer.capacity) parcels.items }
    requires placeholders { All (λ p. p.buffer.capacity ≡ 1) (drop admitted parcels.items) }
    requires fresh { C.is_of global [] }
    ensures { IfOk result (λ made. IsMade n (admitted_sizes admitted parcels.items)
        (C.numbers global) (C.name global) made.heart made.updaters.items made.token) }
{
    let (hub, mut seat) = new_table(alloc, n, admitted, global, parcels)?;
    let updaters = all_updaters(alloc, &hub, &mut seat, n)?;
    let token = first_token(&hub, &mut seat, n)?;
    let heart = Propagator {
        hub,
        seat,
        number: n,
        updaters: n,
        front: 0,
        own: false,
        role: PhantomData,
    };
    Ok(Made {
        heart,
        updaters,
        token,
    })
}
