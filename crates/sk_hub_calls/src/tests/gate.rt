ghost use Rattle.std.specs.Prelude.{◌≡◌, ◌<◌, ◌≤◌, [], ◌∷◌, false, length, None, IfOk};
ghost use Rattle.sk_machine.specs.Coarse.{blank_mine, IsBatch};
ghost use Rattle.sk_model.specs.Limits.{most_size};
ghost use Rattle.sk_model.specs.Width.{IsItem};
ghost use Rattle.sk_gate.specs.Slots.{contents};
ghost use Rattle.sk_machine.specs.declared.views.Post.TheVariants.{Root, Updater};
ghost use Rattle.sk_gate.specs.Views.{size_of, mine_of, leads};
ghost use Rattle.sk_gate.specs.Hands.{no_own};
ghost use Rattle.sk_gate.specs.Starts.{blank_view, empty_handed};

use super::expect;
use sk_compose::{Buffer, Composable, Parcel};
use sk_gate::*;
use sk_theta::{ITEM_END, Reply, Theta, unpack};
use std::alloc::Global;
use std::sync::Wait;
use std::test::Fail;
use std::thread;

// The seats of a table with one updater, whose buffers have room for one item.
struct Seats {
    heart: HeartSeat<Theta>,
    updater: UpdaterSeat<Theta>,
    token: TokenSeat<Theta>,
}

fn parcel(alloc: Global) -> Result<Parcel<()>, OutOfMemory>
    ensures items { IfOk result (λ p. p.buffer.items ≡ []) }
    ensures capacity { IfOk result (λ p. p.buffer.capacity ≡ 1) }
    ensures told { IfOk result (λ p. p.told ≡ None) }
{
    let buffer = Buffer::new(alloc, 1)?;
    Ok(Parcel { buffer, told: None })
}

fn full_parcel(alloc: Global, item: u64) -> Result<Parcel<()>, OutOfMemory>
    requires item { IsItem item }
    ensures items { IfOk result (λ p. p.buffer.items ≡ item ∷ []) }
    ensures capacity { IfOk result (λ p. p.buffer.capacity ≡ 1) }
{
    let mut full = parcel(alloc)?;
    full.buffer.push(item);
    Ok(full)
}

#[tactic(auto, unfolding(sk_model::specs::Entries::items_of_entries))]
fn one_updater(alloc: Global) -> Result<Seats, OutOfMemory>
    ensures heart { IfOk result (λ seats. seats.heart ≡ empty_handed (blank_view (1 ∷ []) (2 ∷ []) [] (Root 1) 2) seats.heart.table 1) }
    ensures token { IfOk result (λ seats. seats.token.table ≡ seats.heart.table) }
    ensures updater { IfOk result (λ seats. seats.updater ≡ empty_handed (blank_view (1 ∷ []) (2 ∷ []) [] (Updater 0 blank_mine) 1) seats.heart.table 0) }
{
    let global = Theta::new(alloc, 2)?;
    let parcels = vec![in alloc; parcel(alloc)?]?;
    let Made {
        heart,
        mut updaters,
        token,
    } = make(alloc, 1, 1, global, parcels)?;
    let updater = updaters.remove(0);
    Ok(Seats {
        heart,
        updater,
        token,
    })
}

// Hands a batch over, if the word is not 0. Gives the word.
fn hand_over(seat: &mut UpdaterSeat<Theta>, full: Parcel<()>) -> u64
    requires mine { mine_of seat.old.view ≡ blank_mine }
    requires own { seat.old.own ≡ no_own }
    requires size { size_of seat.old.view seat.old.number ≡ 1 }
    requires batch { length full.buffer.items ≡ 1 }
    requires capacity { full.buffer.capacity ≡ 1 }
{
    let word = seat.look();
    if word != 0 {
        seat.swap(full);
        seat.hand();
    }
    word
}

// One round: merges the batch that waits at updater 0, and gives how many items it has.
fn serve<R: Wait>(rt: &R, heart: &mut HeartSeat<Theta>) -> u32
    requires free { leads heart.old.view.duty ≡ false }
    requires within { 0 < length heart.old.view.sizes }
    ensures free { leads heart.new.view.duty ≡ false }
    ensures sizes { length heart.new.view.sizes ≡ length heart.old.view.sizes }
{
    if heart.turn().is_err() {
        return 0;
    }
    let mut trunk = heart.lift();
    if trunk.held.is_some() {
        heart.lay(trunk);
        heart.yield_turn();
        return 0;
    }
    if heart.find(0) != 0 {
        heart.lay(trunk);
        heart.yield_turn();
        return 0;
    }
    let parcel = heart.take(0);
    let count = merge_batch(rt, heart, &mut trunk, 0, parcel).unwrap();
    heart.lay(trunk);
    heart.yield_turn();
    count
}

// Serves the updater until a batch was merged, and gives its length.
fn serve_until_merged<R: Wait>(rt: &R, heart: &mut HeartSeat<Theta>) -> u32
    requires free { leads heart.old.view.duty ≡ false }
    requires within { 0 < length heart.old.view.sizes }
{
    'turn: for _ in 0..1_000_000 {
        let count = serve(rt, heart);
        if count != 0 {
            return count;
        }
    }
    0
}

#[test]
fn a_batch_is_handed_over_and_published(rt: HostRuntime) -> Result<(), Fail> {
    let Seats {
        mut heart,
        mut updater,
        mut token,
    } = one_updater(rt.alloc())?;
    let nothing = Reply {
        count: 0,
        theta: ITEM_END,
    };
    expect(&rt, unpack(token.ask(), 2), nothing);
    let full = full_parcel(rt.alloc(), 5)?;
    expect(&rt, hand_over(&mut updater, full), ITEM_END);
    expect(&rt, unpack(updater.ask(), 2), nothing);
    expect(&rt, serve_until_merged(&rt, &mut heart), 1);
    let one = Reply {
        count: 1,
        theta: ITEM_END,
    };
    expect(&rt, unpack(token.ask(), 2), one);
    expect(&rt, unpack(updater.ask(), 2), one);
    Ok(())
}

// Finds, takes and publishes the batch of updater 0, a call at a time. Gives the number found and the items taken.
fn publish_one<R: Wait>(
    rt: &R,
    alloc: Global,
    heart: &mut HeartSeat<Theta>,
) -> Result<Option<(u64, Vec<u64>)>, OutOfMemory>
    requires free { leads heart.old.view.duty ≡ false }
    requires within { 0 < length heart.old.view.sizes }
{
    if heart.turn().is_err() {
        return Ok(None);
    }
    let mut trunk = heart.lift();
    if let Some(_held) = trunk.held.take() {
        return Ok(None);
    }
    let found = heart.find(0);
    if found != 0 {
        return Ok(None);
    }
    let mut parcel = heart.take(0);
    let mut items = Vec::new(alloc);
    items.extend_from_slice(parcel.buffer.items())?;
    Composable::merge(&mut *trunk.global, rt, 0, &parcel.buffer)?;
    heart.publish(0, &trunk.global);
    parcel.buffer.clear();
    parcel.told = Some(trunk.global.told());
    heart.put(0, parcel);
    heart.give_back(0, &trunk.global);
    heart.lay(trunk);
    heart.yield_turn();
    Ok(Some((found, items)))
}

#[test]
fn a_round_goes_by_single_calls(rt: HostRuntime) -> Result<(), Fail> {
    let Seats {
        mut heart,
        mut updater,
        token: _,
    } = one_updater(rt.alloc())?;
    let full = full_parcel(rt.alloc(), 5)?;
    expect(
        &rt,
        hand_over(&mut updater, full),
        9_223_372_036_854_775_808,
    );
    let published = publish_one(&rt, rt.alloc(), &mut heart)?;
    let items = vec![in rt.alloc(); 5u64]?;
    assert_eq!(rt; published, Some((0, items)));
    expect(&rt, unpack(heart.ask(), 2).count, 1);
    Ok(())
}

#[test]
fn a_batch_crosses_threads(rt: HostRuntime) -> Result<(), Fail> {
    let Seats {
        mut heart,
        mut updater,
        mut token,
    } = one_updater(rt.alloc())?;
    let full = full_parcel(rt.alloc(), 5)?;
    let (word, count) = thread::join(
        &rt,
        || hand_over(&mut updater, full),
        || serve_until_merged(&rt, &mut heart),
    );
    expect(&rt, (word, count), (ITEM_END, 1));
    expect(&rt, unpack(token.ask(), 2).count, 1);
    Ok(())
}

// Admits an updater, with buffers of b items, and hands over its first batch. Gives the empty parcel that lay in its
// slot by then.
fn admit_and_hand<C: Composable>(
    seat: &mut UpdaterSeat<C>,
    b: u32,
    empty: Parcel<C::Told>,
    full: Parcel<C::Told>,
) -> Parcel<C::Told>
    requires vacant { size_of seat.old.view seat.old.number ≡ 0 }
    requires most { b ≤ most_size }
    requires empty { empty.buffer ≡ contents [] b }
    requires told { empty.told ≡ None }
    requires batch { IsBatch b full.buffer.items }
    requires capacity { full.buffer.capacity ≡ b }
    ensures handed { (mine_of seat.new.view).handed ≡ full.buffer.items }
    ensures size { size_of seat.new.view seat.new.number ≡ b }
    ensures given { seat.new.own ≡ no_own }
    ensures spare { result.buffer ≡ contents [] b }
{
    seat.admit(b);
    seat.pick(empty);
    let spare = seat.swap(full);
    seat.hand();
    spare
}

#[test]
#[tactic(auto, unfolding(sk_model::specs::Entries::items_of_entries))]
fn a_late_updater_hands_a_batch_over(rt: HostRuntime) -> Result<(), Fail> {
    let alloc = rt.alloc();
    let placeholders = vec![in alloc; parcel(alloc)?]?;
    let Made {
        mut heart,
        mut updaters,
        mut token,
    } = make(alloc, 1, 0, Theta::new(alloc, 2)?, placeholders)?;
    let mut updater = updaters.remove(0);
    admit_and_hand(&mut updater, 1, parcel(alloc)?, full_parcel(alloc, 5)?);
    expect(&rt, unpack(token.ask(), 2).count, 0);
    expect(&rt, serve(&rt, &mut heart), 1);
    expect(&rt, unpack(token.ask(), 2).count, 1);
    Ok(())
}

#[test]
fn one_seat_has_the_turn(rt: HostRuntime) -> Result<(), Fail> {
    let Seats {
        mut heart,
        mut updater,
        token: _,
    } = one_updater(rt.alloc())?;
    assert!(rt; heart.turn().is_ok());
    let other = updater.turn();
    assert_eq!(rt; other, Err(1));
    heart.yield_turn();
    assert!(rt; updater.turn().is_ok());
    Ok(())
}

#[test]
fn notes_meet(rt: HostRuntime) -> Result<(), Fail> {
    let Seats {
        heart: _,
        mut updater,
        mut token,
    } = one_updater(rt.alloc())?;
    let mut second = token.split()?;
    let note = updater.split();
    second.join(note);
    expect(&rt, token.ask(), second.ask());
    Ok(())
}
