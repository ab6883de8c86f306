//! An updater: it keeps items, hands them over a buffer at a time, asks, and may propagate itself.
ghost use Rattle.sk_gate.specs.Slots.{telling};
ghost use Rattle.sk_gate.specs.Views.{known_of, size_of, after_split, copy_of, after_join, is_open};
ghost use Rattle.sk_hub.specs.Calls.{Takes, IsBusyWith, StopsAt};
ghost use Rattle.sk_hub.specs.Replies.{IsOwnReply};
ghost use Rattle.sk_hub.specs.Rounds.{Sweeps, Refuses, IsElsewhere, KnowsAsMuch, TriesTheTurn};
ghost use Rattle.sk_hub.specs.Updaters.{handed_of, base_of, kept_of, with_item, with_items, LooksInVain, Renews, HandsOver, Keeps, HandsWith, earlier_of, TellsItems, IsWholeUpdater};
ghost use Rattle.sk_model.specs.Limits.{most_kept, most_size};
ghost use Rattle.sk_model.specs.Missing.{Begins};
ghost use Rattle.sk_model.specs.Width.{IsItem, AreItems};
ghost use Rattle.std.specs.Bool.{OnTrue, OnFalse};
ghost use Rattle.std.specs.List.{filter};
ghost use Rattle.std.specs.Prelude.{◌≡◌, ◌≢◌, ◌↔◌, ◌⊎◌, ◌+◌, ◌<◌, ◌++◌, ◌∷◌, [], length, take, slice_index, true, false, ◌≤◌, ◌&&◌, is_some, Some, ℕ, IsTrue};

use crate::answers::{Flush, Help, Settle, Update};
use crate::round::{Done, Stopped, propagate};
use crate::token::Note;
use sk_compose::{Buffer, Composable, Parcel};
use sk_gate::UpdaterSeat;
use std::marker::Model;
use std::sync::Wait;

// Puts those of some items that a hint keeps to the end of a buffer, and returns how many they are.
fn put_kept<C: Composable>(fill: &mut Buffer, hint: u64, items: &[u64]) -> u64
    requires items { AreItems items.now }
    requires room { length fill.old.items + length items.now ≤ fill.old.capacity }
    ensures value { result ≡ length (filter (C.keeps_of hint) items.now) }
    ensures items { fill.new.items ≡ fill.old.items ++ filter (C.keeps_of hint) items.now }
    ensures capacity { fill.new.capacity ≡ fill.old.capacity }
{
    let mut count = 0;
    'item: for item in items {
        if C::keeps(hint, *item) {
            fill.push(*item);
            count += 1;
        }
    }
    count
}

/// An updater of a hub. Updaters are numbered from 0, and a number belongs to one updater for the hub's life.
#[derive(Drop)]
pub struct Updater<C: Composable> {
    pub(crate) seat: UpdaterSeat<C>,
    pub(crate) number: u32,
    // how many updaters the hub has
    pub(crate) updaters: u32,
    pub(crate) size: u32,
    // None only while its items lie in the slot
    pub(crate) fill: Option<Buffer>,
    pub(crate) told: Option<C::Told>,
    pub(crate) hint: u64,
    // how many items were kept
    pub(crate) taken: u64,
    // how many of them the last hand handed over
    pub(crate) last: u32,
    pub(crate) eager: bool,
}

impl<C: Composable> Model for Updater<C> {
    ghost use Rattle.sk_gate.specs.Slots.{telling};
    ghost use Rattle.sk_hub.specs.Updaters.{UpdaterState, state_of, IsUpdater};

    ghost Value = { UpdaterState };

    ghost view = { λ u. state_of u.seat u.number u.size u.fill u.told u.hint u.last u.eager };

    ghost invariant = { λ u. IsUpdater C.hint_of (telling C.tells C.told_name C.told_of) u.seat u.number u.updaters u.size u.fill u.told u.hint u.taken u.last };
}

impl<C: Composable> Updater<C> {
    /// Keeps an item, from 1 to 2^63 - 1, unless no later reply would change by it. At most 2^40 items are kept.
    #[inline(always)]
    pub fn update(&mut self, item: u64) -> Update
        requires item { IsItem item }
        requires room { length (kept_of self.old) < most_kept }
        ensures filtered { (result ≡ Update.Filtered) ↔ (C.keeps_of self.old.hint item ≡ false) }
        ensures idle { result ≡ Update.Filtered → C.keeps_of (C.hint_of self.old.view.numbers (base_of self.old)) item ≡ false }
        ensures unchanged { result ≡ Update.Filtered → self.new ≡ self.old }
        ensures full { result ≡ Update.Busy → length self.old.fill ≡ self.old.size }
        ensures busy { result ≡ Update.Busy → LooksInVain self.old self.new }
        ensures kept { result ≡ Update.Kept → Keeps C.early_of self.old item self.new }
        ensures handed { result ≡ Update.Handed → HandsWith C.early_of C.hint_of self.old item self.new }

        // An item that is kept is in one of the two buffers, and stays.
        ensures grows { (result ≡ Update.Kept) ⊎ (result ≡ Update.Handed) → kept_of self.new ≡ kept_of self.old ++ item ∷ [] }
    {
        if !C::keeps(self.hint, item) {
            return Update::Filtered;
        }
        self.keep(item)
    }

    // The rest of `update`, for an item that is kept unless the updater is busy.
    #[inline(never)]
    fn keep(&mut self, item: u64) -> Update
        requires item { IsItem item }
        requires room { length (kept_of self.old) < most_kept }
        ensures offered { result ≢ Update.Filtered }
        ensures full { result ≡ Update.Busy → length self.old.fill ≡ self.old.size }
        ensures busy { result ≡ Update.Busy → LooksInVain self.old self.new }
        ensures kept { result ≡ Update.Kept → Keeps C.early_of self.old item self.new }
        ensures handed { result ≡ Update.Handed → HandsWith C.early_of C.hint_of self.old item self.new }
        ensures grows { (result ≡ Update.Kept) ⊎ (result ≡ Update.Handed) → kept_of self.new ≡ kept_of self.old ++ item ∷ [] }
    {
        if self.len() == self.size() {
            if !self.hand_over() {
                return Update::Busy;
            }
            self.put(item);
            return Update::Handed;
        }
        self.put(item);
        if (self.len() == self.size() || self.is_eager()) && self.hand_over() {
            return Update::Handed;
        }
        Update::Kept
    }

    /// Updates by items, in order, until the updater is busy with one, and returns how many came before that one.
    /// An eager updater hands over together those of a call.
    pub fn update_each(&mut self, items: &[u64]) -> usize
        requires items { AreItems items.now }
        requires room { length (kept_of self.old) + length items.now ≤ most_kept }
        ensures within { result ≤ length items.now }
        ensures taken { Takes C.keeps_of C.hint_of self.old (take result items.now) self.new }
        ensures stops { result < length items.now → StopsAt C.keeps_of C.hint_of self.old (take result items.now) (slice_index items.now result) self.new }
    {
        let mut at = 0;
        'items: while at < items.len() {
            let taken = self.take_some(&items[at..]);
            if taken == 0 {
                return at;
            }
            at += taken;
        }
        at
    }

    // Takes some of the items, or none if it is busy with the first.
    fn take_some(&mut self, items: &[u64]) -> usize
        requires some { 0 < length items.now }
        requires items { AreItems items.now }
        requires room { length (kept_of self.old) + length items.now ≤ most_kept }
        ensures within { result ≤ length items.now }
        ensures taken { Takes C.keeps_of C.hint_of self.old (take result items.now) self.new }
        ensures busy { result ≡ 0 → IsBusyWith C.keeps_of self.old (slice_index items.now 0) self.new }
    {
        let count = self.count_before_due(items.len());
        if count == 0 {
            return self.take_first(items[0]);
        }
        // It shows the proof which list the hint is of.
        let _hint = self.hint();
        self.put_each(&items[..count]);
        count
    }

    // How many of some items come before one with which the buffer may be due: the last that it has room for, or the last
    // of all if the updater is eager. These need no look.
    fn count_before_due(&self, count: usize) -> usize
        requires some { 0 < count }
        ensures within { result ≤ count }
        ensures room { length self.now.fill + result ≤ self.now.size }
    {
        let room = (self.size() - self.len()) as usize;
        if room == 0 {
            return 0;
        }
        if self.is_eager() {
            return (room - 1).min(count - 1);
        }
        (room - 1).min(count)
    }

    // Takes an item, or none if it is busy.
    fn take_first(&mut self, item: u64) -> usize
        requires item { IsItem item }
        requires room { length (kept_of self.old) < most_kept }
        ensures within { result ≤ 1 }
        ensures taken { result ≡ 1 → Takes C.keeps_of C.hint_of self.old (item ∷ []) self.new }
        ensures none { result ≡ 0 → Takes C.keeps_of C.hint_of self.old [] self.new }
        ensures busy { result ≡ 0 → IsBusyWith C.keeps_of self.old item self.new }
    {
        // It shows the proof which list the hint is of.
        let _hint = self.hint();
        match self.update(item) {
            Update::Busy => 0,
            _ => 1,
        }
    }

    /// Hands over what the fill buffer has.
    pub fn flush(&mut self) -> Flush
        ensures empty { (result ≡ Flush.Empty) ↔ (self.old.fill ≡ []) }
        ensures unchanged { result ≡ Flush.Empty → self.new ≡ self.old }
        ensures busy { result ≡ Flush.Busy → LooksInVain self.old self.new }
        ensures handed { result ≡ Flush.Handed → HandsOver C.hint_of self.old [] self.new }
        ensures all { result ≡ Flush.Handed → handed_of self.new ≡ kept_of self.old }
    {
        if self.len() == 0 {
            return Flush::Empty;
        }
        if self.hand_over() {
            Flush::Handed
        } else {
            Flush::Busy
        }
    }

    /// One look, which shows whether all that was handed over is published.
    pub fn settle(&mut self) -> Settle
        ensures busy { result ≡ Settle.Busy → LooksInVain self.old self.new }
        ensures settled { result ≡ Settle.Settled → Renews C.hint_of self.old self.new }
    {
        let hint = self.seat.look();
        if hint == 0 {
            return Settle::Busy;
        }
        self.hint = hint;
        Settle::Settled
    }

    // Puts an item into the fill buffer.
    #[tactic(auto, using(crate::proofs::Admits::one_more))]
    fn put(&mut self, item: u64)
        requires item { IsItem item }
        requires room { length self.old.fill < self.old.size }
        requires few { length (kept_of self.old) < most_kept }
        ensures { self.new ≡ with_item self.old item }
    {
        if let Some(fill) = &mut self.fill {
            fill.push(item);
        }
        self.taken += 1;
    }

    // Puts those of some items that the hint keeps into the fill buffer.
    fn put_each(&mut self, items: &[u64])
        requires items { AreItems items.now }
        requires room { length self.old.fill + length items.now ≤ self.old.size }
        requires few { length (kept_of self.old) + length items.now ≤ most_kept }
        ensures { self.new ≡ with_items self.old (filter (C.keeps_of self.old.hint) items.now) }
    {
        let hint = self.hint;
        if let Some(fill) = &mut self.fill {
            self.taken += put_kept::<C>(fill, hint, items);
        }
    }

    // One look. If it gives a number other than 0, the fill buffer is handed over.
    fn hand_over(&mut self) -> bool
        requires some { self.old.fill ≢ [] }
        ensures handed { OnTrue result (HandsOver C.hint_of self.old [] self.new) }
        ensures busy { OnFalse result (LooksInVain self.old self.new) }
    {
        let hint = self.seat.look();
        if hint == 0 {
            return false;
        }
        let Some(fill) = self.fill.take() else {
            unreachable!()
        };
        let count = fill.len();
        let full = Parcel {
            buffer: fill,
            told: None,
        };
        let Parcel { buffer, told } = self.seat.swap(full);
        self.seat.hand();
        self.fill = Some(buffer);
        self.told = told;
        self.hint = hint;
        self.last = count;
        true
    }

    /// Its number in the hub. Its clauses also say what is true of every updater.
    pub fn number(&self) -> u32
        ensures value { result ≡ self.now.number }
        ensures whole { IsWholeUpdater C.hint_of self.now }
    {
        self.number
    }

    /// How many items its buffers hold at most.
    pub fn size(&self) -> u32
        ensures value { result ≡ self.now.size }
        ensures least { 1 ≤ result }
        ensures most { result ≤ most_size }
    {
        self.size
    }

    /// How many items are in the fill buffer.
    pub fn len(&self) -> u32
        ensures value { result ≡ length self.now.fill }
        ensures within { result ≤ self.now.size }
    {
        match &self.fill {
            Some(fill) => fill.len(),
            None => 0,
        }
    }

    /// By which items are filtered.
    pub fn hint(&self) -> u64
        ensures value { result ≡ self.now.hint }
        ensures hint { result ≡ C.hint_of self.now.view.numbers (base_of self.now) }
    {
        self.hint
    }

    /// How many items were kept.
    pub fn taken(&self) -> u64
        ensures value { result ≡ length (kept_of self.now) }
        ensures most { result ≤ most_kept }
    {
        self.taken
    }

    /// Whether each item that is kept is handed over immediately.
    pub fn is_eager(&self) -> bool
        ensures { result ≡ (self.now.eager && C.early_of self.now.hint) }
    {
        self.eager && C::early(self.hint)
    }

    /// What the merge of the last batch but one made known. It is given out once.
    pub fn told(&mut self) -> Option<C::Told>
        ensures news { is_some result ≡ self.old.news }
        ensures tells { (t : _) → result ≡ Some t → TellsItems (telling C.tells C.told_name C.told_of) self.old.view.name self.old.number (earlier_of self.old) t }
        ensures stays { self.new ≡ record self.old { news = false } }
    {
        self.told.take()
    }

    /// One load of the published word.
    pub fn ask(&mut self) -> u64
        ensures { IsOwnReply C.packed_of self.old result self.new }
    {
        self.seat.ask()
    }

    /// What this updater has seen, and has handed over.
    pub fn note(&mut self) -> Note<C>
        ensures stays { self.new ≡ record self.old { view = after_split self.old.view } }
        ensures note { result ≡ record { view = copy_of self.old.view; table = self.old.table } }
        ensures seen { result.view.seen ≡ self.old.view.seen }

        // It knows what this updater handed over and how large its buffers are, and that of no other.
        ensures known { known_of result.view self.old.number ≡ handed_of self.old }
        ensures others { (i : ℕ) → i ≢ self.old.number → known_of result.view i ≡ [] }
        ensures size { size_of result.view self.old.number ≡ self.old.size }
        ensures sizes { (i : ℕ) → i ≢ self.old.number → size_of result.view i ≡ 0 }
    {
        Note {
            seat: self.seat.split(),
        }
    }

    /// Knows from now on what the note knows too, and sees the published list once more.
    pub fn meet(&mut self, note: Note<C>)
        requires table { note.table ≡ self.old.table }
        ensures reply { (word : ℕ) × IsOwnReply C.packed_of (record self.old { view = after_join self.old.view note.view }) word self.new }
        ensures seen { Begins self.old.view.seen self.new.view.seen }
        ensures heard { Begins note.view.seen self.new.view.seen }
        ensures sized { length self.new.view.sizes ≡ length self.old.view.sizes }
    {
        let Note { seat: other } = note;
        let seat = &mut self.seat;
        seat.join(other);
        seat.ask();
    }

    /// Serves each updater once, unless another seat propagates. It waits in a merge only. A batch that is
    /// refused is held, and whoever propagates next finishes it first.
    pub fn help<R: Wait>(&mut self, rt: &R) -> Help
        ensures served { (count : ℕ) → result ≡ Help.Served count → Sweeps self.old.view (length self.old.view.sizes) count self.new.view }
        ensures opens { (count : ℕ) → result ≡ Help.Served count → is_open self.old.number self.new.view.steps ≡ true }
        ensures elsewhere { (other : ℕ) → result ≡ Help.Elsewhere other → IsElsewhere self.old.view other self.new.view }
        ensures refused { result ≡ Help.OutOfMemory → Refuses self.old.view 0 (length self.old.view.sizes) self.new.view }
        ensures cause { result ≡ Help.OutOfMemory → IsTrue C.TAKES_MEMORY }
        ensures turn { TriesTheTurn self.old.view self.new.view }
        ensures knows { KnowsAsMuch self.old.view self.new.view }
        ensures stays { self.new ≡ record self.old { view = self.new.view } }
    {
        match propagate(rt, &mut self.seat, 0, self.updaters) {
            Ok(Done { held, found }) => Help::Served(held + found),
            Err(Stopped::Elsewhere(other)) => Help::Elsewhere(other),
            Err(Stopped::OutOfMemory) => Help::OutOfMemory,
        }
    }
}
