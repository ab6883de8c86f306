//! An updater, with its buffers.
ghost use Rattle.std.specs.Prelude.{◌≡◌, ◌+◌, ◌^◌, ◌<◌, ◌≤◌, [], ◌∷◌, ◌++◌, length, IfOk, nat_lt, true, false, vec_capacity};
ghost use Rattle.sk_machine.specs.declared.states.Mark.TheVariants.{Neither, Ready, Swapped};
ghost use Rattle.sk_core.specs.Stored.{StoredUpdater};
ghost use Rattle.sk_model.specs.Width.{item_end};
ghost use Rattle.sk_model.specs.Limits.{most_size};

use sk_machine::Mark;
use sk_model::{OutOfMemory, limits};
use sk_theta::ITEM_END;
use std::alloc::Global;
use std::marker::Model;

/// The most items of a buffer, as a length.
pub const MOST_SIZE: usize = limits::MOST_SIZE as usize;

#[derive(Drop)]
pub struct Updater {
    size: usize,
    hint: u64,
    fill: Vec<u64>,
    word: u64,
    slot: Vec<u64>,
    home: bool,
    mark: Mark,
    handed: usize,
    given: usize,
    base: usize,
}

impl Model for Updater {
    ghost use Rattle.sk_model.specs.Limits.{most_size};
    ghost use Rattle.std.specs.Prelude.{◌≤◌, vec_capacity};
    ghost use Rattle.sk_core.specs.Stored.{StoredUpdater};

    ghost Value = { StoredUpdater };

    ghost view = { λ u. record { size = u.size; hint = u.hint; fill = u.fill.items; word = u.word; slot = u.slot.items; home = u.home; mark = u.mark; handed = u.handed; given = u.given; base = u.base } };

    ghost invariant = { λ u. (u.size ≤ most_size) × (most_size ≤ vec_capacity u.fill) × (most_size ≤ vec_capacity u.slot) };
}

impl Updater {
    // One that has done nothing. All its memory is taken here.
    pub fn new(alloc: Global, size: usize) -> Result<Updater, OutOfMemory>
        requires { size ≤ most_size }
        ensures { IfOk result (λ u. u ≡ record { size = size; hint = item_end; fill = []; word = item_end; slot = []; home = true; mark = Neither; handed = 0; given = 0; base = 0 }) }
    {
        Ok(Updater {
            size,
            hint: ITEM_END,
            fill: Vec::with_capacity(alloc, MOST_SIZE)?,
            word: ITEM_END,
            slot: Vec::with_capacity(alloc, MOST_SIZE)?,
            home: true,
            mark: Mark::Neither,
            handed: 0,
            given: 0,
            base: 0,
        })
    }

    pub fn size(&self) -> usize
        ensures value { result ≡ self.now.size }
        ensures most { result ≤ most_size }
    {
        self.size
    }

    // Whether the hint keeps the item.
    pub fn keeps(&self, item: u64) -> bool
        ensures { result ≡ nat_lt item self.now.hint }
    {
        item < self.hint
    }

    pub fn word(&self) -> u64
        ensures { result ≡ self.now.word }
    {
        self.word
    }

    pub fn mark(&self) -> Mark
        ensures { result ≡ self.now.mark }
    {
        self.mark
    }

    pub fn handed(&self) -> usize
        ensures { result ≡ self.now.handed }
    {
        self.handed
    }

    pub fn fill_len(&self) -> usize
        ensures { result ≡ length self.now.fill }
    {
        self.fill.len()
    }

    pub fn slot_len(&self) -> usize
        ensures { result ≡ length self.now.slot }
    {
        self.slot.len()
    }

    // Puts an item into the fill buffer.
    pub fn push(&mut self, item: u64)
        requires { length self.old.fill < self.old.size }
        ensures { self.new ≡ record self.old { fill = self.old.fill ++ item ∷ [] } }
    {
        self.fill.push(item).unwrap();
    }

    // Takes its word as its hint.
    pub fn renew(&mut self)
        ensures { self.new ≡ record self.old { hint = self.old.word; base = self.old.given; mark = Ready } }
    {
        self.hint = self.word;
        self.base = self.given;
        self.mark = Mark::Ready;
    }

    // Exchanges its fill buffer with what lies in its slot.
    pub fn swap(&mut self)
        ensures { self.new ≡ record self.old { fill = self.old.slot; slot = self.old.fill; mark = Swapped } }
    {
        std::mem::swap(&mut self.fill, &mut self.slot);
        self.mark = Mark::Swapped;
    }

    // Hands over what lies in its slot.
    pub fn hand(&mut self)
        requires { self.old.handed + length self.old.slot < 2 ^ 64 }
        ensures { self.new ≡ record self.old { word = 0; mark = Neither; handed = self.old.handed + length self.old.slot } }
    {
        self.word = 0;
        self.mark = Mark::Neither;
        self.handed += self.slot.len();
    }

    // The slot's batch goes out of it, into `batch`.
    pub fn take(&mut self, batch: &mut Vec<u64>)
        requires { most_size ≤ vec_capacity batch.old }
        ensures updater { self.new ≡ record self.old { slot = []; home = false } }
        ensures batch { batch.new.items ≡ self.old.slot }
        ensures room { most_size ≤ vec_capacity batch.new }
    {
        batch.clear();
        std::mem::swap(&mut self.slot, batch);
        self.home = false;
    }

    // An empty list comes into its slot.
    pub fn put(&mut self)
        ensures { self.new ≡ record self.old { slot = []; home = true } }
    {
        self.slot.clear();
        self.home = true;
    }

    // Its word becomes the hint of this many published entries.
    pub fn give_back(&mut self, word: u64, given: usize)
        ensures { self.new ≡ record self.old { word = word; given = given } }
    {
        self.word = word;
        self.given = given;
    }

    pub fn admit(&mut self, size: usize)
        requires { size ≤ most_size }
        ensures { self.new ≡ record self.old { size = size } }
    {
        self.size = size;
    }
}
