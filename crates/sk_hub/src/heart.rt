//! The heart: the handle that propagates, drains updaters and admits new ones.
ghost use Rattle.sk_gate.specs.Slots.{telling};
ghost use Rattle.sk_gate.specs.Views.{known_of};
ghost use Rattle.sk_hub.specs.Drains.{IsDrained, ServesAndTakesIn, TriesInVain, ComesBack, TriesUntil, IsSettled, IsNew};
ghost use Rattle.sk_hub.specs.Hearts.{IsWholeHeart};
ghost use Rattle.sk_hub.specs.Replies.{IsRelaxedReply, HasDrained};
ghost use Rattle.sk_hub.specs.Rounds.{Serves, Sweeps, Refuses, IsElsewhere, KnowsAsMuch, TriesToServe};
ghost use Rattle.sk_hub.specs.Updaters.{TellsItems};
ghost use Rattle.sk_machine.specs.declared.views.Move.TheVariants.{Ask, Join};
ghost use Rattle.sk_model.specs.Limits.{most_size};
ghost use Rattle.sk_model.specs.Missing.{Begins};
ghost use Rattle.std.specs.Bool.{OnTrue, OnFalse};
ghost use Rattle.std.specs.Prelude.{◌≡◌, ◌≢◌, ℕ, ◌<◌, ◌≤◌, List, Contains, Some, is_some, IsTrue, slice_set, slice_index_or, false, [], ◌∷◌, ◌++◌, ◌↔◌, ◌+◌};

use crate::answers::{Admit, Drain, Flush, Serve, Settle, Sweep};
use crate::round::{Done, Stopped, propagate};
use crate::updater::Updater;
use crossbeam_utils::Backoff;
use sk_compose::{Buffer, Composable, Parcel};
use sk_gate::{HeartSeat, UpdaterSeat};
use std::alloc::Global;
use std::collections::VecDeque;
use std::marker::Model;
use std::sync::Wait;

/// The heart of a hub.
#[derive(Drop)]
pub struct Heart<C: Composable> {
    pub(crate) seat: HeartSeat<C>,
    // of the updaters that are not admitted, in number order
    pub(crate) vacant: VecDeque<UpdaterSeat<C>>,
    // for each updater the told value of its last parcel, once it is drained, until it is given out
    pub(crate) told: Vec<Option<C::Told>>,
    pub(crate) updaters: u32,
    pub(crate) admitted: u32,
    pub(crate) eager: bool,
}

impl<C: Composable> Model for Heart<C> {
    ghost use Rattle.sk_gate.specs.Slots.{telling};
    ghost use Rattle.sk_hub.specs.Hearts.{HeartState, heart_of, IsHeart};

    ghost Value = { HeartState };

    ghost view = { λ h. heart_of h.seat h.updaters h.admitted h.told.items h.eager };

    ghost invariant = { λ h. IsHeart (telling C.tells C.told_name C.told_of) h.seat h.vacant.items h.told.items h.updaters h.admitted };
}

impl<C: Composable> Heart<C> {
    /// Serves one updater, after a batch that was held. It waits in a merge only. A batch that is refused is
    /// held, and whoever propagates next finishes it first.
    pub fn serve<R: Wait>(&mut self, rt: &R, i: u32) -> Serve
        requires within { i < self.old.updaters }
        ensures nothing { result ≡ Serve.Nothing → (held : ℕ) × Serves self.old.view i 1 held 0 self.new.view }
        ensures served { (count : ℕ) → result ≡ Serve.Served count → (held : ℕ) × (found : ℕ) × (0 < found) × (count ≡ held + found)
            × Serves self.old.view i 1 held found self.new.view }
        ensures elsewhere { (other : ℕ) → result ≡ Serve.Elsewhere other → IsElsewhere self.old.view other self.new.view }
        ensures refused { result ≡ Serve.OutOfMemory → Refuses self.old.view i 1 self.new.view }
        ensures cause { result ≡ Serve.OutOfMemory → IsTrue C.TAKES_MEMORY }
        ensures knows { KnowsAsMuch self.old.view self.new.view }
        ensures stays { self.new ≡ record self.old { view = self.new.view } }
    {
        let done = match propagate(rt, &mut self.seat, i, 1) {
            Ok(done) => done,
            Err(Stopped::Elsewhere(other)) => return Serve::Elsewhere(other),
            Err(Stopped::OutOfMemory) => return Serve::OutOfMemory,
        };
        if done.found == 0 {
            return Serve::Nothing;
        }
        Serve::Served(done.held + done.found)
    }

    /// Serves each updater once, in number order, after a batch that was held.
    pub fn sweep<R: Wait>(&mut self, rt: &R) -> Sweep
        ensures swept { (count : ℕ) → result ≡ Sweep.Swept count → Sweeps self.old.view self.old.updaters count self.new.view }
        ensures elsewhere { (other : ℕ) → result ≡ Sweep.Elsewhere other → IsElsewhere self.old.view other self.new.view }
        ensures refused { result ≡ Sweep.OutOfMemory → Refuses self.old.view 0 self.old.updaters self.new.view }
        ensures cause { result ≡ Sweep.OutOfMemory → IsTrue C.TAKES_MEMORY }
        ensures knows { KnowsAsMuch self.old.view self.new.view }
        ensures stays { self.new ≡ record self.old { view = self.new.view } }
    {
        match propagate(rt, &mut self.seat, 0, self.updaters) {
            Ok(Done { held, found }) => Sweep::Swept(held + found),
            Err(Stopped::Elsewhere(other)) => Sweep::Elsewhere(other),
            Err(Stopped::OutOfMemory) => Sweep::OutOfMemory,
        }
    }

    /// One load of the published word.
    pub fn ask(&mut self) -> u64
        ensures reply { IsRelaxedReply C.packed_of self.old.view result self.new.view }
        ensures drained { HasDrained self.old.view self.new.view }
        ensures stays { self.new ≡ record self.old { view = self.new.view } }
    {
        self.seat.ask()
    }

    /// How many updaters were admitted. Its clauses also say what is true of every heart.
    pub fn admitted(&self) -> u32
        ensures value { result ≡ self.now.admitted }
        ensures whole { IsWholeHeart self.now }
    {
        self.admitted
    }

    /// What the merge of the last batch of a drained updater made known. It is given out once.
    pub fn told(&mut self, i: u32) -> Option<C::Told>
        requires within { i < self.old.updaters }
        requires drained { Contains self.old.view.drained i }
        ensures news { is_some result ≡ slice_index_or self.old.news i false }
        ensures tells { (t : _) → result ≡ Some t → TellsItems (telling C.tells C.told_name C.told_of) self.old.view.name i (known_of self.old.view i) t }
        ensures stays { self.new ≡ record self.old { news = slice_set self.old.news i false } }
    {
        self.told[i as usize].take()
    }

    /// Takes in an updater, once all that it has kept is published. If another seat propagates, it waits
    /// and tries again.
    pub fn drain<R: Wait>(&mut self, rt: &R, u: Updater<C>) -> Drain<C>
        requires table { u.table ≡ self.old.table }
        ensures drained { result ≡ Drain.Drained → IsDrained self.old u self.new }
        ensures served { result ≡ Drain.Drained → ServesAndTakesIn u.number self.old.view self.new.view }
        ensures seen { Begins self.old.view.seen self.new.view.seen }

        // A batch that is refused is held, as after `serve`.
        ensures refused { (u' : _) → result ≡ Drain.OutOfMemory u' → TriesInVain u.number self.old.view self.new.view }
        ensures back { (u' : _) → result ≡ Drain.OutOfMemory u' → ComesBack u u' }
        ensures stays { (u' : _) → result ≡ Drain.OutOfMemory u' → self.new ≡ record self.old { view = self.new.view } }
        ensures known { (u' : _) → result ≡ Drain.OutOfMemory u' → KnowsAsMuch self.old.view self.new.view }
        ensures cause { (u' : _) → result ≡ Drain.OutOfMemory u' → IsTrue C.TAKES_MEMORY }
    {
        let mut u = u;
        if !self.flush_all(rt, &mut u) {
            return Drain::OutOfMemory(u);
        }
        if !self.settle_all(rt, &mut u) {
            return Drain::OutOfMemory(u);
        }
        self.take_in(u);
        Drain::Drained
    }

    // Serves an updater, unless it runs out of memory. If another seat propagates, it waits a moment.
    fn serve_for<R: Wait>(&mut self, rt: &R, u: &Updater<C>, backoff: &Backoff) -> bool
        requires table { u.now.table ≡ self.old.table }
        ensures tries { OnTrue result (TriesToServe u.now.number self.old.view self.new.view) }
        ensures refused { OnFalse result (Refuses self.old.view u.now.number 1 self.new.view) }
        ensures known { KnowsAsMuch self.old.view self.new.view }
        ensures cause { OnFalse result (IsTrue C.TAKES_MEMORY) }
        ensures stays { self.new ≡ record self.old { view = self.new.view } }
    {
        // One table has one number of updaters.
        prove!(u.number < self.updaters);
        match self.serve(rt, u.number) {
            Serve::OutOfMemory => false,
            Serve::Nothing => true,
            Serve::Served(_) => true,
            Serve::Elsewhere(_) => {
                backoff.snooze();
                true
            }
        }
    }

    // Serves and flushes the updater until its buffer is empty.
    fn flush_all<R: Wait>(&mut self, rt: &R, u: &mut Updater<C>) -> bool
        requires table { u.old.table ≡ self.old.table }
        ensures tries { TriesUntil result self.old u.old self.new u.new }
        ensures empty { OnTrue result (u.new.fill ≡ []) }
        ensures cause { OnFalse result (IsTrue C.TAKES_MEMORY) }
    {
        let backoff = Backoff::new();
        'flush: for _ in rt.forever() {
            if !self.serve_for(rt, u, &backoff) {
                return false;
            }
            match u.flush() {
                Flush::Busy => {}
                Flush::Empty | Flush::Handed => return true,
            }
        }
        unreachable!()
    }

    // Serves and settles the updater until all that it handed over is published.
    fn settle_all<R: Wait>(&mut self, rt: &R, u: &mut Updater<C>) -> bool
        requires table { u.old.table ≡ self.old.table }
        requires empty { u.old.fill ≡ [] }
        ensures tries { TriesUntil result self.old u.old self.new u.new }
        ensures settled { OnTrue result (IsSettled u.new) }
        ensures cause { OnFalse result (IsTrue C.TAKES_MEMORY) }
    {
        let backoff = Backoff::new();
        'settle: for _ in rt.forever() {
            if !self.serve_for(rt, u, &backoff) {
                return false;
            }
            match u.settle() {
                Settle::Busy => {}
                Settle::Settled => return true,
            }
        }
        unreachable!()
    }

    // Takes in the seat of an updater, and the told value of its last parcel.
    fn take_in(&mut self, u: Updater<C>)
        requires table { u.table ≡ self.old.table }
        requires settled { IsSettled u }
        ensures drained { IsDrained self.old u self.new }
        ensures steps { (word : ℕ) × (self.new.view.steps ≡ self.old.view.steps ++ Join ∷ Ask word ∷ []) }
        ensures seen { Begins self.old.view.seen self.new.view.seen }
    {
        let Updater {
            seat,
            number,
            updaters: _,
            size: _,
            fill,
            told: _,
            hint: _,
            taken: _,
            last: _,
            eager: _,
        } = u;
        let mut seat = seat;
        let Some(buffer) = fill else { unreachable!() };
        let empty = Parcel { buffer, told: None };
        let Parcel { buffer: _, told } = seat.pick(empty);
        self.told[number as usize] = told;
        self.seat.join(seat);
        // An ask shows that the published list has all that both had seen, and that the sketch is one.
        self.seat.ask();
    }

    /// Admits the next updater, with buffers of b items, from 1 to 4,096.
    pub fn admit(&mut self, alloc: Global, b: u32) -> Admit<C>
        requires least { 1 ≤ b }
        requires most { b ≤ most_size }
        ensures full { (result ≡ Admit.Full) ↔ (self.old.admitted ≡ self.old.updaters) }
        ensures admitted { (u : _) → result ≡ Admit.Admitted u → IsNew C.hint_of self.old.admitted b self.old u }
        ensures count { (u : _) → result ≡ Admit.Admitted u → self.new ≡ record self.old { admitted = self.old.admitted + 1 } }
        ensures unchanged { result ≡ Admit.Full → self.new ≡ self.old }
        ensures refused { result ≡ Admit.OutOfMemory → self.new ≡ self.old }
    {
        if self.admitted == self.updaters {
            return Admit::Full;
        }
        let (Ok(fill), Ok(empty)) = (Buffer::new(alloc, b), Buffer::new(alloc, b)) else {
            return Admit::OutOfMemory;
        };
        let Some(seat) = self.vacant.pop_front() else {
            return Admit::Full;
        };
        let mut seat = seat;
        let hint = seat.admit(b);
        seat.pick(Parcel {
            buffer: empty,
            told: None,
        });
        let number = self.admitted;
        self.admitted += 1;
        Admit::Admitted(Updater {
            seat,
            number,
            updaters: self.updaters,
            size: b,
            fill: Some(fill),
            told: None,
            hint,
            taken: 0,
            last: 0,
            eager: self.eager,
        })
    }
}
