//! The running interval, and the closed ones before it.
ghost use Rattle.std.specs.Prelude.{◌≡◌, ◌+◌, ◌-◌, ◌/◌, ◌<◌, ◌≤◌, ◌++◌, ◌∷◌, ◌⊎◌, [], List, ℕ, All, length, replicate, IfOk, OnOk, OnErr};
ghost use Rattle.sk_hub.specs.Updaters.{UpdaterState};
ghost use Rattle.sk_snap.specs.History.{name_of, entries_in};
ghost use Rattle.sk_snap.specs.Versions.{items_in};
ghost use Rattle.sk_learn.specs.Closing.{AreApart};
ghost use Rattle.sk_learn.specs.Learning.{ReaderGoesOn, LearnsFirst, AreAsked};
ghost use Rattle.sk_window.specs.Frames.{IsFrame};
ghost use Rattle.sk_window.specs.Hubs.{IsFresh};
ghost use Rattle.sk_window.specs.Intervals.{StandForEach, IsReplyOf, IsEmptySketch, all_items, with_skipped};
ghost use Rattle.sk_window.specs.Panes.{HasTaken, Closes, Moves, StopsAtDrain, StopsBefore};

use crate::answers::{Advance, Finish, Started, Updaters};
use crate::frame::Frame;
use crate::hub::{Hub, open_hub};
use crate::joins::join_each;
use crate::room::{Room, cleared, new_room};
use crate::sketches::{empty_sketches, replace_oldest, reply_of, skip};
use circular_buffer::HeapCircularBuffer;
use sk_heap::HeapTheta;
use sk_hub::{Heart, Updater};
use sk_learn::{learn_all, read_whole, take_in_all};
use sk_model::OutOfMemory;
use sk_snap::{JoinInto, ThetaReader, VersionedTheta};
use sk_theta::{ITEM_END, Reply, Shape};
use std::alloc::Global;
use std::marker::Model;
use std::mem::replace;
use std::sync::Wait;

/// Distinct counts over the last intervals: a hub for the running one, and a sketch for each closed one.
#[derive(Drop)]
pub struct Panes<'r, R: Wait> {
    rt: &'r R,
    alloc: Global,
    shape: Shape,
    frame: Frame,
    running: u64,
    heart: Heart<VersionedTheta<&'r R>>,
    reader: ThetaReader,
    // How many items the updaters kept that were taken in.
    taken: u64,
    // Oldest first, one fewer than a reply is of.
    closed: HeapCircularBuffer<HeapTheta>,
    // A little above theta of the closed ones when they were last joined. The next join begins with what is below.
    bound: u64,
    // Their memory is taken before the running one is closed, and kept if that runs out of memory.
    next: Option<Hub<'r, R>>,
    room: Option<Room>,
}

impl<'r, R: Wait> Model for Panes<'r, R> {
    ghost use Rattle.std.specs.Prelude.{◌≡◌, Some, length};
    ghost use Rattle.sk_window.specs.Hubs.{IsFresh};
    ghost use Rattle.sk_window.specs.Panes.{PanesState, IsPanes};

    ghost Value = { PanesState };

    ghost view = { λ p. record {
      frame = p.frame;
      shape = p.shape;
      running = p.running;
      heart = p.heart;
      learnt = p.reader;
      taken = p.taken;
      closed = p.closed.items;
    } };

    ghost invariant = { λ p. IsPanes (record {
      frame = p.frame;
      shape = p.shape;
      running = p.running;
      heart = p.heart;
      learnt = p.reader;
      taken = p.taken;
      closed = p.closed.items;
    }) × (p.closed.capacity ≡ length p.closed.items)
        × ((hub : _) → p.next ≡ Some hub → IsFresh p.shape hub.heart hub.updaters.items hub.reader)
        × ((room : _) → p.room ≡ Some room → (room.pane.k ≡ p.shape.k) × (room.closed.k ≡ p.shape.k)) };
}

impl<'r, R: Wait> Panes<'r, R> {
    /// Interval 0 runs, and no item was kept.
    pub fn new(
        rt: &'r R,
        alloc: Global,
        shape: Shape,
        frame: Frame,
    ) -> Result<Started<'r, R>, OutOfMemory>
        requires frame { IsFrame frame }
        ensures frame { IfOk result (λ started. started.panes.frame ≡ frame) }
        ensures shape { IfOk result (λ started. started.panes.shape ≡ shape) }
        ensures running { IfOk result (λ started. started.panes.running ≡ 0) }
        ensures fresh { IfOk result (λ started. IsFresh shape started.panes.heart started.updaters.items started.panes.learnt) }
        ensures taken { IfOk result (λ started. HasTaken started.panes []) }
        ensures closed { IfOk result (λ started. StandForEach shape.k started.panes.closed (replicate (frame.last - 1) [])) }
    {
        let Hub {
            heart,
            updaters,
            reader,
        } = open_hub(rt, alloc, &shape)?;
        let closed = empty_sketches(alloc, shape.k(), frame.last - 1)?;
        let panes = Panes {
            rt,
            alloc,
            shape,
            frame,
            running: 0,
            heart,
            reader,
            taken: 0,
            closed,
            bound: ITEM_END,
            next: None,
            room: None,
        };
        Ok(Started { panes, updaters })
    }

    /// The interval that runs.
    pub fn running(&self) -> u64
        ensures value { result ≡ self.now.running }
    {
        self.running
    }

    /// Learns the told value of each updater that holds one, in order. A later reply lacks at most two buffers of what such
    /// an updater had kept by then (`laws::replies_lack_two_buffers`).
    pub fn learn(&mut self, updaters: &mut [Updater<VersionedTheta<&'r R>>])
        requires names { All (λ (u : UpdaterState). u.view.name ≡ name_of self.old.learnt.known.book) updaters.old }
        ensures learns { LearnsFirst self.old.learnt updaters.old (length updaters.old) self.new.learnt }
        ensures asked { AreAsked updaters.old (length updaters.old) updaters.new }
        ensures stays { self.new ≡ record self.old { learnt = self.new.learnt } }
    {
        learn_all(&mut self.reader, updaters);
    }

    /// The count and theta of the closed intervals' items and of a list of the running one that begins with all that was
    /// learnt and read.
    pub fn reply(&mut self) -> Result<Reply, OutOfMemory>
        ensures reply { (lists : List (List ℕ)) → StandForEach self.old.shape.k self.old.closed lists
            → IfOk result (λ reply. IsReplyOf self.old.shape.k (all_items lists ++ items_in self.new.learnt.known) reply) }
        ensures goes { ReaderGoesOn self.old.learnt self.new.learnt }
        ensures stays { self.new ≡ record self.old { learnt = self.new.learnt } }
    {
        let Room { mut pane, closed } = self.take_room()?;
        join_each(&mut pane, &self.closed, self.bound);
        self.bound = bound_above(pane.theta());
        let (pane, _count) = self.reader.read(self.rt, JoinInto { sketch: pane });
        let reply = reply_of(&pane);
        self.room = Some(Room { pane, closed });
        Ok(reply)
    }

    // The memory that was kept, or else new memory.
    fn take_room(&mut self) -> Result<Room, OutOfMemory>
        ensures pane { IfOk result (λ room. IsEmptySketch self.old.shape.k room.pane) }
        ensures closed { IfOk result (λ room. IsEmptySketch self.old.shape.k room.closed) }
        ensures stays { self.new ≡ self.old }
    {
        match self.room.take() {
            Some(room) => Ok(cleared(room)),
            None => new_room(self.alloc, self.shape.k()),
        }
    }

    // Takes in the updaters of the running interval. If that runs out of memory, those that were not taken in are left, in
    // order.
    fn take_in(&mut self, updaters: &mut Updaters<'r, R>) -> Result<(), OutOfMemory>
        requires tables { All (λ (u : UpdaterState). u.table ≡ self.old.heart.table) updaters.old.items }
        requires apart { AreApart updaters.old.items }
        ensures takes { (before : List UpdaterState) → HasTaken self.old before → OnOk result (HasTaken self.new (before ++ updaters.old.items)) }
        ensures early { (before : List UpdaterState) → HasTaken self.old before → OnErr result (StopsAtDrain self.old before updaters.old.items updaters.new.items self.new) }
        ensures none { OnOk result (updaters.new.items ≡ []) }
        ensures stays { self.new ≡ record self.old { heart = self.new.heart; learnt = self.new.learnt; taken = self.new.taken } }
    {
        take_in_all(
            self.rt,
            &mut self.heart,
            updaters,
            &mut self.reader,
            &mut self.taken,
        )
    }

    // Closes the running interval, of which all updaters were taken in, with memory for it.
    fn close_over(&mut self, room: Room) -> Reply
        requires pane { IsEmptySketch self.old.shape.k room.pane }
        requires closed { IsEmptySketch self.old.shape.k room.closed }
        ensures closes { (us : List UpdaterState) (lists : List (List ℕ)) → HasTaken self.old us → AreApart us
            → StandForEach self.old.shape.k self.old.closed lists → Closes self.old us lists result self.new }
        ensures stays { self.new ≡ record self.old { learnt = self.new.learnt; closed = self.new.closed } }
    {
        let Room { mut pane, closed } = room;
        let query = JoinInto { sketch: closed };
        let (sketch, _count) = read_whole(self.rt, &mut self.reader, query, self.taken);
        join_each(&mut pane, &self.closed, self.bound);
        self.bound = bound_above(pane.theta());
        pane.join(&sketch);
        let reply = reply_of(&pane);
        // The memory of the oldest interval, which is gone, is for the next end.
        let closed = replace_oldest(&mut self.closed, sketch);
        self.room = Some(Room { pane, closed });
        reply
    }

    // Takes in the updaters of the running interval, and closes it. If that runs out of memory, those that were not taken
    // in are left, in order, and memory for the end is kept.
    fn close(&mut self, updaters: &mut Updaters<'r, R>) -> Result<Reply, OutOfMemory>
        requires tables { All (λ (u : UpdaterState). u.table ≡ self.old.heart.table) updaters.old.items }
        requires apart { AreApart updaters.old.items }
        ensures closes { (before : List UpdaterState) (lists : List (List ℕ)) → HasTaken self.old before → AreApart (before ++ updaters.old.items)
            → StandForEach self.old.shape.k self.old.closed lists → IfOk result (λ reply. Closes self.old (before ++ updaters.old.items) lists reply self.new) }
        ensures early { (before : List UpdaterState) → HasTaken self.old before → OnErr result (StopsBefore self.old before updaters.old.items updaters.new.items self.new) }
        ensures none { OnOk result (updaters.new.items ≡ []) }
        ensures unclosed { OnErr result (self.new.closed ≡ self.old.closed) }
        ensures stays { self.new ≡ record self.old { heart = self.new.heart; learnt = self.new.learnt; taken = self.new.taken; closed = self.new.closed } }
    {
        // All memory that the end takes is taken first.
        let room = self.take_room()?;
        match self.take_in(updaters) {
            Ok(()) => Ok(self.close_over(room)),
            Err(OutOfMemory) => {
                self.room = Some(room);
                Err(OutOfMemory)
            }
        }
    }

    // The next hub: the one that was kept, or else a new one.
    fn take_next(&mut self) -> Result<Hub<'r, R>, OutOfMemory>
        ensures fresh { IfOk result (λ hub. IsFresh self.old.shape hub.heart hub.updaters.items hub.reader) }
        ensures stays { self.new ≡ self.old }
    {
        match self.next.take() {
            Some(hub) => Ok(hub),
            None => open_hub(self.rt, self.alloc, &self.shape),
        }
    }

    // Continues in a later interval, with the next hub.
    fn move_to(&mut self, interval: u64, next: Hub<'r, R>) -> Updaters<'r, R>
        requires later { self.old.running < interval }
        requires fresh { IsFresh self.old.shape next.heart next.updaters.items next.reader }
        ensures fresh { IsFresh self.old.shape self.new.heart result.items self.new.learnt }
        ensures taken { HasTaken self.new [] }
        ensures closed { (lists : List (List ℕ)) → StandForEach self.old.shape.k self.old.closed lists
            → StandForEach self.old.shape.k self.new.closed (with_skipped lists (interval - self.old.running - 1)) }
        ensures running { self.new.running ≡ interval }
        ensures frame { self.new.frame ≡ self.old.frame }
        ensures shape { self.new.shape ≡ self.old.shape }
    {
        skip(&mut self.closed, interval - self.running - 1);
        let Hub {
            heart,
            updaters,
            reader,
        } = next;
        let _heart = replace(&mut self.heart, heart);
        let _reader = replace(&mut self.reader, reader);
        self.taken = 0;
        self.running = interval;
        updaters
    }

    // Closes the running interval, and continues in a later one. If that runs out of memory, the next hub is kept.
    fn close_and_move(
        &mut self,
        interval: u64,
        updaters: &mut Updaters<'r, R>,
    ) -> Result<(Reply, Updaters<'r, R>), OutOfMemory>
        requires later { self.old.running < interval }
        requires tables { All (λ (u : UpdaterState). u.table ≡ self.old.heart.table) updaters.old.items }
        requires apart { AreApart updaters.old.items }
        ensures moves { (before : List UpdaterState) (lists : List (List ℕ)) → HasTaken self.old before → AreApart (before ++ updaters.old.items)
            → StandForEach self.old.shape.k self.old.closed lists → IfOk result (λ made. Moves self.old interval (before ++ updaters.old.items) lists made.0 made.1.items self.new) }
        ensures early { (before : List UpdaterState) → HasTaken self.old before → OnErr result (StopsBefore self.old before updaters.old.items updaters.new.items self.new) }
        ensures frame { self.new.frame ≡ self.old.frame }
        ensures shape { self.new.shape ≡ self.old.shape }
    {
        let next = self.take_next()?;
        match self.close(updaters) {
            Ok(reply) => Ok((reply, self.move_to(interval, next))),
            Err(OutOfMemory) => {
                self.next = Some(next);
                Err(OutOfMemory)
            }
        }
    }

    /// Comes to a moment, with all updaters of the running interval that were not taken in. If it lies in a later one, the
    /// running one is closed, those that are skipped are closed empty, and a new hub runs.
    pub fn advance(&mut self, moment: u64, updaters: Updaters<'r, R>) -> Advance<'r, R>
        requires tables { All (λ (u : UpdaterState). u.table ≡ self.old.heart.table) updaters.items }
        requires apart { AreApart updaters.items }
        ensures same { (us : _) → result ≡ Advance.Same us → (moment / self.old.frame.span ≡ self.old.running) × (us ≡ updaters.entry) × (self.new ≡ self.old) }
        ensures back { (us : _) → result ≡ Advance.Back us → (moment / self.old.frame.span < self.old.running) × (us ≡ updaters.entry) × (self.new ≡ self.old) }
        ensures moved { (reply : _) (us : _) → result ≡ Advance.Moved reply us → (self.old.running < moment / self.old.frame.span)
            × ((before : List UpdaterState) (lists : List (List ℕ)) → HasTaken self.old before → AreApart (before ++ updaters.entry.items)
            → StandForEach self.old.shape.k self.old.closed lists → Moves self.old (moment / self.old.frame.span) (before ++ updaters.entry.items) lists reply us.items self.new) }
        ensures stopped { (us : _) → result ≡ Advance.OutOfMemory us → (self.old.running < moment / self.old.frame.span)
            × ((before : List UpdaterState) → HasTaken self.old before → StopsBefore self.old before updaters.entry.items us.items self.new) }
        ensures frame { self.new.frame ≡ self.old.frame }
        ensures shape { self.new.shape ≡ self.old.shape }
    {
        let interval = self.frame.interval(moment);
        if interval == self.running {
            return Advance::Same(updaters);
        }
        if interval < self.running {
            return Advance::Back(updaters);
        }
        let mut updaters = updaters;
        match self.close_and_move(interval, &mut updaters) {
            Ok((reply, next)) => Advance::Moved(reply, next),
            Err(OutOfMemory) => Advance::OutOfMemory(updaters),
        }
    }

    /// Closes the last interval, with all its updaters that were not taken in. Once it is done, only `running` is asked.
    pub fn finish(&mut self, updaters: Updaters<'r, R>) -> Finish<'r, R>
        requires tables { All (λ (u : UpdaterState). u.table ≡ self.old.heart.table) updaters.items }
        requires apart { AreApart updaters.items }
        ensures done { (reply : _) → result ≡ Finish.Done reply → (before : List UpdaterState) (lists : List (List ℕ)) → HasTaken self.old before
            → AreApart (before ++ updaters.entry.items) → StandForEach self.old.shape.k self.old.closed lists → Closes self.old (before ++ updaters.entry.items) lists reply self.new }
        ensures stopped { (us : _) → result ≡ Finish.OutOfMemory us
            → (before : List UpdaterState) → HasTaken self.old before → StopsBefore self.old before updaters.entry.items us.items self.new }
        ensures running { self.new.running ≡ self.old.running }
    {
        let mut updaters = updaters;
        match self.close(&mut updaters) {
            Ok(reply) => Finish::Done(reply),
            Err(OutOfMemory) => Finish::OutOfMemory(updaters),
        }
    }
}

// An eighth above theta. If theta rises by more until the next join, that one looks at all hashes a second time.
fn bound_above(theta: u64) -> u64 {
    theta.saturating_add(theta / 8)
}
