//! A taker that is fed the stretches that come for it through a ring.
ghost use Rattle.std.specs.Prelude.{◌≡◌, ℕ, ◌+◌, ◌<◌, ◌≤◌, [], length, OnOk, OnErr, IfOk, IsTrue};
ghost use Rattle.rtrb.specs.Ring.{sent, received, IsPair, SameConsumer};
ghost use Rattle.sk_fill.specs.Windows.{all_lines};
ghost use Rattle.sk_feed.specs.Deliveries.{IsNext, IsUpTo, HasFed, IsOpen};
ghost use Rattle.sk_feed.specs.Takings.{TakesOn};
ghost use Rattle.sk_model.specs.Limits.{most_updaters, most_kept};

use crate::crew::Crew;
use crate::delivery::{Delivery, InOrder, Inlet, Outlet};
use crate::taking::TakesStretches;
use crossbeam_utils::Backoff;
use rtrb::RingBuffer;
use sk_model::OutOfMemory;
use sk_read::Kind;
use std::alloc::Global;
use std::sync::Wait;

/// At most this many stretches are given at a time. A ring has room for all of them, so that nobody waits for room.
pub const MOST_GIVEN: usize = 8;

/// What takes stretches, and the ring through which they come for it.
#[derive(Drop)]
pub struct Lane<T: TakesStretches> {
    /// What takes them.
    pub taker: T,
    /// The end of its ring where stretches come.
    pub inlet: Inlet,
    /// Whether memory was found so far.
    pub fed: Result<(), OutOfMemory>,
}

impl<T: TakesStretches> Lane<T> {
    /// A lane, and the other end of its ring, to which a first stretch was given. An error comes only when out of memory.
    pub fn open(alloc: Global, taker: T, first: &Delivery) -> Result<(Lane<T>, Outlet), OutOfMemory>
        requires next { IsNext [] first.now }
        requires few { T.keeps_at_most taker first.now.first }
        ensures taker { IfOk result (λ r. r.0.taker ≡ taker) }
        ensures open { IfOk result (λ r. IsOpen T.keeps_at_most first.now r.1 r.0.inlet r.0.taker) }
        ensures fed { IfOk result (λ r. OnOk r.0.fed Unit) }
    {
        let (mut outlet, mut inlet) = RingBuffer::with_protocol::<Global, InOrder>(
            alloc, MOST_GIVEN,
        )?;
        outlet.push_reserved(first.share()?);
        // It shows the proof that the first stretch comes first.
        inlet.slots_beside(&mut outlet);
        Ok((
            Lane {
                taker,
                inlet,
                fed: Ok(()),
            },
            outlet,
        ))
    }

    /// Takes, as number i of n, what comes, until nothing more does or the taker ends. The reader learns that it ended.
    pub fn run<R: Wait>(&mut self, rt: &R, crew: &Crew, kind: Kind, i: usize, n: usize)
        requires few { n ≤ most_updaters }
        requires within { i < n }
        requires behind { IsUpTo T.keeps_at_most self.old.inlet self.old.taker }
        ensures ring { SameConsumer self.old.inlet self.new.inlet }
        ensures taken { OnOk self.new.fed (HasFed (T.took kind i n) T.keeps_at_most self.old.inlet self.old.taker self.new.inlet self.new.taker) }
        ensures cause { OnErr self.new.fed (IsTrue T.TAKES_MEMORY) }
    {
        crew.begin();
        self.fed = feed_deliveries(rt, &mut self.taker, &mut self.inlet, crew, kind, i, n);
        crew.leave();
    }

    /// Takes what is left, once nothing more is given.
    pub fn finish<R: Wait>(
        &mut self,
        rt: &R,
        outlet: &mut Outlet,
        kind: Kind,
        i: usize,
        n: usize,
    ) -> Result<(), OutOfMemory>
        requires few { n ≤ most_updaters }
        requires within { i < n }
        requires pair { IsPair outlet.old self.old.inlet }
        requires behind { IsUpTo T.keeps_at_most self.old.inlet self.old.taker }
        ensures taken { OnOk result (HasFed (T.took kind i n) T.keeps_at_most self.old.inlet self.old.taker self.new.inlet self.new.taker) }
        ensures all { OnOk result (received self.new.inlet ≡ sent outlet.old) }
        ensures cause { OnErr result (IsTrue T.TAKES_MEMORY) }
    {
        feed_rest(rt, &mut self.taker, &mut self.inlet, outlet, kind, i, n)
    }
}

// Gives a taker the stretches that come, until nothing more does or it ends.
fn feed_deliveries<T: TakesStretches, R: Wait>(
    rt: &R,
    taker: &mut T,
    inlet: &mut Inlet,
    crew: &Crew,
    kind: Kind,
    i: usize,
    n: usize,
) -> Result<(), OutOfMemory>
    requires few { n ≤ most_updaters }
    requires within { i < n }
    requires behind { IsUpTo T.keeps_at_most inlet.old taker.old }
    ensures ring { SameConsumer inlet.old inlet.new }
    ensures taken { OnOk result (HasFed (T.took kind i n) T.keeps_at_most inlet.old taker.old inlet.new taker.new) }
    ensures cause { OnErr result (IsTrue T.TAKES_MEMORY) }
{
    let backoff = Backoff::new();
    'delivery: for _ in rt.forever() {
        let ended = crew.has_ended();
        match inlet.pop() {
            Ok(delivery) => {
                if !take_delivery(rt, taker, delivery, kind, i, n)? {
                    return Ok(());
                }
                crew.wake_reader();
                backoff.reset();
            }
            Err(_) => {
                if ended {
                    return Ok(());
                }
                crew.wait_for_reader(rt, i, &backoff);
            }
        }
    }
    unreachable!()
}

// Gives a taker what is left in a ring to which nothing more is given.
fn feed_rest<T: TakesStretches, R: Wait>(
    rt: &R,
    taker: &mut T,
    inlet: &mut Inlet,
    outlet: &mut Outlet,
    kind: Kind,
    i: usize,
    n: usize,
) -> Result<(), OutOfMemory>
    requires pair { IsPair outlet.old inlet.old }
    requires behind { IsUpTo T.keeps_at_most inlet.old taker.old }
    requires few { n ≤ most_updaters }
    requires within { i < n }
    ensures taken { OnOk result (HasFed (T.took kind i n) T.keeps_at_most inlet.old taker.old inlet.new taker.new) }
    ensures all { OnOk result (received inlet.new ≡ sent outlet.old) }
    ensures cause { OnErr result (IsTrue T.TAKES_MEMORY) }
{
    let left = inlet.slots_beside(outlet);
    'rest: for _ in 0..left {
        let delivery = inlet.pop_known();
        take_delivery(rt, taker, delivery, kind, i, n)?;
    }
    Ok(())
}

// Gives a taker the windows of a stretch, which is let go then.
fn take_delivery<T: TakesStretches, R: Wait>(
    rt: &R,
    taker: &mut T,
    delivery: Delivery,
    kind: Kind,
    i: usize,
    n: usize,
) -> Result<bool, OutOfMemory>
    requires few { n ≤ most_updaters }
    requires within { i < n }
    requires room { (count : ℕ) × T.keeps_at_most taker.old count × (count + length (all_lines delivery.windows) ≤ most_kept) }
    ensures took { OnOk result (TakesOn (T.took kind i n) taker.old delivery.windows taker.new) }
    ensures kept { OnOk result ((count : ℕ) → T.keeps_at_most taker.old count → T.keeps_at_most taker.new (count + length (all_lines delivery.windows))) }
    ensures cause { OnErr result (IsTrue T.TAKES_MEMORY) }
{
    taker.take(rt, delivery.windows(), kind, i, n)
}
