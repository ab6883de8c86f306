// What wakes a thread that sleeps. No clause speaks of it: if a wake is left out, one of these tests waits for ever.
ghost use Rattle.std.specs.Prelude.{⊤, [], IfOk};
ghost use Rattle.sk_feed.specs.Deliveries.{IsNext, IsUpTo};

use sk_feed::{Crew, Delivery, Lane, Outlet, TakesStretches};
use sk_fill::{Stretch, Window, fill_stretch};
use sk_io::MemSource;
use sk_model::OutOfMemory;
use sk_read::{Fault, Kind, LineReader};
use std::alloc::Global;
use std::process::Abort;
use std::sync::Wait;
use std::test::Fail;
use std::thread::{Threads, join_mut, yield_now};

// Long enough for another thread to fall asleep.
fn linger() {
    for _ in 0..100_000 {
        yield_now();
    }
}

// Takes each stretch late, and finds memory or not.
#[derive(Drop)]
struct Late {
    finds_memory: bool,
}

impl TakesStretches for Late {
    ghost use Rattle.std.specs.Prelude.{⊤, true};

    ghost TAKES_MEMORY = { true };

    ghost took = { λ _ _ _ _ _ _. ⊤ };

    ghost keeps_at_most = { λ _ _. ⊤ };

    fn take<R: Wait>(
        &mut self,
        _rt: &R,
        _windows: &[Window],
        _kind: Kind,
        _i: usize,
        _n: usize,
    ) -> Result<bool, OutOfMemory> {
        linger();
        if self.finds_memory {
            Ok(true)
        } else {
            Err(OutOfMemory)
        }
    }
}

// The first stretch of a source of one line.
fn first_of(alloc: Global) -> Result<Delivery, Fault>
    ensures { IfOk result (λ first. IsNext [] first) }
{
    let mut source = MemSource::new(b"1\n".to_vec(alloc)?, 64, Vec::new(alloc));
    let mut reader = LineReader::new(alloc, 1_000)?;
    let mut stretch = Stretch::new(alloc, 1);
    fill_stretch(&mut reader, &mut source, &mut stretch, Kind::Raw, 1)?;
    Ok(Delivery::of(alloc, stretch)?)
}

// A lane to which a stretch was given, the other end of its ring, and that stretch.
fn lane_of(alloc: Global, taker: Late) -> Result<(Lane<Late>, Outlet, Delivery), Fault>
    ensures { IfOk result (λ r. IsUpTo (λ t n. ⊤) r.0.inlet r.0.taker) }
{
    let first = first_of(alloc)?;
    let (lane, outlet) = Lane::open(alloc, taker, &first)?;
    Ok((lane, outlet, first))
}

// Runs the lane in a thread while the work is done here.
fn run_beside<R: Threads + Wait + Sync, F: FnMut() -> A, A>(
    rt: &R,
    lane: &mut Lane<Late>,
    crew: &Crew,
    work: &mut F,
) -> A
    requires behind { IsUpTo (λ t n. ⊤) lane.old.inlet lane.old.taker }
    requires work { F.pre work.old }
{
    join_mut(
        rt,
        &mut ||
            requires { IsUpTo (λ t n. ⊤) lane.now.inlet lane.now.taker }
        { lane.run(rt, crew, Kind::Raw, 0, 1) },
        work,
    )
    .1
}

// The reader waits until the lane has ended.
fn wait_for_the_end<R: Wait>(rt: &R, crew: &Crew) {
    let mut times = 0;
    'wait: for _ in rt.forever() {
        if !crew.wait_for_feeders(rt, times) && crew.has_left() {
            return;
        }
        times = times.saturating_add(1);
    }
}

// The reader waits until nobody else has the stretch, and ends when the lane sleeps.
fn wait_for_the_stretch<R: Wait>(rt: &R, crew: &Crew, first: &Delivery) {
    'wait: for _ in rt.forever() {
        if !first.is_shared() {
            linger();
            crew.end();
            return;
        }
        crew.wait_for_feeders(rt, 0);
    }
}

#[test]
fn a_lane_without_memory_wakes_the_reader(rt: HostRuntime) -> Result<(), Fail> {
    let crew = Crew::new(rt.alloc(), 1)?;
    let late = Late {
        finds_memory: false,
    };
    let Ok((mut lane, _outlet, _first)) = lane_of(rt.alloc(), late) else {
        return Ok(());
    };
    run_beside(&rt, &mut lane, &crew, &mut || wait_for_the_end(&rt, &crew));
    assert!(rt; lane.fed.is_err());
    Ok(())
}

#[test]
fn a_lane_wakes_the_reader_for_a_stretch_and_is_woken_at_the_end(
    rt: HostRuntime,
) -> Result<(), Fail> {
    let crew = Crew::new(rt.alloc(), 1)?;
    let late = Late { finds_memory: true };
    let Ok((mut lane, _outlet, first)) = lane_of(rt.alloc(), late) else {
        return Ok(());
    };
    run_beside(
        &rt,
        &mut lane,
        &crew,
        &mut || { wait_for_the_stretch(&rt, &crew, &first) },
    );
    assert!(rt; lane.fed.is_ok());
    Ok(())
}
