//! The heart of a hub, which propagates in a thread of its own while updaters are fed.
ghost use Rattle.std.specs.Prelude.{OnErr, IsTrue};
ghost use Rattle.sk_feed.specs.Hubs.{HeartGoesOn};

use crossbeam_utils::Backoff;
use sk_compose::Composable;
use sk_hub::{Heart, Sweep};
use sk_model::OutOfMemory;
use std::sync::Wait;
use std::sync::atomic::{AtomicBool, Ordering};
use std::thread::{Threads, join_mut};

// After this many sweeps in a row that find nothing the heart ends: updaters that stay busy then propagate themselves.
const MOST_IDLE: u32 = 64;

// What propagates, as a heart does. Split off for the proof: a closure that lends a value of a type parameter to a
// thread has a proof; one that lends a heart has none if another lends its updaters.
pub(crate) trait Propagates {
    // The same that has propagated.
    ghost goes_on: { Self → Self → Type 0 };

    // Whether it takes memory.
    ghost takes_memory: { Self → Type 0 };

    // Propagates again and again until the others are done, or it finds nothing for long.
    fn propagate_on<R: Wait>(&mut self, rt: &R, done: &AtomicBool) -> Result<(), OutOfMemory>
        ensures goes { goes_on self.old self.new }
        ensures cause { OnErr result (takes_memory self.old) };
}

impl<C: Composable> Propagates for Heart<C> {
    ghost use Rattle.std.specs.Prelude.{IsTrue};
    ghost use Rattle.sk_feed.specs.Hubs.{HeartGoesOn};

    ghost goes_on = { λ h h'. HeartGoesOn h h' };

    ghost takes_memory = { λ h. IsTrue C.TAKES_MEMORY };

    fn propagate_on<R: Wait>(&mut self, rt: &R, done: &AtomicBool) -> Result<(), OutOfMemory> {
        let backoff = Backoff::new();
        let mut idle = 0;
        'sweep: for _ in rt.forever() {
            if idle == MOST_IDLE || done.load(Ordering::SeqCst) {
                return Ok(());
            }
            idle = sweep_counting(rt, self, idle, &backoff)?;
        }
        unreachable!()
    }
}

// Sweeps once, and counts how many sweeps in a row found nothing. After such a sweep, and one that found another seat
// at work, it waits.
fn sweep_counting<C: Composable, R: Wait>(
    rt: &R,
    heart: &mut Heart<C>,
    idle: u32,
    backoff: &Backoff,
) -> Result<u32, OutOfMemory>
    ensures heart { HeartGoesOn heart.old heart.new }
    ensures cause { OnErr result (IsTrue C.TAKES_MEMORY) }
{
    match heart.sweep(rt) {
        Sweep::Swept(0) => {
            backoff.snooze();
            Ok(idle.saturating_add(1))
        }
        Sweep::Swept(_) => {
            backoff.reset();
            Ok(0)
        }
        Sweep::Elsewhere(_) => {
            backoff.snooze();
            Ok(0)
        }
        Sweep::OutOfMemory => Err(OutOfMemory),
    }
}

// Propagates in a thread of its own while the work is done here, which sets `done` when it ends.
pub(crate) fn run_beside<R: Threads + Wait + Sync, T: Propagates + Send, F: FnMut() -> A, A>(
    rt: &R,
    heart: &mut T,
    done: &AtomicBool,
    work: &mut F,
) -> (Result<(), OutOfMemory>, A)
    requires { F.pre work.old }
    ensures heart { T.goes_on heart.old heart.new }
    ensures cause { OnErr result.0 (T.takes_memory heart.old) }
    ensures work { F.step work.old result.1 work.new }
{
    join_mut(rt, &mut || heart.propagate_on(rt, done), work)
}
