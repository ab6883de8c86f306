// A heart that is lent to a thread of its own, beside work in this one.
ghost use Rattle.std.specs.Prelude.{◌≡◌};

use super::*;
use std::thread::{Threads, join_mut};

// What sweeps, as a heart does. Beside a closure that borrows an updater one that borrows a heart has no proof
// yet; one that borrows a value of a type parameter has.
trait Sweeping {
    ghost sweeps: { Self → Self → Type 0 };

    fn sweep_often<R: Wait>(&mut self, rt: &R)
        ensures { sweeps self.old self.new };
}

impl<C: Composable> Sweeping for Heart<C> {
    ghost use Rattle.std.specs.Prelude.{◌≡◌};
    ghost use Rattle.sk_hub.specs.Rounds.{KnowsAsMuch};

    ghost sweeps = { λ h h'. KnowsAsMuch h.view h'.view × (h' ≡ record h { view = h'.view }) };

    fn sweep_often<R: Wait>(&mut self, rt: &R) {
        'sweep: for _ in 0..16 {
            self.sweep(rt);
        }
    }
}

// The heart sweeps in a thread of its own while the work is done here.
fn run_beside<R: Threads + Wait + Sync, T: Sweeping + Send, F: FnMut() -> A, A>(
    rt: &R,
    heart: &mut T,
    work: &mut F,
) -> A
    requires { F.pre work.old }
    ensures heart { T.sweeps heart.old heart.new }
    ensures work { F.step work.old result work.new }
{
    join_mut(rt, &mut || heart.sweep_often(rt), work).1
}

// Updates with items until the updater is busy. It gives the first that was not taken.
fn update_until_busy<C: Composable, R: Abort>(
    rt: &R,
    updater: &mut Updater<C>,
    from: u64,
    to: u64,
) -> u64
    ensures { updater.new.table ≡ updater.old.table }
{
    'item: for item in from..to {
        if update(rt, updater, item) == Update::Busy {
            return item;
        }
    }
    to
}

// Rounds in which the heart sweeps while the updater takes the items from 1 to before an end, until all are taken.
fn update_in_rounds<C: Composable + Send, R: Abort + Threads + Wait + Sync>(
    rt: &R,
    heart: &mut Heart<C>,
    updater: &mut Updater<C>,
    end: u64,
)
where
    C::Told: Send,
    requires table { updater.old.table ≡ heart.old.table }
    ensures table { updater.new.table ≡ heart.new.table }
{
    let mut next = 1;
    'round: for _ in 0..100_000 {
        next = run_beside(rt, heart, &mut || update_until_busy(rt, updater, next, end));
        if next == end {
            return;
        }
    }
    panic!(rt; "there was no room for {next}");
}

#[test]
fn a_heart_that_is_lent_sweeps_beside_an_updater(rt: HostRuntime) -> Result<(), Fail> {
    let Hub {
        mut heart,
        mut updater,
        token: _,
    } = hub_of(rt.alloc(), 1, 4, sketch(rt.alloc(), 128)?)?;
    update_in_rounds(&rt, &mut heart, &mut updater, 61);
    drain(&rt, &mut heart, updater)?;
    expect(&rt, unpack(heart.ask(), 128).count, 60);
    Ok(())
}
