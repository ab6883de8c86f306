// Sessions that wait for one another.
ghost use Rattle.std.specs.Prelude.{◌≡◌, [], IfOk};
ghost use Rattle.sk_compose.specs.Numbers.{k_of};
ghost use Rattle.sk_hub.specs.Updaters.{kept_of};

use super::hub;
use crossbeam_utils::Backoff;
use sk_compose::Composable;
use sk_heap::HeapTheta;
use sk_hub::{Admit, OutOfMemory, Updater};
use sk_io::MemLink;
use sk_line::{End, Job, Pump, serve_links};
use sk_theta::Shape;
use std::alloc::Global;
use std::sync::Wait;
use std::sync::atomic::AtomicBool;
use std::sync::atomic::Ordering::SeqCst;
use std::test::Fail;

// Before the second request it tells that it came so far, and looks whether the other did.
#[derive(Drop)]
struct Gate<'a> {
    count: u64,
    own: &'a AtomicBool,
    other: &'a AtomicBool,
    met: bool,
}

impl<C: Composable> Pump<C> for Gate<'_> {
    ghost use Rattle.sk_line.specs.Pumps.{no_footing};

    ghost pumps = { λ p. p.count };

    ghost stands_on = { λ _. no_footing };

    fn pump<R: Wait>(&mut self, _rt: &R, _u: &mut Updater<C>) {
        if self.count == 1 {
            self.met = meet(self.own, self.other);
        }
        self.count = self.count.saturating_add(1);
    }
}

// Raises one flag, and looks for the other until it is up, but not for ever.
fn meet(own: &AtomicBool, other: &AtomicBool) -> bool {
    own.store(true, SeqCst);
    let backoff = Backoff::new();
    for _ in 0..1_000_000 {
        if other.load(SeqCst) {
            return true;
        }
        backoff.snooze();
    }
    false
}

// A session that asks twice.
fn job<'a>(
    alloc: Global,
    updater: Updater<HeapTheta>,
    own: &'a AtomicBool,
    other: &'a AtomicBool,
) -> Result<Job<HeapTheta, MemLink, Gate<'a>>, OutOfMemory>
    ensures { IfOk result (λ job. job.updater ≡ updater) }
{
    let text = b"ask\nask\n".to_vec(alloc)?;
    Ok(Job {
        updater,
        link: MemLink::new(alloc, text, 100, 4, Vec::new(alloc))?,
        pump: Gate {
            count: 0,
            own,
            other,
            met: false,
        },
        end: None,
    })
}

// Two updaters of one hub.
fn two(
    alloc: Global,
    shape: &Shape,
) -> Result<(Updater<HeapTheta>, Updater<HeapTheta>), OutOfMemory>
    ensures first { IfOk result (λ us. k_of us.0.view.numbers ≡ shape.now.k) }
    ensures none_in_first { IfOk result (λ us. kept_of us.0 ≡ []) }
    ensures second { IfOk result (λ us. k_of us.1.view.numbers ≡ shape.now.k) }
    ensures none_in_second { IfOk result (λ us. kept_of us.1 ≡ []) }
{
    let (mut heart, first) = hub(alloc, shape)?;
    match heart.admit(alloc, shape.b()) {
        Admit::Admitted(second) => Ok((first, second)),
        Admit::Full | Admit::OutOfMemory => Err(OutOfMemory),
    }
}

#[test]
fn two_sessions_meet(rt: HostRuntime) -> Result<(), Fail> {
    let alloc = rt.alloc();
    let shape = Shape::new(4, 1, 2, 0, false).map_err(|_| OutOfMemory)?;
    let (first, second) = two(alloc, &shape)?;
    let (left, right) = (AtomicBool::new(false), AtomicBool::new(false));
    let mut jobs = [
        job(alloc, first, &left, &right)?,
        job(alloc, second, &right, &left)?,
    ];
    serve_links(&rt, alloc, &shape, &mut jobs, 1_000);
    for job in &jobs {
        assert!(rt; job.pump.met && job.end == Some(End::Closed));
        assert!(rt; job.link.written() == b"estimate 0/1\nestimate 0/1\n".as_slice());
    }
    Ok(())
}
