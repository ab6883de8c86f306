//! A window that is fed to the updaters of a hub, in the way that a plan wants.
ghost use Rattle.std.specs.Prelude.{◌≡◌, ◌<◌, ◌≤◌, length, map, take, true, false, OnOk, IfOk};
ghost use Rattle.sk_model.specs.Limits.{most_updaters};
ghost use Rattle.sk_feed.specs.Calls.{filter_of};
ghost use Rattle.sk_feed.specs.Rounds.{HaveRoom, HaveRoomFor};
ghost use Rattle.sk_feed.specs.Shares.{AreFedEach};
ghost use Rattle.sk_feed.specs.Hubs.{hub_of, IsHub, FeedsWindow, FeedsWindows};

use sk_compose::Composable;
use sk_feed::{Feeders, Propagation, are_eager, feed_in_turn};
use sk_fill::{Stretch, Window};
use sk_hub::Opened;
use sk_model::OutOfMemory;
use sk_model::limits::MOST_UPDATERS;
use sk_read::Intake;
use std::alloc::Global;
use std::num::NonZeroUsize;
use std::sync::Wait;
use std::thread::{Threads, available_parallelism};

// A window of fewer lines is fed sooner than threads are started.
const LEAST_IN_THREADS: u32 = 4_096;

// So is a stretch of fewer lines, if these have fewer bytes.
const LEAST_BYTES: usize = 262_144;

// Feeds a window to all updaters, one after another: to each its block. If the hub is asked before the end and has no
// propagator, each helps after an item that it keeps while it is eager.
pub(crate) fn feed_window<C: Composable, R: Wait>(
    rt: &R,
    opened: &mut Opened<C>,
    window: &Window,
    plan: &Intake,
) -> Result<(), OutOfMemory>
    requires hub { IsHub (hub_of opened.old) }
    requires room { HaveRoom window.now.lines opened.old.updaters.items }
    ensures fed { OnOk result (FeedsWindow plan.now.propagator C.keeps_of C.hint_of plan.now.kind window.now.lines (hub_of opened.old) (hub_of opened.new)) }
    ensures helped { OnOk result (plan.now.propagator ≡ false → plan.now.interim ≡ true
        → AreFedEach (filter_of C.keeps_of C.early_of C.hint_of) plan.now.kind window.now.lines opened.old.updaters.items opened.new.updaters.items) }
{
    // It shows the proof how many updaters a hub has at most.
    let _admitted = opened.heart.admitted();
    let by = Propagation::of(plan);
    let updaters = &mut opened.updaters;
    feed_in_turn(rt, &mut opened.heart, updaters, window, plan.kind, by)
}

// Room in which any number of updaters is fed: lines in as many threads as there are processors, fields in one.
pub(crate) fn feeders_for<C: Composable, R: Threads>(
    rt: &R,
    alloc: Global,
    plan: &Intake,
    updaters: usize,
) -> Result<Feeders<C>, OutOfMemory>
    ensures places { IfOk result (λ feeders. most_updaters ≤ feeders.most) }
{
    let threads = if plan.column == 0 {
        threads_for(rt, updaters)
    } else {
        1
    };
    Feeders::new(alloc, MOST_UPDATERS, threads)
}

// As many threads as there are processors, and no more than updaters.
pub(crate) fn threads_for<R: Threads>(rt: &R, updaters: usize) -> u32
    ensures { 0 < result }
{
    let processors = available_parallelism(rt).map_or(1, NonZeroUsize::get);
    let threads = processors.min(updaters).clamp(1, MOST_UPDATERS as usize);
    threads as u32
}

// Feeds a window to all updaters as `feed_window` does, but in threads if that is faster.
pub(crate) fn feed_in_threads<C: Composable + Send, R: Threads + Wait + Sync>(
    rt: &R,
    opened: &mut Opened<C>,
    feeders: &mut Feeders<C>,
    window: &Window,
    plan: &Intake,
) -> Result<(), OutOfMemory>
where
    C::Told: Send,
    requires places { most_updaters ≤ feeders.old.most }
    requires room { HaveRoom window.now.lines opened.old.updaters.items }
    requires hub { IsHub (hub_of opened.old) }
    ensures fed { OnOk result (FeedsWindow plan.now.propagator C.keeps_of C.hint_of plan.now.kind window.now.lines (hub_of opened.old) (hub_of opened.new)) }
    ensures stays { feeders.new ≡ feeders.old }
{
    if window.len() < LEAST_IN_THREADS || feeders.threads() < 2 || are_eager(&opened.updaters) {
        return feed_window(rt, opened, window, plan);
    }
    // It shows the proof how many updaters a hub has at most.
    let _admitted = opened.heart.admitted();
    let by = Propagation::of(plan);
    let updaters = &mut opened.updaters;
    feeders.feed_window(rt, &mut opened.heart, updaters, window, plan.kind, by)
}

// Feeds the windows of a stretch to all updaters, one after another.
pub(crate) fn feed_stretch<C: Composable, R: Wait>(
    rt: &R,
    opened: &mut Opened<C>,
    stretch: &Stretch,
    plan: &Intake,
) -> Result<(), OutOfMemory>
    requires hub { IsHub (hub_of opened.old) }
    requires room { HaveRoomFor stretch.now.windows opened.old.updaters.items }
    ensures fed { OnOk result (FeedsWindows plan.now.propagator C.keeps_of C.hint_of plan.now.kind stretch.now.windows (hub_of opened.old) (hub_of opened.new)) }
{
    feed_windows_in_turn(rt, opened, stretch.windows(), plan)
}

// Feeds windows to all updaters, one after another.
fn feed_windows_in_turn<C: Composable, R: Wait>(
    rt: &R,
    opened: &mut Opened<C>,
    windows: &[Window],
    plan: &Intake,
) -> Result<(), OutOfMemory>
    requires hub { IsHub (hub_of opened.old) }
    requires room { HaveRoomFor (map (λ w. w.lines) windows.now) opened.old.updaters.items }
    ensures fed { OnOk result (FeedsWindows plan.now.propagator C.keeps_of C.hint_of plan.now.kind (map (λ w. w.lines) windows.now) (hub_of opened.old) (hub_of opened.new)) }
{
    'window: for next in 0..windows.len() {
        feed_window(rt, opened, &windows[next], plan)?;
    }
    Ok(())
}

// Whether a stretch is fed sooner than threads are started.
pub(crate) fn is_short(stretch: &Stretch) -> bool {
    stretch.lines() < LEAST_IN_THREADS as usize && stretch.size() < LEAST_BYTES
}
