//! What a server is asked.
ghost use Rattle.std.specs.Prelude.{◌≡◌};
ghost use Rattle.sk_report.specs.Sizes.{size_at};
ghost use Rattle.sk_model.specs.Limits.{most_size, IsFrom};
ghost use Rattle.sk_serve.specs.Plans.{IsServable, shape_of};

use sk_report::Numbers;
use sk_theta::Shape;

/// How many sessions are served at which port, and by which hub.
#[derive(Clone, Copy)]
pub struct ServePlan {
    /// How many hashes the sketch keeps.
    pub k: u32,
    /// How many items a buffer of each session's updater holds. The last number holds for all further
    /// sessions.
    pub sizes: Numbers,
    /// How many sessions are served in all.
    pub sessions: u32,
    /// The port at which links are accepted.
    pub port: u16,
    /// The seed of the hash.
    pub seed: u32,
    /// Whether a short stream is handed over item by item.
    pub eager: bool,
    /// The marks of the alarms at the first places of the board.
    pub alarms: Numbers,
    /// How many sessions run in parallel at most.
    pub wave: u32,
}

// The numbers of the hub.
pub(crate) fn shape_of(plan: &ServePlan) -> Shape
    requires within { IsServable plan.now }
    ensures { result ≡ shape_of plan.now }
{
    // The sizes of its buffers are given as its updaters are admitted.
    let Ok(shape) = Shape::new(plan.k, 1, plan.sessions, plan.seed, plan.eager) else {
        unreachable!()
    };
    shape
}

// How many items a buffer of session i's updater holds.
pub(crate) fn size_for(plan: &ServePlan, i: u32) -> u32
    requires within { IsServable plan.now }
    ensures value { result ≡ size_at plan.now.sizes i }
    ensures limits { IsFrom 1 most_size result }
{
    let sizes = plan.sizes.as_slice();
    sizes[(i as usize).min(sizes.len() - 1)] as u32
}
