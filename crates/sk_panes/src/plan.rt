// What a run over intervals is asked for.
ghost use Rattle.std.specs.Prelude.{◌≡◌};
ghost use Rattle.sk_panes.specs.Plans.{IsWithin, frame_of};
ghost use Rattle.sk_window.specs.Frames.{IsFrame};

use sk_window::Frame;

/// Each moment is below this number.
pub const MOMENT_END: u64 = 281_474_976_710_656;

/// How a source is counted, interval by interval.
#[derive(Clone, Copy, Debug, PartialEq, Eq)]
pub struct Plan {
    /// How many hashes a sketch keeps.
    pub k: u32,
    /// How many items a buffer holds.
    pub size: u32,
    /// Of the hash.
    pub seed: u32,
    /// How long an interval is, in the unit of the moments.
    pub span: u64,
    /// How many intervals a pane is of, its own among them.
    pub last: u32,
}

// How the plan cuts time.
pub(crate) fn frame_of(plan: &Plan) -> Frame
    requires { IsWithin plan.now }
    ensures value { result ≡ frame_of plan.now }
    ensures frame { IsFrame result }
{
    Frame {
        span: plan.span,
        last: plan.last,
    }
}
