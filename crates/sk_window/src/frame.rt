//! How time is cut.
ghost use Rattle.std.specs.Prelude.{◌≡◌, ◌≤◌, ◌/◌};
ghost use Rattle.sk_window.specs.Frames.{IsFrame};

/// How long an interval is, and how many of them a reply is of, the running one among them.
#[derive(Clone, Copy, Debug, PartialEq, Eq)]
pub struct Frame {
    pub span: u64,
    pub last: u32,
}

impl Frame {
    /// The number of the interval that a moment lies in.
    pub fn interval(&self, moment: u64) -> u64
        requires frame { IsFrame self.now }
        ensures value { result ≡ moment / self.now.span }
    {
        moment / self.span
    }
}
