//! The blocks of a window, one for each updater.
ghost use Rattle.std.specs.Prelude.{◌≡◌, ◌<◌, ◌≤◌, ◌+◌};
ghost use Rattle.sk_fill.specs.Blocks.{place_of};
ghost use Rattle.sk_fill.specs.Windows.{most_lines};
ghost use Rattle.sk_model.specs.Limits.{most_updaters};

/// The places from one up to, not including, another.
#[derive(Clone, Copy, Debug, PartialEq, Eq)]
pub struct Block {
    pub from: u32,
    pub to: u32,
}

impl Block {
    /// Block i of `lines` lines that are cut into n blocks, from 1 to 64. They differ by at most one line.
    pub fn of(lines: u32, i: u32, n: u32) -> Block
        requires most { lines ≤ most_lines }
        requires few { n ≤ most_updaters }
        requires within { i < n }
        ensures from { result.from ≡ place_of lines i n }
        ensures to { result.to ≡ place_of lines (i + 1) n }
        ensures rises { result.from ≤ result.to }
        ensures ends { result.to ≤ lines }
    {
        Block {
            from: i * lines / n,
            to: (i + 1) * lines / n,
        }
    }
}
