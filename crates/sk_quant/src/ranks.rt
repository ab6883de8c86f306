//! Ranks among the items that are held, and by how much they may be off.
ghost use Rattle.std.specs.Prelude.{◌≡◌, ◌<◌, ◌≤◌, ◌^◌, All};
ghost use Rattle.std.specs.List.Sorted.{IsNonDecreasing};
ghost use Rattle.sk_quant.specs.Limits.{most_items, least_quantile_k};
ghost use Rattle.sk_quant.specs.Ranks.{rank_of, weighted_rank, weight_of, rank_error};
ghost use Rattle.sk_quant.specs.Stored.{lists_of};

use crate::limits::LEVEL_COUNT;

/// How many of the items are below x.
pub fn rank(items: &[u64], x: u64) -> u64
    ensures { result ≡ rank_of x items.now }
{
    items.iter().filter(|y| **y < x).count() as u64
}

// The same of items that rise.
fn rank_among_rising(items: &[u64], x: u64) -> u64
    requires { IsNonDecreasing items.now }
    ensures { result ≡ rank_of x items.now }
{
    items.partition_point(|y| *y < x) as u64
}

/// The same of levels, each of whose items weighs twice what one of the level before weighs.
pub fn rank_in_levels(levels: &[Vec<u64>], x: u64) -> u64
    requires rise { All IsNonDecreasing (lists_of levels.now) }
    requires light { weight_of (lists_of levels.now) ≤ most_items }
    ensures { result ≡ weighted_rank x (lists_of levels.now) }
{
    let mut below = 0;
    'levels: for l in (0..levels.len()).rev() {
        below = 2 * below + rank_among_rising(&levels[l], x);
    }
    below
}

/// By how much the rank in a sketch of n items may be off.
pub fn error_of(n: u64, k: u32) -> u64
    requires some { least_quantile_k ≤ k }
    requires few { n ≤ most_items }
    ensures { result ≡ rank_error n k }
{
    let compactions = n / (2 * u64::from(k));
    let mut error = 0;
    'terms: for l in 0..LEVEL_COUNT {
        error += compactions >> l << l;
    }
    error
}
