//! Intervals for how many distinct items there are, by factors that depend on k and the odds alone.
ghost use Rattle.std.specs.Prelude.{◌≡◌, ◌-◌, ◌*◌, ◌^◌, ◌<◌, ◌≤◌, ◌&&◌, ℕ, IsTrue, count_by};
ghost use Rattle.sk_model.specs.Limits.{most_k};
ghost use Rattle.sk_model.specs.Sketch.{count_of, theta_of};
ghost use Rattle.sk_model.specs.Width.{item_end};
ghost use Rattle.sk_odds.specs.Bounds.{IsLow, IsHigh, is_outside, interval_of, factor_parts};
ghost use Rattle.sk_odds.specs.Odds.{functions, is_injective};

use sk_model::limits::{ITEM_END, MOST_K};

/// What factors count in.
pub const PARTS: u128 = 1 << 32;

/// The largest factor that is tried.
const MOST_FACTOR: u64 = 1 << 53;

/// 1, as products of fractions are counted here.
const ONE: u128 = 1 << 60;

/// No product above it is followed further: none comes down to `ONE` from there.
const MOST_PRODUCT: u128 = 1 << 68;

/// Factors, in `PARTS`, of the greatest hash and of the end of hashes over theta: the ends of an interval.
#[derive(Clone, Copy, Debug, PartialEq, Eq)]
pub struct Factors {
    pub k: u32,
    pub low: u64,
    pub high: u64,
}

/// From `low` to `high`, both counted in.
#[derive(Clone, Copy, Debug, PartialEq, Eq)]
pub struct Interval {
    pub low: u128,
    pub high: u128,
}

/// Whether products of r fractions show that a low end with this factor is missed in one case of d.
pub fn is_low(k: u32, d: u32, r: u32, factor: u64) -> bool
    requires few { k ≤ most_k }
    requires rare { d ≤ 256 }
    requires small { factor ≤ 2 ^ 53 }
    ensures { IsTrue result → IsLow k d factor factor_parts }
{
    if r == 0 || r > k {
        return false;
    }
    let mut product: u128 = u128::from(d) * ONE;
    'multiply: for i in 0..r {
        if product > MOST_PRODUCT {
            return false;
        }
        let divisor: u128 = u128::from(k - i) * PARTS;
        product = (product * u128::from(factor) + divisor - 1) / divisor;
    }
    product <= ONE
}

/// Whether products of r fractions show that a high end with this factor is missed in one case of d.
pub fn is_high(k: u32, d: u32, r: u32, factor: u64) -> bool
    requires few { k ≤ most_k }
    requires rare { d ≤ 256 }
    requires small { factor ≤ 2 ^ 53 }
    ensures { IsTrue result → IsHigh k d factor factor_parts }
{
    if r > MOST_K || factor == 0 {
        return false;
    }
    let mut product: u128 = u128::from(d) * ONE;
    let divisor: u128 = u128::from(factor);
    'multiply: for i in 0..r {
        if product > MOST_PRODUCT {
            return false;
        }
        let dividend: u128 = product * (u128::from(k + i) * PARTS);
        product = (dividend + divisor - 1) / divisor;
    }
    product <= ONE
}

// The largest low factor that products of r fractions show, by bisection.
fn largest_low(k: u32, d: u32, r: u32) -> u64
    requires some { 1 ≤ k }
    requires few { k ≤ most_k }
    requires rare { d ≤ 256 }
    ensures { IsLow k d result factor_parts }
{
    let mut shown: u64 = 0;
    let mut above: u64 = MOST_FACTOR;
    'bisect: while shown + 1 < above {
        let middle = shown + (above - shown) / 2;
        if is_low(k, d, r, middle) {
            shown = middle;
        } else {
            above = middle;
        }
    }
    shown
}

// The smallest high factor that products of r fractions show, by bisection.
fn smallest_high(k: u32, d: u32, r: u32) -> u64
    requires few { k ≤ most_k }
    requires rare { d ≤ 256 }
    ensures { IsHigh k d result factor_parts }
{
    let mut below: u64 = 0;
    let mut shown: u64 = MOST_FACTOR;
    'bisect: while below + 1 < shown {
        let middle = below + (shown - below) / 2;
        if is_high(k, d, r, middle) {
            shown = middle;
        } else {
            below = middle;
        }
    }
    shown
}

impl Factors {
    /// Factors for sketches of k whose interval misses at most two cases of d. They are as near to each other as
    /// products of about sqrt(2 k ln d) fractions show.
    pub fn find(k: u32, d: u32) -> Factors
        requires some { 1 ≤ k }
        requires few { k ≤ most_k }
        requires odds { 1 ≤ d }
        requires rare { d ≤ 256 }
        ensures k { result.k ≡ k }
        ensures low { IsLow k d result.low factor_parts }
        ensures high { IsHigh k d result.high factor_parts }
        ensures missed { (n : ℕ) → n < item_end
            → d * count_by (λ hashes. is_injective hashes && is_outside n (interval_of result.low result.high k (count_of k hashes) (theta_of k hashes))) (functions n (item_end - 1))
            ≤ 2 * count_by is_injective (functions n (item_end - 1)) }
    {
        let tenths_of_ln = 7 * u64::from(d.ilog2()) + 2;
        let best = (u64::from(k) * tenths_of_ln / 5).isqrt();
        let beyond = best + tenths_of_ln / 10 + 1;
        Factors {
            k,
            low: largest_low(k, d, best.min(u64::from(k)) as u32),
            high: smallest_high(k, d, beyond as u32),
        }
    }

    /// What the number of distinct items is from and to, by the count and the theta of a sketch of k. Fewer than k
    /// are counted exactly.
    pub fn interval(&self, count: u32, theta: u64) -> Interval
        requires theta { 1 ≤ theta }
        ensures { (result.low, result.high) ≡ interval_of self.now.low self.now.high self.now.k count theta }
    {
        if count < self.k {
            return Interval {
                low: u128::from(count),
                high: u128::from(count),
            };
        }
        let divisor: u128 = PARTS * u128::from(theta);
        let least: u128 = u128::from(self.low) * u128::from(ITEM_END - 1);
        let most: u128 = u128::from(self.high) * u128::from(ITEM_END);
        Interval {
            low: (least + divisor - 1) / divisor,
            high: most / divisor,
        }
    }
}
