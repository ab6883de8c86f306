//! The k smallest of two rising lists, in one walk over both.
ghost use Rattle.std.specs.Prelude.{◌≡◌, ℕ, ◌<◌, ◌≤◌, ◌-◌, ◌++◌, length, take, slice_index, slice_range, vec_len, vec_capacity};
ghost use Rattle.std.specs.List.Sorted.{IsStrictlyIncreasing};
ghost use Rattle.sk_model.specs.Sketch.{k_smallest};

// Makes `least` the k smallest of both. For each of a piece those of the other list are copied that are below it: some
// eight, so that a processor foretells most of the way.
pub fn least_of_both(kept: &[u64], piece: &[u64], k: usize, least: &mut Vec<u64>)
    requires kept_rises { IsStrictlyIncreasing kept.now }
    requires piece_rises { IsStrictlyIncreasing piece.now }
    requires room { k ≤ vec_capacity least.old }
    ensures least { least.new.items ≡ k_smallest k (kept.now ++ piece.now) }
    ensures room { k ≤ vec_capacity least.new }
{
    least.clear();
    let (mut i, mut j) = (0, 0);
    'walk: while i < kept.len() && j < piece.len() && least.len() < k {
        let (x, y) = (kept[i], piece[j]);
        if x < y {
            i = append_below(least, kept, i, y, k);
        } else {
            least.push_reserved(y);
            i += usize::from(x == y);
            j += 1;
        }
    }
    append_within(least, &kept[i..], k);
    append_within(least, &piece[j..], k);
}

// Appends the members of a list from a place on that are below an end, until there are k, and returns where they end.
fn append_below(least: &mut Vec<u64>, kept: &[u64], from: usize, end: u64, k: usize) -> usize
    requires place { from ≤ length kept.now }
    requires within { vec_len least.old ≤ k }
    requires room { k ≤ vec_capacity least.old }
    ensures place { (from ≤ result) × (result ≤ length kept.now) }
    ensures items { least.new.items ≡ least.old.items ++ slice_range kept.now from result }
    ensures below { (i : ℕ) → from ≤ i → i < result → slice_index kept.now i < end }
    ensures some { vec_len least.old < k → from < length kept.now → slice_index kept.now from < end → from < result }
    ensures within { vec_len least.new ≤ k }
    ensures room { k ≤ vec_capacity least.new }
{
    let to = end_below(kept, from, end, k - least.len());
    least.extend_from_slice(&kept[from..to]).unwrap();
    to
}

// Where the members of a list from a place on end that are below an end, `most` at most.
fn end_below(kept: &[u64], from: usize, end: u64, most: usize) -> usize
    requires place { from ≤ length kept.now }
    ensures place { (from ≤ result) × (result ≤ length kept.now) }
    ensures few { result - from ≤ most }
    ensures below { (i : ℕ) → from ≤ i → i < result → slice_index kept.now i < end }
    ensures some { 0 < most → from < length kept.now → slice_index kept.now from < end → from < result }
{
    let mut i = from;
    'below: while i < kept.len() && i - from < most && kept[i] < end {
        i += 1;
    }
    i
}

// Puts a list to the end of another one, of which the first k are kept.
fn append_within(least: &mut Vec<u64>, more: &[u64], k: usize)
    requires within { vec_len least.old ≤ k }
    requires room { k ≤ vec_capacity least.old }
    ensures items { least.new.items ≡ take k (least.old.items ++ more.now) }
    ensures within { vec_len least.new ≤ k }
    ensures room { k ≤ vec_capacity least.new }
{
    let count = more.len().min(k - least.len());
    least.extend_from_slice(&more[..count]).unwrap();
}
