//! Up to 512 hashes of a batch, sorted.
ghost use Rattle.std.specs.Prelude.{◌≡◌, ◌≤◌, length, take, nat_lt};
ghost use Rattle.std.specs.List.{filter};
ghost use Rattle.std.specs.List.Sorted.{IsNonDecreasing};
ghost use Rattle.sk_model.specs.Sketch.{rising};
ghost use Rattle.sk_model.specs.Width.{AreItems};

// How many hashes are sorted together.
pub const PIECE: usize = 512;

// Writes the distinct hashes below an end to the start of `piece`, rising, and returns how many they are.
pub fn sort_below(hashes: &[u64], end: u64, piece: &mut [u64; PIECE]) -> usize
    requires items { AreItems hashes.now }
    requires few { length hashes.now ≤ PIECE }
    ensures few { result ≤ PIECE }
    ensures piece { take result piece.new ≡ rising (filter (λ h. nat_lt h end) hashes.now) }
{
    let mut below = [0; PIECE];
    let count = copy_below(hashes, end, &mut below);
    let below = &mut below[..count];
    below.sort_unstable();
    copy_once(below, piece)
}

// Writes the hashes below an end to the start of `below`, in order, and returns how many they are. It does not branch
// on each: a processor would often foretell that wrongly.
fn copy_below(hashes: &[u64], end: u64, below: &mut [u64; PIECE]) -> usize
    requires few { length hashes.now ≤ PIECE }
    ensures few { result ≤ length hashes.now }
    ensures below { take result below.new ≡ filter (λ h. nat_lt h end) hashes.now }
{
    let mut count = 0;
    'hash: for hash in hashes {
        below[count] = *hash;
        count += usize::from(*hash < end);
    }
    count
}

// Writes each of the sorted hashes once to the start of `once`, and returns how many they are.
fn copy_once(sorted: &[u64], once: &mut [u64; PIECE]) -> usize
    requires items { AreItems sorted.now }
    requires order { IsNonDecreasing sorted.now }
    requires few { length sorted.now ≤ PIECE }
    ensures few { result ≤ length sorted.now }
    ensures once { take result once.new ≡ rising sorted.now }
{
    let mut last = 0;
    let mut count = 0;
    'hash: for hash in sorted {
        once[count] = *hash;
        count += usize::from(last < *hash);
        last = *hash;
    }
    count
}
