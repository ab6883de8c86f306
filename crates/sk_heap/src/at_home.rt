//! The hashes that stand at their home in the table, which is nearly all that it has.
ghost use Rattle.std.specs.Prelude.{◌≡◌, ◌<◌, ◌≤◌, length, take, not};
ghost use Rattle.std.specs.Int.{IsPowerOfTwo};
ghost use Rattle.std.specs.List.{filter};
ghost use Rattle.sk_heap.specs.Table.{is_at_home};
ghost use Rattle.sk_model.specs.Width.{IsItem, AreItems};

use crate::table::home;

// How many hashes are looked for together.
pub const MANY: usize = 64;

// Whether a hash stands at its home.
#[inline(always)]
#[tactic(auto, unfolding(crate::specs::Table::is_at_home))]
pub fn is_at_home(table: &[u64], hash: u64) -> bool
    requires item { IsItem hash }
    requires power { IsPowerOfTwo (length table.now) }
    requires some { 0 < length table.now }
    ensures { result ≡ is_at_home table.now hash }
{
    table[home(hash, table.len()) as usize] == hash + 1
}

// Writes the hashes that do not stand at their home to the start of `rest`, in order, and returns how many they are.
// It does not branch on each: a processor would often foretell that wrongly.
#[inline(always)]
pub fn leave_those_at_home(table: &[u64], hashes: &[u64], rest: &mut [u64; MANY]) -> usize
    requires items { AreItems hashes.now }
    requires power { IsPowerOfTwo (length table.now) }
    requires some { 0 < length table.now }
    requires few { length hashes.now ≤ MANY }
    ensures few { result ≤ length hashes.now }
    ensures rest { take result rest.new ≡ filter (λ h. not (is_at_home table.now h)) hashes.now }
{
    let mut count = 0;
    'hash: for hash in hashes {
        rest[count] = *hash;
        count += usize::from(!is_at_home(table, *hash));
    }
    count
}
