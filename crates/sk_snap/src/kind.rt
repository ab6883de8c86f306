//! The sketch as one that is run concurrently.
ghost use Rattle.std.specs.Prelude.{◌≡◌, ◌+◌, ◌≤◌, ◌^◌, ◌++◌, length, IfOk, IfErr, is_ok};
ghost use Rattle.sk_model.specs.Entries.{tagged};
ghost use Rattle.sk_snap.specs.History.{entries_in};
ghost use Rattle.sk_snap.specs.Versions.{Refuses};

use crate::history::Known;
use crate::sequential::Sequential;
use crate::versioned::Versioned;
use sk_compose::{Buffer, Composable};
use sk_model::OutOfMemory;
use std::sync::Wait;

impl<S: Sequential, R: Wait + Drop> Composable for Versioned<S, R> {
    ghost use Rattle.std.specs.Prelude.{◌≡◌, ⊤, true};
    ghost use Rattle.sk_model.specs.Entries.{items_of_entries};
    ghost use Rattle.sk_snap.specs.History.{entries_in, name_of};
    ghost use Rattle.sk_snap.specs.Idle.{replies};

    type Told = Known;

    const TAKES_MEMORY: bool = true;

    ghost TAKES_MEMORY = { true };

    const MERGES_ALONE: bool = true;

    ghost is_of = { λ sketch list. entries_in sketch.known ≡ list };

    ghost numbers = { λ sketch. sketch.numbers };

    ghost name = { λ sketch. name_of sketch.known.book };

    ghost hint_of = { λ numbers list. S.hint_of numbers (items_of_entries list) };

    ghost packed_of = { λ numbers list. S.packed_of numbers (items_of_entries list) };

    ghost keeps_of = { S.keeps_of };

    ghost early_of = { S.early_of };

    ghost tells = { ⊤ };

    ghost told_name = { λ told. name_of told.book };

    ghost told_of = { λ told list. entries_in told ≡ list };

    fn merge<W: Wait>(&mut self, rt: &W, from: u32, batch: &Buffer) -> Result<(), OutOfMemory>
        requires few { length (entries_in self.old.known) + length batch.now.items ≤ 2 ^ 46 }
        ensures entries { IfOk result (λ _. entries_in self.new.known
            ≡ entries_in self.old.known ++ tagged from batch.now.items) }
        ensures unmerged { IfErr result (λ _. self.new.known ≡ self.old.known) }
        ensures refused { Refuses self.old.refused self.new.refused from batch.now.items (is_ok result) }
        ensures numbers { self.new.numbers ≡ self.old.numbers }
        ensures name { self.new.known.book ≡ self.old.known.book }
    {
        self.merge_items(rt, from, batch.items())
    }

    fn hint(&self) -> u64 {
        self.version().sketch.hint()
    }

    fn keeps(hint: u64, item: u64) -> bool {
        S::keeps(hint, item)
    }

    fn early(hint: u64) -> bool {
        S::early(hint)
    }

    fn packed(&self) -> u64 {
        let version = self.version();
        version.sketch.packed(version.known.count())
    }

    fn told(&mut self) -> Known {
        self.version().known.again()
    }

    ghost idle_replies = { replies S.hint_of S.packed_of S.keeps_of S.idle_replies };
}
