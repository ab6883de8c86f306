use super::*;
use sk_compose::{Buffer, Composable};
use std::sync::Wait;
use std::test::Fail;

// Counts the entries. Its first merge finds no memory.
#[derive(Drop)]
struct Tally {
    count: u64,
    refused: bool,
}

impl Composable for Tally {
    ghost use Rattle.std.specs.Prelude.{⊤, ◌≡◌, [], true, length};
    ghost use Rattle.sk_compose.specs.Idle.{never};

    type Told = u64;

    const TAKES_MEMORY: bool = true;

    ghost TAKES_MEMORY = { true };

    ghost is_of = { λ s list. s.count ≡ length list };

    ghost numbers = { λ _. [] };

    ghost name = { λ _. [] };

    ghost hint_of = { λ _ _. 1 };

    ghost packed_of = { λ _ list. length list };

    ghost keeps_of = { λ _ _. true };

    ghost early_of = { λ _. true };

    ghost tells = { ⊤ };

    ghost told_name = { λ _. [] };

    ghost told_of = { λ told list. told ≡ length list };

    fn merge<R: Wait>(&mut self, _rt: &R, _from: u32, batch: &Buffer) -> Result<(), OutOfMemory> {
        if !self.refused {
            self.refused = true;
            return Err(OutOfMemory);
        }
        self.count += u64::from(batch.len());
        Ok(())
    }

    fn hint(&self) -> u64 {
        1
    }

    fn keeps(_hint: u64, _item: u64) -> bool {
        true
    }

    fn early(_hint: u64) -> bool {
        true
    }

    fn packed(&self) -> u64 {
        self.count
    }

    fn told(&mut self) -> u64 {
        self.count
    }

    ghost idle_replies = { λ _ _ _ _ _ _ _ no. never no };
}

#[test]
fn a_batch_that_was_refused_is_merged_by_the_next_serve(rt: HostRuntime) -> Result<(), Fail> {
    let tally = Tally {
        count: 0,
        refused: false,
    };
    let Hub {
        mut heart,
        mut updater,
        token: _,
    } = hub_of(rt.alloc(), 1, 1, tally)?;
    expect(&rt, updater.update(7), Update::Handed);
    expect(&rt, heart.serve(&rt, 0), Serve::OutOfMemory);
    expect(&rt, updater.ask(), 0);
    expect(&rt, updater.settle(), Settle::Busy);
    expect(&rt, heart.serve(&rt, 0), Serve::Nothing);
    expect(&rt, updater.ask(), 1);
    expect(&rt, updater.settle(), Settle::Settled);
    Ok(())
}
