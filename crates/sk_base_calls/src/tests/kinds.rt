// Kinds of sketches, through their traits alone.
ghost use Rattle.std.specs.Prelude.{◌≡◌, ◌+◌, ◌≤◌, ◌^◌, ◌++◌, List, [], length, IfOk};
ghost use Rattle.sk_model.specs.Entries.{Entry, items_of_entries, tagged};
ghost use Rattle.sk_model.specs.Sketch.{packed_of, unpacked};
ghost use Rattle.sk_compose.specs.Numbers.{k_of};
ghost use Rattle.sk_model.specs.Width.{AreItems};

use super::expect;
use sk_compose::{Buffer, Composable, Parcel, ThetaKind, ThetaWord};
use sk_heap::HeapTheta;
use sk_model::OutOfMemory;
use sk_theta::{ITEM_END, Reply, Theta, unpack};
use std::alloc::Global;
use std::sync::Wait;
use std::test::Fail;

// The k smallest, and how many entries there were, which it makes known. Its first merge finds no memory.
#[derive(Drop)]
struct Teller {
    theta: Theta,
    count: u64,
    refused: bool,
}

impl Composable for Teller {
    ghost use Rattle.std.specs.Prelude.{⊤, ◌≡◌, [], ◌∷◌, true, length, nat_lt, ◌==◌};
    ghost use Rattle.sk_model.specs.Entries.{items_of_entries};
    ghost use Rattle.sk_model.specs.Sketch as k_min;
    ghost use Rattle.sk_model.specs.Width.{item_end};
    ghost use Rattle.sk_theta.specs.Kept.{StandsFor};
    ghost use Rattle.sk_compose.specs.Numbers.{k_of};
    ghost use Rattle.sk_compose.specs.Idle as Idle;

    type Told = u64;

    const TAKES_MEMORY: bool = true;

    ghost TAKES_MEMORY = { true };

    ghost is_of = { λ s list. StandsFor s.theta (items_of_entries list) × (s.count ≡ length list) };

    ghost numbers = { λ s. s.theta.k ∷ [] };

    ghost name = { λ _. [] };

    ghost hint_of = { λ numbers list. k_min.theta_of (k_of numbers) (items_of_entries list) };

    ghost packed_of = { λ numbers list. k_min.packed_of (k_of numbers) (items_of_entries list) };

    ghost keeps_of = { λ hint item. nat_lt item hint };

    ghost early_of = { λ hint. hint == item_end };

    ghost tells = { ⊤ };

    ghost told_name = { λ _. [] };

    ghost told_of = { λ told list. told ≡ length list };

    fn merge<R: Wait>(&mut self, _rt: &R, _from: u32, batch: &Buffer) -> Result<(), OutOfMemory> {
        if !self.refused {
            self.refused = true;
            return Err(OutOfMemory);
        }
        self.theta.merge(batch.items());
        self.count += u64::from(batch.len());
        Ok(())
    }

    fn hint(&self) -> u64 {
        self.theta.theta()
    }

    fn keeps(hint: u64, item: u64) -> bool {
        item < hint
    }

    fn early(hint: u64) -> bool {
        hint == ITEM_END
    }

    fn packed(&self) -> u64 {
        Theta::packed(&self.theta)
    }

    fn told(&mut self) -> u64 {
        self.count
    }

    ghost idle_replies = { Idle.replies };
}

impl ThetaWord for Teller {
    ghost use Rattle.std.specs.Prelude.{refl};

    fn k(&self) -> u32 {
        Theta::k(&self.theta)
    }

    ghost hint_is = { λ _ _. refl };

    ghost packed_is = { λ _ _. refl };

    ghost keeps_is = { λ _ _. refl };

    ghost early_is = { λ _. refl };
}

// A buffer of three items.
fn three_items(alloc: Global, items: [u64; 3]) -> Result<Buffer, OutOfMemory>
    requires fits { AreItems items }
    ensures items { IfOk result (λ buffer. buffer.items ≡ items) }
{
    let mut buffer = Buffer::new(alloc, 3)?;
    buffer.push(items[0]);
    buffer.push(items[1]);
    buffer.push(items[2]);
    Ok(buffer)
}

#[test]
#[tactic(auto, unfolding(sk_model::specs::Entries::items_of_entries))]
fn a_repeat_in_a_batch_counts_once(rt: HostRuntime) -> Result<(), Fail> {
    let mut sketch = Theta::new(rt.alloc(), 2)?;
    let mut batch = three_items(rt.alloc(), [3, 5, 3])?;
    expect(&rt, batch.is_full(), true);
    expect(&rt, Theta::early(sketch.hint()), true);
    merge_surely(&rt, &mut sketch, 0, &batch);
    expect(
        &rt,
        unpack(Composable::packed(&sketch), 2),
        Reply { count: 2, theta: 5 },
    );
    expect(&rt, sketch.hint(), 5);
    let of_five = (Theta::early(5), Theta::keeps(5, 4), Theta::keeps(5, 5));
    expect(&rt, of_five, (false, true, false));
    batch.clear();
    expect(&rt, batch.len(), 0);
    Ok(())
}

#[test]
#[tactic(auto, unfolding(sk_model::specs::Entries::items_of_entries))]
fn a_repeat_counts_once_in_a_heap(rt: HostRuntime) -> Result<(), Fail> {
    let mut sketch = HeapTheta::new(rt.alloc(), 2)?;
    let batch = three_items(rt.alloc(), [3, 5, 3])?;
    expect(&rt, Composable::merge(&mut sketch, &rt, 0, &batch), Ok(()));
    expect(
        &rt,
        unpack(Composable::packed(&sketch), 2),
        Reply { count: 2, theta: 5 },
    );
    expect(&rt, sketch.hint(), 5);
    expect(&rt, HeapTheta::keeps(5, 5), false);
    expect(&rt, HeapTheta::early(ITEM_END), true);
    expect(&rt, ThetaWord::k(&sketch), 2);
    Ok(())
}

#[test]
#[tactic(auto, unfolding(sk_model::specs::Entries::items_of_entries))]
fn a_refused_batch_is_merged_when_it_comes_again(rt: HostRuntime) -> Result<(), Fail> {
    let mut teller = Teller {
        theta: Theta::new(rt.alloc(), 2)?,
        count: 0,
        refused: false,
    };
    let batch = three_items(rt.alloc(), [7, 9, 7])?;
    let Err(OutOfMemory) = teller.merge(&rt, 0, &batch) else {
        panic!(rt; "the first merge was not refused");
    };
    expect(
        &rt,
        (batch.items(), teller.packed()),
        ([7, 9, 7].as_slice(), 0),
    );
    expect(&rt, teller.merge(&rt, 0, &batch), Ok(()));
    let mut parcel = Parcel {
        buffer: batch,
        told: Some(teller.told()),
    };
    parcel.buffer.clear();
    expect(&rt, (parcel.buffer.len(), parcel.told), (0, Some(3)));
    expect(&rt, reply(&teller), Reply { count: 2, theta: 9 });
    Ok(())
}

// Merges if no memory is taken, so that nothing is refused.
fn merge_surely<C: ThetaKind, R: Wait>(rt: &R, sketch: &mut C, from: u32, batch: &Buffer)
    requires few { (list : List Entry) × C.is_of sketch.old list
        × (length list + length batch.now.items ≤ 2 ^ 46) }
    ensures { (list : List Entry) → C.is_of sketch.old list
        → C.is_of sketch.new (list ++ tagged from batch.now.items) }
{
    let Ok(()) = sketch.merge(rt, from, batch) else {
        unreachable!();
    };
}

// What a kind of the k smallest says of a list.
fn reply<C: ThetaWord>(sketch: &C) -> Reply
    ensures { (list : List Entry) → C.is_of sketch.now list
        → (result.count, result.theta) ≡ unpacked (k_of (C.numbers sketch.now)) (packed_of (k_of (C.numbers sketch.now)) (items_of_entries list)) }
{
    unpack(sketch.packed(), sketch.k())
}

#[test]
#[tactic(auto, unfolding(sk_model::specs::Entries::items_of_entries))]
fn a_kind_of_theta_answers_count_and_theta(rt: HostRuntime) -> Result<(), Fail> {
    let mut sketch = Theta::new(rt.alloc(), 2)?;
    expect(
        &rt,
        reply(&sketch),
        Reply {
            count: 0,
            theta: ITEM_END,
        },
    );
    sketch.update(1);
    sketch.update(2);
    expect(&rt, reply(&sketch), Reply { count: 2, theta: 2 });
    expect(&rt, ThetaWord::k(&sketch), 2);
    Ok(())
}
