ghost use Rattle.std.specs.Prelude.{◌≡◌, ◌≤◌, length, IfOk};
ghost use Rattle.sk_cms.specs.Estimate.{least_of};
ghost use Rattle.sk_cms.specs.Limits.{most_counted, IsShape};

use sk_cms::CountMin;
use sk_model::OutOfMemory;
use std::alloc::Global;
use std::process::Abort;
use std::test::Fail;

// Twelve numbers, 7 three times.
const NUMBERS: [u64; 12] = [1, 2, 3, 4, 5, 6, 7, 8, 9, 10, 7, 7];

// How often an item stands in a list, by a sketch of it. Its clause is what a caller concludes from those of the calls.
fn estimate(alloc: Global, rows: u32, width: u32, items: &[u64], x: u64) -> Result<u64, OutOfMemory>
    requires shape { IsShape rows width }
    requires few { length items.now ≤ most_counted }
    ensures { IfOk result (λ n. n ≡ least_of rows width x items.now) }
{
    let mut sketch = CountMin::new(alloc, rows, width)?;
    'feed: for item in items {
        sketch.update(*item);
    }
    Ok(sketch.least(x))
}

fn expect(rt: &impl Abort, got: u64, want: u64) {
    assert_eq!(rt; got, want);
}

// What another program, whose MurmurHash3 has the published verification value, counts in the cells of these lists.
#[test]
fn items_share_the_cells_that_another_program_gives_them(rt: HostRuntime) -> Result<(), Fail> {
    let alloc = rt.alloc();
    expect(&rt, estimate(alloc, 1, 7, &NUMBERS, 1)?, 5);
    expect(&rt, estimate(alloc, 2, 7, &NUMBERS, 1)?, 2);
    expect(&rt, estimate(alloc, 2, 7, &NUMBERS, 7)?, 4);
    expect(&rt, estimate(alloc, 3, 7, &NUMBERS, 5)?, 1);
    expect(&rt, estimate(alloc, 3, 7, &NUMBERS, 11)?, 0);
    expect(&rt, estimate(alloc, 4, 64, &NUMBERS, 7)?, 3);
    Ok(())
}

// The sixteenth row alone tells 4 from the others.
#[test]
fn the_last_row_counts(rt: HostRuntime) -> Result<(), Fail> {
    let alloc = rt.alloc();
    expect(&rt, estimate(alloc, 15, 2, &[1, 2, 3, 4, 5, 6, 7], 4)?, 3);
    expect(&rt, estimate(alloc, 16, 2, &[1, 2, 3, 4, 5, 6, 7], 4)?, 1);
    Ok(())
}

// 1 shares its cell of the first row with one of these numbers, at each of these widths.
#[test]
fn rows_are_as_wide_as_they_may_be(rt: HostRuntime) -> Result<(), Fail> {
    let alloc = rt.alloc();
    expect(&rt, estimate(alloc, 16, 1, &NUMBERS, 11)?, 12);
    expect(&rt, estimate(alloc, 16, 1_048_576, &NUMBERS, 7)?, 3);
    expect(&rt, estimate(alloc, 1, 1_048_576, &[1, 1_139_356], 1)?, 2);
    expect(&rt, estimate(alloc, 2, 1_048_576, &[1, 1_139_356], 1)?, 1);
    expect(&rt, estimate(alloc, 1, 1_048_575, &[1, 1_803_903], 1)?, 2);
    Ok(())
}
