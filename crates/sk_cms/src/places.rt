//! Where the cells of items lie, which is the same in all sketches of a shape.
ghost use Rattle.std.specs.Prelude.{◌≡◌, ◌+◌, ◌≤◌, ◌++◌, flat_map, vec_len, vec_capacity, IfOk, OnOk};
ghost use Rattle.sk_cms.specs.Counts.{IsMaskOf};
ghost use Rattle.sk_cms.specs.Limits.{IsShape};
ghost use Rattle.sk_cms.specs.Places.{places_of, ArePlacesOf};

use crate::limits::{MOST_ROWS, MOST_WIDTH};
use crate::sketch::place;
use sk_model::OutOfMemory;
use std::alloc::Global;

// A sketch has at most this many cells.
const MOST_CELLS: usize = MOST_ROWS as usize * MOST_WIDTH as usize;

/// Where the cells of items lie in sketches of a shape, one item after another.
#[derive(Drop)]
pub struct Places {
    pub(crate) rows: u32,
    pub(crate) width: u32,
    pub(crate) places: Vec<u32>,
}

// Finds the places of items.
pub(crate) fn find_places(
    alloc: Global,
    rows: u32,
    width: u64,
    mask: u64,
    items: &[u64],
) -> Result<Vec<u32>, OutOfMemory>
    requires shape { IsShape rows width }
    requires mask { IsMaskOf width mask }
    ensures { IfOk result (λ places. ArePlacesOf rows width items.now places.items) }
{
    let Some(count) = items.len().checked_mul(rows as usize) else {
        return Err(OutOfMemory);
    };
    let mut places = Vec::with_capacity(alloc, count)?;
    'item: for x in items {
        push_places(&mut places, rows, width, mask, *x)?;
    }
    Ok(places)
}

// Puts the places of an item to the end of others. Four rows are common, and as a fixed number of turns they take a
// third less time than as any number.
#[inline(always)]
fn push_places(
    places: &mut Vec<u32>,
    rows: u32,
    width: u64,
    mask: u64,
    x: u64,
) -> Result<(), OutOfMemory>
    requires shape { IsShape rows width }
    requires mask { IsMaskOf width mask }
    requires room { vec_len places.old + rows ≤ vec_capacity places.old }
    ensures places { OnOk result (places.new.items ≡ places.old.items ++ places_of rows width x) }
    ensures len { OnOk result (vec_len places.new ≡ vec_len places.old + rows) }
    ensures capacity { vec_capacity places.new ≡ vec_capacity places.old }
{
    if rows == 4 {
        push_rows(places, 4, width, mask, x)
    } else {
        push_rows(places, rows, width, mask, x)
    }
}

// The same by a loop over the rows. No place is past the last cell, but without the test LLVM would hash several rows at a
// time, by products of halves, which takes longer.
#[inline(always)]
fn push_rows(
    places: &mut Vec<u32>,
    rows: u32,
    width: u64,
    mask: u64,
    x: u64,
) -> Result<(), OutOfMemory>
    requires shape { IsShape rows width }
    requires mask { IsMaskOf width mask }
    requires room { vec_len places.old + rows ≤ vec_capacity places.old }
    ensures places { OnOk result (places.new.items ≡ places.old.items ++ places_of rows width x) }
    ensures len { OnOk result (vec_len places.new ≡ vec_len places.old + rows) }
    ensures capacity { vec_capacity places.new ≡ vec_capacity places.old }
{
    'row: for r in 0..rows {
        let at = place(width, mask, r, x);
        if at >= MOST_CELLS {
            return Err(OutOfMemory);
        }
        places.push_reserved(at as u32);
    }
    Ok(())
}
