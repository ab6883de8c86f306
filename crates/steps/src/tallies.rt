// Updates of a Count-Min sketch alone, and of a hub over its versions.
use crate::updates::item_at;
use crate::versions;
use sk_cms::limits::MOST_COUNTED;
use sk_cms::{CmsSetup, CountMin};
use sk_compose::OutOfMemory;
use std::alloc::Global;
use std::sync::Wait;

// Rows that fill half a megabyte each.
const ROWS: u32 = 4;

const WIDTH: u32 = 65_536;

/// Updates a sketch `count` times.
pub fn sketch(alloc: Global, distinct: u64, count: u64) -> Result<(), OutOfMemory> {
    let mut sketch = CountMin::new(alloc, ROWS, WIDTH)?;
    'update: for place in 0..count {
        if sketch.len() < MOST_COUNTED {
            sketch.update(item_at(place, distinct));
        }
    }
    Ok(())
}

/// Updates a hub `count` times.
pub fn hub<R: Wait>(rt: &R, alloc: Global, distinct: u64, count: u64) -> Result<(), OutOfMemory> {
    let setup = CmsSetup {
        rows: ROWS,
        width: WIDTH,
    };
    versions::hub::<CountMin, &R, R>(rt, rt, alloc, setup, distinct, count)
}
