// Updates of a quantiles sketch alone, and of a hub over its versions.
use crate::updates::item_at;
use crate::versions;
use sk_compose::OutOfMemory;
use sk_quant::Quant;
use sk_quant::limits::MOST_ITEMS;
use sk_snap::QuantSetup;
use std::alloc::Global;
use std::sync::Wait;

// As many items in a level as `quantile` has by default.
const K: u32 = 128;

/// Updates a sketch `count` times.
pub fn sketch(alloc: Global, distinct: u64, count: u64) -> Result<(), OutOfMemory> {
    let mut sketch = Quant::new(alloc, K, 0)?;
    'update: for place in 0..count {
        if sketch.len() < MOST_ITEMS {
            sketch.update(item_at(place, distinct));
        }
    }
    Ok(())
}

/// Updates a hub `count` times.
pub fn hub<R: Wait>(rt: &R, alloc: Global, distinct: u64, count: u64) -> Result<(), OutOfMemory> {
    let setup = QuantSetup { k: K, key: 0 };
    versions::hub::<Quant, &R, R>(rt, rt, alloc, setup, distinct, count)
}
