// The sketch alone over a source's items: what `count` would be without a hub.
use sk_heap::HeapTheta;
use sk_io::Source;
use sk_model::limits::SOURCE_LIMIT;
use sk_read::{Fault, Intake, Kind, read_items};
use std::alloc::Global;

// As many hashes as `count` keeps by default.
const K: u32 = 4_096;

/// The estimate of a source's items, as a numerator and a denominator.
pub fn count<S: Source>(alloc: Global, kind: Kind, source: &mut S) -> Result<(u128, u64), Fault> {
    let mut sketch = HeapTheta::new(alloc, K)?;
    let intake = Intake {
        kind,
        column: 0,
        window: 1,
        interim: false,
        propagator: false,
        most: SOURCE_LIMIT,
    };
    read_items(alloc, &intake, source, &mut sketch)?;
    Ok(sketch.fraction())
}
