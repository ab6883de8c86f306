//! How often an item stands in streams: the Count-Min sketch in a hub, and a reader next to its updaters.
ghost use Rattle.std.specs.Prelude.{◌≡◌, ◌≤◌, ℕ, List, [], length, map, flat_map, All, IfOk};
ghost use Rattle.sk_cms.specs.Limits.{IsShape};
ghost use Rattle.sk_cms.specs.Tallies.{IsTally};
ghost use Rattle.sk_model.specs.Limits.{most_kept};
ghost use Rattle.sk_model.specs.Width.{AreItems};
ghost use Rattle.sk_snap.specs.History.{entries_in, name_of};
ghost use Rattle.uses.specs.Tallied.{HaveKept, IsTallyMeanwhile};

use crate::streams::feed_streams;
use sk_cms::laws::{a_tally_is_of_all_items, never_falls};
use sk_cms::{CmsSetup, Least, Tally, VersionedCms};
use sk_hub::{Heart, Opened, Updater, open};
use sk_learn::{close, learn_all};
use sk_model::OutOfMemory;
use sk_theta::Shape;
use std::alloc::Global;
use std::sync::Wait;
use std::thread::Threads;

/// What a reader said of an item: next to the updaters that were fed, and after they were taken in.
#[derive(Clone, Copy, Debug, PartialEq, Eq)]
pub struct HowOften {
    pub meanwhile: Tally,
    pub last: Tally,
}

/// Feeds each stream to an updater in a thread of its own. Then a reader learns what merges made known to the updaters,
/// and says how often `x` stands in what it knows; and when all is taken in, how often `x` stands in all streams.
pub fn how_often<R: Threads + Wait + Sync>(
    rt: &R,
    alloc: Global,
    shape: &Shape,
    setup: CmsSetup,
    streams: &[Vec<u64>],
    x: u64,
) -> Result<HowOften, OutOfMemory>
    requires setup { IsShape setup.rows setup.width }
    requires count { length streams.now ≡ shape.now.n }
    requires items { All (λ stream. AreItems stream.items) streams.now }
    requires room { All (λ stream. length stream.items ≤ most_kept) streams.now }
    ensures meanwhile { IfOk result (λ often. IsTallyMeanwhile x setup.rows setup.width shape.now.b
        (map (λ stream. stream.items) streams.now) often.meanwhile.n often.meanwhile.least) }
    ensures grows { IfOk result (λ often. (often.meanwhile.n ≤ often.last.n)
        × (often.meanwhile.least ≤ often.last.least)) }
    ensures last { IfOk result (λ often. IsTally x setup.rows setup.width
        (flat_map (λ stream. stream.items) streams.now) often.last.n often.last.least) }
{
    let (sketch, mut reader) = VersionedCms::new(alloc, rt, setup)?;
    let (mut heart, mut updaters) = fed_hub(rt, alloc, shape, sketch, streams)?;
    learn_all(&mut reader, updaters.as_mut_slice());
    let meanwhile = reader.read(rt, Least { x });
    let last = close(rt, &mut heart, &mut updaters, &mut reader, Least { x })?;
    // These show the proof how the two compare, and that the last is of all items.
    never_falls();
    a_tally_is_of_all_items();
    Ok(HowOften { meanwhile, last })
}

// A hub over a sketch of no item, whose updaters were fed the streams.
fn fed_hub<R: Threads + Wait + Sync, W: Wait + Drop + Send>(
    rt: &R,
    alloc: Global,
    shape: &Shape,
    sketch: VersionedCms<W>,
    streams: &[Vec<u64>],
) -> Result<(Heart<VersionedCms<W>>, Vec<Updater<VersionedCms<W>>>), OutOfMemory>
    requires fresh { entries_in sketch.known ≡ [] }
    requires count { length streams.now ≡ shape.now.n }
    requires items { All (λ stream. AreItems stream.items) streams.now }
    requires room { All (λ stream. length stream.items ≤ most_kept) streams.now }
    ensures name { IfOk result (λ hub. hub.0.view.name ≡ name_of sketch.known.book) }
    ensures kept { IfOk result (λ hub. HaveKept hub.0 shape.now.b
        (map (λ stream. stream.items) streams.now) hub.1.items) }
{
    let Opened {
        heart,
        updaters,
        token: _,
    } = open(alloc, shape, sketch)?;
    Ok((heart, feed_streams(rt, updaters, streams)))
}
