// Desks that take stretches of lines, each its blocks of them.
ghost use Rattle.std.specs.Prelude.{◌≡◌, ◌≤◌, length, map, All, IfOk};
ghost use Rattle.sk_model.specs.Limits.{most_updaters};
ghost use Rattle.sk_fill.specs.Windows.{all_lines};
ghost use Rattle.sk_desks.specs.Feeds.{seed_of, IsReadyFor, TakeBlocks};

use crate::feed::feed_blocks;
use sk_feed::TakesStretches;
use sk_fill::{Stretch, Window};
use sk_model::OutOfMemory;
use sk_read::Kind;
use sk_tenant::Desk;
use std::alloc::Global;
use std::sync::Wait;

/// A desk in a lane.
#[derive(Drop)]
pub(crate) struct DeskTaker {
    pub(crate) desk: Desk,
}

// By the kind it is known by which seed items are hashed.
impl TakesStretches for DeskTaker {
    ghost use Rattle.std.specs.Prelude.{false};
    ghost use Rattle.sk_fill.specs.Blocks.{blocks_of};
    ghost use Rattle.sk_desks.specs.Feeds.{seed_of, HasRoomAfter, TakesLines};

    ghost TAKES_MEMORY = { false };

    ghost took = { λ kind i n t u windows. TakesLines (seed_of kind) t.desk (blocks_of windows i n) u.desk };

    ghost keeps_at_most = { λ t count. HasRoomAfter count t.desk };

    fn take<R: Wait>(
        &mut self,
        rt: &R,
        windows: &[Window],
        kind: Kind,
        i: usize,
        n: usize,
    ) -> Result<bool, OutOfMemory> {
        feed_blocks(rt, &mut self.desk, windows, i, n, seed_of(kind));
        Ok(true)
    }
}

/// The seed by which a kind hashes; a kind that does not has 0.
pub(crate) fn seed_of(kind: Kind) -> u32
    ensures { result ≡ seed_of kind }
{
    match kind {
        Kind::Hash(seed) => seed,
        Kind::Raw => 0,
    }
}

/// Desks as takers, in order.
pub(crate) fn takers_of(alloc: Global, desks: Vec<Desk>) -> Result<Vec<DeskTaker>, OutOfMemory>
    ensures { IfOk result (λ takers. map (λ t. t.desk) takers.items ≡ desks.items) }
{
    let mut takers = Vec::new(alloc);
    'desk: for desk in desks {
        takers.push(DeskTaker { desk })?;
    }
    Ok(takers)
}

/// The desks of takers, in order.
pub(crate) fn desks_of(alloc: Global, takers: Vec<DeskTaker>) -> Result<Vec<Desk>, OutOfMemory>
    ensures { IfOk result (λ desks. desks.items ≡ map (λ t. t.desk) takers.items) }
{
    let mut desks = Vec::new(alloc);
    'taker: for taker in takers {
        desks.push(taker.desk)?;
    }
    Ok(desks)
}

/// Feeds a stretch to desks, one after another: to each its block of each window.
pub(crate) fn feed_in_turn<R: Wait>(
    rt: &R,
    takers: &mut Vec<DeskTaker>,
    stretch: &Stretch,
    seed: u32,
)
    requires few { length takers.old.items ≤ most_updaters }
    requires room { All (λ t. IsReadyFor (length (all_lines stretch.now.windows)) t.desk) takers.old.items }
    ensures { TakeBlocks seed (map (λ t. t.desk) takers.old.items) stretch.now.windows (map (λ t. t.desk) takers.new.items) }
{
    let n = takers.len();
    'taker: for i in 0..n {
        let taker = &mut takers[i];
        feed_blocks(rt, &mut taker.desk, stretch.windows(), i, n, seed);
    }
}
