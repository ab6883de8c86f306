//! The hub of an interval.
ghost use Rattle.std.specs.Prelude.{IfOk};
ghost use Rattle.sk_window.specs.Hubs.{IsFresh};

use sk_hub::{Heart, Opened, Updater, open};
use sk_model::OutOfMemory;
use sk_snap::{ThetaReader, VersionedTheta};
use sk_theta::Shape;
use std::alloc::Global;
use std::sync::Wait;

// Its heart and updaters, and the reader of its sketch.
#[derive(Drop)]
pub struct Hub<'r, R: Wait> {
    pub heart: Heart<VersionedTheta<&'r R>>,
    pub updaters: Vec<Updater<VersionedTheta<&'r R>>>,
    pub reader: ThetaReader,
}

// A hub of which nobody has kept anything.
pub(crate) fn open_hub<'r, R: Wait>(
    rt: &'r R,
    alloc: Global,
    shape: &Shape,
) -> Result<Hub<'r, R>, OutOfMemory>
    ensures fresh { IfOk result (λ hub. IsFresh shape.now hub.heart hub.updaters.items hub.reader) }
{
    let (sketch, reader) = VersionedTheta::new(alloc, rt, shape.k())?;
    let Opened {
        heart,
        updaters,
        token: _,
    } = open(alloc, shape, sketch)?;
    Ok(Hub {
        heart,
        updaters,
        reader,
    })
}
