//! What the calls of panes return.
use crate::panes::Panes;
use sk_hub::Updater;
use sk_snap::VersionedTheta;
use sk_theta::Reply;
use std::sync::Wait;

/// The updaters of a hub over the sketch of an interval.
pub type Updaters<'r, R> = Vec<Updater<VersionedTheta<&'r R>>>;

/// Panes as they begin, with the updaters of interval 0.
#[derive(Drop)]
pub struct Started<'r, R: Wait> {
    pub panes: Panes<'r, R>,
    pub updaters: Updaters<'r, R>,
}

/// What a moment leads to.
#[derive(Drop)]
pub enum Advance<'r, R: Wait> {
    /// It lies in the running interval, of which these are the updaters.
    Same(Updaters<'r, R>),
    /// It lies in an earlier interval.
    Back(Updaters<'r, R>),
    /// The running interval was closed, with this reply; these updaters are of the moment's interval.
    Moved(Reply, Updaters<'r, R>),
    /// These updaters were not taken in. A later call with them continues.
    OutOfMemory(Updaters<'r, R>),
}

/// How the last interval is closed.
#[derive(Drop)]
pub enum Finish<'r, R: Wait> {
    /// It was, with this reply.
    Done(Reply),
    /// These updaters were not taken in. A later call with them continues.
    OutOfMemory(Updaters<'r, R>),
}
