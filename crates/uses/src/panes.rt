//! Distinct items of the last intervals, asked for while one of them runs.
ghost use Rattle.std.specs.Prelude.{◌≡◌, ◌≤◌, ◌==◌, ◌&&◌, [], ℕ, List, length, map, All, IfOk};
ghost use Rattle.sk_hub.specs.Updaters.{UpdaterState};
ghost use Rattle.sk_model.specs.Limits.{most_kept};
ghost use Rattle.sk_model.specs.Width.{AreItems, item_end};
ghost use Rattle.sk_learn.specs.Closing.{AreApart};
ghost use Rattle.sk_learn.specs.Learning.{AreAsked};
ghost use Rattle.sk_snap.specs.History.{name_of};
ghost use Rattle.sk_window.specs.Hubs.{IsFresh, IsFreshUpdater};
ghost use Rattle.sk_window.specs.Intervals.{StandForEach};
ghost use Rattle.sk_window.specs.Panes.{HasTaken};
ghost use Rattle.uses.specs.Replies.{EndsWith, RepliesNow, RepliesOf};

use crate::streams::feed_streams;
use sk_hub::Updater;
use sk_model::OutOfMemory;
use sk_snap::VersionedTheta;
use sk_theta::Reply;
use sk_window::laws::replies_lack_two_buffers;
use sk_window::{Finish, Panes, Updaters};
use std::sync::Wait;
use std::thread::Threads;

/// How many distinct items the last intervals have so far. Of what an updater had kept by now, at most the last two
/// buffers are missing, if a merge made something known to it.
pub fn reply_now<'r, R: Wait>(
    panes: &mut Panes<'r, R>,
    updaters: &mut [Updater<VersionedTheta<&'r R>>],
) -> Result<Reply, OutOfMemory>
    requires names { All (λ (u : UpdaterState). u.view.name ≡ name_of panes.old.learnt.known.book)
        updaters.old }
    ensures reply { (lists : List (List ℕ)) → StandForEach panes.old.shape.k panes.old.closed lists
        → IfOk result (λ reply. RepliesNow panes.old.shape.k updaters.old lists reply) }
    ensures asked { AreAsked updaters.old (length updaters.old) updaters.new }
    ensures stays { panes.new ≡ record panes.old { learnt = panes.new.learnt } }
{
    panes.learn(updaters);
    // It shows the proof what the reader lacks at most.
    replies_lack_two_buffers();
    panes.reply()
}

/// Whether a new updater of the running interval hands over each item that it keeps: if the panes are eager, as long as
/// its hint is that of a short stream.
pub fn hands_over_each<'r, R: Wait>(
    panes: &Panes<'r, R>,
    updater: &Updater<VersionedTheta<&'r R>>,
) -> bool
    requires fresh { IsFreshUpdater panes.now.shape panes.now.heart panes.now.learnt updater.now }
    ensures eager { result ≡ (panes.now.shape.eager && (updater.now.hint == item_end)) }
{
    updater.is_eager()
}

/// Feeds each stream to a new updater of the running interval, in a thread of its own, and replies.
pub fn feed_and_reply<'r, R: Threads + Wait + Sync>(
    rt: &'r R,
    panes: &mut Panes<'r, R>,
    updaters: Updaters<'r, R>,
    streams: &[Vec<u64>],
) -> Result<(Reply, Updaters<'r, R>), OutOfMemory>
    requires fresh { IsFresh panes.old.shape panes.old.heart updaters.items panes.old.learnt }
    requires count { length streams.now ≡ length updaters.items }
    requires items { All (λ stream. AreItems stream.items) streams.now }
    requires room { All (λ stream. length stream.items ≤ most_kept) streams.now }
    ensures reply { (lists : List (List ℕ)) → StandForEach panes.old.shape.k panes.old.closed lists
        → IfOk result (λ made. RepliesOf panes.old.shape.k updaters.entry.items
        (map (λ stream. stream.items) streams.now) lists made.0) }
    ensures tables { IfOk result (λ made. All (λ (u : UpdaterState). u.table ≡ panes.new.heart.table) made.1.items) }
    ensures apart { IfOk result (λ made. AreApart made.1.items) }
    ensures stays { panes.new ≡ record panes.old { learnt = panes.new.learnt } }
{
    let mut updaters = feed_streams(rt, updaters, streams);
    let reply = reply_now(panes, updaters.as_mut_slice())?;
    Ok((reply, updaters))
}

/// Closes the last interval, and tries once more if memory runs out: the reply is of all that the updaters kept, and of
/// the intervals before it, whether memory ran out in between or not.
pub fn finish_again<'r, R: Wait>(
    panes: &mut Panes<'r, R>,
    updaters: Updaters<'r, R>,
) -> Result<Reply, OutOfMemory>
    requires tables { All (λ (u : UpdaterState). u.table ≡ panes.old.heart.table) updaters.items }
    requires apart { AreApart updaters.items }
    requires none { HasTaken panes.old [] }
    ensures reply { (lists : List (List ℕ)) → StandForEach panes.old.shape.k panes.old.closed lists
        → IfOk result (EndsWith panes.old.shape.k updaters.entry.items lists) }
{
    let left = match panes.finish(updaters) {
        Finish::Done(reply) => return Ok(reply),
        Finish::OutOfMemory(left) => left,
    };
    let Finish::Done(reply) = panes.finish(left) else {
        return Err(OutOfMemory);
    };
    Ok(reply)
}
