//! What follows from the definitions alone.
ghost use Rattle.std.specs.Prelude.{◌≡◌, ◌≤◌, ◌++◌, ◌∷◌, [], ℕ, List, All, length};
ghost use Rattle.sk_model.specs.Sketch.{theta_of};
ghost use Rattle.sk_model.specs.Width.{IsItem};
ghost use Rattle.sk_theta.specs.declared.reply.Reply.{Reply};
ghost use Rattle.sk_hub.specs.Updaters.{UpdaterState};
ghost use Rattle.sk_snap.specs.Versions.{Learnt};
ghost use Rattle.sk_learn.specs.Learning.{LearnsFirst, ReaderGoesOn};
ghost use Rattle.sk_window.specs.Replies.{LacksTwoBuffers};
ghost use Rattle.sk_window.specs.Intervals.{IsReplyOf, all_items, with_closed, with_skipped};

/// An item that is not below theta of a list of its interval may be left out of that interval, whatever was kept before
/// and after it: each reply that is of the interval stays the same.
pub fn filtered_items_change_no_reply()
    ensures { (k item : ℕ) (earlier list more rest later : List ℕ) (reply : Reply) → IsItem item → theta_of k list ≤ item
        → IsReplyOf k (earlier ++ (((list ++ more) ++ item ∷ rest) ++ later)) reply
        → IsReplyOf k (earlier ++ (((list ++ more) ++ rest) ++ later)) reply }
{}

/// Of what an updater that held a told value had kept when a reader learnt it, at most what two buffers hold is missing
/// from what the reader knows at any time after that.
pub fn replies_lack_two_buffers()
    ensures { (r s t : Learnt) (us : List UpdaterState) → LearnsFirst r us (length us) s → ReaderGoesOn s t → All (LacksTwoBuffers t) us }
{}

/// Of two closed intervals the older one goes when another is closed, and both when two are skipped.
pub fn the_oldest_interval_goes()
    ensures closed { with_closed ((1 ∷ []) ∷ (2 ∷ []) ∷ []) (3 ∷ []) ≡ (2 ∷ []) ∷ (3 ∷ []) ∷ [] }
    ensures skipped { with_skipped ((1 ∷ []) ∷ (2 ∷ []) ∷ []) 1 ≡ (2 ∷ []) ∷ [] ∷ [] }
    ensures all { with_skipped ((1 ∷ []) ∷ (2 ∷ []) ∷ []) 5 ≡ [] ∷ [] ∷ [] }
    ensures items { all_items ((1 ∷ []) ∷ (2 ∷ []) ∷ []) ≡ 1 ∷ 2 ∷ [] }
{}
