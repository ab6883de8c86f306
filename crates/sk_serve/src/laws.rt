//! What follows from how a server went, for a caller that says it of a whole run: also if a write of
//! what is due fails in the end.
ghost use Rattle.std.specs.Prelude.{◌≡◌, ℕ, ◌<◌, List, length, slice_index_or};
ghost use Rattle.sk_io.specs.Traffic.{Doorway};
ghost use Rattle.sk_model.specs.Entries.{items_of_entries};
ghost use Rattle.sk_model.specs.Sketch.{estimate_of};
ghost use Rattle.sk_hub.specs.Hearts.{HeartState};
ghost use Rattle.sk_serve.specs.declared.plan.ServePlan.{ServePlan};
ghost use Rattle.sk_serve.specs.Headline.{SharesList};
ghost use Rattle.sk_serve.specs.Plans.{IsServable};
ghost use Rattle.sk_serve.specs.Served.{Served, ServesSessions, all_offered};

/// All sessions share the list that the heart saw: it has of each exactly the items of the adds that were
/// answered `kept`, its answers are of this one list, each `busy` had a cause in what was kept, and its
/// link's record holds its replies.
pub fn sessions_share_a_list()
    ensures { (plan : ServePlan) (most : ℕ) (before now : Doorway) (sessions : List Served) (h : HeartState) → ServesSessions plan most before now sessions h
        → (i : ℕ) (d : Served) → i < length sessions → SharesList plan most i (slice_index_or sessions i d) h.view.seen }
{}

/// The estimate of that list is one thread's, over the items of all adds of all sessions that were
/// answered `kept` or `filtered`.
pub fn the_estimate_is_of_all_that_was_offered()
    ensures { (plan : ServePlan) (most : ℕ) (before now : Doorway) (sessions : List Served) (h : HeartState) → IsServable plan → ServesSessions plan most before now sessions h
        → estimate_of plan.k (items_of_entries h.view.seen) ≡ estimate_of plan.k (all_offered plan.seed sessions) }
{}
