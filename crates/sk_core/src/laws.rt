//! Laws of all schedules. Each function is empty: its contract is the law.

ghost use Rattle.std.specs.Prelude.{◌≤◌, ℕ, List};
ghost use Rattle.sk_machine.specs.Fine.{Fine, IsLive, MayOffer};
ghost use Rattle.sk_core.specs.Events.{answer_of};
ghost use Rattle.sk_core.specs.Reached.{AreEnabled, after_all, answers_of, IsReached};
ghost use Rattle.sk_core.specs.Runs.{MeetsAll, IsRelaxedReply, IsFilteredByHint, IsRun};
ghost use Rattle.sk_core.specs.declared.event.Event.{Event};
ghost use Rattle.sk_core.specs.declared.event.Event.TheVariants.{Offer, Ask};

/// Each machine that enabled events lead to meets the invariant. An ask there is answered by a relaxed reply,
/// an offer is filtered exactly where it can change nothing, and whatever enabled events follow are a run.
pub fn events_keep_the_invariant()
    ensures invariant { (k : ℕ) (f : Fine) → 2 ≤ k → IsReached k f → MeetsAll k f }
    ensures asks { (k t : ℕ) (f : Fine) → 2 ≤ k → IsReached k f → IsLive t f
        → IsRelaxedReply k t f (answer_of k (Ask t) f) }
    ensures offers { (k i item : ℕ) (f : Fine) → 2 ≤ k → IsReached k f → MayOffer i item f
        → IsFilteredByHint k i item f (answer_of k (Offer i item) f) }
    ensures runs { (k : ℕ) (events : List Event) (f : Fine) → 2 ≤ k → IsReached k f → AreEnabled k events f
        → IsRun k events (answers_of k events f) f (after_all k events f) }
{}
