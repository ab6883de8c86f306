//! What a heart knows of the updaters that it took in, by the definitions alone.
ghost use Rattle.std.specs.Prelude.{◌≡◌, ◌≢◌, ℕ, List};
ghost use Rattle.sk_model.specs.Entries.{Entry, entries_by};
ghost use Rattle.sk_hub.specs.Drains.{IsDrained, HasTakenIn};
ghost use Rattle.sk_hub.specs.Hearts.{HeartState};
ghost use Rattle.sk_hub.specs.Replies.{IsRelaxedReply, HasDrained};
ghost use Rattle.sk_hub.specs.Rounds.{KnowsAsMuch};
ghost use Rattle.sk_hub.specs.Updaters.{UpdaterState, kept_of};

/// An updater that was drained is taken in.
pub fn drained_is_taken_in()
    ensures { (h h' : HeartState) (u : UpdaterState) → IsDrained h u h' → HasTakenIn h' u }
{}

/// An updater that was taken in stays so, whatever the heart does later: it may drain others, in any order, serve
/// or sweep, ask, give out a told value, or admit.
pub fn taken_in_stays()
    ensures drained { (h h' : HeartState) (u v : UpdaterState) → IsDrained h v h' → v.number ≢ u.number → HasTakenIn h u → HasTakenIn h' u }
    ensures served { (h h' : HeartState) (u : UpdaterState) → KnowsAsMuch h.view h'.view → HasTakenIn h u → HasTakenIn h' u }
    ensures asked { (packed_of : List ℕ → List Entry → ℕ) (h h' : HeartState) (word : ℕ) (u : UpdaterState)
        → IsRelaxedReply packed_of h.view word h'.view → HasTakenIn h u → HasTakenIn h' u }
    ensures same { (h h' : HeartState) (u : UpdaterState) → h'.view ≡ h.view → HasTakenIn h u → HasTakenIn h' u }
{}

/// An ask of the heart is of a list that has exactly what each updater kept that was taken in before.
pub fn an_ask_has_what_was_taken_in()
    ensures { (h h' : HeartState) (u : UpdaterState) → HasDrained h.view h'.view → HasTakenIn h u → entries_by u.number h'.view.seen ≡ kept_of u }
{}
