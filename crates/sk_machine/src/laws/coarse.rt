//! The machine that a shared table shows: its invariant holds at the start, each event keeps it, and what
//! is missing from the published list is bounded.

ghost use Rattle.std.specs.Prelude.{◌≡◌, ◌≢◌, ◌+◌, ◌*◌, ◌<◌, ◌≤◌, ℕ, List, [], ◌++◌, length, Bool, true};
ghost use Rattle.sk_model.specs.Entries.{Entry, entries_by};
ghost use Rattle.sk_model.specs.Missing.{Begins, LacksAtMost};
ghost use Rattle.sk_machine.specs.Coarse.{most_entries, Coarse, MayRest, IsBatch, Meets, coarse_start, after_look, after_hand, after_rest, after_find, after_publish, after_give_back, after_turn, after_yield, after_admit};
ghost use Rattle.sk_machine.specs.declared.views.Stage.TheVariants.{Idle, Busy, Published};
ghost use Rattle.sk_model.specs.Width.{AreItems};
ghost use Rattle.sk_model.specs.Limits.{most_updaters, most_kept};

/// Whoever holds the turn, and whoever is admitted, the machine starts within its invariant.
pub fn the_start_meets_it()
    ensures { (hint : List Entry → ℕ) (n : ℕ) (sizes : ℕ → ℕ) (turn : ℕ) → hint [] ≢ 0 → turn ≤ n + 1
        → Meets hint n (coarse_start hint sizes turn) }
{}

/// The events of an updater.
pub fn updaters_keep_it()
    ensures look { (hint : List Entry → ℕ) (n : ℕ) (m : Coarse) (i : ℕ) → Meets hint n m → i < n
        → m.sizes i ≢ 0 → (m.updaters i).word ≢ 0 → Meets hint n (after_look i m) }
    ensures hand { (hint : List Entry → ℕ) (n : ℕ) (m : Coarse) (i : ℕ) (batch : List ℕ) → Meets hint n m → i < n
        → m.sizes i ≢ 0 → (m.updaters i).mine.ready ≡ true → IsBatch (m.sizes i) batch → AreItems batch
        → length (m.updaters i).mine.handed + length batch ≤ most_kept → Meets hint n (after_hand i batch m) }
    ensures rest { (hint : List Entry → ℕ) (n : ℕ) (m : Coarse) (i : ℕ) (picked : Bool) → Meets hint n m → i < n
        → (m.updaters i).mine.ready ≡ true → Meets hint n (after_rest i picked m) }
    ensures admit { (hint : List Entry → ℕ) (n : ℕ) (m : Coarse) (i b : ℕ) → Meets hint n m → i < n
        → m.sizes i ≡ 0 → 1 ≤ b → Meets hint n (after_admit i b m) }
{}

/// The events of whoever propagates.
pub fn propagators_keep_it()
    ensures find { (hint : List Entry → ℕ) (n : ℕ) (m : Coarse) (i : ℕ) → Meets hint n m → i < n
        → m.stage ≡ Idle → (m.updaters i).word ≡ 0 → Meets hint n (after_find i m) }
    ensures publish { (hint : List Entry → ℕ) (n : ℕ) (m : Coarse) (i : ℕ) (batch : List ℕ) → Meets hint n m
        → m.turn ≢ 0 → m.stage ≡ Busy i batch → Meets hint n (after_publish i batch m) }
    ensures give_back { (hint : List Entry → ℕ) (n : ℕ) (m : Coarse) (i word : ℕ) → Meets hint n m
        → m.stage ≡ Published i → word ≡ hint m.published → word ≢ 0 → Meets hint n (after_give_back i word m) }
    ensures turn { (hint : List Entry → ℕ) (n : ℕ) (m : Coarse) (s : ℕ) → Meets hint n m → s ≤ n → Meets hint n (after_turn s m) }
    ensures yields { (hint : List Entry → ℕ) (n : ℕ) (m : Coarse) → Meets hint n m → MayRest m.stage → Meets hint n (after_yield m) }
{}

/// The published list is a beginning of what an updater handed over, and lacks at most one of its buffers;
/// of what it kept, at most two.
pub fn missing_is_bounded()
    ensures beginning { (hint : List Entry → ℕ) (n : ℕ) (m : Coarse) (i : ℕ) → Meets hint n m → i < n
        → Begins (entries_by i m.published) (m.updaters i).mine.handed }
    ensures handed { (hint : List Entry → ℕ) (n : ℕ) (m : Coarse) (i : ℕ) → Meets hint n m → i < n
        → LacksAtMost (m.updaters i).mine.handed (entries_by i m.published) (m.sizes i) }
    ensures known { (hint : List Entry → ℕ) (n : ℕ) (m : Coarse) (i : ℕ) (known : List ℕ) → Meets hint n m → i < n
        → Begins known (m.updaters i).mine.handed → LacksAtMost known (entries_by i m.published) (m.sizes i) }
    ensures kept { (hint : List Entry → ℕ) (n : ℕ) (m : Coarse) (i : ℕ) (more : List ℕ) → Meets hint n m → i < n
        → length more ≤ m.sizes i → LacksAtMost ((m.updaters i).mine.handed ++ more) (entries_by i m.published) (2 * m.sizes i) }
{}

/// The published list and a batch that is found are few entries together.
pub fn entries_are_few()
    ensures { (hint : List Entry → ℕ) (n : ℕ) (m : Coarse) (i : ℕ) (batch : List ℕ) → Meets hint n m → n ≤ most_updaters
        → m.stage ≡ Busy i batch → length m.published + length batch ≤ most_entries }
{}
