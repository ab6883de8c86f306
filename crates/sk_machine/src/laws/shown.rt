//! From what a shared table shows to the whole machine.

ghost use Rattle.std.specs.Prelude.{ℕ, List};
ghost use Rattle.sk_model.specs.Entries.{Entry};
ghost use Rattle.sk_machine.specs.Coarse.{Coarse, Meets};
ghost use Rattle.sk_machine.specs.Shown.{AllKnowBeginnings, Whole};
ghost use Rattle.sk_machine.specs.declared.views.View.{View};

/// For each machine that a table shows, and that meets its invariant, there is a whole machine that meets
/// all eight parts, with the seats' views as its tokens.
pub fn shown_by()
    ensures { (hint packed : List Entry → ℕ) (n : ℕ) (m : Coarse) (views : List View) → Meets hint n m → AllKnowBeginnings n m views
        → Whole hint packed n m views }
{}
