//! What follows from the definitions alone.
ghost use Rattle.std.specs.Prelude.{◌≡◌, ℕ, List};
ghost use Rattle.sk_label.specs.Rules.{AreFine, whole_text};
ghost use Rattle.sk_panes.specs.Panes.{pane_rules, panes_text};
ghost use Rattle.sk_panes.specs.declared.plan.Plan.{Plan};

/// The whole text of lines none of which is refused has a pane for interval 0 and for each further one that a line lies
/// in, rising, each of all lines that lie in its last intervals.
pub fn the_text_is_of_the_lines()
    ensures { (plan : Plan) (lines : List (List ℕ)) → AreFine (pane_rules plan) lines → whole_text (pane_rules plan) lines ≡ panes_text plan lines }
{}

/// What is written, and which lines are refused, is the same for buffers of any size.
pub fn the_size_changes_nothing()
    ensures { (plan : Plan) (size : ℕ) → pane_rules (record plan { size = size }) ≡ pane_rules plan }
{}
