//! Laws of what is due and what is refused.
ghost use Rattle.std.specs.Prelude.{◌≡◌, ℕ, ◌+◌, ◌<◌, None, All, List, ◌∷◌, ◌++◌, Option, Result, Ok};
ghost use Rattle.sk_cli.specs.Behaviour.{IsDecided, WritesOneText};
ghost use Rattle.sk_cli.specs.commands.Count.{counting};
ghost use Rattle.sk_cli.specs.commands.Hash.{hashing};
ghost use Rattle.sk_cli.specs.commands.Image.{imaging};
ghost use Rattle.sk_cli.specs.commands.Make.{making};
ghost use Rattle.sk_cli.specs.commands.Quantile.{ranking, numbers_in, TellsNear};
ghost use Rattle.sk_cli.specs.commands.Tally.{tallying};
ghost use Rattle.sk_cli.specs.commands.Tenants.{hosting};
ghost use Rattle.sk_cli.specs.commands.Window.{paning};
ghost use Rattle.sk_cli.specs.commands.Replay.{IsAnswered, IsNoMore, replaying};
ghost use Rattle.sk_count.specs.declared.plan.Plan.{Plan};
ghost use Rattle.sk_cli.specs.declared.commands.hash.HashPlan.{HashPlan};
ghost use Rattle.sk_cli.specs.declared.commands.image.ImagePlan.{ImagePlan};
ghost use Rattle.sk_cli.specs.declared.commands.make.MakePlan.{MakePlan};
ghost use Rattle.sk_cli.specs.declared.commands.tenants.TenantsPlan.{TenantsPlan};
ghost use Rattle.sk_panes.specs.declared.plan.Plan.{Plan as PanePlan};
ghost use Rattle.sk_tally.specs.declared.plan.Plan.{Plan as TallyPlan};
ghost use Rattle.sk_rank.specs.declared.plan.Plan.{Plan as RankPlan};
ghost use Rattle.sk_rank.specs.Texts.{rank_line};
ghost use Rattle.sk_model.specs.Lines.{lines_of};
ghost use Rattle.sk_quant.specs.Ranks.{rank_of};
ghost use Rattle.sk_read.specs.Items.{items_by, IsGood};
ghost use Rattle.sk_read.specs.declared.kind.Kind.TheVariants.{Raw};
ghost use Rattle.sk_cli.specs.Beside.{Beside};
ghost use Rattle.sk_cli.specs.Command.{Asked, over_text};
ghost use Rattle.sk_cli.specs.declared.command.Command.TheVariants as command;
ghost use Rattle.sk_cli.specs.Outside.{Outside};
ghost use Rattle.sk_cli.specs.Run.{Performs, TalliesText, EstimatesTenants, WritesPanes, exit_of};
ghost use Rattle.sk_cli.specs.Values.{Word};
ghost use Rattle.sk_cli.specs.Statuses.{ShowsAt};
ghost use Rattle.sk_cli.specs.declared.fault.Fault.{Fault};

/// A line that does not continue a schedule stands in none that was answered.
pub fn no_more_is_last()
    ensures { (lines : List (List ℕ)) (line : List ℕ) (rest : List (List ℕ)) (due : List ℕ) → IsNoMore lines line → ¬ IsAnswered (lines ++ line ∷ rest) due }
{}

/// A text is fine or refused in one way, and one text of hashes is due.
pub fn hash_decides()
    ensures decided { (plan : HashPlan) → IsDecided (hashing plan) }
    ensures one_text { (plan : HashPlan) → WritesOneText (hashing plan) }
{}

/// A schedule is fine or refused in one way, and is answered in one way.
pub fn replay_decides()
    ensures decided { IsDecided replaying }
    ensures one_text { WritesOneText replaying }
{}

/// A text is fine or refused in one way, and without a window one estimate is due.
pub fn count_decides()
    ensures decided { (plan : Plan) → IsDecided (counting plan) }
    ensures one_text { (plan : Plan) → plan.window ≡ None → WritesOneText (counting plan) }
{}

/// A text is fine or refused in one way, and one image is due.
pub fn image_decides()
    ensures decided { (plan : ImagePlan) → IsDecided (imaging plan) }
    ensures one_text { (plan : ImagePlan) → WritesOneText (imaging plan) }
{}

/// A text is fine or refused in one way. With one updater and no window one text is due: the line of the numbers in the
/// order of the lines, as one thread writes it.
pub fn quantile_decides()
    ensures decided { (plan : RankPlan) → IsDecided (ranking plan) }
    ensures one_text { (plan : RankPlan) → plan.updaters ≡ 1 → plan.window ≡ None → WritesOneText (ranking plan) }
    ensures one_line { (plan : RankPlan) → plan.updaters ≡ 1 → plan.window ≡ None
        → (from to : Beside) (text due : List ℕ) → (ranking plan).IsDue from to text due → due ≡ rank_line plan (items_by Raw (lines_of text)) }
{}

/// However many updaters there are, the last line has the number of all items, and how many of them are below the
/// plan's, up to the error that it gives.
pub fn quantile_is_near()
    ensures { (plan : RankPlan) → 0 < plan.updaters → (from to : Beside) (text due : List ℕ) → (ranking plan).IsDue from to text due
        → TellsNear plan (items_by Raw (lines_of text)) due }
{}

/// As many items of lines are below x + 1 as of the numbers that these lines spell are below x.
pub fn ranks_are_of_numbers()
    ensures { (lines : List (List ℕ)) (x : ℕ) → All (IsGood Raw) lines → rank_of (x + 1) (items_by Raw lines) ≡ rank_of x (numbers_in lines) }
{}

/// No text is refused by a count of made lines, and one report is due.
pub fn make_decides()
    ensures decided { (plan : MakePlan) → IsDecided (making plan) }
    ensures one_text { (plan : MakePlan) → WritesOneText (making plan) }
{}

/// A text is fine or refused in one way. Without a window one text is due, for any number of updaters.
pub fn tally_decides()
    ensures decided { (plan : TallyPlan) → IsDecided (tallying plan) }
    ensures one_text { (plan : TallyPlan) → 0 < plan.updaters → plan.window ≡ None → WritesOneText (tallying plan) }
{}

/// A text is fine or refused in one way, and one text is due.
pub fn tenants_decides()
    ensures decided { (plan : TenantsPlan) → IsDecided (hosting plan) }
    ensures one_text { (plan : TenantsPlan) → WritesOneText (hosting plan) }
{}

/// A text is fine or refused in one way, and one text is due.
pub fn window_decides()
    ensures decided { (plan : PanePlan) → IsDecided (paning plan) }
    ensures one_text { (plan : PanePlan) → WritesOneText (paning plan) }
{}

/// What commands show that end well and leave no handles: the whole text was read, none of it is refused, and this was
/// written for it. `tally` wrote the count of all items, and interim counts if they are asked for; `tenants` the estimate of
/// each tenant; `window` that of each interval that has a line.
pub fn texts_are_shown()
    ensures tally { (plan : TallyPlan) (file : Option Word) (most : ℕ) (old new : Outside)
        → Performs (over_text (command.Tally plan) file) most old new (Ok tt) → TalliesText plan file old new }
    ensures tenants { (plan : TenantsPlan) (file : Option Word) (most : ℕ) (old new : Outside)
        → Performs (over_text (command.Tenants plan) file) most old new (Ok tt) → EstimatesTenants plan file old new }
    ensures window { (plan : PanePlan) (file : Option Word) (most : ℕ) (old new : Outside)
        → Performs (over_text (command.Window plan) file) most old new (Ok tt) → WritesPanes plan file old new }
{}

/// How a run ended shows in its status: at 0 all was done, at each other a fault has its place, and a count of faults
/// rose where the status says so.
pub fn a_status_shows_how_a_run_ended()
    ensures { (asked : Asked) (most : ℕ) (old new : Outside) (result : Result (Unit {0}) Fault)
        → Performs asked most old new result → ShowsAt asked most old new (exit_of result) }
{}
