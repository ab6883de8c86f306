//! What stands across windows that were fed and reported, whatever was reported.
ghost use Rattle.std.specs.Prelude.{◌≡◌, ℕ, List};
ghost use Rattle.sk_read.specs.declared.items.Intake.{Intake as Plan};
ghost use Rattle.sk_fill.specs.Windows.{all_lines};
ghost use Rattle.sk_feed.specs.Shares.{KeepShares};
ghost use Rattle.sk_feed.specs.Hubs.{Hub, HeartGoesOn};
ghost use Rattle.sk_ingest.specs.Ingests.{terms_of, Reported, Ingests};

use crate::report::Report;
use sk_compose::Composable;
use std::marker::PhantomData;

/// Each updater has kept of its share what is not filtered, and the heart has drained nobody.
pub fn reported_windows_are_kept<C: Composable, P: Report<C>>(
    _sketch: PhantomData<C>,
    _report: PhantomData<P>,
)
    ensures kept { (plan : Plan) (before : ℕ) (windows : List (List (List ℕ))) (a b : Hub) (r s : _)
        → Reported (terms_of C.keeps_of C.hint_of P.reports P.breaks plan) before windows a r b s
        → KeepShares C.keeps_of C.hint_of plan.kind windows a.updaters b.updaters }
    ensures heart { (plan : Plan) (before : ℕ) (windows : List (List (List ℕ))) (a b : Hub) (r s : _)
        → Reported (terms_of C.keeps_of C.hint_of P.reports P.breaks plan) before windows a r b s
        → HeartGoesOn a.heart b.heart }
{}

/// All units lie in windows, of which each updater has kept what is not filtered of its share.
pub fn ingested_units_are_kept<C: Composable, P: Report<C>>(
    _sketch: PhantomData<C>,
    _report: PhantomData<P>,
)
    ensures kept { (plan : Plan) (units : List (List ℕ)) (a b : Hub) (r s : _)
        → Ingests (terms_of C.keeps_of C.hint_of P.reports P.breaks plan) units a r b s
        → (windows : List (List (List ℕ))) × (all_lines windows ≡ units)
        × KeepShares C.keeps_of C.hint_of plan.kind windows a.updaters b.updaters }
    ensures heart { (plan : Plan) (units : List (List ℕ)) (a b : Hub) (r s : _)
        → Ingests (terms_of C.keeps_of C.hint_of P.reports P.breaks plan) units a r b s
        → HeartGoesOn a.heart b.heart }
{}
