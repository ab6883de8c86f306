// Lines that are examined and given to the one desk at once.
use crate::calls::give;
use crate::plan::Plan;
use sk_label::{LineStop, LineTaker};
use sk_lines::Span;
use sk_tenant::Desk;
use std::sync::Wait;

/// Who gives each line to the one desk that there is.
#[derive(Drop)]
pub(crate) struct Clerk<'r, 'd, R: Wait> {
    pub(crate) rt: &'r R,
    pub(crate) plan: Plan,
    pub(crate) desk: &'d mut Desk,
}

impl<R: Wait> LineTaker for Clerk<'_, '_, R> {
    ghost use Rattle.std.specs.Prelude.{None, [], ◌∷◌};
    ghost use Rattle.sk_read.specs.Standing.{Standing};
    ghost use Rattle.sk_desks.specs.Desks.{desk_rules};
    ghost use Rattle.sk_desks.specs.Clerks.{GaveAlone};

    ghost rules = { λ c. desk_rules c.plan c.desk.now.names };

    ghost went = { λ a b lines. GaveAlone a.plan b.plan a.desk.now b.desk.now lines };

    ghost written = { λ _. None };

    ghost faults = { λ _. 0 };

    ghost stands_on = { λ c. record { kind = None; borrows = c.desk.ghost_name ∷ []; numbers = c.plan.seed ∷ c.plan.k ∷ [] } };

    #[inline(always)]
    fn take(&mut self, line: &[u8]) -> Result<(), LineStop> {
        let all = Span {
            from: 0,
            to: line.len(),
        };
        give(self.rt, self.desk, line, all, self.plan.seed)?;
        Ok(())
    }
}
