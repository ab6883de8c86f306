// Who takes labelled lines.
ghost use Rattle.std.specs.Prelude.{◌≡◌, ◌<◌, ◌≤◌, ℕ, List, Option, OnOk, IfErr, length};
ghost use Rattle.sk_model.specs.Causes.{HasCauseIn};
ghost use Rattle.sk_model.specs.Limits.{line_limit, most_kept};
ghost use Rattle.sk_read.specs.Standing.{Standing};
ghost use Rattle.sk_label.specs.Rules.{Rules};
ghost use Rattle.sk_label.specs.Stops.{Takes, StopsBy};
ghost use Rattle.sk_label.specs.declared.fault.LineStop.TheVariants as stop;

use crate::fault::LineStop;

/// Who takes labelled lines, one after another, empty ones too, and may stop at one.
pub trait LineTaker {
    /// Which lines it refuses, and what it writes at which. No `take` changes them.
    ghost rules: { Self → Rules };

    /// From one state to another it was given these lines, in order.
    ghost went: { Self → Self → List (List ℕ) → Type 0 };

    /// What its sink was written, if that is known.
    ghost written: { Self → Option (List ℕ) };

    /// How often a write of its sink failed.
    ghost faults: { Self → ℕ };

    /// What no `take` changes.
    ghost stands_on: { Self → Standing };

    /// Takes the next line, and writes what is due at it. After an error it is not used again.
    fn take(&mut self, line: &[u8]) -> Result<(), LineStop>
        requires short { length line.now ≤ line_limit }
        requires behind { (start : _) × (lines : List (List ℕ)) × (length lines < most_kept) × went start self.old lines }
        ensures takes { OnOk result ((start : _) (lines : List (List ℕ)) → went start self.old lines
            → Takes (rules self.old) (went start self.new) (written self.old) (written self.new) lines line.now) }
        ensures stopped { IfErr result (λ why. (start : _) (lines : List (List ℕ)) → went start self.old lines
            → StopsBy (rules self.old) (written self.old) (written self.new) lines line.now why) }
        ensures cause { HasCauseIn stop.WriteFault (faults self.old) (faults self.new) result }
        ensures rules { rules self.new ≡ rules self.old }
        ensures stays { stands_on self.new ≡ stands_on self.old };
}
