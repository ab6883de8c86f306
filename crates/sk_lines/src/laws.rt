//! Laws of a reader of lines. Each function is empty: its contract is the law.

ghost use Rattle.std.specs.Prelude.{◌≡◌, ◌++◌, ℕ, List};
ghost use Rattle.sk_model.specs.Lines.{lines_of, open_lines_of};
ghost use Rattle.sk_model.specs.Missing.{Begins};
ghost use Rattle.sk_lines.specs.Cutter.{Cutter, Follows, IsLongAfter};

/// Whatever follows a text, the lines given are the first of its lines.
pub fn given_lines_stay()
    ensures { (c : Cutter) (given : List (List ℕ)) (text more : List ℕ)
        → Follows c given text → Begins given (lines_of (text ++ more)) }
{}

/// The lines of a text are those given, and those of the bytes that are left.
pub fn lines_left()
    ensures { (c : Cutter) (given : List (List ℕ)) (text : List ℕ)
        → Follows c given text → lines_of text ≡ given ++ lines_of c.rest }
{}

/// A line that is too long already is so whatever follows.
pub fn long_stays_long()
    ensures { (limit n : ℕ) (given : List (List ℕ)) (text more : List ℕ)
        → IsLongAfter limit n given (open_lines_of text)
        → IsLongAfter limit n given (lines_of (text ++ more)) }
{}
