//! A window that is filled with the lines of a source.
ghost use Rattle.std.specs.Prelude.{◌≡◌, ◌≢◌, ◌<◌, ◌≤◌, ◌++◌, ◌∷◌, ℕ, List, [], length, Option, Ok, IfErr, All, true, false};
ghost use Rattle.std.specs.Io.KnownBytes.{Consumes};
ghost use Rattle.sk_model.specs.Causes.{HasCauseIn};
ghost use Rattle.sk_model.specs.Limits.{most_kept};
ghost use Rattle.sk_read.specs.Items.{item_of, IsGood};
ghost use Rattle.sk_read.specs.Reading.{HasRead, remaining_of};
ghost use Rattle.sk_read.specs.Reads.{Ends};
ghost use Rattle.sk_read.specs.declared.units.Units.TheVariants as units;
ghost use Rattle.sk_fill.specs.Windows.{FillsNone, IsFullWindow};
ghost use Rattle.sk_fill.specs.Fills.{RefusesLine, ReadsLine};

use crate::good::is_good;
use crate::held::take_held;
use crate::window::Window;
use sk_io::Source;
use sk_read::{Fault, Kind, LineReader};

/// Reads lines into an empty window until it is full, or returns `false` at the end of the source. It stops at a line
/// that has to spell a number and does not, at a fault of the reading, and when out of memory: the window then has the
/// lines before.
pub fn fill<S: Source>(
    reader: &mut LineReader,
    source: &mut S,
    window: &mut Window,
    kind: Kind,
) -> Result<bool, Fault>
    requires empty { window.old.lines ≡ [] }
    requires least { 1 ≤ window.old.most }
    requires started { (given : List (List ℕ)) × (taken : List ℕ) × HasRead reader.old (S.left source.old) given taken }
    ensures full { result ≡ Ok true → IsFullWindow window.new.most window.new.lines }
    ensures unfilled { result ≢ Ok true → FillsNone window.new.most window.new.lines }
    ensures good { All (IsGood kind) window.new.lines }
    ensures most { window.new.most ≡ window.old.most }
    ensures last { result ≡ Ok true → (given : List (List ℕ)) (taken : List ℕ) → HasRead reader.old (S.left source.old) given taken
        → (front : List (List ℕ)) × (line : List ℕ) × (window.new.lines ≡ front ++ line ∷ []) × ReadsLine reader.new (S.left source.old) (S.left source.new) (given ++ front) line taken }
    ensures rest { result ≡ Ok false → (given : List (List ℕ)) (taken : List ℕ) → HasRead reader.old (S.left source.old) given taken
        → (more : List ℕ) × Consumes (S.left source.old) (S.left source.new) more × HasRead reader.new (S.left source.new) (given ++ window.new.lines) (taken ++ more) }
    ensures end { result ≡ Ok false → reader.new.ended ≡ true }
    ensures few { (given : List (List ℕ)) (taken : List ℕ) → HasRead reader.old (S.left source.old) given taken → length (given ++ window.new.lines) ≤ most_kept }
    ensures progress { result ≡ Ok true → remaining_of reader.new < remaining_of reader.old }
    ensures bound { reader.new.most ≡ reader.old.most }
    ensures piece { reader.old.last ≤ S.last source.old → reader.new.last ≤ S.last source.new }
    ensures stopped { IfErr result (λ why. (first : Option (List ℕ)) (given : List (List ℕ)) (taken : List ℕ) → Consumes first (S.left source.old) taken
        → HasRead reader.old (S.left source.old) given taken
        → Ends reader.new.last units.Lines reader.old.most (λ lines. lines ≡ given ++ window.new.lines) (RefusesLine kind (given ++ window.new.lines)) first (S.left source.new) why) }
    ensures cause { HasCauseIn Fault.ReadFault (S.faults source.old) (S.faults source.new) result }
    ensures stays { S.stands_on source.new ≡ S.stands_on source.old }
{
    'piece: while reader.next(source)? {
        let line = reader.line();
        if !is_good(kind, line) {
            return Err(Fault::BadItem(reader.number()));
        }
        window.push_line(line)?;
        if window.is_full() {
            return Ok(true);
        }
        if take_held(window, reader, kind)? {
            return Ok(true);
        }
    }
    Ok(false)
}
