//! Lines that are answered as they come: the answers to the lines of one read are gathered, and
//! written before more is read.
ghost use Rattle.std.specs.Prelude.{◌≡◌, ◌≢◌, ◌≤◌, ℕ, List, [], ◌∷◌, ◌++◌, Option, Ok, Err, true, false};
ghost use Rattle.std.specs.Io.KnownBytes.{Consumes};
ghost use Rattle.sk_lines.specs.declared.cutter.Next.TheVariants as next;
ghost use Rattle.sk_read.specs.Reading.{HasRead, remaining_of};
ghost use Rattle.sk_cli.specs.Answering.{Answers, AnswersHeld, GoesByAnswers};
ghost use Rattle.sk_cli.specs.Behaviour.{Behaviour};
ghost use Rattle.sk_cli.specs.Beside.{Beside};
ghost use Rattle.sk_cli.specs.Outside.{Streams, streams_of};
ghost use Rattle.sk_cli.specs.Run.{Executes, HasCauses};

use crate::fault::Fault;
use crate::write::write_text;
use sk_io::{Sink, Source};
use sk_model::OutOfMemory;
use sk_read::LineReader;
use std::alloc::Global;

// Answers are written once they have this many bytes, and no later than before the next read.
const FULL_LEN: usize = 65_536;

// The answer that fills a text has room too, so that the text does not grow.
const ROOM_LEN: usize = FULL_LEN + 128;

/// Who answers to lines, one after another.
pub(crate) trait Answerer {
    /// What a command does that gives these answers.
    ghost how: { Self → Behaviour };

    /// This text is due for these lines, of which none is refused. No answer changes that.
    ghost due: { Self → List (List ℕ) → List ℕ → Type 0 };

    /// These lines led here, and this text was answered to them.
    ghost led: { Self → List (List ℕ) → List ℕ → Type 0 };

    /// After these lines this one is refused.
    ghost refuses: { List (List ℕ) → List ℕ → Type 0 };

    /// Puts the answer to a line at the end of a text, or returns `false` if it refuses the line.
    fn answer(&mut self, line: &[u8], text: &mut Vec<u8>) -> Result<bool, OutOfMemory>
        ensures answers { result ≡ Ok true → Answers (led self.old) (led self.new) line.now text.old.items text.new.items }
        ensures refused { result ≡ Ok false → (lines : List (List ℕ)) (due : List ℕ) → led self.old lines due → refuses lines line.now }
        ensures stays { result ≢ Ok true → text.new.items ≡ text.old.items }
        ensures due { (lines : List (List ℕ)) (text : List ℕ) → due self.new lines text → due self.old lines text };

    /// What was answered to lines is due for them.
    ghost is_due: { (a : Self) (lines : List (List ℕ)) (text : List ℕ) → led a lines text → due a lines text };
}

// Makes the text the answers to the line that a reader gave and to those that it holds, until it is
// full.
fn answer_held<A: Answerer>(
    reader: &mut LineReader,
    answerer: &mut A,
    text: &mut Vec<u8>,
) -> Result<(), Fault>
    requires line { reader.old.cutter.last ≡ next.Line }
    ensures held { (left : Option (List ℕ)) (given : List (List ℕ)) (taken due : List ℕ) → HasRead reader.old left (given ++ reader.old.cutter.line ∷ []) taken
        → A.led answerer.old given due
        → AnswersHeld (A.due answerer.old) (A.led answerer.new) A.refuses reader.new left given taken due text.new.items result }
    ensures due { (lines : List (List ℕ)) (text : List ℕ) → A.due answerer.new lines text → A.due answerer.old lines text }
    ensures cause { (result ≢ Err Fault.ReadFault) × (result ≢ Err Fault.WriteFault) }
    ensures most { reader.new.most ≡ reader.old.most }
    ensures piece { reader.new.last ≡ reader.old.last }
    ensures remaining { remaining_of reader.new ≤ remaining_of reader.old }
{
    text.clear();
    'line: loop {
        if !answerer.answer(reader.line(), text)? {
            return Err(Fault::BadEvent(reader.number()));
        }
        if text.len() >= FULL_LEN {
            return Ok(());
        }
        if !reader.next_held()? {
            return Ok(());
        }
    }
}

/// Answers to the further lines of a source. A fault is returned once the answers to the lines before
/// it are written.
pub(crate) fn answer_lines<A: Answerer, S: Source, O: Sink>(
    alloc: Global,
    reader: &mut LineReader,
    answerer: &mut A,
    source: &mut S,
    out: &mut O,
) -> Result<(), Fault>
    requires piece { reader.old.last ≤ S.last source.old }
    ensures done { (from to : Beside) (start : Streams) (given : List (List ℕ)) (taken : List ℕ) → HasRead reader.old (S.left source.old) given taken
        → Consumes start.left (S.left source.old) taken → start.written ≡ O.written out.old → A.led answerer.old given []
        → GoesByAnswers (A.how answerer.old) from to (A.due answerer.old) A.refuses given
        → Executes (A.how answerer.old) reader.old.most from to start (streams_of S.Source O.Sink source.new out.new) result }
    ensures causes { HasCauses (streams_of S.Source O.Sink source.old out.old) (streams_of S.Source O.Sink source.new out.new) result }
    ensures stays { S.stands_on source.new ≡ S.stands_on source.old }
{
    let mut text = Vec::with_capacity(alloc, ROOM_LEN)?;
    'read: while reader.next(source)? {
        let answered = answer_held(reader, answerer, &mut text);
        write_text(out, &text)?;
        answered?;
    }
    Ok(())
}
