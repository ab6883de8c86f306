// Lines cut out of pieces of a text.
ghost use Rattle.std.specs.Prelude.{◌≡◌, ◌≢◌, ◌↔◌, ◌⊎◌, ◌+◌, ◌<◌, ◌≤◌, ℕ, List, [], ◌++◌, length, slice_range, take, Ok, IfOk, IsErr, IsErrOf, true, false};
ghost use Rattle.std.specs.Str.Lines.{strip_carriage_return};
ghost use Rattle.sk_io.specs.Base.{LastRead};
ghost use Rattle.sk_model.specs.Causes.{HasCauseIn};
ghost use Rattle.sk_model.specs.Lines.{lines_of, open_lines_of, IsFirstLong};
ghost use Rattle.sk_lines.specs.Padded.{padded};
ghost use Rattle.sk_lines.specs.Runs.{IsRun, GivesRun, GivesNone, run_between};
ghost use Rattle.sk_lines.specs.Spans.{GivesLines, HasNoShortLine};
ghost use Rattle.sk_lines.specs.Cutter.{Follows, IsRead, TakesPiece, GivesLine, GivesLast, Waits, IsLongAfter, HasNoLf, counted, is_long};

use crate::group::cut_group;
use crate::marks::{BLOCK, seek, take_lf};
use crate::padded::Padded;
use crate::runs::skip_lfs;
use crate::spans::{GROUP, Span};
use sk_io::{BoundFault, Source};
use sk_model::OutOfMemory;
use std::alloc::Global;
use std::marker::Model;

/// The most bytes of a limit.
pub const MOST_LIMIT: usize = 1_048_576;

/// The most bytes of a piece.
pub const MOST_PIECE: usize = 65_536;

const CR: u8 = b'\r';

/// What a call of `next` or `end` found.
#[derive(Clone, Copy, Debug, PartialEq, Eq)]
pub enum Next {
    /// The next line is complete.
    Line,
    /// No complete line is held.
    More,
    /// The line of this number, counted from 1, is too long.
    Long(u64),
}

/// How a line ended.
#[derive(Clone, Copy, Debug, PartialEq, Eq)]
pub enum Ending {
    /// By LF.
    Lf,
    /// By CR and LF.
    CrLf,
    /// By the end of the text.
    Nothing,
}

/// A reader of the lines of a text that comes in pieces. LF ends a line, and one CR directly before
/// it is dropped. A last piece without LF is a line if it is not empty, and its CR stays.
#[derive(Drop)]
pub struct Lines {
    limit: usize,
    // The text that is held.
    buffer: Padded,
    // Where the bytes begin that no line given has.
    at: usize,
    // How far LFs were sought, and those of the block before that place which come after `at`.
    scanned: usize,
    marks: u64,
    line_start: usize,
    line_end: usize,
    ending: Ending,
    number: u64,
    last: Next,
    hungry: bool,
    ended: bool,
}

impl Model for Lines {
    ghost use Rattle.sk_lines.specs.Cutter.{Cutter};

    ghost Value = { Cutter };

    ghost use Rattle.sk_lines.specs.Inside.{cutter_of, IsKept};

    ghost view = { cutter_of };

    ghost invariant = { IsKept };
}

impl Lines {
    /// A reader whose lines have at most `limit` bytes, which are 1 to `MOST_LIMIT`. It takes all
    /// the memory that it will need.
    #[tactic(auto, unfolding(sk_model::specs::Lines::lines_of))]
    pub fn new(alloc: Global, limit: usize) -> Result<Lines, OutOfMemory>
        requires some { 1 ≤ limit }
        requires most { limit ≤ MOST_LIMIT }
        ensures limit { IfOk result (λ lines. lines.limit ≡ limit) }
        ensures follows { IfOk result (λ lines. Follows lines [] []) }
        ensures hungry { IfOk result (λ lines. lines.hungry ≡ true) }
        ensures not_ended { IfOk result (λ lines. lines.ended ≡ false) }
        ensures last { IfOk result (λ lines. lines.last ≡ Next.More) }
    {
        Ok(Lines {
            limit,
            buffer: Padded::new(alloc, limit + 1 + MOST_PIECE)?,
            at: 0,
            scanned: 0,
            marks: 0,
            line_start: 0,
            line_end: 0,
            ending: Ending::Nothing,
            number: 0,
            last: Next::More,
            hungry: true,
            ended: false,
        })
    }

    /// Takes the next piece of the text, at most `MOST_PIECE` bytes.
    pub fn feed(&mut self, piece: &[u8])
        requires size { length piece.now ≤ MOST_PIECE }
        requires hungry { self.old.hungry ≡ true }
        requires not_ended { self.old.ended ≡ false }
        ensures follows { (given : List (List ℕ)) (text : List ℕ)
            → Follows self.old given text → Follows self.new given (text ++ piece.now) }
        ensures front { self.new.front ≡ [] }
        ensures rest { self.new.rest ≡ self.old.rest ++ piece.now }
        ensures number { self.new.number ≡ self.old.number }
        ensures ending { self.new.ending ≡ self.old.ending }
        ensures last { self.new.last ≡ Next.More }
        ensures limit { self.new.limit ≡ self.old.limit }
        ensures fed { self.new.hungry ≡ false }
        ensures ended { self.new.ended ≡ false }
    {
        self.drop_given();
        self.scanned = self.buffer.len() - BLOCK;
        self.marks = 0;
        self.buffer.push(piece);
        self.last = Next::More;
        self.hungry = false;
    }

    /// Reads the next piece of the text from a source, at most `MOST_PIECE` bytes and at most `room`, and
    /// returns how many they are: none only at the source's end. If none may be read it returns `TooMuch`.
    /// A read that fails takes none.
    pub fn feed_from<S: Source>(&mut self, source: &mut S, room: u64) -> Result<usize, BoundFault>
        requires hungry { self.old.hungry ≡ true }
        requires not_ended { self.old.ended ≡ false }
        ensures read { (more : List ℕ) × IsRead (S.left source.old) (S.left source.new) result more × TakesPiece self.old self.new more }
        ensures hungry { (self.new.hungry ≡ true) ↔ (IsErr result ⊎ (result ≡ Ok 0)) }
        ensures most { IfOk result (λ n. n ≤ MOST_PIECE) }
        ensures room { IfOk result (λ n. n ≤ room) }
        ensures too_much { IsErrOf result BoundFault.TooMuch ↔ (room ≡ 0) }
        ensures last { LastRead (S.last source.old) (S.last source.new) result }
        ensures cause { HasCauseIn BoundFault.ReadFault (S.faults source.old) (S.faults source.new) result }
        ensures stays { S.stands_on source.new ≡ S.stands_on source.old }
    {
        self.drop_given();
        self.scanned = self.buffer.len() - BLOCK;
        self.marks = 0;
        let read = self.buffer.read(source, room);
        self.last = Next::More;
        self.hungry = read.unwrap_or(0) == 0;
        read
    }

    /// Gives away the memory that has the lines given since the last read, with what ended them, for other memory. The bytes
    /// that no line given has, few enough to be copied, go there.
    pub fn swap(&mut self, other: &mut Padded)
        requires few { length self.old.rest ≤ self.old.limit + 1 }
        requires room { self.old.limit + 1 + MOST_PIECE + BLOCK ≤ other.old.room }
        ensures given { other.new.items ≡ padded self.old.front }
        ensures stays { self.new ≡ record self.old { front = []; line = [] } }
    {
        let end = self.buffer.len() - BLOCK;
        other.set(&self.buffer.bytes()[self.at..end]);
        std::mem::swap(&mut self.buffer, other);
        other.cut(self.at);
        self.at = 0;
        self.scanned = 0;
        self.marks = 0;
        self.line_start = 0;
        self.line_end = 0;
    }

    // Drops the lines that were given, so that what is left lies at the start.
    fn drop_given(&mut self)
        requires { self.old.hungry ≡ true }
        ensures { self.new ≡ record self.old { front = []; line = [] } }
    {
        self.buffer.drop_front(self.at);
        self.at = 0;
        self.scanned = 0;
        self.marks = 0;
        self.line_start = 0;
        self.line_end = 0;
    }

    /// The next line. It is `Long` as soon as the bytes fed show it, and from then on always.
    #[inline(always)]
    pub fn next(&mut self) -> Next
        ensures line { result ≡ Next.Line → GivesLine self.old self.new }
        ensures more { result ≡ Next.More → (given : List (List ℕ)) (text : List ℕ)
            → Follows self.old given text → Waits self.new given text }
        ensures hungry { result ≡ Next.More → self.new.hungry ≡ true }
        ensures long { (n : ℕ) → result ≡ Next.Long n → self.old.ended ≡ false
            → (given : List (List ℕ)) (text : List ℕ) → Follows self.old given text
            → IsLongAfter self.old.limit n given (open_lines_of text) }

        // What was too long stays so, and after the end there is nothing.
        ensures again { is_long self.old.last ≡ true → result ≡ self.old.last }
        ensures front { result ≢ Next.Line → self.new.front ≡ self.old.front }
        ensures rest { result ≢ Next.Line → self.new.rest ≡ self.old.rest }
        ensures number { result ≢ Next.Line → self.new.number ≡ self.old.number }
        ensures ending { result ≢ Next.Line → self.new.ending ≡ self.old.ending }
        ensures after_end { self.old.ended ≡ true → is_long self.old.last ≡ false → result ≡ Next.More }

        ensures last { self.new.last ≡ result }
        ensures limit { self.new.limit ≡ self.old.limit }
        ensures ended { self.new.ended ≡ self.old.ended }
    {
        if let Next::Long(_) = self.last {
            return self.last;
        }
        let (scanned, marks) = seek(self.buffer.bytes(), self.scanned, self.marks);
        if marks == 0 {
            self.scanned = scanned;
            self.marks = 0;
            return self.rest_is_open();
        }
        let (end, marks) = take_lf(scanned, marks);
        let len = line_len(self.buffer.bytes(), self.at, end);
        if len > self.limit {
            return self.stop();
        }
        self.ending = if len < end - self.at {
            Ending::CrLf
        } else {
            Ending::Lf
        };
        self.line_start = self.at;
        self.line_end = self.at + len;
        self.at = end + 1;
        self.scanned = scanned;
        self.marks = marks;
        self.number = self.number.saturating_add(1);
        self.last = Next::Line;
        self.last
    }

    /// Moves on to the next complete lines that are held, writes to the start of `spans` where they lie in
    /// `front`, and returns how many they are. They may be fewer than are held; if there is none, no line is
    /// complete or the next is too long, and `next` says which.
    pub fn next_lines(&mut self, spans: &mut [Span; GROUP]) -> usize
        ensures few { result ≤ GROUP }
        ensures lines { GivesLines self.old self.new (take result spans.new) }
        ensures after_end { self.old.ended ≡ true → result ≡ 0 }
        ensures hungry { self.old.hungry ≡ true → result ≡ 0 }
        ensures none { result ≡ 0 → is_long self.old.last ≡ false → HasNoShortLine self.old }
    {
        if self.ended || self.hungry || matches!(self.last, Next::Long(_)) {
            return 0;
        }
        let (count, at) = cut_group(self.buffer.bytes(), self.at, self.limit, GROUP, spans);
        self.at = at;
        self.scanned = at;
        self.marks = 0;
        self.number = self.number.saturating_add(count as u64);
        count
    }

    /// Moves on to the next complete lines that are held, at most `most`, and returns how many they are: `front`
    /// has become longer by them and what ended them. If more bytes are held than a line may have, it moves
    /// over none, and `next` continues.
    pub fn next_run(&mut self, most: usize) -> usize
        ensures few { result ≤ most }
        ensures run { GivesRun self.old self.new result }
        ensures after_end { self.old.ended ≡ true → result ≡ 0 }
        ensures none { result ≡ 0 → 0 < most → is_long self.old.last ≡ false → GivesNone self.old }
    {
        if self.ended || self.hungry || matches!(self.last, Next::Long(_)) {
            return 0;
        }
        let held = self.buffer.len() - BLOCK - self.at;
        if held > self.limit {
            return 0;
        }
        let (count, at) = skip_lfs(self.buffer.bytes(), self.at, most);
        self.at = at;
        self.scanned = at;
        self.marks = 0;
        self.number = self.number.saturating_add(count as u64);
        count
    }

    /// Moves on over the next lines that are held and that the caller found: `count` of them, in the next `bytes` bytes.
    /// It returns how many they are, and `front` has become longer by them; or it moves over none, as `next_run` does.
    pub fn pass_run(&mut self, bytes: usize, count: usize) -> usize
        requires within { bytes ≤ length self.old.rest }
        requires run { IsRun count (take bytes self.old.rest) }
        ensures all { 0 < result → (result ≡ count) × (run_between self.old self.new ≡ take bytes self.old.rest) }
        ensures run { GivesRun self.old self.new result }
        ensures after_end { self.old.ended ≡ true → result ≡ 0 }
        ensures none { result ≡ 0 → 0 < count → is_long self.old.last ≡ false → GivesNone self.old }
    {
        if self.ended || self.hungry || matches!(self.last, Next::Long(_)) {
            return 0;
        }
        if self.buffer.len() - BLOCK - self.at > self.limit {
            return 0;
        }
        self.at += bytes;
        self.scanned = self.at;
        self.marks = 0;
        self.number = self.number.saturating_add(count as u64);
        count
    }

    // What `next` returns if no LF is held.
    fn rest_is_open(&mut self) -> Next
        requires piece { HasNoLf self.old.rest }
        requires not_long { is_long self.old.last ≡ false }
        ensures not_line { result ≢ Next.Line }
        ensures more { result ≡ Next.More → (given : List (List ℕ)) (text : List ℕ)
            → Follows self.old given text → Waits self.new given text }
        ensures hungry { result ≡ Next.More → self.new.hungry ≡ true }
        ensures long { (n : ℕ) → result ≡ Next.Long n
            → (given : List (List ℕ)) (text : List ℕ) → Follows self.old given text
            → IsLongAfter self.old.limit n given (open_lines_of text) }
        ensures after_end { self.old.ended ≡ true → result ≡ Next.More }
        ensures last { self.new.last ≡ result }
        ensures limit { self.new.limit ≡ self.old.limit }
        ensures ended { self.new.ended ≡ self.old.ended }
        ensures front { self.new.front ≡ self.old.front }
        ensures rest { self.new.rest ≡ self.old.rest }
        ensures number { self.new.number ≡ self.old.number }
        ensures ending { self.new.ending ≡ self.old.ending }
    {
        let text_end = self.buffer.len() - BLOCK;
        if line_len(self.buffer.bytes(), self.at, text_end) > self.limit {
            return self.stop();
        }
        self.hungry = true;
        self.last = Next::More;
        self.last
    }

    // Says from now on that the line which is due is too long.
    fn stop(&mut self) -> Next
        requires going_on { self.old.ended ≡ false }
        requires long { IsFirstLong self.old.limit 0 (open_lines_of self.old.rest) }
        ensures result { result ≡ Next.Long (counted (self.old.number + 1)) }
        ensures long { (n : ℕ) → result ≡ Next.Long n
            → (given : List (List ℕ)) (text : List ℕ) → Follows self.old given text
            → IsLongAfter self.old.limit n given (open_lines_of text) }
        ensures before_end { self.old.ended ≡ false }
        ensures last { self.new.last ≡ result }
        ensures limit { self.new.limit ≡ self.old.limit }
        ensures ended { self.new.ended ≡ self.old.ended }
        ensures front { self.new.front ≡ self.old.front }
        ensures rest { self.new.rest ≡ self.old.rest }
        ensures number { self.new.number ≡ self.old.number }
        ensures ending { self.new.ending ≡ self.old.ending }
    {
        self.last = Next::Long(self.number.saturating_add(1));
        self.last
    }

    /// Ends the text. The last piece is a line if it is not empty.
    pub fn end(&mut self) -> Next
        requires { self.old.hungry ≡ true }
        ensures line { result ≡ Next.Line → GivesLast self.old self.new }
        ensures more { result ≡ Next.More ↔ (self.old.rest ≡ []) }
        ensures nothing { result ≡ Next.More → (given : List (List ℕ)) (text : List ℕ)
            → Follows self.old given text → lines_of text ≡ given }
        ensures long { (n : ℕ) → result ≡ Next.Long n
            → (given : List (List ℕ)) (text : List ℕ) → Follows self.old given text
            → IsLongAfter self.old.limit n given (lines_of text) }
        ensures again { is_long self.old.last ≡ true → result ≡ self.old.last }
        ensures rest { is_long result ≡ false → self.new.rest ≡ [] }
        ensures last { self.new.last ≡ result }
        ensures number { result ≡ Next.More → self.new.number ≡ self.old.number }
        ensures ending { result ≢ Next.Line → self.new.ending ≡ self.old.ending }
        ensures limit { self.new.limit ≡ self.old.limit }
        ensures hungry { self.new.hungry ≡ true }
        ensures ended { self.new.ended ≡ true }
    {
        self.ended = true;
        if let Next::Long(_) = self.last {
            return self.last;
        }
        let text_end = self.buffer.len() - BLOCK;
        let len = text_end - self.at;
        if len > self.limit {
            self.last = Next::Long(self.number.saturating_add(1));
            return self.last;
        }
        if len == 0 {
            self.last = Next::More;
            return self.last;
        }
        self.line_start = self.at;
        self.line_end = text_end;
        self.at = text_end;
        self.scanned = text_end;
        self.marks = 0;
        self.ending = Ending::Nothing;
        self.number = self.number.saturating_add(1);
        self.last = Next::Line;
        self.last
    }

    /// The line that the last call of `next` or `end` gave.
    #[inline(always)]
    pub fn line(&self) -> &[u8]
        requires { self.now.last ≡ Next.Line }
        ensures { result.now ≡ self.now.line }
    {
        &self.buffer.bytes()[self.line_start..self.line_end]
    }

    /// The bytes of the lines that were given since the last piece was fed, with what ended them.
    #[inline(always)]
    pub fn front(&self) -> &[u8]
        ensures { result.now ≡ self.now.front }
    {
        &self.buffer.bytes()[..self.at]
    }

    /// The bytes that no line given has.
    pub fn rest(&self) -> &[u8]
        ensures { result.now ≡ self.now.rest }
    {
        &self.buffer.bytes()[self.at..self.buffer.len() - BLOCK]
    }

    /// How many lines were given. The count stops at the largest `u64`.
    pub fn number(&self) -> u64
        ensures { result ≡ self.now.number }
    {
        self.number
    }

    /// How the last line given ended.
    pub fn ending(&self) -> Ending
        ensures { result ≡ self.now.ending }
    {
        self.ending
    }
}

/// How many bytes the line from `at` up to its LF at `end` has: a CR directly before the LF does not count.
#[inline(always)]
pub fn line_len(bytes: &[u8], at: usize, end: usize) -> usize
    requires from { at ≤ end }
    requires within { end ≤ length bytes.now }
    ensures { result ≡ length (strip_carriage_return (slice_range bytes.now at end)) }
{
    let line = &bytes[at..end];
    match line.last() {
        Some(&CR) => line.len() - 1,
        _ => line.len(),
    }
}
