// The lines of a source.
ghost use Rattle.std.specs.Prelude.{◌≡◌, ◌≤◌, ◌<◌, ◌+◌, ◌-◌, ◌^◌, ℕ, List, [], ◌∷◌, ◌++◌, Option, Ok, Err, OnOk, OnErr, IfOk, IsErrOf, ◌≢◌, length, take, true, false, vec_len};
ghost use Rattle.std.specs.Io.KnownBytes.{Consumes, IsAtEnd, Keeps};
ghost use Rattle.sk_model.specs.Causes.{HasCauseIn};
ghost use Rattle.sk_model.specs.Lines.{lines_of};
ghost use Rattle.sk_lines.specs.Cutter.{HasNoLf, is_long};
ghost use Rattle.sk_lines.specs.Padded.{padded};
ghost use Rattle.sk_lines.specs.Runs.{IsRun, GivesRun, GivesNone, run_between};
ghost use Rattle.sk_lines.specs.Spans.{GivesLines, HasNoShortLine, lines_at};
ghost use Rattle.sk_lines.specs.declared.cutter.Next.TheVariants as next;
ghost use Rattle.sk_read.specs.Reading.{HasGiven, GivesLine, HasRead, Goes, GoesHeld, MovesOn, Stands, IsLongNext, IsLongLast, Feeds, remaining_of};
ghost use Rattle.sk_model.specs.Limits.{source_limit};

use sk_io::{BoundFault, Source};
use sk_lines::{BLOCK, GROUP, Lines, MOST_PIECE, Next, Padded, Span};
use sk_model::OutOfMemory;
use sk_model::limits::LINE_LIMIT;
use std::alloc::Global;
use std::marker::Model;

/// How many bytes of room a text needs that is to hold what a reader has read.
pub const TEXT_ROOM: usize = LINE_LIMIT + 1 + MOST_PIECE;

/// Why the lines of a source end before it does.
#[derive(Clone, Copy, Debug, PartialEq, Eq)]
pub enum LineFault {
    /// A read failed.
    ReadFault,
    /// The line of this number, counted from 1, has more than `LINE_LIMIT` bytes.
    LongLine(u64),
    /// As many bytes were taken as may be.
    TooMuch,
}

impl From<BoundFault> for LineFault {
    ghost use Rattle.sk_read.specs.Faults.{line_fault_by};

    ghost from_gives = { λ fault e. e ≡ line_fault_by fault };

    fn from(fault: BoundFault) -> Self {
        match fault {
            BoundFault::ReadFault => LineFault::ReadFault,
            BoundFault::TooMuch => LineFault::TooMuch,
        }
    }
}

/// The lines of a source, one after another, each as soon as the bytes read have it.
#[derive(Drop)]
pub struct LineReader {
    lines: Lines,
    taken: u64,
    // how many bytes the last read gave
    last: usize,
    most: u64,
    ended: bool,
}

impl Model for LineReader {
    ghost use Rattle.sk_read.specs.Reading.{Reading};

    ghost Value = { Reading };

    ghost use Rattle.sk_read.specs.Inside.{reading_of, IsKept};

    ghost view = { reading_of };

    ghost invariant = { IsKept };
}

impl LineReader {
    /// A reader that takes fewer than `most` bytes, itself at most 2^40. It takes all its memory here.
    pub fn new(alloc: Global, most: u64) -> Result<LineReader, OutOfMemory>
        requires { most ≤ source_limit }
        ensures read { IfOk result (λ reader. (left : Option (List ℕ)) → HasRead reader left [] []) }
        ensures most { IfOk result (λ reader. reader.most ≡ most) }
        ensures piece { IfOk result (λ reader. reader.last ≡ 0) }
    {
        Ok(LineReader {
            lines: Lines::new(alloc, LINE_LIMIT)?,
            taken: 0,
            last: 0,
            most,
            ended: false,
        })
    }

    // Reads a piece and feeds it, or returns `false` at the end of the source.
    fn refill<S: Source>(&mut self, source: &mut S) -> Result<bool, LineFault>
        requires hungry { self.old.cutter.hungry ≡ true }
        requires open { self.old.ended ≡ false }
        ensures fed { IfOk result (λ fed. (more : List ℕ) × Consumes (S.left source.old) (S.left source.new) more × Feeds self.old self.new more) }
        ensures some { result ≡ Ok true → (self.old.taken < self.new.taken) × (self.new.taken ≤ self.new.most) }
        ensures end { result ≡ Ok false → IsAtEnd (S.left source.new) × (self.new.cutter.hungry ≡ true) × (self.new.taken < self.new.most) }
        ensures read_fault { IsErrOf result LineFault.ReadFault → (self.old.taken < self.old.most) }
        ensures too_much { IsErrOf result LineFault.TooMuch → self.old.taken ≡ self.old.most }
        ensures err { OnErr result ((self.new.most ≡ self.old.most) × Keeps (S.left source.old) (S.left source.new)) }
        ensures no_long { (n : ℕ) → result ≢ Err (LineFault.LongLine n) }
        ensures piece { self.old.last ≤ S.last source.old → self.new.last ≤ S.last source.new }
        ensures cause { HasCauseIn LineFault.ReadFault (S.faults source.old) (S.faults source.new) result }
        ensures stays { S.stands_on source.new ≡ S.stands_on source.old }
    {
        let n = self.lines.feed_from(source, self.most - self.taken)?;
        self.taken += n as u64;
        self.last = n;
        Ok(n > 0)
    }
}

impl LineReader {
    // Cuts the next line out of the bytes read.
    #[inline(always)]
    fn cut(&mut self) -> Next
        ensures line { result ≡ next.Line → GivesLine self.old self.new × (remaining_of self.new < remaining_of self.old) }
        ensures more { result ≡ next.More → self.old.ended ≡ false → (given : List (List ℕ)) (taken : List ℕ) → HasGiven self.old given taken → Stands self.new given taken }
        ensures after_end { result ≡ next.More → self.old.ended ≡ true → (given : List (List ℕ)) (taken : List ℕ) → HasGiven self.old given taken → HasGiven self.new given taken }
        ensures hungry { result ≡ next.More → self.new.cutter.hungry ≡ true }
        ensures long { (n : ℕ) → result ≡ next.Long n → IsLongNext self.old n }
        ensures last { self.new.cutter.last ≡ result }
        ensures plain { result ≡ next.Line → HasNoLf self.new.cutter.line }
        ensures moves { result ≡ next.Line → MovesOn self.old.cutter self.new.cutter }
        ensures held { result ≢ next.Line → self.new.cutter.front ≡ self.old.cutter.front }
        ensures limit { self.new.cutter.limit ≡ self.old.cutter.limit }
        ensures ended { self.new.ended ≡ self.old.ended }
        ensures most { (self.new.most ≡ self.old.most) × (self.new.taken ≡ self.old.taken) }
        ensures piece { self.new.last ≡ self.old.last }
        ensures remaining { remaining_of self.new ≤ remaining_of self.old }
        ensures bound { self.new.taken ≤ self.new.most }
    {
        self.lines.next()
    }

    // Ends the source.
    fn end(&mut self) -> Result<bool, LineFault>
        requires hungry { self.old.cutter.hungry ≡ true }
        requires open { self.old.ended ≡ false }
        requires size { self.old.taken < self.old.most }
        ensures line { result ≡ Ok true → GivesLine self.old self.new × (self.new.cutter.last ≡ next.Line) × (remaining_of self.new < remaining_of self.old) }
        ensures plain { result ≡ Ok true → HasNoLf self.new.cutter.line }
        ensures none { result ≡ Ok false → (given : List (List ℕ)) (taken : List ℕ) → HasGiven self.old given taken → (lines_of taken ≡ given) × HasGiven self.new given taken }
        ensures long { (n : ℕ) → result ≡ Err (LineFault.LongLine n) → IsLongLast self.old n }
        ensures only_long { (result ≢ Err LineFault.ReadFault) × (result ≢ Err LineFault.TooMuch) }
        ensures limit { self.new.cutter.limit ≡ self.old.cutter.limit }
        ensures most { (self.new.most ≡ self.old.most) × (self.new.taken ≡ self.old.taken) }
        ensures piece { self.new.last ≡ self.old.last }
        ensures ended { self.new.ended ≡ true }
        ensures bound { self.new.taken ≤ self.new.most }
    {
        self.ended = true;
        match self.lines.end() {
            Next::Line => Ok(true),
            Next::More => Ok(false),
            Next::Long(line) => Err(LineFault::LongLine(line)),
        }
    }
}

impl LineReader {
    /// Moves on to the source's next line, and returns `false` if there is none. After an error
    /// it is not used again.
    #[inline(always)]
    pub fn next<S: Source>(&mut self, source: &mut S) -> Result<bool, LineFault>
        ensures goes { (given : List (List ℕ)) (taken : List ℕ) → HasRead self.old (S.left source.old) given taken
            → (more : List ℕ) × Consumes (S.left source.old) (S.left source.new) more × Goes self.new (S.left source.new) given (taken ++ more) result }
        ensures holds { result ≡ Ok true → self.new.cutter.last ≡ next.Line }
        ensures plain { result ≡ Ok true → HasNoLf self.new.cutter.line }
        ensures progress { result ≡ Ok true → remaining_of self.new < remaining_of self.old }
        ensures most { self.new.most ≡ self.old.most }
        ensures piece { self.old.last ≤ S.last source.old → self.new.last ≤ S.last source.new }
        ensures cause { HasCauseIn LineFault.ReadFault (S.faults source.old) (S.faults source.new) result }
        ensures stays { S.stands_on source.new ≡ S.stands_on source.old }
    {
        if self.next_held()? {
            return Ok(true);
        }
        self.next_read(source)
    }

    // The same, and reads on if no line is held: seldom, so that `next` is short where it is called.
    #[inline(never)]
    fn next_read<S: Source>(&mut self, source: &mut S) -> Result<bool, LineFault>
        ensures goes { (given : List (List ℕ)) (taken : List ℕ) → HasRead self.old (S.left source.old) given taken
            → (more : List ℕ) × Consumes (S.left source.old) (S.left source.new) more × Goes self.new (S.left source.new) given (taken ++ more) result }
        ensures holds { result ≡ Ok true → self.new.cutter.last ≡ next.Line }
        ensures plain { result ≡ Ok true → HasNoLf self.new.cutter.line }
        ensures progress { result ≡ Ok true → remaining_of self.new < remaining_of self.old }
        ensures most { self.new.most ≡ self.old.most }
        ensures piece { self.old.last ≤ S.last source.old → self.new.last ≤ S.last source.new }
        ensures cause { HasCauseIn LineFault.ReadFault (S.faults source.old) (S.faults source.new) result }
        ensures stays { S.stands_on source.new ≡ S.stands_on source.old }
    {
        'piece: loop {
            match self.cut() {
                Next::Line => return Ok(true),
                Next::Long(line) => return Err(LineFault::LongLine(line)),
                Next::More => {}
            }
            if self.ended {
                return Ok(false);
            }
            if !self.refill(source)? {
                return self.end();
            }
        }
    }

    /// Moves on to the next line of the bytes that were read, and returns `false` if these hold no
    /// complete one: `next` reads on. After an error it is not used again.
    #[inline(always)]
    pub fn next_held(&mut self) -> Result<bool, LineFault>
        ensures goes { (left : Option (List ℕ)) (given : List (List ℕ)) (taken : List ℕ) → HasRead self.old left given taken → GoesHeld self.new left given taken result }
        ensures holds { result ≡ Ok true → self.new.cutter.last ≡ next.Line }
        ensures plain { result ≡ Ok true → HasNoLf self.new.cutter.line }
        ensures moves { result ≡ Ok true → MovesOn self.old.cutter self.new.cutter }
        ensures held { result ≢ Ok true → self.new.cutter.front ≡ self.old.cutter.front }
        ensures long { (result ≢ Err LineFault.ReadFault) × (result ≢ Err LineFault.TooMuch) }
        ensures progress { result ≡ Ok true → remaining_of self.new < remaining_of self.old }
        ensures remaining { remaining_of self.new ≤ remaining_of self.old }
        ensures most { self.new.most ≡ self.old.most }
        ensures piece { self.new.last ≡ self.old.last }
    {
        match self.cut() {
            Next::Line => Ok(true),
            Next::More => Ok(false),
            Next::Long(line) => Err(LineFault::LongLine(line)),
        }
    }

    /// Moves on to the next complete lines of the bytes that were read, writes to the start of `spans`
    /// where they lie in `front`, and returns how many they are. If there is none `next` continues.
    pub fn next_lines(&mut self, spans: &mut [Span; GROUP]) -> usize
        ensures few { result ≤ GROUP }
        ensures lines { GivesLines self.old.cutter self.new.cutter (take result spans.new) }
        ensures goes { (left : Option (List ℕ)) (given : List (List ℕ)) (taken : List ℕ) → HasRead self.old left given taken
            → HasRead self.new left (given ++ lines_at (take result spans.new) self.new.cutter.front) taken }
        ensures stays { self.new ≡ record self.old { cutter = self.new.cutter } }
        ensures none { result ≡ 0 → is_long self.old.cutter.last ≡ false → HasNoShortLine self.old.cutter }
        ensures progress { remaining_of self.new + result ≤ remaining_of self.old }
    {
        self.lines.next_lines(spans)
    }

    /// Moves on to the next complete lines of the bytes that were read, at most `most`, and returns how many
    /// they are: `front` has become longer by them and what ended them. If there is none `next_held` continues.
    pub fn next_run(&mut self, most: usize) -> usize
        ensures few { result ≤ most }
        ensures run { GivesRun self.old.cutter self.new.cutter result }
        ensures goes { (left : Option (List ℕ)) (given : List (List ℕ)) (taken : List ℕ) → HasRead self.old left given taken
            → HasRead self.new left (given ++ lines_of (run_between self.old.cutter self.new.cutter)) taken }
        ensures stays { self.new ≡ record self.old { cutter = self.new.cutter } }
        ensures none { result ≡ 0 → 0 < most → is_long self.old.cutter.last ≡ false → GivesNone self.old.cutter }
        ensures progress { remaining_of self.new + result ≤ remaining_of self.old }
    {
        self.lines.next_run(most)
    }

    /// Moves on over the next lines of the bytes that were read, which the caller found: `count` of them, in the next
    /// `bytes` bytes. It returns how many they are, and `front` has become longer by them; or it moves over none, as
    /// `next_run` does.
    pub fn pass_run(&mut self, bytes: usize, count: usize) -> usize
        requires within { bytes ≤ length self.old.cutter.rest }
        requires run { IsRun count (take bytes self.old.cutter.rest) }
        ensures all { 0 < result → (result ≡ count) × (run_between self.old.cutter self.new.cutter ≡ take bytes self.old.cutter.rest) }
        ensures run { GivesRun self.old.cutter self.new.cutter result }
        ensures goes { (left : Option (List ℕ)) (given : List (List ℕ)) (taken : List ℕ) → HasRead self.old left given taken
            → HasRead self.new left (given ++ lines_of (run_between self.old.cutter self.new.cutter)) taken }
        ensures stays { self.new ≡ record self.old { cutter = self.new.cutter } }
        ensures none { result ≡ 0 → 0 < count → is_long self.old.cutter.last ≡ false → GivesNone self.old.cutter }
        ensures progress { remaining_of self.new + result ≤ remaining_of self.old }
    {
        self.lines.pass_run(bytes, count)
    }

    /// Gives away the memory that has the lines given since the last read, with what ended them, for other memory. The bytes
    /// that no line given has, few enough to be copied, go there.
    pub fn swap(&mut self, other: &mut Padded)
        requires few { length self.old.cutter.rest ≤ LINE_LIMIT + 1 }
        requires room { TEXT_ROOM + BLOCK ≤ other.old.room }
        ensures given { other.new.items ≡ padded self.old.cutter.front }
        ensures stays { self.new ≡ record self.old { cutter = record self.old.cutter { front = []; line = [] } } }
        ensures goes { (left : Option (List ℕ)) (given : List (List ℕ)) (taken : List ℕ) → HasRead self.old left given taken → HasRead self.new left given taken }
    {
        self.lines.swap(other);
    }

    /// The line that the last call of `next` or `next_held` gave.
    #[inline(always)]
    pub fn line(&self) -> &[u8]
        requires { self.now.cutter.last ≡ next.Line }
        ensures { result.now ≡ self.now.cutter.line }
    {
        self.lines.line()
    }

    /// The bytes of the lines that were given since the last read, with what ended them.
    #[inline(always)]
    pub fn front(&self) -> &[u8]
        ensures { result.now ≡ self.now.cutter.front }
    {
        self.lines.front()
    }

    /// The bytes read that no line given has.
    pub fn rest(&self) -> &[u8]
        ensures { result.now ≡ self.now.cutter.rest }
    {
        self.lines.rest()
    }

    /// How many lines were given.
    pub fn number(&self) -> u64
        ensures { result ≡ self.now.cutter.number }
    {
        self.lines.number()
    }
}
