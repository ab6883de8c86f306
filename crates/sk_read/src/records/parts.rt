// The bytes of a source, in parts of whole records.
ghost use Rattle.std.specs.Prelude.{◌≡◌, ◌≢◌, ◌≤◌, ◌<◌, ◌+◌, ◌-◌, ◌^◌, ℕ, ◌↔◌, List, [], ◌∷◌, ◌++◌, Ok, Err, OnOk, OnErr, IfOk, IfErr, MatchResult, length, take, drop, true, false};
ghost use Rattle.std.specs.Io.KnownBytes.{Consumes, IsAtEnd};
ghost use Rattle.csv.specs.Reading.{default_config, records, strip_bom};
ghost use Rattle.sk_model.specs.Causes.{HasCauseIn};
ghost use Rattle.sk_read.specs.Records.{Row};
ghost use Rattle.sk_read.specs.Parts.{HasStarted, HasTaken, HasHeld, Holds, Lacks, LacksBytes, Refills, IsWithoutMark, mark, remaining_of, is_mark_front};
ghost use Rattle.sk_model.specs.Limits.{source_limit};

use crate::fault::Fault;
use crate::reader::LineFault;
use crate::records::scan::{ScanState, scan};
use sk_io::{Source, read_within};
use std::alloc::Global;

// The most bytes that one read is asked for.
const PIECE_LEN: usize = 65_536;

// The bytes of the byte order mark, U+FEFF in UTF-8.
const MARK: [u8; 3] = [0xEF, 0xBB, 0xBF];

// The bytes of a source, in parts of whole records.
#[derive(Drop)]
pub(crate) struct Parts {
    // The bytes that no part given has, after one that ends a record: so no part seems to begin
    // with a byte order mark.
    bytes: Vec<u8>,
    // How many of them lie before the last place between two records.
    cut: usize,
    // Where they end.
    place: ScanState,
    // What a read is given. On the heap, since each function that holds this pays for its size.
    piece: Vec<u8>,
    taken: u64,
    // how many bytes the last read gave
    last: usize,
    most: u64,
    ended: bool,
}

impl Parts {
    // The start of a source of fewer than `most` bytes, without a byte order mark.
    pub(crate) fn start<S: Source>(alloc: Global, most: u64, source: &mut S) -> Result<Parts, Fault>
        requires { most ≤ source_limit }
        ensures starts { MatchResult result
            (λ parts. (taken : List ℕ) × Consumes (S.left source.old) (S.left source.new) taken × HasHeld parts (S.left source.new) [] taken × (parts.most ≡ most) × (parts.last ≤ S.last source.new))
            (λ fault. (taken : List ℕ) × Consumes (S.left source.old) (S.left source.new) taken × Lacks (S.last source.new) most [] taken fault) }
        ensures cause { HasCauseIn Fault.ReadFault (S.faults source.old) (S.faults source.new) result }
        ensures stays { S.stands_on source.new ≡ S.stands_on source.old }
    {
        let mut bytes = Vec::new(alloc);
        bytes.extend_from_slice(b"\n")?;
        let mut parts = Parts {
            bytes,
            cut: 1,
            place: ScanState::Between,
            piece: Vec::new(alloc),
            taken: 0,
            last: 0,
            most,
            ended: false,
        };
        'mark: while !parts.ended && may_be_mark(&parts.bytes[1..]) {
            parts.read_more(source, 1)?;
        }
        parts.settle();
        Ok(parts)
    }

    // Drops a byte order mark that the first bytes are, and looks where they may be cut.
    fn settle(&mut self)
        requires { (taken : List ℕ) × HasStarted self.old taken }
        ensures takes { (taken : List ℕ) → HasStarted self.old taken → HasTaken self.new [] taken }
        ensures same { (self.new.most ≡ self.old.most) × (self.new.taken ≡ self.old.taken) × (self.new.ended ≡ self.old.ended) }
        ensures piece { self.new.last ≡ self.old.last }
    {
        drop_mark(&mut self.bytes);
        let (place, cut) = scan(ScanState::Between, &self.bytes[1..]);
        self.place = place;
        self.cut = 1 + cut;
    }

    // Reads some bytes more of the source, at most `room`, or finds its end.
    fn read_more<S: Source>(&mut self, source: &mut S, room: usize) -> Result<(), Fault>
        requires some { 1 ≤ room }
        requires fits { room ≤ PIECE_LEN }
        requires bound { self.old.taken ≤ self.old.most }
        requires few { self.old.most ≤ source_limit }
        requires open { self.old.ended ≡ false }
        ensures holds { OnOk result ((more : List ℕ) × Consumes (S.left source.old) (S.left source.new) more × Holds self.old self.new more × (length more ≤ room)) }
        ensures end { OnOk result (self.new.ended ≡ true → IsAtEnd (S.left source.new)) }
        ensures lacks { IfErr result (λ fault. (more : List ℕ) × Consumes (S.left source.old) (S.left source.new) more × (length more ≤ room) × (length more ≤ self.new.last) × LacksBytes self.old more fault) }
        ensures piece { self.old.last ≤ S.last source.old → self.new.last ≤ S.last source.new }
        ensures most { self.new.most ≡ self.old.most }
        ensures cause { HasCauseIn Fault.ReadFault (S.faults source.old) (S.faults source.new) result }
        ensures stays { S.stands_on source.new ≡ S.stands_on source.old }
    {
        let allowed = self.most - self.taken;
        self.piece.resize(room, 0)?;
        let n = read_within(source, self.piece.as_mut_slice(), allowed).map_err(LineFault::from)?;
        self.last = n;
        self.bytes.extend_from_slice(&self.piece[..n])?;
        self.taken += n as u64;
        self.ended = n == 0;
        Ok(())
    }

    // Reads until a record has ended, or returns `false` at the end of the source.
    pub(crate) fn refill<S: Source>(&mut self, source: &mut S) -> Result<bool, Fault>
        requires { (rows : List Row) × (taken : List ℕ) × HasHeld self.old (S.left source.old) rows taken }
        ensures goes { (rows : List Row) (taken : List ℕ) → HasHeld self.old (S.left source.old) rows taken
            → (more : List ℕ) × Consumes (S.left source.old) (S.left source.new) more × Refills self.new (S.left source.new) rows (taken ++ more) result }
        ensures remaining { OnOk result (remaining_of self.new ≡ remaining_of self.old) }
        ensures piece { self.old.last ≤ S.last source.old → self.new.last ≤ S.last source.new }
        ensures most { self.new.most ≡ self.old.most }
        ensures cause { HasCauseIn Fault.ReadFault (S.faults source.old) (S.faults source.new) result }
        ensures stays { S.stands_on source.new ≡ S.stands_on source.old }
    {
        'piece: while self.cut == 1 {
            if self.ended {
                return Ok(false);
            }
            let len = self.bytes.len();
            self.read_more(source, PIECE_LEN)?;
            let (place, found) = scan(self.place, &self.bytes[len..]);
            self.place = place;
            self.cut = cut_behind(self.cut, len, found);
        }
        Ok(true)
    }

    // The bytes held up to the last place between two records.
    pub(crate) fn whole(&self) -> &[u8]
        requires { (rows : List Row) × (taken : List ℕ) × HasTaken self.now rows taken }
        ensures bytes { result.now ≡ take self.now.cut self.now.bytes.items }
        ensures plain { strip_bom result.now ≡ result.now }
    {
        &self.bytes[..self.cut]
    }

    // Drops these bytes, but for the last one.
    pub(crate) fn drop_whole(&mut self)
        requires { (rows : List Row) × (taken : List ℕ) × HasTaken self.old rows taken }
        ensures given { (rows : List Row) (taken : List ℕ) → HasTaken self.old rows taken
            → HasTaken self.new (rows ++ records default_config (take self.old.cut self.old.bytes.items)) taken }
        ensures less { 1 < self.old.cut → remaining_of self.new < remaining_of self.old }
        ensures same { (self.new.most ≡ self.old.most) × (self.new.taken ≡ self.old.taken) × (self.new.ended ≡ self.old.ended) }
        ensures piece { self.new.last ≡ self.old.last }
    {
        drop_front(&mut self.bytes, self.cut - 1);
        self.cut = 1;
    }

    // All bytes held.
    pub(crate) fn rest(&self) -> &[u8]
        requires { (rows : List Row) × (taken : List ℕ) × HasTaken self.now rows taken }
        ensures bytes { result.now ≡ self.now.bytes.items }
        ensures plain { strip_bom result.now ≡ result.now }
    {
        &self.bytes
    }
}

// The last cut, where `found` bytes lie before the last one in a piece that was put after `len` bytes.
fn cut_behind(before: usize, len: usize, found: usize) -> usize
    requires { len + found < 2 ^ 64 }
    ensures stays { found ≡ 0 → result ≡ before }
    ensures later { 0 < found → result ≡ len + found }
{
    if found == 0 { before } else { len + found }
}

// Drops the first bytes, this many.
fn drop_front(bytes: &mut Vec<u8>, n: usize)
    requires { n ≤ length bytes.old.items }
    ensures { bytes.new.items ≡ drop n bytes.old.items }
{
    let len = bytes.len();
    bytes.copy_within(n..len, 0);
    bytes.truncate(len - n);
}

// Whether these are the first bytes of a byte order mark, and not all of it.
fn may_be_mark(bytes: &[u8]) -> bool
    ensures { result ≡ is_mark_front bytes.now }
{
    bytes.len() < MARK.len() && MARK.starts_with(bytes)
}

// Drops a byte order mark that the bytes after the first one are.
fn drop_mark(bytes: &mut Vec<u8>)
    requires { 1 ≤ length bytes.old.items }
    ensures { (first : ℕ) (taken : List ℕ) → bytes.old.items ≡ first ∷ taken
        → (held : List ℕ) × (bytes.new.items ≡ first ∷ held) × IsWithoutMark taken held }
{
    if is_mark(&bytes[1..]) {
        bytes.truncate(1);
    }
}

// Whether these are the bytes of a byte order mark.
fn is_mark(bytes: &[u8]) -> bool
    ensures { (result ≡ true) ↔ (bytes.now ≡ mark) }
{
    bytes == MARK.as_slice()
}
