// The records of a text, their lengths, and the fields in a column of them.
ghost use Rattle.std.specs.Prelude.{◌≡◌, ◌≢◌, ◌↔◌, ◌≤◌, ◌<◌, ◌+◌, ℕ, List, [], ◌∷◌, ◌++◌, Ok, Some, None, OnOk, IfOk, IfErr, MatchResult, All, length, take, drop, slice_index, true, false};
ghost use Rattle.csv.specs.Reading.{default_config, records};
ghost use Rattle.sk_model.specs.Limits.{most_kept, line_limit};
ghost use Rattle.sk_read.specs.Records.{Row, field_of, width_of};
ghost use Rattle.sk_read.specs.Columns.{first_width, HasRows, IsFieldOf, Breaks};
ghost use Rattle.sk_read.specs.Groups.{HasSeen, HasSeenOrRefused, RefusesRow, KnowsAfter, CutsGroup, TakesRow};
ghost use Rattle.sk_lines.specs.Spans.{AreBehind};
ghost use Rattle.sk_model.specs.Missing.{Begins};
ghost use Rattle.sk_read.specs.Scan.{IsEnd};

use crate::fault::Fault;
use crate::records::delimiters::Ahead;
use crate::records::plain::{cut_line, is_plain};
use crate::records::quoted::{is_line_end, read_record};
use crate::units::UnitTaker;
use sk_lines::{GROUP, Span};
use sk_model::limits::LINE_LIMIT;
use std::alloc::Global;

// A column of records, how many fields each record has, and how many records there were.
#[derive(Drop)]
pub(crate) struct ColumnReader {
    column: usize,
    width: Option<usize>,
    number: u64,
}

// Where a line of a text without quotes begins, and what is known of the text after that.
#[derive(Clone, Copy)]
struct Place {
    start: usize,
    ahead: Ahead,
}

impl Place {
    const FIRST: Place = Place {
        start: 0,
        ahead: Ahead::NONE,
    };
}

// Records that were cut together: how many, where the next line begins, and why the record there was not taken, if it
// was not.
#[derive(Clone, Copy)]
struct Group {
    count: usize,
    next: Place,
    refused: Option<Fault>,
}

impl ColumnReader {
    // A column, counted from 0, with no record yet.
    pub(crate) fn new(column: u32) -> ColumnReader
        ensures column { result.column ≡ column }
        ensures none { (result.number ≡ 0) × (result.width ≡ None) }
    {
        ColumnReader {
            column: column as usize,
            width: None,
            number: 0,
        }
    }

    // How many records there were.
    pub(crate) fn number(&self) -> u64
        ensures { result ≡ self.now.number }
    {
        self.number
    }

    // Gives the fields of a text's records to the taker, in order.
    pub(crate) fn give<T: UnitTaker>(
        &mut self,
        alloc: Global,
        text: &[u8],
        taker: &mut T,
    ) -> Result<(), Fault>
        requires room { (start : _) × (rows : List Row) × (length rows + length (records default_config text.now) ≤ most_kept) × HasRows self.old (T.went start taker.old) rows }
        ensures goes { (start : _) (rows : List Row) → length rows + length (records default_config text.now) ≤ most_kept → HasRows self.old (T.went start taker.old) rows
            → MatchResult result (λ _. HasRows self.new (T.went start taker.new) (rows ++ records default_config text.now))
            (λ fault. Breaks self.old.column (T.went start taker.new) (T.stopped start taker.new) rows (records default_config text.now) fault) }
        ensures column { self.new.column ≡ self.old.column }
        ensures taker { T.stands_on taker.new ≡ T.stands_on taker.old }
    {
        if is_plain(text) {
            return self.give_lines(text, taker);
        }
        self.give_records(alloc, text, taker)
    }

    // The same, by its lines, if it has no quote.
    fn give_lines<T: UnitTaker>(&mut self, text: &[u8], taker: &mut T) -> Result<(), Fault>
        requires plain { All (λ byte. byte ≢ 34) text.now }
        requires room { (start : _) × (rows : List Row) × (length rows + length (records default_config text.now) ≤ most_kept) × HasRows self.old (T.went start taker.old) rows }
        ensures goes { (start : _) (rows : List Row) → length rows + length (records default_config text.now) ≤ most_kept → HasRows self.old (T.went start taker.old) rows
            → MatchResult result (λ _. HasRows self.new (T.went start taker.new) (rows ++ records default_config text.now))
            (λ fault. Breaks self.old.column (T.went start taker.new) (T.stopped start taker.new) rows (records default_config text.now) fault) }
        ensures column { self.new.column ≡ self.old.column }
        ensures taker { T.stands_on taker.new ≡ T.stands_on taker.old }
    {
        let mut place = Place::FIRST;
        let mut spans = [Span::EMPTY; GROUP];
        'group: while place.start < text.len() {
            let before = self.number;
            let group = self.cut_group(text, place, &mut spans);
            taker.take_all(text, &spans[..group.count], before)?;
            if let Some(fault) = group.refused {
                return Err(fault);
            }
            place = group.next;
        }
        Ok(())
    }

    // Cuts the next records, until there is no room for the place of one more field, one is refused, or the text ends.
    fn cut_group(&mut self, text: &[u8], place: Place, spans: &mut [Span; GROUP]) -> Group
        requires plain { All (λ byte. byte ≢ 34) text.now }
        requires known { KnowsAfter text.now place }
        requires room { (rows : List Row) × (length rows + length (records default_config (drop place.start text.now)) ≤ most_kept) × HasSeen self.old rows }
        ensures few { result.count ≤ GROUP }
        ensures within { AreBehind 0 (take result.count spans.new) text.now }
        ensures cuts { CutsGroup self.old self.new text.now text.now place.start result.next.start (take result.count spans.new) result.refused }
        ensures known { KnowsAfter text.now result.next }
        ensures progress { result.refused ≡ None → place.start < length text.now → place.start < result.next.start }
        ensures column { self.new.column ≡ self.old.column }
    {
        let mut next = place;
        let mut count = 0;
        'line: while next.start < text.len() && count < GROUP {
            let line = cut_line(text, next.start, self.column, next.ahead);
            if line.end > next.start {
                let field = line.fields.field;
                if let Err(fault) = self.admit(line.fields.width, field.to - field.from) {
                    return Group {
                        count,
                        next,
                        refused: Some(fault),
                    };
                }
                spans[count] = field;
                count += 1;
            }
            next = Place {
                start: line.end + 1,
                ahead: line.ahead,
            };
        }
        Group {
            count,
            next,
            refused: None,
        }
    }

    // The same, by its records: their fields are gathered, and given many together.
    fn give_records<T: UnitTaker>(
        &mut self,
        alloc: Global,
        text: &[u8],
        taker: &mut T,
    ) -> Result<(), Fault>
        requires room { (start : _) × (rows : List Row) × (length rows + length (records default_config text.now) ≤ most_kept) × HasRows self.old (T.went start taker.old) rows }
        ensures goes { (start : _) (rows : List Row) → length rows + length (records default_config text.now) ≤ most_kept → HasRows self.old (T.went start taker.old) rows
            → MatchResult result (λ _. HasRows self.new (T.went start taker.new) (rows ++ records default_config text.now))
            (λ fault. Breaks self.old.column (T.went start taker.new) (T.stopped start taker.new) rows (records default_config text.now) fault) }
        ensures column { self.new.column ≡ self.old.column }
        ensures taker { T.stands_on taker.new ≡ T.stands_on taker.old }
    {
        let mut held = Vec::new(alloc);
        let mut spans = [Span::EMPTY; GROUP];
        let mut at = 0;
        'group: while at < text.len() {
            let before = self.number;
            let group = self.read_group(text, at, &mut held, &mut spans);
            taker.take_all(&held, &spans[..group.count], before)?;
            if let Some(fault) = group.refused {
                return Err(fault);
            }
            at = group.next.start;
        }
        Ok(())
    }

    // Reads the next records, until there is no room for the place of one more field, one is refused, memory runs out
    // or the text ends. Their fields replace what `held` has.
    fn read_group(
        &mut self,
        text: &[u8],
        start: usize,
        held: &mut Vec<u8>,
        spans: &mut [Span; GROUP],
    ) -> Group
        requires room { (rows : List Row) × (length rows + length (records default_config (drop start text.now)) ≤ most_kept) × HasSeen self.old rows }
        ensures few { result.count ≤ GROUP }
        ensures within { AreBehind 0 (take result.count spans.new) held.new.items }
        ensures cuts { CutsGroup self.old self.new text.now held.new.items start result.next.start (take result.count spans.new) result.refused }
        ensures progress { result.refused ≡ None → start < length text.now → start < result.next.start }
        ensures column { self.new.column ≡ self.old.column }
    {
        held.clear();
        let mut next = Place {
            start,
            ahead: Ahead::NONE,
        };
        let mut count = 0;
        'row: while next.start < text.len() && count < GROUP {
            if is_line_end(text[next.start]) {
                next.start += 1;
            } else {
                let (field, end) = match self.read_row(text, next.start, held) {
                    Ok(found) => found,
                    Err(fault) => {
                        return Group {
                            count,
                            next,
                            refused: Some(fault),
                        };
                    }
                };
                spans[count] = field;
                count += 1;
                next.start = end;
            }
        }
        Group {
            count,
            next,
            refused: None,
        }
    }

    // Reads the record at a place, puts its field after those that are held, and takes it unless it is refused. Returns
    // where its field lies, and where the text after it begins.
    #[inline(always)]
    fn read_row(
        &mut self,
        text: &[u8],
        start: usize,
        held: &mut Vec<u8>,
    ) -> Result<(Span, usize), Fault>
        requires inside { start < length text.now }
        requires begins { ¬ IsEnd (slice_index text.now start) }
        requires room { (rows : List Row) × (length rows + length (records default_config (drop start text.now)) ≤ most_kept) × HasSeen self.old rows }
        ensures took { IfOk result (λ found. TakesRow self.old self.new text.now held.new.items start found.1 found.0) }
        ensures refused { IfErr result (λ why. (rows : List Row) → length rows + length (records default_config (drop start text.now)) ≤ most_kept → HasSeen self.old rows
            → HasSeenOrRefused self.new rows (records default_config (drop start text.now)) (Some why)) }
        ensures more { Begins held.old.items held.new.items }
        ensures column { self.new.column ≡ self.old.column }
    {
        let from = held.len();
        let found = read_record(text, start, self.column, held)?;
        let to = held.len();
        self.admit(found.width, to - from)?;
        Ok((Span { from, to }, found.end))
    }

    // Takes the next record, of `width` fields, of which that in the column has `len` bytes, unless it is refused.
    #[inline(always)]
    fn admit(&mut self, width: usize, len: usize) -> Result<(), Fault>
        requires room { (rows : List Row) × (length rows < most_kept) × HasSeen self.old rows }
        ensures goes { (rows : List Row) (row : Row) (field : List ℕ) → length rows < most_kept → HasSeen self.old rows → IsFieldOf self.old.column row width field → length field ≡ len
            → MatchResult result (λ _. HasSeen self.new (rows ++ row ∷ []) × (field ≡ field_of self.old.column row)) (RefusesRow self.old.column rows row) }
        ensures short { OnOk result (len ≤ line_limit) }
        ensures number { self.new.number ≡ self.old.number + 1 }
        ensures column { self.new.column ≡ self.old.column }
    {
        self.number += 1;
        if !fits(&mut self.width, self.column, width) {
            return Err(Fault::BadCsv(self.number));
        }
        if len > LINE_LIMIT {
            return Err(Fault::LongLine(self.number));
        }
        Ok(())
    }
}

// Whether a record of `width` fields is as long as the first, which it may be, and has the column.
fn fits(first: &mut Option<usize>, column: usize, width: usize) -> bool
    ensures { (rows : List Row) (row : Row) → first.old ≡ first_width rows → width ≡ length row
        → (first.new ≡ first_width (rows ++ row ∷ [])) × ((result ≡ true) ↔ ((width ≡ width_of (rows ++ row ∷ [])) × (column < width))) }
{
    let first = *first.get_or_insert(width);
    first == width && column < width
}
