// The records of a text with quotes, one field after another, as csv's machine reads them: of each the field in a
// column.
ghost use Rattle.std.specs.Prelude.{◌≡◌, ◌≢◌, ◌↔◌, ◌≤◌, ◌<◌, ◌+◌, ◌++◌, ◌^◌, ℕ, List, true, OnOk, IfOk, IfErr, length, slice_index, slice_range};
ghost use Rattle.sk_model.specs.Missing.{Begins};
ghost use Rattle.sk_read.specs.Delimiters.{IsDelimiter, IsFirst};
ghost use Rattle.sk_read.specs.Scan.{IsEnd};
ghost use Rattle.sk_read.specs.QuotedRecords.{IsRecord, IsField, LeavesQuotes, kept};

use crate::fault::Fault;
use crate::records::seek::{seek_delimiter, seek_quote};

// A record: how many fields it has, and where the text after it begins.
#[derive(Clone, Copy)]
pub(crate) struct Record {
    pub(crate) width: usize,
    pub(crate) end: usize,
}

// Whether a byte is LF or CR.
#[inline(always)]
pub(crate) fn is_line_end(byte: u8) -> bool
    ensures { (result ≡ true) ↔ IsEnd byte }
{
    byte == b'\n' || byte == b'\r'
}

// The record that begins at a place of a text. Its field in a column is put after what is held.
pub(crate) fn read_record(
    text: &[u8],
    start: usize,
    column: usize,
    held: &mut Vec<u8>,
) -> Result<Record, Fault>
    requires inside { start < length text.now }
    requires begins { ¬ IsEnd (slice_index text.now start) }
    ensures read { IfOk result (λ found. (field : List ℕ) × (held.new.items ≡ held.old.items ++ field) × IsRecord column text.now start found field) }
    ensures err { IfErr result (λ why. why ≡ Fault.OutOfMemory) }
    ensures more { Begins held.old.items held.new.items }
{
    let mut at = start;
    let mut width = 0;
    'field: while at < text.len() {
        let end = read_field(text, at, is_in_column(width, column), held)?;
        width += 1;
        if !is_comma(text, end) {
            return Ok(Record {
                width,
                end: end + 1,
            });
        }
        at = end + 1;
    }
    Ok(Record {
        width: width + 1,
        end: at,
    })
}

// Whether the field after `width` others is the one in a column.
#[inline(always)]
fn is_in_column(width: usize, column: usize) -> bool
    ensures { (result ≡ true) ↔ (width ≡ column) }
{
    width == column
}

// Whether a comma stands at a place.
#[inline(always)]
fn is_comma(text: &[u8], at: usize) -> bool
    ensures { (result ≡ true) ↔ ((at < length text.now) × (slice_index text.now at ≡ 44)) }
{
    at < text.len() && text[at] == b','
}

// The field that begins at a place is put after what is held, if it is to be kept. Returns the place of the comma, LF
// or CR that ends it, or the end of the text.
#[inline(always)]
fn read_field(text: &[u8], start: usize, keeps: bool, held: &mut Vec<u8>) -> Result<usize, Fault>
    requires { start < length text.now }
    ensures read { IfOk result (λ end. (field : List ℕ) × (held.new.items ≡ held.old.items ++ kept keeps field) × IsField text.now start end field) }
    ensures err { IfErr result (λ why. why ≡ Fault.OutOfMemory) }
    ensures more { Begins held.old.items held.new.items }
{
    if text[start] != b'"' {
        return read_plain(text, start, keeps, held);
    }
    let close = read_quoted(text, start + 1, keeps, held)?;
    if ends_field(text, close) {
        return Ok(close);
    }
    read_plain(text, close, keeps, held)
}

// Whether a comma, an LF or CR, or the end of the text is at a place.
#[inline(always)]
fn ends_field(text: &[u8], at: usize) -> bool
    requires { at ≤ length text.now }
    ensures { result ≡ true → at < length text.now → IsDelimiter (slice_index text.now at) }
{
    at == text.len() || text[at] == b',' || is_line_end(text[at])
}

// The same with what is left of a field from a place outside quotes on.
#[inline(always)]
fn read_plain(text: &[u8], start: usize, keeps: bool, held: &mut Vec<u8>) -> Result<usize, Fault>
    requires { start ≤ length text.now }
    ensures read { IfOk result (λ end. (held.new.items ≡ held.old.items ++ kept keeps (slice_range text.now start end)) × IsFirst IsDelimiter text.now start end) }
    ensures err { IfErr result (λ why. why ≡ Fault.OutOfMemory) }
    ensures more { Begins held.old.items held.new.items }
{
    let end = seek_delimiter(text, start);
    keep(held, keeps, &text[start..end])?;
    Ok(end)
}

// The same with what stands between quotes from a place on. Returns the place after the quote that ends them, or the
// end of the text.
fn read_quoted(text: &[u8], start: usize, keeps: bool, held: &mut Vec<u8>) -> Result<usize, Fault>
    requires { start ≤ length text.now }
    ensures read { IfOk result (λ end. (more : List ℕ) × (held.new.items ≡ held.old.items ++ kept keeps more) × LeavesQuotes text.now start end more) }
    ensures err { IfErr result (λ why. why ≡ Fault.OutOfMemory) }
    ensures more { Begins held.old.items held.new.items }
{
    let mut at = start;
    'quote: while at < text.len() {
        let quote = seek_quote(text, at);
        if !is_doubled(text, quote) {
            keep(held, keeps, &text[at..quote])?;
            return Ok((quote + 1).min(text.len()));
        }
        keep(held, keeps, &text[at..quote + 1])?;
        at = quote + 2;
    }
    Ok(at)
}

// Whether a quote stands at the next place.
#[inline(always)]
fn is_doubled(text: &[u8], quote: usize) -> bool
    requires { quote ≤ length text.now }
    ensures { (result ≡ true) ↔ ((quote + 1 < length text.now) × (slice_index text.now (quote + 1) ≡ 34)) }
{
    quote + 1 < text.len() && text[quote + 1] == b'"'
}

// Puts bytes after those that are held, if they are to be kept.
#[inline(always)]
fn keep(held: &mut Vec<u8>, keeps: bool, bytes: &[u8]) -> Result<(), Fault>
    ensures kept { OnOk result (held.new.items ≡ held.old.items ++ kept keeps bytes.now) }
    ensures err { IfErr result (λ why. why ≡ Fault.OutOfMemory) }
    ensures more { Begins held.old.items held.new.items }
{
    if !keeps || bytes.is_empty() {
        return Ok(());
    }
    held.extend_from_slice(bytes)?;
    Ok(())
}
