// Where a text of records stands, byte by byte.
ghost use Rattle.std.specs.Prelude.{◌≡◌, ◌≢◌, ◌≤◌, ◌<◌, ◌+◌, ◌-◌, All, length, take, drop, slice_index};
ghost use Rattle.csv.specs.Machine.{step};
ghost use Rattle.csv.specs.Reading.{default_config};
ghost use Rattle.sk_read.specs.Scan.{state_of, settled, IsEnd, IsCut};

use crate::records::delimiters::BLOCK;
use crate::records::quotes::scan_block;
use memchr::{memchr, memrchr2};

// A place of a text of records.
#[derive(Clone, Copy, Debug, PartialEq, Eq)]
pub(crate) enum ScanState {
    Between,
    FieldStart,
    InField,
    InQuotes,
    // After a quote that ends the quotes or is the first of two.
    AfterQuote,
}

// The place after a byte.
#[inline(always)]
pub(crate) fn behind(place: ScanState, byte: u8) -> ScanState
    ensures { state_of result ≡ settled (step default_config (state_of place) byte).0 }
{
    match place {
        ScanState::InQuotes => {
            if byte == b'"' {
                ScanState::AfterQuote
            } else {
                ScanState::InQuotes
            }
        }
        ScanState::InField => unquoted(byte),
        ScanState::Between | ScanState::FieldStart | ScanState::AfterQuote => {
            if byte == b'"' {
                ScanState::InQuotes
            } else {
                unquoted(byte)
            }
        }
    }
}

// The place after a byte that is no quote, or stands in a field without quotes.
#[inline(always)]
pub(crate) fn unquoted(byte: u8) -> ScanState
    ensures { state_of result ≡ settled (step default_config (state_of ScanState.InField) byte).0 }
{
    match byte {
        b',' => ScanState::FieldStart,
        b'\r' | b'\n' => ScanState::Between,
        _ => ScanState::InField,
    }
}

// How many bytes come before the first quote.
#[inline]
fn plain_len(bytes: &[u8]) -> usize
    ensures within { result ≤ length bytes.now }
    ensures plain { All (λ byte. byte ≢ 34) (take result bytes.now) }
    ensures quote { result < length bytes.now → slice_index bytes.now result ≡ 34 }
{
    memchr(b'"', bytes).unwrap_or(bytes.len())
}

// How many bytes there are up to the last LF or CR.
#[inline]
fn end_len(bytes: &[u8]) -> usize
    ensures within { result ≤ length bytes.now }
    ensures end { 0 < result → IsEnd (slice_index bytes.now (result - 1)) }
    ensures none { All (λ byte. ¬ IsEnd byte) (drop result bytes.now) }
{
    match memrchr2(b'\n', b'\r', bytes) {
        Some(place) => place + 1,
        None => 0,
    }
}

// What `scan` returns for bytes without a quote.
#[inline]
fn scan_plain(start: ScanState, bytes: &[u8]) -> (ScanState, usize)
    requires { All (λ byte. byte ≢ 34) bytes.now }
    ensures cut { IsCut (state_of start) bytes.now (state_of result.0) result.1 }
    ensures within { result.1 ≤ length bytes.now }
{
    if let ScanState::InQuotes = start {
        return (start, 0);
    }
    if bytes.is_empty() {
        return (start, 0);
    }
    (unquoted(bytes[bytes.len() - 1]), end_len(bytes))
}

// What `scan` returns up to the first quote, which it includes, and how many bytes these are.
#[inline]
fn scan_run(start: ScanState, bytes: &[u8]) -> (ScanState, usize, usize)
    requires { 0 < length bytes.now }
    ensures cut { IsCut (state_of start) (take result.2 bytes.now) (state_of result.0) result.1 }
    ensures within { result.1 ≤ result.2 }
    ensures some { 0 < result.2 }
    ensures len { result.2 ≤ length bytes.now }
{
    let len = plain_len(bytes);
    let (place, cut) = scan_plain(start, &bytes[..len]);
    if len == bytes.len() {
        return (place, cut, len);
    }
    (behind(place, bytes[len]), cut, len + 1)
}

// What `scan` returns for some bytes from a place on, and how many these are: a block that has quotes, or all up to the
// next quote.
fn scan_next(start: ScanState, bytes: &[u8], at: usize) -> (ScanState, usize, usize)
    requires { at < length bytes.now }
    ensures cut { IsCut (state_of start) (take result.2 (drop at bytes.now)) (state_of result.0) result.1 }
    ensures within { result.1 ≤ result.2 }
    ensures some { 0 < result.2 }
    ensures len { at + result.2 ≤ length bytes.now }
{
    if bytes.len() - at >= BLOCK {
        if let Some(found) = scan_block(start, bytes, at) {
            return (found.0, found.1, BLOCK);
        }
    }
    scan_run(start, &bytes[at..])
}

// The place after a piece, and how many bytes of it lie before the last place between two records
// that it has after its start.
pub(crate) fn scan(start: ScanState, piece: &[u8]) -> (ScanState, usize)
    ensures cut { IsCut (state_of start) piece.now (state_of result.0) result.1 }
    ensures within { result.1 ≤ length piece.now }
{
    let mut place = start;
    let mut cut = 0;
    let mut at = 0;
    'run: while at < piece.len() {
        let (next, found, len) = scan_next(place, piece, at);
        if found > 0 {
            cut = at + found;
        }
        place = next;
        at += len;
    }
    (place, cut)
}
