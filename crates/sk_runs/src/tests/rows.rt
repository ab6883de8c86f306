// Tables of runs: a row of text is a run, and what it has to end with.
//
// Its columns stand between bars: how the streams are, the words, the text that is read, the
// status, the output, and standard error. The marks of the streams are those of `streams_of`, those
// of a text those of `bytes_of`.
use super::stage::{FINE, Ran, Streams, alarms, expect, run_beside};
use sk_io::MemShelf;
use sk_model::limits::LINE_LIMIT;
use std::alloc::Global;
use std::process::Abort;
use std::sync::Wait;
use std::test::Fail;
use std::thread::Threads;

// The columns of a row.
#[derive(Clone, Copy)]
struct Row<'a> {
    streams: &'a str,
    line: &'a str,
    text: &'a str,
    status: &'a str,
    out: &'a str,
    err: &'a str,
}

fn row_of(row: &str) -> Option<Row<'_>> {
    let (streams, rest) = row.split_once('|')?;
    let (line, rest) = rest.split_once('|')?;
    let (text, rest) = rest.split_once('|')?;
    let (status, rest) = rest.split_once('|')?;
    let (out, err) = rest.split_once('|')?;
    Some(Row {
        streams,
        line,
        text: text.trim(),
        status: status.trim(),
        out: out.trim(),
        err: err.trim(),
    })
}

// The streams of a row: what is named differs from `FINE`.
fn streams_of(column: &str) -> Option<Streams> {
    let mut streams = FINE;
    'mark: for mark in column.split_whitespace() {
        let (name, number) = mark.split_once('=')?;
        let number = number.parse::<u32>().ok()?;
        match name {
            "piece" => streams.piece = number,
            "read" => streams.read = number,
            "taken" => streams.taken = number,
            "write" => streams.write = number,
            "room" => streams.room = number,
            "err" => streams.err = number,
            "open" => streams.open = number,
            "file" => streams.file = number,
            _ => return None,
        }
    }
    Some(streams)
}

/// The bytes of a column: `;` stands for LF, `^` for CR, `_` for a blank, `@` for as many `x` as a
/// line has at most, `#` for the numbers from 1 to 10,000, each twice, `~` for each once as an item of
/// tenant a and of tenant b, and `?` for a digit.
pub fn bytes_of(alloc: Global, column: &str, digit: u8) -> Result<Vec<u8>, Fail> {
    let mut bytes = Vec::new(alloc);
    'byte: for byte in column.bytes() {
        match byte {
            b';' => bytes.push(b'\n')?,
            b'^' => bytes.push(b'\r')?,
            b'_' => bytes.push(b' ')?,
            b'?' => bytes.push(digit)?,
            b'@' => bytes.extend_from_slice(&vec![in alloc; b'x'; LINE_LIMIT]?)?,
            b'#' => put_numbers(alloc, &mut bytes, "", "")?,
            b'~' => put_numbers(alloc, &mut bytes, "a ", "b ")?,
            _ => bytes.push(byte)?,
        }
    }
    Ok(bytes)
}

// The numbers from 1 to 10,000, each in two lines that begin so.
fn put_numbers(alloc: Global, bytes: &mut Vec<u8>, first: &str, second: &str) -> Result<(), Fail> {
    'number: for number in 1..=10_000u32 {
        let twice = format!(in alloc; "{first}{number}\n{second}{number}\n")?;
        bytes.extend_from_slice(twice.as_bytes())?;
    }
    Ok(())
}

/// What is due for a column, where `?` stands for a digit of which 0, 1 and 2 are allowed.
pub fn due_of(alloc: Global, column: &str, written: &[u8]) -> Result<Vec<u8>, Fail> {
    let place = column.find('?').unwrap_or(0);
    let digit = match written.get(place) {
        Some(b'1') => b'1',
        Some(b'2') => b'2',
        _ => b'0',
    };
    bytes_of(alloc, column, digit)
}

// The files that each run finds, each by its name; `=` stands for the text of the row.
const FILES: &str = "\
quick | hello;hello, world;The quick brown fox jumps over the lazy dog.;
ids | 5;3;
--raw | 7;
plan | machine 2 1 1;split 0;
table | 1,5;2,5;
one | theta1 k=2 seed=0;000000000003;000000000005;end 2;
two | theta1 k=2 seed=0;000000000004;end 1;
three | theta1 k=3 seed=0;000000000004;end 1;
seven | theta1 k=2 seed=7;000000000004;end 1;
short | theta1 k=2 seed=0;000000000003;
zero | theta1 k=2 seed=0;000000000000;end 1;
old | theta1 k=32768 seed=4294967295;000000000000;ffffffffffff;end 2;
four | theta2 k=2 seed=0;0000000000000004;0000000000000006;end 2;
five | theta2 k=2 seed=0;0000000000000005;end 1;
wide | theta2 k=1048576 seed=4294967295;0000000000000001;7fffffffffffffff;end 2;
text | =
_a__name_ | =";

fn put_file(
    alloc: Global,
    files: &mut Vec<(String, Vec<u8>)>,
    file: &str,
    text: &[u8],
) -> Result<(), Fail> {
    let (name, column) = file.split_once('|').ok_or("no file")?;
    let bytes = if column.trim() == "=" {
        text.to_vec(alloc)?
    } else {
        bytes_of(alloc, column.trim(), b'0')?
    };
    files.push((name.trim().replace(alloc, '_', " ")?, bytes))?;
    Ok(())
}

/// A shelf of these files.
pub fn shelf_of(alloc: Global, streams: &Streams, text: &[u8]) -> Result<MemShelf, Fail> {
    let mut files = Vec::new(alloc);
    'file: for file in FILES.lines() {
        put_file(alloc, &mut files, file, text)?;
    }
    let opens = [u64::from(streams.open)].to_vec(alloc)?;
    let reads = [u64::from(streams.file)].to_vec(alloc)?;
    Ok(MemShelf::new(files, opens, reads))
}

/// Runs the program over a text, with the files and alarms.
pub fn run_alone<R: Threads + Wait + Sync>(
    rt: &R,
    alloc: Global,
    streams: &Streams,
    line: &str,
    text: Vec<u8>,
) -> Result<Ran, Fail> {
    let mut shelf = shelf_of(alloc, streams, &text)?;
    let mut board = alarms(alloc)?;
    run_beside(rt, alloc, streams, line, text, &mut shelf, &mut board)
}

// Runs a row, and compares what it ended with.
fn check_row<R: Threads + Wait + Abort + Sync>(
    rt: &R,
    alloc: Global,
    row: &str,
) -> Result<(), Fail> {
    let columns = row_of(row).ok_or("no row")?;
    let streams = streams_of(columns.streams).ok_or("no streams")?;
    let status = columns.status.parse::<u8>()?;
    let text = bytes_of(alloc, columns.text, b'0')?;
    let ran = run_alone(rt, alloc, &streams, columns.line, text)?;
    let out = due_of(alloc, columns.out, ran.out.written())?;
    let err = bytes_of(alloc, columns.err, b'0')?;
    expect(rt, &ran, row, status, &out, &err);
    Ok(())
}

/// Runs each row of a table, which has this many.
pub fn check_rows<R: Threads + Wait + Abort + Sync>(
    rt: &R,
    alloc: Global,
    table: &str,
    rows: usize,
) -> Result<(), Fail> {
    assert_eq!(rt; table.lines().count(), rows);
    'row: for row in table.lines() {
        check_row(rt, alloc, row)?;
    }
    Ok(())
}
