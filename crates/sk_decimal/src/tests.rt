// A caller of the sink, and its text against tables.
ghost use Rattle.std.specs.Prelude.{◌++◌, OnOk, OnErr};
ghost use Rattle.std.specs.Io.KnownBytes.{Appends};
ghost use Rattle.sk_model.specs.Causes.{HasCause};
ghost use Rattle.sk_decimal.specs.Rounded.{rounded};

use crate::{Digits, Line, Rounding};
use sk_io::{Failed, MemSink, Sink, write_all};
use std::alloc::Global;
use std::process::Abort;
use std::test::Fail;

// Writes two texts to any sink.
fn write_both<S: Sink>(out: &mut S, first: &[u8], second: &[u8]) -> Result<(), Failed>
    ensures ok { OnOk result (Appends (S.written out.old) (S.written out.new) (first.now ++ second.now)) }
    ensures cause { HasCause (S.faults out.old) (S.faults out.new) result }
{
    write_all(out, first)?;
    write_all(out, second)
}

// Writes two texts through a rounding sink. It knows of that sink what its reports say.
fn write_rounded<O: Sink>(
    out: O,
    line: Line,
    digits: Digits,
    first: &[u8],
    second: &[u8],
) -> (O, Result<(), Failed>)
    ensures { OnOk result.1 (Appends (O.written out) (O.written result.0) (rounded digits.count (first.now ++ second.now))) }
{
    let mut rounding = Rounding::new(out, line, digits);
    let _wrote = write_both(&mut rounding, first, second);
    rounding.finish()
}

// What a sink in memory got of a text, and whether all of it. Its calls with the numbers `fails` fail.
fn sent<R: Abort>(
    rt: &R,
    alloc: Global,
    count: u32,
    texts: (&[u8], &[u8]),
    fails: Vec<u64>,
) -> Result<(MemSink, bool), Fail> {
    let sink = MemSink::new(alloc, 4096, 7, fails)?;
    let digits = Digits::new(count).expect(rt, "few digits");
    let (sink, result) = write_rounded(sink, Line::new(alloc)?, digits, texts.0, texts.1);
    Ok((sink, result.is_ok()))
}

#[test]
fn fractions_are_rounded(rt: HostRuntime) -> Result<(), Fail> {
    let table: [(u32, &[u8], &[u8]); 10] = [
        (0, b"estimate 159166/4\n", b"estimate 39792\n"),
        (
            0,
            b"estimate 1/2\nestimate 49/100\n",
            b"estimate 1\nestimate 0\n",
        ),
        (1, b"estimate 1/20\n", b"estimate 0.1\n"),
        (1, b"at 1000 estimate 1/3\n", b"at 1000 estimate 0.3\n"),
        (6, b"1/3 estimate 2/3\n", b"1/3 estimate 0.666667\n"),
        (3, b"estimate 201/200\nx\n", b"estimate 1.005\nx\n"),
        (
            2,
            b"2/3\n\n 1/0\n/3\n3/\n1/2/3\n",
            b"0.67\n\n 1/0\n/3\n3/\n1/2/3\n",
        ),
        (
            2,
            b"a 9671406556917033397649407/9223372036854775807\n",
            b"a 1048576.00\n",
        ),
        (
            0,
            b"a 1000000000000000000000000000000/3\n",
            b"a 1000000000000000000000000000000/3\n",
        ),
        (3, b"a  5/2 \n5/2 1/2", b"a  5/2 \n5/2 1/2"),
    ];
    for (count, text, want) in table {
        for at in 0..text.len() + 1 {
            let texts = (&text[..at], &text[at..]);
            let (sink, all) = sent(&rt, rt.alloc(), count, texts, Vec::new(rt.alloc()))?;
            assert!(rt;
                all && sink.written() == want,
                "{count} digits, cut at {at}"
            );
        }
    }
    Ok(())
}

#[test]
fn a_failed_write_is_reported(rt: HostRuntime) -> Result<(), Fail> {
    let texts: (&[u8], &[u8]) = (b"estimate 5/2\n", b"estimate 7/2\n");
    for call in 0..4 {
        let fails = Vec::from_slice(rt.alloc(), &[call])?;
        let (sink, all) = sent(&rt, rt.alloc(), 0, texts, fails)?;
        let kept = 7 * (call as usize % 2) + 11 * (call as usize / 2);
        assert!(rt;
            !all && sink.written() == &b"estimate 3\nestimate 4\n"[..kept],
            "call {call} fails"
        );
    }
    Ok(())
}
