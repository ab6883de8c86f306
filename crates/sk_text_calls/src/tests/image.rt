ghost use Rattle.std.specs.Prelude.{◌≡◌, ◌≤◌, ◌+◌, IfSome, IsErrOf, length, false};

use super::expect;
use sk_image::*;
use sk_io::{MemSink, MemSource, Sink, Source, SureSource};
use std::alloc::Global;
use std::process::Abort;
use std::test::Fail;

const TWO: &str = "theta1 k=2 seed=0\n000000000003\n000000000005\nend 2\n";

const WIDE: &str = "theta2 k=2 seed=0\n0000000000000004\n0000000000000006\nend 2\n";

// The answer to a text that comes in pieces of seven bytes.
fn read_text(alloc: Global, text: &str) -> Result<Result<Image, ReadStop>, Fail> {
    let mut source = MemSource::new(text.as_bytes().to_vec(alloc)?, 7, Vec::new(alloc));
    Ok(read(alloc, &mut source, 1 << 40))
}

// The answer to a text where as many bytes as these are too much.
fn read_below(alloc: Global, text: &str, most: u64) -> Result<Result<Image, ReadStop>, Fail> {
    let mut source = SureSource::new(text.as_bytes().to_vec(alloc)?);
    Ok(read(alloc, &mut source, most))
}

// The image of a text that is one.
fn image_of(alloc: Global, text: &str) -> Result<Image, Fail> {
    Ok(read_text(alloc, text)?.ok().ok_or("no image")?)
}

// What is written of an image, into a sink that takes nine bytes a call.
fn written(alloc: Global, image: &Image) -> Result<Vec<u8>, Fail> {
    let mut out = MemSink::new(alloc, 100, 9, Vec::new(alloc))?;
    let _ = write(alloc, &mut out, image);
    Ok(out.written().to_vec(alloc)?)
}

#[test]
fn an_image_of_version_1_has_what_its_text_says(rt: HostRuntime) -> Result<(), Fail> {
    let image = image_of(rt.alloc(), TWO)?;
    expect(&rt, (image.version, image.k, image.seed), (1, 2, 0));
    expect(&rt, image.hashes.as_slice(), [3, 5].as_slice());
    Ok(())
}

#[test]
fn an_image_of_version_2_has_what_its_text_says(rt: HostRuntime) -> Result<(), Fail> {
    let image = image_of(rt.alloc(), WIDE)?;
    expect(&rt, (image.version, image.k, image.seed), (2, 2, 0));
    expect(&rt, image.hashes.as_slice(), [4, 6].as_slice());
    expect(&rt, image.fraction(), (9_223_372_036_854_775_808, 6));
    Ok(())
}

// What is written of the image of both, nothing if these two have none.
fn joined(alloc: Global, left: &str, right: &str) -> Result<Vec<u8>, Fail> {
    match join(alloc, &image_of(alloc, left)?, &image_of(alloc, right)?) {
        Ok(image) => written(alloc, &image),
        Err(_stop) => Ok(Vec::new(alloc)),
    }
}

// Whole runs with `join` show the rest: which lines are out of place, estimates, and images that do not fit.
#[test]
fn images_are_joined_and_written(rt: HostRuntime) -> Result<(), Fail> {
    let alloc = rt.alloc();
    let both = joined(alloc, TWO, TWO)?;
    expect(&rt, both.as_slice(), TWO.as_bytes());
    let mixed = joined(alloc, TWO, WIDE)?;
    expect(&rt, mixed.is_empty(), true);
    Ok(())
}

// Whether a read of an image fails. If not, no fault is counted, and in no case more is taken than may be.
fn read_fails<S: Source>(alloc: Global, source: &mut S, most: u64) -> bool
    ensures none { result ≡ false → S.faults source.new ≡ S.faults source.old }
    ensures few { IfSome (S.left source.old) (λ text.
        IfSome (S.left source.new) (λ rest. length text ≤ length rest + most)) }
{
    is_read_fault(&read(alloc, source, most))
}

fn is_read_fault(answer: &Result<Image, ReadStop>) -> bool
    ensures { result ≡ false → ¬ IsErrOf answer.now ReadStop.ReadFault }
{
    matches!(answer, Err(ReadStop::ReadFault))
}

// Whether a write of an image fails. If not, no fault is counted.
fn write_fails<O: Sink>(alloc: Global, out: &mut O, image: &Image) -> bool
    ensures { result ≡ false → O.faults out.new ≡ O.faults out.old }
{
    write(alloc, out, image) == Err(WriteStop::Failed)
}

// Reads a text where as many bytes as these are too much, and expects this reason why it is none.
fn expect_stop(
    rt: &impl Abort,
    alloc: Global,
    text: &str,
    most: u64,
    stop: Option<ReadStop>,
) -> Result<(), Fail> {
    let answer = read_below(alloc, text, most)?;
    assert!(rt; answer.err() == stop, "at {text:?} below {most}");
    Ok(())
}

#[test]
fn limits_of_a_text(rt: HostRuntime) -> Result<(), Fail> {
    for (text, most, stop) in [
        (TWO, 51, None),
        (TWO, 50, Some(ReadStop::TooMuch)),
        ("bad\n", 4, Some(ReadStop::BadImage(1))),
        ("bad\n", 3, Some(ReadStop::TooMuch)),
    ] {
        expect_stop(&rt, rt.alloc(), text, most, stop)?;
    }
    Ok(())
}

#[test]
fn a_read_that_fails(rt: HostRuntime) -> Result<(), Fail> {
    let alloc = rt.alloc();
    let mut source = MemSource::new(TWO.as_bytes().to_vec(alloc)?, 7, [2].to_vec(alloc)?);
    expect(&rt, read_fails(alloc, &mut source, 100), true);
    expect(&rt, read_fails(alloc, &mut source, 100), false);
    Ok(())
}

#[test]
fn a_write_that_fails(rt: HostRuntime) -> Result<(), Fail> {
    let alloc = rt.alloc();
    let image = image_of(alloc, TWO)?;
    let mut out = MemSink::new(alloc, 20, 9, Vec::new(alloc))?;
    expect(&rt, write_fails(alloc, &mut out, &image), true);
    expect(&rt, out.written(), &TWO.as_bytes()[..20]);
    Ok(())
}
