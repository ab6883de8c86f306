ghost use Rattle.std.specs.Prelude.{◌≡◌, ◌≤◌, ◌^◌, ℕ, List, [], ◌∷◌, length, map, ⊤, None, Some, IsSome, IfOk, IfSome, IsErrOf};
ghost use Rattle.std.specs.Option.{option_to_list};
ghost use Rattle.sk_model.specs.Limits.{source_limit};
ghost use Rattle.sk_model.specs.Missing.{Begins};
ghost use Rattle.sk_read.specs.Units.{units_of};
ghost use Rattle.sk_read.specs.declared.fault.Fault.TheVariants as fault;

use sk_hash::hash63;
use sk_io::{MemSource, Source};
use sk_model::limits::SOURCE_LIMIT;
use sk_read::{Fault, Intake, Kind, Taker, UnitTaker, Units, read_items, read_units};
use std::alloc::Global;
use std::process::Abort;
use std::test::Fail;

// The items taken, in order.
#[derive(Drop)]
struct Items(Vec<u64>);

impl Taker for Items {
    ghost stands_for = { λ _ _. ⊤ };

    ghost numbers = { λ _. [] };

    fn take(&mut self, item: u64) {
        let _ = self.0.push(item);
    }
}

// The answer of a reading in pieces of this length, of which these reads fail, and the items taken.
fn read(
    alloc: Global,
    intake: Intake,
    text: &[u8],
    piece: usize,
    failing: &[u64],
) -> Result<(Result<u64, Fault>, Vec<u64>), Fail>
    requires { intake.most ≤ source_limit }
{
    let mut source = MemSource::new(text.to_vec(alloc)?, piece.max(1), failing.to_vec(alloc)?);
    let mut items = Items(Vec::new(alloc));
    let result = read_items(alloc, &intake, &mut source, &mut items);
    Ok((result, items.0))
}

fn intake(kind: Kind, column: u32) -> Intake
    ensures { result.most ≤ source_limit }
{
    Intake::of_items(kind, column, SOURCE_LIMIT)
}

fn expect(
    rt: &impl Abort,
    got: (Result<u64, Fault>, Vec<u64>),
    want: Result<u64, Fault>,
    items: &[u64],
) {
    super::expect(rt, got.0, want);
    super::expect(rt, got.1.as_slice(), items);
}

fn hashes_of(alloc: Global, fields: &[&[u8]]) -> Result<Vec<u64>, Fail> {
    let mut hashes = Vec::new(alloc);
    for field in fields {
        hashes.push(hash63(9, field))?;
    }
    Ok(hashes)
}

// The fields are those that Python's module csv reads, where it reads blank lines and the byte order
// mark alike. A mark is dropped at the very start alone, and only where it is whole. At column 0 the
// units are lines: a mark is part of the first, and quotes and commas are bytes.
#[test]
fn fields_of_units(rt: HostRuntime) -> Result<(), Fail> {
    let alloc = rt.alloc();
    let cases: [(&[u8], u32, u64, &[&[u8]]); 28] = [
        (b"", 1, 0, &[]),
        (b"a,b\nc,d\n", 1, 2, &[b"a", b"c"]),
        (b"a,b\nc,d\n", 2, 2, &[b"b", b"d"]),
        (b"\"a\",\"b,c\"\n", 2, 1, &[b"b,c"]),
        (b"\"a\"\"b\",x\n", 1, 1, &[b"a\"b"]),
        (b"a,b\r\nc,d\r\n", 2, 2, &[b"b", b"d"]),
        (b"a\rb\r", 1, 2, &[b"a", b"b"]),
        (b"\n\na\n\r\n\nb\n\n", 1, 2, &[b"a", b"b"]),
        (b"a,\nb,\n", 2, 2, &[]),
        (b",x\n", 1, 1, &[]),
        (b"a,\"b\nc", 2, 1, &[b"b\nc"]),
        (b"\"a\"b,c\n", 1, 1, &[b"ab"]),
        (b"\"a\" ,b\n", 1, 1, &[b"a "]),
        (b"a\"b\"\n", 1, 1, &[b"a\"b\""]),
        (b"\"\"\n\"\"", 1, 2, &[]),
        (b"a,b", 2, 1, &[b"b"]),
        (b"\"a\r\nb\",c\nd,e\n", 1, 2, &[b"a\r\nb", b"d"]),
        (b"\"a\r\nb\",c\nd,e\n", 2, 2, &[b"c", b"e"]),
        (b"a,a\n", 2, 1, &[b"a"]),
        (b"\"\",\"x\"\n", 2, 1, &[b"x"]),
        (b"\xEF\xBB\xBFa,b\n", 1, 1, &[b"a"]),
        (b"\xEF\xBB\xBF\"a,b\",c\n", 1, 1, &[b"a,b"]),
        (b"\xEF\xBB\xBF", 1, 0, &[]),
        (b"\xEF\xBB", 1, 1, &[b"\xEF\xBB"]),
        (b"\xEF\nb\n", 1, 2, &[b"\xEF", b"b"]),
        (b"a\n\xEF\xBB\xBFb\n", 1, 2, &[b"a", b"\xEF\xBB\xBFb"]),
        (b"\xEF\xBB\xBF\xEF\xBB\xBFa\n", 1, 1, &[b"\xEF\xBB\xBFa"]),
        (
            b"\xEF\xBB\xBFa\n\n\"b,\nc\r\nd\rd",
            0,
            5,
            &[b"\xEF\xBB\xBFa", b"\"b,", b"c", b"d\rd"],
        ),
    ];
    for (text, column, records, fields) in cases {
        let hashes = hashes_of(alloc, fields)?;
        for piece in [1, 2, 3, 7, 1000] {
            let got = read(alloc, intake(Kind::Hash(9), column), text, piece, &[])?;
            expect(&rt, got, Ok(records), &hashes);
        }
    }
    Ok(())
}

// The first unit that is refused, and the items before it: the number n is item n + 1.
#[test]
fn refused_units(rt: HostRuntime) -> Result<(), Fail> {
    let alloc = rt.alloc();
    let cases: [(&[u8], u32, Fault, &[u64]); 12] = [
        (b"1,2\n3\n", 1, Fault::BadCsv(2), &[2]),
        (b"1,2\n3,4,5\n6,7\n", 2, Fault::BadCsv(2), &[3]),
        (b"1,2\n3,4\n", 3, Fault::BadCsv(1), &[]),
        (b"\n1\n\n2,3", 1, Fault::BadCsv(2), &[2]),
        (b"5,x\n6,y\nz,7\n", 1, Fault::BadItem(3), &[6, 7]),
        (b"a,5\nb,x\n", 2, Fault::BadItem(2), &[6]),
        (b"\n1\n\nx\n", 1, Fault::BadItem(2), &[2]),
        (b"1,2\nx\n", 1, Fault::BadCsv(2), &[2]),
        (b"x,1\n2\n", 1, Fault::BadItem(1), &[]),
        (b"1,2\n\"\"\n", 1, Fault::BadCsv(2), &[2]),
        (b"1\nx\n2\n", 0, Fault::BadItem(2), &[2]),
        (
            b"9223372036854775806\n0\n9223372036854775807\n",
            0,
            Fault::BadItem(3),
            &[9_223_372_036_854_775_807, 1],
        ),
    ];
    for (text, column, fault, items) in cases {
        for piece in [1, 2, 3, 7, 1000] {
            let got = read(alloc, intake(Kind::Raw, column), text, piece, &[])?;
            expect(&rt, got, Err(fault), items);
        }
    }
    Ok(())
}

// A record with a field of so many digits 7 in its second column, between two short ones.
fn long_text(alloc: Global, len: usize) -> Result<Vec<u8>, Fail> {
    let mut text = Vec::new(alloc);
    text.extend_from_slice(b"x,1\n\"\n\",")?;
    text.extend_from_slice(&Vec::from_elem(alloc, b'7', len)?)?;
    text.extend_from_slice(b"\ny,2\n")?;
    Ok(text)
}

// A field may have 65,536 bytes, and those of other columns more.
#[test]
fn long_fields(rt: HostRuntime) -> Result<(), Fail> {
    let alloc = rt.alloc();
    let hash = Kind::Hash(9);
    let cases: [(usize, Kind, u32, Result<u64, Fault>, usize); 6] = [
        (65_536, hash, 2, Ok(3), 3),
        (65_537, hash, 2, Err(Fault::LongLine(2)), 1),
        (70_000, Kind::Raw, 2, Err(Fault::LongLine(2)), 1),
        (65_536, Kind::Raw, 2, Err(Fault::BadItem(2)), 1),
        (200_000, hash, 1, Ok(3), 3),
        (200_000, hash, 3, Err(Fault::BadCsv(1)), 0),
    ];
    for (len, kind, column, want, items) in cases {
        let text = long_text(alloc, len)?;
        for piece in [4096, 1_000_000] {
            let (result, taken) = read(alloc, intake(kind, column), &text, piece, &[])?;
            super::expect(&rt, (result, taken.len()), (want, items));
        }
    }
    Ok(())
}

// A fault of the source comes behind all units that have ended before it, and a refused unit is told
// before the next read, which would fail.
#[test]
fn faults_of_the_source(rt: HostRuntime) -> Result<(), Fail> {
    let alloc = rt.alloc();
    let two = b"1,2\n3,4\n";
    let refused = b"1\nx\n2\n";
    let cases: [(&[u8], u32, u64, &[u64], Result<u64, Fault>, &[u64]); 8] = [
        (two, 1, 9, &[0], Err(Fault::ReadFault), &[]),
        (two, 1, 9, &[1], Err(Fault::ReadFault), &[]),
        (two, 1, 9, &[4], Err(Fault::ReadFault), &[2]),
        (two, 1, 9, &[8], Err(Fault::ReadFault), &[2, 4]),
        (two, 1, 8, &[], Err(Fault::TooMuch), &[2, 4]),
        (two, 1, 9, &[], Ok(2), &[2, 4]),
        (refused, 0, 9, &[4], Err(Fault::BadItem(2)), &[2]),
        (refused, 1, 9, &[4], Err(Fault::BadItem(2)), &[2]),
    ];
    for (text, column, most, failing, want, items) in cases {
        let got = read(
            alloc,
            Intake::of_items(Kind::Raw, column, most),
            text,
            1,
            failing,
        )?;
        expect(&rt, got, want, items);
    }
    Ok(())
}

// Takes one unit, of which it keeps the length, and cannot write at the next.
#[derive(Drop)]
struct One(Option<usize>);

impl UnitTaker for One {
    ghost use Rattle.sk_read.specs.Standing.{Standing};

    ghost went = { λ start now units. start.0 ≡ None → map length units ≡ option_to_list now.0 };

    ghost stopped = { λ start now why units _. start.0 ≡ None → (why ≡ fault.WriteFault) × IsSome now.0 × (map length units ≡ option_to_list now.0) };

    ghost stands_on = { λ _. record { kind = None; borrows = []; numbers = [] } };

    fn take(&mut self, unit: &[u8], _number: u64) -> Result<(), Fault> {
        if self.0.is_some() {
            return Err(Fault::WriteFault);
        }
        self.0 = Some(unit.len());
        Ok(())
    }
}

// What it was given is the text's first unit, and where it could not write the text has a second.
fn read_one<S: Source>(
    alloc: Global,
    units: Units,
    source: &mut S,
    one: &mut One,
) -> Result<u64, Fault>
    requires { one.old.0 ≡ None }
    ensures whole { IfOk result (λ n. n ≤ 1) }
    ensures stopped { IsErrOf result fault.WriteFault → IfSome (S.left source.old) (λ text. (first : List ℕ) × (second : List ℕ)
        × Begins (first ∷ second ∷ []) (units_of units text) × (one.new.0 ≡ Some (length first))) }
{
    read_units(alloc, units, SOURCE_LIMIT, source, one)
}

// A taker that cannot write stops the reading at its unit.
#[test]
fn one_unit_alone(rt: HostRuntime) -> Result<(), Fail> {
    let alloc = rt.alloc();
    let cases: [(&[u8], Units, Result<u64, Fault>, Option<usize>); 4] = [
        (b"ab\nc\nd\n", Units::Lines, Err(Fault::WriteFault), Some(2)),
        (
            b"a,bcd\ne,f\n",
            Units::Column(1),
            Err(Fault::WriteFault),
            Some(3),
        ),
        (b"a", Units::Lines, Ok(1), Some(1)),
        (b"", Units::Column(0), Ok(0), None),
    ];
    for (text, units, want, len) in cases {
        let mut source = MemSource::new(text.to_vec(alloc)?, 1, Vec::new(alloc));
        let mut one = One(None);
        let result = read_one(alloc, units, &mut source, &mut one);
        super::expect(&rt, (result, one.0), (want, len));
    }
    Ok(())
}
