// Why the program ends by a status other than 0.
ghost use Rattle.std.specs.Prelude.{◌≡◌, OnOk, OnErr};
ghost use Rattle.std.specs.Io.KnownBytes.{Appends};
ghost use Rattle.sk_model.specs.Causes.{HasCause, AppendsPart};
ghost use Rattle.sk_cli.specs.Fault.{status_of, message_of, unit_message, bad_image_message, stamp_message, mixed_message, fault_by, fault_by_image, fault_by_serve, refused_at, fault_by_label};

use sk_image::{MOST_LINE, ReadStop, put_first_line};
use sk_io::{Failed, Sink, write_all};
use sk_label::LabelFault;
use sk_lines::put_decimal;
use sk_model::OutOfMemory;
use sk_read::{Fault as ReadingFault, LineFault};
use sk_serve::ServeFault;
use std::alloc::AllocError;

/// The numbers of an image's first line.
#[derive(Clone, Copy, Debug, PartialEq, Eq)]
pub struct Stamp {
    pub version: u32,
    pub k: u32,
    pub seed: u32,
}

/// Why a command refuses a labelled line for its label.
#[derive(Clone, Copy, Debug, PartialEq, Eq)]
pub enum Refusal {
    /// Its moment lies in an earlier interval than the running one.
    Earlier,
    /// Its name is that of no tenant.
    Unknown,
}

/// Why the program ends by a status other than 0. Lines and records are counted from 1.
#[derive(Clone, Copy, Debug, PartialEq, Eq)]
pub enum Fault {
    OutOfMemory,
    Usage,
    ReadFault,
    WriteFault,
    /// A line, or the field of a record, has too many bytes.
    LongLine(u64),
    /// A line is not empty and no item.
    BadItem(u64),
    /// The field of a record is not empty and no item.
    BadField(u64),
    /// A line of a schedule is no event that is enabled.
    BadEvent(u64),
    OpenFault,
    /// Of the file of this number, 1 for the left and 2 for the right one, a line is not as its place in an image
    /// requires.
    BadImage(u64, u64),
    /// A listen or an accept failed.
    NetFault,
    /// Two images differ in version, k or seed, the left one first.
    Mixed(Stamp, Stamp),
    /// A record has not as many fields as the first, or no such column.
    BadCsv(u64),
    /// As many bytes were taken as are too much.
    TooMuch,
    /// A line is not empty and has not its two parts.
    BadLine(u64),
    /// The moment of a line lies in an earlier interval than the running one.
    Backward(u64),
    /// The name of a line is that of no tenant.
    UnknownTenant(u64),
}

impl From<OutOfMemory> for Fault {
    ghost use Rattle.sk_cli.specs.declared.fault.Fault.TheVariants as fault;

    ghost from_gives = { λ _ e. e ≡ fault.OutOfMemory };

    fn from(_: OutOfMemory) -> Self {
        Fault::OutOfMemory
    }
}

impl From<AllocError> for Fault {
    ghost use Rattle.sk_cli.specs.declared.fault.Fault.TheVariants as fault;

    ghost from_gives = { λ _ e. e ≡ fault.OutOfMemory };

    fn from(_: AllocError) -> Self {
        Fault::OutOfMemory
    }
}

impl From<LineFault> for Fault {
    ghost use Rattle.sk_cli.specs.Fault.{fault_by_line};

    ghost from_gives = { λ stop e. e ≡ fault_by_line stop };

    fn from(fault: LineFault) -> Self {
        match fault {
            LineFault::ReadFault => Fault::ReadFault,
            LineFault::LongLine(line) => Fault::LongLine(line),
            LineFault::TooMuch => Fault::TooMuch,
        }
    }
}

impl Fault {
    /// The fault that a fault of reading makes, at column 0 of lines, else of records.
    pub fn of_reading(column: u32, fault: ReadingFault) -> Fault
        ensures { result ≡ fault_by column fault }
    {
        match fault {
            ReadingFault::OutOfMemory => Fault::OutOfMemory,
            ReadingFault::ReadFault => Fault::ReadFault,
            ReadingFault::LongLine(number) => Fault::LongLine(number),
            ReadingFault::BadItem(number) if column == 0 => Fault::BadItem(number),
            ReadingFault::BadItem(number) => Fault::BadField(number),
            ReadingFault::BadCsv(number) => Fault::BadCsv(number),
            ReadingFault::TooMuch => Fault::TooMuch,
            ReadingFault::WriteFault => Fault::WriteFault,
        }
    }

    /// The fault of a file of this number that is not read as an image.
    pub fn of_image(number: u64, stop: ReadStop) -> Fault
        ensures { result ≡ fault_by_image number stop }
    {
        match stop {
            ReadStop::OutOfMemory => Fault::OutOfMemory,
            ReadStop::ReadFault => Fault::ReadFault,
            ReadStop::BadImage(line) => Fault::BadImage(number, line),
            ReadStop::TooMuch => Fault::TooMuch,
        }
    }

    /// The fault of a server.
    pub fn of_serving(fault: ServeFault) -> Fault
        ensures { result ≡ fault_by_serve fault }
    {
        match fault {
            ServeFault::OutOfMemory => Fault::OutOfMemory,
            ServeFault::NetFault => Fault::NetFault,
            ServeFault::WriteFault => Fault::WriteFault,
        }
    }

    /// The fault of labelled lines, of which this command refuses some for their labels.
    pub fn of_labels(why: Refusal, fault: LabelFault) -> Fault
        ensures { result ≡ fault_by_label why fault }
    {
        match fault {
            LabelFault::OutOfMemory => Fault::OutOfMemory,
            LabelFault::ReadFault => Fault::ReadFault,
            LabelFault::WriteFault => Fault::WriteFault,
            LabelFault::LongLine(line) => Fault::LongLine(line),
            LabelFault::TooMuch => Fault::TooMuch,
            LabelFault::BadLine(line) => Fault::BadLine(line),
            LabelFault::Refused(line) => Fault::refused(why, line),
        }
    }

    // The fault of a line that is refused for its label.
    fn refused(why: Refusal, line: u64) -> Fault
        ensures { result ≡ refused_at why line }
    {
        match why {
            Refusal::Earlier => Fault::Backward(line),
            Refusal::Unknown => Fault::UnknownTenant(line),
        }
    }

    /// The exit status.
    pub fn status(self) -> u8
        ensures { result ≡ status_of self }
    {
        match self {
            Fault::OutOfMemory => 1,
            Fault::Usage => 2,
            Fault::ReadFault => 3,
            Fault::WriteFault => 4,
            Fault::LongLine(_) => 5,
            Fault::BadItem(_) => 6,
            Fault::BadField(_) => 6,
            Fault::BadEvent(_) => 7,
            Fault::OpenFault => 8,
            Fault::BadImage(_, _) => 9,
            Fault::NetFault => 10,
            Fault::Mixed(_, _) => 11,
            Fault::BadCsv(_) => 12,
            Fault::TooMuch => 13,
            Fault::BadLine(_) => 14,
            Fault::Backward(_) => 15,
            Fault::UnknownTenant(_) => 16,
        }
    }

    /// Writes the line of the fault, which standard error gets.
    pub fn tell<E: Sink>(self, err: &mut E) -> Result<(), Failed>
        ensures ok { OnOk result (Appends (E.written err.old) (E.written err.new) (message_of self)) }
        ensures part { OnErr result (AppendsPart (E.written err.old) (E.written err.new) (message_of self)) }
        ensures cause { HasCause (E.faults err.old) (E.faults err.new) result }
    {
        match self {
            Fault::OutOfMemory => write_all(err, b"out of memory\n"),
            Fault::Usage => write_all(
                err,
                b"usage: sketchd count, hash, replay, image, join, quantile, serve, make, window, tally or tenants\n",
            ),
            Fault::ReadFault => write_all(err, b"read fault\n"),
            Fault::WriteFault => write_all(err, b"write fault\n"),
            Fault::LongLine(line) => tell_unit(err, b"line ", line, b": too long\n"),
            Fault::BadItem(line) => tell_unit(err, b"line ", line, b": not a number\n"),
            Fault::BadField(number) => tell_unit(err, b"record ", number, b": not a number\n"),
            Fault::BadEvent(line) => tell_unit(err, b"line ", line, b": bad event\n"),
            Fault::OpenFault => write_all(err, b"open fault\n"),
            Fault::NetFault => write_all(err, b"net fault\n"),
            Fault::BadImage(file, line) => tell_bad_image(err, file, line),
            Fault::Mixed(left, right) => tell_mixed(err, left, right),
            Fault::BadCsv(number) => tell_unit(err, b"record ", number, b": bad csv\n"),
            Fault::TooMuch => write_all(err, b"too much\n"),
            Fault::BadLine(line) => tell_unit(err, b"line ", line, b": bad line\n"),
            Fault::Backward(line) => tell_unit(err, b"line ", line, b": earlier moment\n"),
            Fault::UnknownTenant(line) => tell_unit(err, b"line ", line, b": unknown tenant\n"),
        }
    }
}

// Writes what is wrong with a line or a record.
fn tell_unit<E: Sink>(err: &mut E, unit: &[u8], number: u64, what: &[u8]) -> Result<(), Failed>
    ensures ok { OnOk result (Appends (E.written err.old) (E.written err.new) (unit_message unit.now number what.now)) }
    ensures part { OnErr result (AppendsPart (E.written err.old) (E.written err.new) (unit_message unit.now number what.now)) }
    ensures cause { HasCause (E.faults err.old) (E.faults err.new) result }
{
    let mut digits = [0u8; 20];
    let len = put_decimal(&mut digits, number);
    write_all(err, unit)?;
    write_all(err, &digits[..len])?;
    write_all(err, what)
}

// Writes which line of which file is not as its place in an image requires.
fn tell_bad_image<E: Sink>(err: &mut E, file: u64, line: u64) -> Result<(), Failed>
    ensures ok { OnOk result (Appends (E.written err.old) (E.written err.new) (bad_image_message file line)) }
    ensures part { OnErr result (AppendsPart (E.written err.old) (E.written err.new) (bad_image_message file line)) }
    ensures cause { HasCause (E.faults err.old) (E.faults err.new) result }
{
    tell_unit(err, b"file ", file, b" ")?;
    tell_unit(err, b"line ", line, b": bad image\n")
}

// Writes the first line of an image, and what follows it.
fn tell_stamp<E: Sink>(err: &mut E, stamp: Stamp, what: &[u8]) -> Result<(), Failed>
    ensures ok { OnOk result (Appends (E.written err.old) (E.written err.new) (stamp_message stamp what.now)) }
    ensures part { OnErr result (AppendsPart (E.written err.old) (E.written err.new) (stamp_message stamp what.now)) }
    ensures cause { HasCause (E.faults err.old) (E.faults err.new) result }
{
    let mut line = [0u8; MOST_LINE];
    let len = put_first_line(&mut line, stamp.version, stamp.k, stamp.seed);
    write_all(err, &line[..len])?;
    write_all(err, what)
}

// Writes the first lines of two images that do not fit together.
fn tell_mixed<E: Sink>(err: &mut E, left: Stamp, right: Stamp) -> Result<(), Failed>
    ensures ok { OnOk result (Appends (E.written err.old) (E.written err.new) (mixed_message left right)) }
    ensures part { OnErr result (AppendsPart (E.written err.old) (E.written err.new) (mixed_message left right)) }
    ensures cause { HasCause (E.faults err.old) (E.faults err.new) result }
{
    write_all(err, b"mixed: ")?;
    tell_stamp(err, left, b" and ")?;
    tell_stamp(err, right, b"\n")
}
