// Why labelled lines were not all taken.
ghost use Rattle.std.specs.Prelude.{◌≡◌};
ghost use Rattle.sk_label.specs.Faults.{fault_at};

use sk_model::OutOfMemory;
use sk_read::LineFault;
use std::alloc::AllocError;

/// Why a taker of labelled lines stopped at one.
#[derive(Clone, Copy, Debug, PartialEq, Eq)]
pub enum LineStop {
    /// No memory was left.
    OutOfMemory,
    /// What is due at the line could not be written.
    WriteFault,
    /// The line is not empty and has not the form.
    BadLine,
    /// The line has the form, and is refused after those before it.
    Refused,
}

impl LineStop {
    /// The fault of a command whose taker stopped so at the line of this number.
    pub fn at(self, n: u64) -> LabelFault
        ensures { result ≡ fault_at self n }
    {
        match self {
            LineStop::OutOfMemory => LabelFault::OutOfMemory,
            LineStop::WriteFault => LabelFault::WriteFault,
            LineStop::BadLine => LabelFault::BadLine(n),
            LineStop::Refused => LabelFault::Refused(n),
        }
    }
}

/// Why a command over labelled lines ended before its whole text was written. Lines are counted from 1.
#[derive(Clone, Copy, Debug, PartialEq, Eq)]
pub enum LabelFault {
    /// No memory was left.
    OutOfMemory,
    /// A read failed.
    ReadFault,
    /// A write failed.
    WriteFault,
    /// The line of this number has more than 65,536 bytes.
    LongLine(u64),
    /// As many bytes were taken as are too much.
    TooMuch,
    /// The line of this number is not empty and has not the form.
    BadLine(u64),
    /// The line of this number has the form, and is refused after those before it.
    Refused(u64),
}

impl From<OutOfMemory> for LineStop {
    ghost use Rattle.sk_label.specs.declared.fault.LineStop.TheVariants as stop;

    ghost from_gives = { λ _ e. e ≡ stop.OutOfMemory };

    fn from(_: OutOfMemory) -> Self {
        LineStop::OutOfMemory
    }
}

impl From<AllocError> for LineStop {
    ghost use Rattle.sk_label.specs.declared.fault.LineStop.TheVariants as stop;

    ghost from_gives = { λ _ e. e ≡ stop.OutOfMemory };

    fn from(_: AllocError) -> Self {
        LineStop::OutOfMemory
    }
}

impl From<OutOfMemory> for LabelFault {
    ghost use Rattle.sk_label.specs.declared.fault.LabelFault.TheVariants as fault;

    ghost from_gives = { λ _ e. e ≡ fault.OutOfMemory };

    fn from(_: OutOfMemory) -> Self {
        LabelFault::OutOfMemory
    }
}

impl From<AllocError> for LabelFault {
    ghost use Rattle.sk_label.specs.declared.fault.LabelFault.TheVariants as fault;

    ghost from_gives = { λ _ e. e ≡ fault.OutOfMemory };

    fn from(_: AllocError) -> Self {
        LabelFault::OutOfMemory
    }
}

impl From<LineFault> for LabelFault {
    ghost use Rattle.sk_label.specs.Faults.{fault_of_lines};

    ghost from_gives = { λ fault e. e ≡ fault_of_lines fault };

    fn from(fault: LineFault) -> Self {
        match fault {
            LineFault::ReadFault => LabelFault::ReadFault,
            LineFault::LongLine(n) => LabelFault::LongLine(n),
            LineFault::TooMuch => LabelFault::TooMuch,
        }
    }
}
