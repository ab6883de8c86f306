// Why an image is not read.
ghost use Rattle.std.specs.Prelude.{◌≡◌};

use sk_io::BoundFault;
use std::alloc::AllocFailed;

/// Why a source was not read as an image.
#[derive(Clone, Copy, Debug, PartialEq, Eq)]
pub enum ReadStop {
    /// A read failed.
    ReadFault,
    /// The line of this number, counted from 1, is the first that is not as its place requires.
    BadImage(u64),
    /// As many bytes were taken as are too much, and each line that LF ended in them is as its place
    /// requires. A piece of a line may follow them, also after a whole image.
    TooMuch,
    /// No memory was left.
    OutOfMemory,
}

impl From<BoundFault> for ReadStop {
    ghost use Rattle.sk_image.specs.Stops.{read_stop_by};

    ghost from_gives = { λ fault e. e ≡ read_stop_by fault };

    fn from(fault: BoundFault) -> Self {
        match fault {
            BoundFault::ReadFault => ReadStop::ReadFault,
            BoundFault::TooMuch => ReadStop::TooMuch,
        }
    }
}

impl<T: Drop> From<AllocFailed<T>> for ReadStop {
    ghost use Rattle.sk_image.specs.declared.stop.ReadStop.TheVariants as stop;

    ghost from_gives = { λ _ e. e ≡ stop.OutOfMemory };

    fn from(_: AllocFailed<T>) -> Self {
        ReadStop::OutOfMemory
    }
}
