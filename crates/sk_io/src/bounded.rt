// Reads of a source of which a bounded number of bytes may be taken.
ghost use Rattle.std.specs.Prelude.{◌≡◌, ◌<◌, ◌≤◌, ◌↔◌, length, IfOk, IsErrOf};
ghost use Rattle.std.specs.Io.{ReadsAtMost};
ghost use Rattle.std.specs.Io.KnownBytes.{ReadConsumes};
ghost use Rattle.sk_model.specs.Causes.{HasCauseIn};
ghost use Rattle.sk_io.specs.Base.{LastRead};

use crate::stream::{Failed, Source};

/// Why a read under a bound gave nothing.
#[derive(Clone, Copy, Debug, PartialEq, Eq)]
pub enum BoundFault {
    /// The read failed.
    ReadFault,
    /// As many bytes were taken as may be.
    TooMuch,
}

impl From<Failed> for BoundFault {
    ghost use Rattle.sk_io.specs.declared.bounded.BoundFault.TheVariants as fault;

    ghost from_gives = { λ _ e. e ≡ fault.ReadFault };

    fn from(_: Failed) -> Self {
        BoundFault::ReadFault
    }
}

/// Reads some bytes into the start of `piece`, at most `room` of them, none only at the end. Where
/// none may be read it returns `TooMuch`. A read that fails takes none.
pub fn read_within<S: Source>(
    source: &mut S,
    piece: &mut [u8],
    room: u64,
) -> Result<usize, BoundFault>
    requires { 0 < length piece.old }
    ensures bound { ReadsAtMost result piece.new }
    ensures room { IfOk result (λ n. n ≤ room) }
    ensures bytes { ReadConsumes (S.left source.old) (S.left source.new) result piece.new }
    ensures last { LastRead (S.last source.old) (S.last source.new) result }
    ensures too_much { IsErrOf result BoundFault.TooMuch ↔ (room ≡ 0) }
    ensures cause { HasCauseIn BoundFault.ReadFault (S.faults source.old) (S.faults source.new) result }
    ensures stays { S.stands_on source.new ≡ S.stands_on source.old }
{
    let most = room.min(piece.len() as u64) as usize;
    if most == 0 {
        return Err(BoundFault::TooMuch);
    }
    Ok(source.read(&mut piece[..most])?)
}
