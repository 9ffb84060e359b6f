//! Whole pieces: writing all of a piece, and reading a place to its end.

ghost use Rattle.std.specs.Prelude.{◌≡◌, []};
ghost use Rattle.tool_io.specs.Log.{OnLog};
ghost use Rattle.tool_io.specs.Host.{IsSource, IsSink, WriteCause, LeftAlone, LeftElsewhere};
ghost use Rattle.tool_io.specs.Whole.{PutAllRange, PutAllLog, WholeLog, WholeCause};

use crate::host::{Got, Host, Place, Put};
use std::alloc::{AllocError, Global};

/// The reason why a place wasn't read whole.
#[derive(Clone, Copy)]
pub enum WholeFault {
    /// More bytes came than the limit allows.
    TooLong,
    /// A read failed; the place's count of faults rose.
    ReadFault,
    /// The bytes didn't fit into memory.
    Memory,
}

impl From<AllocError> for WholeFault {
    ghost use Rattle.std.specs.Prelude.{◌≡◌};
    ghost use Rattle.tool_io.specs.declared.whole.WholeFault.{WholeFault};

    ghost from_gives = { λ _ fault. fault ≡ WholeFault.Memory };

    fn from(_: AllocError) -> Self {
        WholeFault::Memory
    }
}

/// The most bytes of one read.
const BLOCK: usize = 4096;

/// Writes all of the piece to the place, in as many writes as the host needs.
///
/// Returns `Wrote` with the length of the piece, or `Failed` at the first write that fails; then a
/// prefix of the piece is out, and at least one byte isn't. An empty piece makes no call.
#[inline(always)]
pub fn put_all<H: Host>(host: &mut H, place: Place, piece: &[u8]) -> Put
    requires { IsSink place }
    ensures range { PutAllRange result piece.now }
    ensures cause { WriteCause result (H.faults host.old) (H.faults host.new) place }
    ensures log { OnLog (H.log host.old) (H.log host.new) (PutAllLog result place piece.now) }
    ensures left { LeftAlone (H.left host.old) (H.left host.new) }
    ensures no_call { piece.now ≡ [] → host.new ≡ host.old }
{
    let mut sent = 0;
    while sent < piece.len() {
        match host.write(place, &piece[sent..]) {
            Put::Wrote(n) => sent += n,
            Put::Failed => return Put::Failed,
        }
    }
    Put::Wrote(sent)
}

/// Reads the place to its end, which must come within the limit of bytes.
pub fn read_whole<H: Host>(
    alloc: Global,
    host: &mut H,
    place: Place,
    limit: usize,
) -> Result<Vec<u8>, WholeFault>
    requires { IsSource place }
    ensures cause { WholeCause result (H.faults host.old) (H.faults host.new) place }
    ensures log { OnLog (H.log host.old) (H.log host.new) (WholeLog result place limit) }
    ensures elsewhere { LeftElsewhere (H.left host.old) (H.left host.new) place }
{
    let mut whole = Vec::new(alloc);
    let mut block = [0; BLOCK];
    loop {
        match host.read(place, &mut block) {
            Got::Bytes(n) => {
                if limit - whole.len() < n {
                    return Err(WholeFault::TooLong);
                }
                whole.extend_from_slice(&block[..n])?;
            }
            Got::End => return Ok(whole),
            Got::Failed => return Err(WholeFault::ReadFault),
        }
    }
}
