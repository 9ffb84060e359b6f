//! The number of bytes that a monitor takes.

ghost use Rattle.std.specs.Prelude.{◌≡◌, ◌≢◌, ◌∷◌, [], Contains, IfErr, IfOk, Err};
ghost use Rattle.r2u2_c.specs.Exports.{Refuses};
ghost use Rattle.r2u2_c.specs.Opening.{opened_by};
ghost use Rattle.r2u2_c.specs.Queries.{TellsBytes};

use crate::codes::{DONE, NO_MEMORY, REFUSED};
use crate::exports::refuse;
use crate::fault::Fault;
use crate::opened::OpeningFault;
use obs_binary::open;
use r2u2_monitor::bytes::MONITOR_BYTES;
use r2u2_monitor::monitor_bytes;
use std::alloc::Global;

/// Writes the number of bytes that a monitor of the program in these bytes holds while it is open,
/// in all its blocks together, to `told`.
#[unsafe(no_mangle)]
pub extern "C" fn r2u2_bytes(alloc: Global, bytes: &[u8], told: &mut u64, fault: &mut Fault) -> u32
    ensures tells { result ≡ DONE → TellsBytes (opened_by bytes.now) told.new }
    ensures refused { result ≡ REFUSED → Refuses (opened_by bytes.now) fault.new }
    ensures kept { result ≢ DONE → told.new ≡ told.old }
    ensures untold { result ≢ REFUSED → fault.new ≡ fault.old }
    ensures codes { Contains (DONE ∷ REFUSED ∷ NO_MEMORY ∷ []) result }
{
    match bytes_of(alloc, bytes) {
        Ok(count) => {
            *told = count;
            DONE
        }
        Err(why) => refuse(why, fault),
    }
}

/// Returns the number of bytes that a monitor of the program in these bytes holds.
fn bytes_of(alloc: Global, bytes: &[u8]) -> Result<u64, OpeningFault>
    ensures told { IfOk result (λ count. TellsBytes (opened_by bytes.now) count) }
    ensures refused { IfErr result (λ why. why ≢ OpeningFault.Memory
        → opened_by bytes.now ≡ Err why) }
{
    let checked = open(alloc, bytes)?;
    Ok(MONITOR_BYTES as u64 + monitor_bytes(&checked))
}
