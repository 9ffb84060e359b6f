//! Programs that are opened only if they have the expected digest.

ghost use Rattle.std.specs.Prelude.{◌≡◌, ◌≢◌, ◌↔◌, ◌<◌, [], ◌∷◌, Contains, IsSome, IsTrue};
ghost use Rattle.sha2.specs.Sha256.{sha256};
ghost use Rattle.r2u2_c.specs.Exports.{Opens, Refuses};
ghost use Rattle.r2u2_c.specs.Opening.{opened_by};

use crate::c_monitor::R2u2;
use crate::codes::{ALREADY_OPEN, DAMAGED, DONE, NO_MEMORY, REFUSED};
use crate::exports::r2u2_open;
use crate::fault::Fault;
use sha2::{Digest, Sha256};
use std::alloc::Global;

/// The 32 bytes of a SHA-256 digest.
#[repr(C)]
#[derive(Clone, Copy)]
pub struct ProgramDigest {
    pub bytes: [u8; 32],
}

/// Opens the program in these bytes, as `r2u2_open` does, if their SHA-256 is the digest.
#[unsafe(no_mangle)]
pub extern "C" fn r2u2_open_checked(
    it: &mut R2u2,
    alloc: Global,
    bytes: &[u8],
    digest: &ProgramDigest,
    fault: &mut Fault,
) -> u32
    ensures opens { result ≡ DONE
        → Opens (opened_by bytes.now) it.old.handle.value it.new.handle.value }
    ensures already { (result ≡ ALREADY_OPEN) ↔ IsSome it.old.handle.value }
    ensures damaged { result ≡ DAMAGED → sha256 bytes.now ≢ digest.now.bytes }
    ensures whole { result ≢ ALREADY_OPEN → result ≢ DAMAGED → sha256 bytes.now ≡ digest.now.bytes }
    ensures refused { result ≡ REFUSED → Refuses (opened_by bytes.now) fault.new }
    ensures kept { 0 < result → it.new.handle.value ≡ it.old.handle.value }
    ensures untold { result ≢ REFUSED → fault.new ≡ fault.old }
    ensures codes { Contains
        (DONE ∷ ALREADY_OPEN ∷ REFUSED ∷ NO_MEMORY ∷ DAMAGED ∷ []) result }
{
    if it.is_open(alloc) {
        return ALREADY_OPEN;
    }
    if !has_digest(bytes, digest) {
        return DAMAGED;
    }
    r2u2_open(it, alloc, bytes, fault)
}

/// Returns true if the SHA-256 of these bytes is the digest.
fn has_digest(bytes: &[u8], digest: &ProgramDigest) -> bool
    ensures { IsTrue result ↔ (sha256 bytes.now ≡ digest.now.bytes) }
{
    Sha256::digest(bytes) == digest.bytes
}
