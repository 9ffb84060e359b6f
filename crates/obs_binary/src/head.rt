//! Outputs and signals as in their entries: without their names, which follow all entries.

ghost use Rattle.std.specs.Prelude.{◌≡◌, ◌==◌, if◌then◌else◌};
ghost use Rattle.obs_binary.specs.Layout.{out_entry, signal_entry};
ghost use Rattle.obs_binary.specs.Reading.{out_content, signal_content, out_of, stored_signal};
ghost use Rattle.obs_binary.specs.declared.fault.ReadFault.TheVariants.{NameBytes, SignalBytes};

use crate::entry::{Entry, entry_bytes, first_other};
use crate::fault::ReadFault;
use crate::fields::u32_at;
use crate::names::Head;
use byteorder::{ByteOrder, LittleEndian};
use mltl_base::{Engine, Name, Out, StoredSignal};

/// An output without its name: the numbers of its one or two instructions, and the length of the
/// name.
#[derive(Clone, Copy)]
pub(crate) struct OutHead {
    pub(crate) engine: Engine,
    pub(crate) left: u32,
    pub(crate) right: Option<u32>,
    pub(crate) name_len: u32,
}

/// A stored signal without its name.
#[derive(Clone, Copy)]
pub(crate) struct SignalHead {
    pub(crate) column: u32,
    pub(crate) truth: bool,
    pub(crate) name_len: u8,
}

/// Returns the entry of an output.
#[tactic(auto, unfolding(crate::specs::Layout::out_entry))]
pub(crate) fn out_bytes(head: OutHead) -> [u8; 24]
    ensures { result ≡ out_entry head }
{
    let engine = match head.engine {
        Engine::Ft => 0,
        Engine::Pt => 1,
    };
    match head.right {
        None => entry_bytes(0x30, engine, &[head.left, 0, head.name_len, 0, 0]),
        Some(right) => entry_bytes(0x31, engine, &[head.left, right, head.name_len, 0, 0]),
    }
}

fn engine_of(code: u8) -> Engine
    ensures { result ≡ (if code == 1 then Engine.Pt else Engine.Ft) }
{
    if code == 1 { Engine::Pt } else { Engine::Ft }
}

impl Entry for OutHead {
    ghost LEN = { 24 };

    ghost spelled = { out_entry };

    ghost content = { out_content };

    const LEN: usize = 24;

    #[tactic(auto, unfolding(crate::specs::Reading::out_content))]
    fn content(bytes: &[u8]) -> Option<OutHead> {
        let right = match bytes[0] {
            0x30 => None,
            0x31 => Some(u32_at(bytes, 8)),
            _ => return None,
        };
        Some(OutHead {
            engine: engine_of(bytes[1]),
            left: u32_at(bytes, 4),
            right,
            name_len: u32_at(bytes, 12),
        })
    }

    fn first_other(&self, offset: u64, bytes: &[u8]) -> Option<u64> {
        first_other(offset, &out_bytes(*self), bytes)
    }
}

impl Head for OutHead {
    type Whole = Out;

    ghost name_len = { λ head. head.name_len };

    ghost with_name = { out_of };

    ghost fault = { NameBytes };

    fn name_len(&self) -> usize {
        self.name_len as usize
    }

    fn with_name(&self, name: Name) -> Out {
        match self.right {
            None => Out::Formula(self.engine, self.left, name),
            Some(right) => Out::Contract(self.engine, self.left, right, name),
        }
    }

    fn fault(k: u32) -> ReadFault {
        ReadFault::NameBytes(k)
    }
}

/// Returns the entry of a signal.
#[tactic(auto, unfolding(crate::specs::Layout::signal_entry, crate::specs::Layout::u32_bytes))]
pub(crate) fn signal_bytes(head: SignalHead) -> [u8; 8]
    ensures { result ≡ signal_entry head }
{
    let mut bytes = [0; 8];
    LittleEndian::write_u32(&mut bytes, head.column);
    bytes[4] = u8::from(head.truth);
    bytes[5] = head.name_len;
    bytes
}

impl Entry for SignalHead {
    ghost LEN = { 8 };

    ghost spelled = { signal_entry };

    ghost content = { signal_content };

    const LEN: usize = 8;

    #[tactic(auto, unfolding(crate::specs::Reading::signal_content))]
    fn content(bytes: &[u8]) -> Option<SignalHead> {
        Some(SignalHead {
            column: u32_at(bytes, 0),
            truth: bytes[4] == 1,
            name_len: bytes[5],
        })
    }

    fn first_other(&self, offset: u64, bytes: &[u8]) -> Option<u64> {
        first_other(offset, &signal_bytes(*self), bytes)
    }
}

impl Head for SignalHead {
    type Whole = StoredSignal;

    ghost name_len = { λ head. head.name_len };

    ghost with_name = { stored_signal };

    ghost fault = { SignalBytes };

    fn name_len(&self) -> usize {
        self.name_len as usize
    }

    fn with_name(&self, name: Name) -> StoredSignal {
        StoredSignal {
            name,
            truth: self.truth,
            column: self.column,
        }
    }

    fn fault(k: u32) -> ReadFault {
        ReadFault::SignalBytes(k)
    }
}
