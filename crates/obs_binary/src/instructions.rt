//! Entries of instructions.

ghost use Rattle.std.specs.Prelude.{◌≡◌, length};
ghost use Rattle.obs_binary.specs.Layout.{bz_entry, ft_entry, pt_entry, FitsBz, FitsFt, FitsPt};
ghost use Rattle.obs_binary.specs.Reading.{bz_content, ft_content, pt_content, entry_interval};

use crate::entry::{Entry, constant_bytes, entry_bytes, first_other};
use crate::fields::{i64_at, u32_at};
use mltl_base::{BzOp, FtOp, Interval, PtOp};

/// Returns the entry of an instruction of the Booleanizer.
#[tactic(auto, unfolding(crate::specs::Layout::bz_entry))]
pub(crate) fn bz_bytes(op: BzOp) -> [u8; 24]
    ensures bytes { result ≡ bz_entry op }
    ensures fits { FitsBz op }
{
    match op {
        BzOp::Column(column) => entry_bytes(0x01, 0, &[column, 0, 0, 0, 0]),
        BzOp::IsTrue(column) => entry_bytes(0x02, 0, &[column, 0, 0, 0, 0]),
        BzOp::Const(value) => constant_bytes(value),
        BzOp::Neg(a) => entry_bytes(0x04, 0, &[a, 0, 0, 0, 0]),
        BzOp::Add(a, b) => entry_bytes(0x05, 0, &[a, b, 0, 0, 0]),
        BzOp::Sub(a, b) => entry_bytes(0x06, 0, &[a, b, 0, 0, 0]),
        BzOp::Mul(a, b) => entry_bytes(0x07, 0, &[a, b, 0, 0, 0]),
        BzOp::Div(a, b) => entry_bytes(0x08, 0, &[a, b, 0, 0, 0]),
        BzOp::Rem(a, b) => entry_bytes(0x09, 0, &[a, b, 0, 0, 0]),
        BzOp::Eq(a, b) => entry_bytes(0x0a, 0, &[a, b, 0, 0, 0]),
        BzOp::Lt(a, b) => entry_bytes(0x0b, 0, &[a, b, 0, 0, 0]),
        BzOp::Le(a, b) => entry_bytes(0x0c, 0, &[a, b, 0, 0, 0]),
    }
}

impl Entry for BzOp {
    ghost LEN = { 24 };

    ghost spelled = { bz_entry };

    ghost content = { bz_content };

    const LEN: usize = 24;

    #[tactic(auto, unfolding(crate::specs::Reading::bz_content))]
    fn content(bytes: &[u8]) -> Option<BzOp> {
        let a = u32_at(bytes, 4);
        let b = u32_at(bytes, 8);
        match bytes[0] {
            0x01 => Some(BzOp::Column(a)),
            0x02 => Some(BzOp::IsTrue(a)),
            0x03 => Some(BzOp::Const(i64_at(bytes, 8))),
            0x04 => Some(BzOp::Neg(a)),
            0x05 => Some(BzOp::Add(a, b)),
            0x06 => Some(BzOp::Sub(a, b)),
            0x07 => Some(BzOp::Mul(a, b)),
            0x08 => Some(BzOp::Div(a, b)),
            0x09 => Some(BzOp::Rem(a, b)),
            0x0a => Some(BzOp::Eq(a, b)),
            0x0b => Some(BzOp::Lt(a, b)),
            0x0c => Some(BzOp::Le(a, b)),
            _ => None,
        }
    }

    fn first_other(&self, offset: u64, bytes: &[u8]) -> Option<u64> {
        first_other(offset, &bz_bytes(*self), bytes)
    }
}

fn interval_of(bytes: &[u8]) -> Interval
    requires { length bytes.now ≡ 24 }
    ensures { result ≡ entry_interval bytes.now }
{
    Interval {
        lo: u32_at(bytes, 12),
        hi: u32_at(bytes, 16),
    }
}

/// Returns the entry of a future-time instruction with its size.
#[tactic(auto, unfolding(crate::specs::Layout::ft_entry))]
pub(crate) fn ft_bytes(op: FtOp, size: u32) -> [u8; 24]
    ensures bytes { result ≡ ft_entry (op, size) }
    ensures fits { FitsFt op }
{
    match op {
        FtOp::True => entry_bytes(0x10, 0, &[0, 0, 0, 0, size]),
        FtOp::Load(a) => entry_bytes(0x11, 0, &[a, 0, 0, 0, size]),
        FtOp::Not(a) => entry_bytes(0x12, 0, &[a, 0, 0, 0, size]),
        FtOp::And(a, b) => entry_bytes(0x13, 0, &[a, b, 0, 0, size]),
        FtOp::Until(a, b, window) => entry_bytes(0x14, 0, &[a, b, window.lo, window.hi, size]),
    }
}

impl Entry for (FtOp, u32) {
    ghost LEN = { 24 };

    ghost spelled = { ft_entry };

    ghost content = { ft_content };

    const LEN: usize = 24;

    #[tactic(auto, unfolding(crate::specs::Reading::ft_content))]
    fn content(bytes: &[u8]) -> Option<(FtOp, u32)> {
        let a = u32_at(bytes, 4);
        let b = u32_at(bytes, 8);
        let size = u32_at(bytes, 20);
        match bytes[0] {
            0x10 => Some((FtOp::True, size)),
            0x11 => Some((FtOp::Load(a), size)),
            0x12 => Some((FtOp::Not(a), size)),
            0x13 => Some((FtOp::And(a, b), size)),
            0x14 => Some((FtOp::Until(a, b, interval_of(bytes)), size)),
            _ => None,
        }
    }

    fn first_other(&self, offset: u64, bytes: &[u8]) -> Option<u64> {
        first_other(offset, &ft_bytes(self.0, self.1), bytes)
    }
}

/// Returns the entry of a past-time instruction with its size.
#[tactic(auto, unfolding(crate::specs::Layout::pt_entry))]
pub(crate) fn pt_bytes(op: PtOp, size: u32) -> [u8; 24]
    ensures bytes { result ≡ pt_entry (op, size) }
    ensures fits { FitsPt op }
{
    match op {
        PtOp::True => entry_bytes(0x20, 0, &[0, 0, 0, 0, size]),
        PtOp::Load(a) => entry_bytes(0x21, 0, &[a, 0, 0, 0, size]),
        PtOp::Not(a) => entry_bytes(0x22, 0, &[a, 0, 0, 0, size]),
        PtOp::And(a, b) => entry_bytes(0x23, 0, &[a, b, 0, 0, size]),
        PtOp::Since(a, b, window) => entry_bytes(0x24, 0, &[a, b, window.lo, window.hi, size]),
    }
}

impl Entry for (PtOp, u32) {
    ghost LEN = { 24 };

    ghost spelled = { pt_entry };

    ghost content = { pt_content };

    const LEN: usize = 24;

    #[tactic(auto, unfolding(crate::specs::Reading::pt_content))]
    fn content(bytes: &[u8]) -> Option<(PtOp, u32)> {
        let a = u32_at(bytes, 4);
        let b = u32_at(bytes, 8);
        let size = u32_at(bytes, 20);
        match bytes[0] {
            0x20 => Some((PtOp::True, size)),
            0x21 => Some((PtOp::Load(a), size)),
            0x22 => Some((PtOp::Not(a), size)),
            0x23 => Some((PtOp::And(a, b), size)),
            0x24 => Some((PtOp::Since(a, b, interval_of(bytes)), size)),
            _ => None,
        }
    }

    fn first_other(&self, offset: u64, bytes: &[u8]) -> Option<u64> {
        first_other(offset, &pt_bytes(self.0, self.1), bytes)
    }
}
