//! The header of a program file.

ghost use Rattle.std.specs.Prelude.{◌≡◌, ◌+◌, ◌++◌, ◌≤◌, ◌<◌, ◌^◌, length, IfOk, OnOk};
ghost use Rattle.obs_binary.specs.Layout.{header_bytes, header_len};
ghost use Rattle.obs_binary.specs.Reading.{GivesReading, header_at, header_fields, said_len};

use crate::fault::ReadFault;
use crate::fields::{u16_at, u32_at};
use byteorder::{ByteOrder, LittleEndian};
use std::alloc::AllocError;

/// The numbers of a header: the version, the width of a row, and the numbers of entries of each
/// part and of name bytes. In version 1 there are no signals.
#[derive(Clone, Copy)]
pub(crate) struct Header {
    pub(crate) version: u32,
    pub(crate) width: u32,
    pub(crate) bz: u32,
    pub(crate) ft: u32,
    pub(crate) pt: u32,
    pub(crate) outs: u32,
    pub(crate) name_bytes: u32,
    pub(crate) signals: u32,
    pub(crate) signal_bytes: u32,
}

impl Header {
    /// Returns the number of bytes of the header.
    pub(crate) fn len(&self) -> usize
        ensures { result ≡ header_len self.now.version }
    {
        if self.version == 2 { 40 } else { 32 }
    }

    /// Returns the number of bytes of the file, according to the header.
    fn said_len(&self) -> usize
        ensures { result ≡ said_len self.now }
    {
        let entries = 24 * self.bz as usize
            + 24 * self.ft as usize
            + 24 * self.pt as usize
            + 24 * self.outs as usize
            + 8 * self.signals as usize;
        self.len() + entries + self.name_bytes as usize + self.signal_bytes as usize
    }

    /// Returns the numbers of a header of this version.
    fn fields(version: u32, bytes: &[u8]) -> Header
        requires { header_len version ≤ length bytes.now }
        ensures { result ≡ header_fields version bytes.now }
    {
        let (signals, signal_bytes) = if version == 2 {
            (u32_at(bytes, 32), u32_at(bytes, 36))
        } else {
            (0, 0)
        };
        Header {
            version,
            width: u32_at(bytes, 8),
            bz: u32_at(bytes, 12),
            ft: u32_at(bytes, 16),
            pt: u32_at(bytes, 20),
            outs: u32_at(bytes, 24),
            name_bytes: u32_at(bytes, 28),
            signals,
            signal_bytes,
        }
    }

    /// Returns the header at the start of the bytes of a file, or the first fault in it or in the
    /// length of the file.
    #[tactic(auto, unfolding(crate::specs::Reading::header_at))]
    pub(crate) fn read(bytes: &[u8]) -> Result<Header, ReadFault>
        ensures read { GivesReading (λ header. header) result (header_at bytes.now) }
        ensures said { IfOk result (λ header. said_len header ≡ length bytes.now) }
    {
        if bytes.len() < 32 {
            return Err(ReadFault::Short);
        }
        if !bytes.starts_with(b"MLTL") {
            return Err(ReadFault::Magic);
        }
        let version = u32::from(u16_at(bytes, 4));
        if version != 1 && version != 2 {
            return Err(ReadFault::Version);
        }
        if bytes[6] != 0 {
            return Err(ReadFault::Reserved(6));
        }
        if bytes[7] != 0 {
            return Err(ReadFault::Reserved(7));
        }
        if version == 2 && bytes.len() < 40 {
            return Err(ReadFault::Short);
        }
        let header = Header::fields(version, bytes);
        let said = header.said_len();
        if bytes.len() < said {
            return Err(ReadFault::Short);
        }
        if said < bytes.len() {
            return Err(ReadFault::Trailing);
        }
        Ok(header)
    }

    /// Appends the header to `out`.
    #[tactic(auto, unfolding(crate::specs::Layout::header_bytes, crate::specs::Layout::u16_bytes, crate::specs::Layout::u32_bytes))]
    pub(crate) fn put(&self, out: &mut Vec<u8>) -> Result<(), AllocError>
        requires { self.now.version < 2 ^ 16 }
        ensures { OnOk result (out.new.items ≡ out.old.items ++ header_bytes self.now) }
    {
        let mut bytes = *b"MLTL\0\0\0\0\0\0\0\0\0\0\0\0\0\0\0\0\0\0\0\0\0\0\0\0\0\0\0\0";
        LittleEndian::write_u16(&mut bytes[4..], self.version as u16);
        let numbers = [
            self.width,
            self.bz,
            self.ft,
            self.pt,
            self.outs,
            self.name_bytes,
        ];
        LittleEndian::write_u32_into(&numbers, &mut bytes[8..]);
        out.extend_from_slice(&bytes)?;
        if self.version == 2 {
            let mut counts = [0; 8];
            LittleEndian::write_u32_into(&[self.signals, self.signal_bytes], &mut counts);
            out.extend_from_slice(&counts)?;
        }
        Ok(())
    }
}
