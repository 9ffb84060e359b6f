//! A stream of bytes, cut into lines.

ghost use Rattle.std.specs.Prelude.{◌≡◌, ◌+◌, ◌-◌, ◌<◌, ◌≤◌, ◌==◌, None, false, Option, IsSome, IfOk, IfSome, IfNone, MatchOption, length, take, drop, position, slice_range};
ghost use Rattle.tool_io.specs.Log.{OnLog};
ghost use Rattle.tool_io.specs.Filling.{Fills};
ghost use Rattle.tool_io.specs.Host.{IsSource, ReadCause, LeftElsewhere};
ghost use Rattle.tool_io.specs.Cutting.{HasNoNewline, EndsLine, IsRow, fresh, keeps, row_of, line_text, HasLine, CutsLine, LineCause};

use crate::host::{Got, Host, Place};
use memchr::memchr;
use mltl_base::Fixed;
use mltl_base::limits::MAX_LINE_BYTES;
use std::alloc::{AllocError, Global};
use std::marker::Model;

/// The result of a call for the next line.
#[derive(Clone, Copy)]
pub enum Line {
    /// One more line is ready.
    Row,
    /// No byte is left.
    End,
    /// The first 65,536 bytes of the line hold no newline.
    LongLine,
    /// A read failed; the place's count of faults rose.
    ReadFault,
}

/// A stream of bytes that is cut at its newlines, with one buffer of 65,536 bytes.
///
/// It allocates only in `make`, and reads only if the buffer holds no whole line.
#[derive(Drop)]
pub struct LineCut {
    buffer: Fixed<u8>,
    /// The start of the line of the last Row.
    start: usize,
    /// The start of the bytes after that line, which aren't cut yet.
    next: usize,
    /// The end of these bytes.
    end: usize,
    /// True if the last result was a Row.
    row: bool,
    /// True if the line of that Row is to come once more.
    kept: bool,
    /// True if a read met the end.
    ended: bool,
    /// The number of the last line, from 1.
    number: u64,
}

impl Model for LineCut {
    ghost use Rattle.tool_io.specs.Cutting.{Cutting};

    ghost Value = { Cutting };

    ghost use Rattle.tool_io.specs.Buffer.{cut_of, HoldsRows};

    ghost view = { cut_of };

    ghost invariant = { HoldsRows };
}

/// Returns the place of the first newline.
#[tactic(auto, using(crate::proofs::Newlines::first_is_position))]
fn first_newline(bytes: &[u8]) -> Option<usize>
    ensures { result ≡ position (λ byte. byte == 10) bytes.now }
{
    memchr(b'\n', bytes)
}

/// Moves the bytes from `next` to `end` to the front.
fn move_to_front(buffer: &mut [u8], next: usize, end: usize)
    requires order { next ≤ end }
    requires within { end ≤ length buffer.old }
    ensures { take (end - next) buffer.new ≡ slice_range buffer.old next end }
{
    if 0 < next {
        buffer.copy_within(next..end, 0);
    }
}

/// Reads into the buffer after its first `len` bytes.
fn read_after<H: Host>(host: &mut H, place: Place, buffer: &mut [u8], len: usize) -> Got
    requires source { IsSource place }
    requires room { len < length buffer.old }
    ensures bytes { Fills result (take len buffer.old) buffer.new
        (H.log host.old) (H.log host.new) place }
    ensures cause { ReadCause result (H.faults host.old) (H.faults host.new) place }
    ensures elsewhere { LeftElsewhere (H.left host.old) (H.left host.new) place }
{
    host.read(place, &mut buffer[len..])
}

impl LineCut {
    ghost use Rattle.mltl_base.specs.declared.limits.TheConstants.{MAX_LINE_BYTES};
    ghost use Rattle.tool_io.specs.Buffer.{CutsFront, FillsCut};

    /// Creates a cut before the first byte, with room for the longest line.
    pub fn make(alloc: Global) -> Result<LineCut, AllocError>
        ensures { IfOk result (λ cut. cut ≡ fresh) }
    {
        Ok(LineCut {
            buffer: Fixed::filled(alloc, 0, MAX_LINE_BYTES)?,
            start: 0,
            next: 0,
            end: 0,
            row: false,
            kept: false,
            ended: false,
            number: 0,
        })
    }

    /// Cuts the next line off the bytes of the place. Reads only if the buffer holds no whole line.
    ///
    /// A last line without a newline is a Row once the end is reached. After `End` and `LongLine`
    /// every later call returns the same; after `ReadFault` a later call tries again.
    pub fn next_line<H: Host>(&mut self, host: &mut H, place: Place) -> Line
        requires { IsSource place }
        ensures cause { LineCause result (H.faults host.old) (H.faults host.new) place }
        ensures ready { HasLine result self.new }
        ensures log { OnLog (H.log host.old) (H.log host.new)
            (CutsLine place self.old self.new result) }
        ensures elsewhere { LeftElsewhere (H.left host.old) (H.left host.new) place }
    {
        if self.kept {
            self.kept = false;
            return Line::Row;
        }
        self.cut_next(host, place)
    }

    /// Returns the line of the last Row, without its newline and one carriage return before it.
    pub fn line(&self) -> &[u8]
        requires { IsSome self.now.row }
        ensures { result.now ≡ line_text (row_of self.now) }
    {
        let raw = &self.buffer.as_slice()[self.start..self.next];
        match raw {
            [line @ .., b'\r', b'\n'] => line,
            [line @ .., b'\n'] => line,
            _ => raw,
        }
    }

    /// Returns the number of the last line, from 1; 0 before the first. A line that comes once more
    /// keeps its number.
    pub fn number(&self) -> u64
        ensures { result ≡ self.now.number }
    {
        self.number
    }

    /// Makes the next call return the line of the last Row once more.
    pub fn keep(&mut self)
        requires { IsSome self.old.row }
        ensures { self.new ≡ keeps self.old }
    {
        self.kept = true;
    }

    /// Returns the number of bytes that aren't cut yet.
    fn pending_len(&self) -> usize
        requires { self.now.kept ≡ false }
        ensures len { result ≡ length self.now.pending }
        ensures within { result ≤ MAX_LINE_BYTES }
    {
        self.end - self.next
    }

    /// Returns the length of the first whole line, if the first `seen` bytes hold no newline.
    fn line_len(&self, seen: usize) -> Option<usize>
        requires plain { self.now.kept ≡ false }
        requires within { seen ≤ length self.now.pending }
        requires no_newline { HasNoNewline (take seen self.now.pending) }
        ensures found { IfSome result (λ len.
            (len ≤ length self.now.pending) × EndsLine (take len self.now.pending)) }
        ensures not_found { IfNone result (HasNoNewline self.now.pending) }
    {
        let at = first_newline(&self.buffer.as_slice()[self.next + seen..self.end])?;
        Some(seen + at + 1)
    }

    /// Makes the first bytes a row.
    fn cut(&mut self, len: usize)
        requires plain { self.old.kept ≡ false }
        requires within { len ≤ length self.old.pending }
        requires row { IsRow (take len self.old.pending) (drop len self.old.pending)
            self.old.ended }
        ensures { CutsFront len self.old self.new }
    {
        self.start = self.next;
        self.next += len;
        self.row = true;
        self.number = self.number.saturating_add(1);
    }

    /// Reads once after the bytes that aren't cut yet, which first move to the front.
    fn fill<H: Host>(&mut self, host: &mut H, place: Place) -> Got
        requires source { IsSource place }
        requires no_row { self.old.row ≡ None }
        requires room { length self.old.pending < MAX_LINE_BYTES }
        ensures bytes { FillsCut result self.old self.new (H.log host.old) (H.log host.new) place }
        ensures cause { ReadCause result (H.faults host.old) (H.faults host.new) place }
        ensures elsewhere { LeftElsewhere (H.left host.old) (H.left host.new) place }
    {
        let len = self.end - self.next;
        let buffer = self.buffer.as_mut_slice();
        move_to_front(buffer, self.next, self.end);
        let got = read_after(host, place, buffer, len);
        self.start = 0;
        self.next = 0;
        self.end = len;
        match got {
            Got::Bytes(n) => self.end += n,
            Got::End => self.ended = true,
            Got::Failed => {}
        }
        got
    }

    /// Cuts the next line, if the last one isn't kept.
    fn cut_next<H: Host>(&mut self, host: &mut H, place: Place) -> Line
        requires source { IsSource place }
        requires plain { self.old.kept ≡ false }
        ensures cause { LineCause result (H.faults host.old) (H.faults host.new) place }
        ensures ready { HasLine result self.new }
        ensures log { OnLog (H.log host.old) (H.log host.new)
            (CutsLine place self.old self.new result) }
        ensures elsewhere { LeftElsewhere (H.left host.old) (H.left host.new) place }
    {
        self.row = false;
        let mut seen = 0;
        loop {
            if let Some(len) = self.line_len(seen) {
                self.cut(len);
                return Line::Row;
            }
            seen = self.pending_len();
            if seen == MAX_LINE_BYTES {
                return Line::LongLine;
            }
            if self.ended {
                if seen == 0 {
                    return Line::End;
                }
                self.cut(seen);
                return Line::Row;
            }
            if let Got::Failed = self.fill(host, place) {
                return Line::ReadFault;
            }
        }
    }
}
