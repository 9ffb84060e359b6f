//! Tests of lines over a host in memory, whose reads return few bytes or many.

ghost use Rattle.std.specs.Prelude.{◌≤◌, IsSome};

use std::alloc::{AllocError, Global};
use std::test::Fail;
use tool_io::{Host, Line, LineCut, MemHost, Place};

/// Makes a host whose trace is the bytes, and whose reads return at most `block` bytes.
fn trace_of(alloc: Global, bytes: &[u8], block: usize) -> Result<MemHost, AllocError>
    requires { 1 ≤ block }
{
    let mut host = MemHost::make(alloc, 20, 40)?;
    host.put_file("rows", bytes)?;
    host.set_block(block);
    let _ = host.attach(Place::Trace, "rows");
    Ok(host)
}

/// Appends the row that was cut to the text: the last digit of its number and its text, between `:`
/// and `|`.
fn push_row(text: &mut Vec<u8>, cut: &LineCut) -> Result<(), AllocError>
    requires { IsSome cut.now.row }
{
    let digit = (cut.number() % 10) as u8;
    text.push(b'0' + digit)?;
    text.push(b':')?;
    text.extend_from_slice(cut.line())?;
    text.push(b'|')?;
    Ok(())
}

/// Appends the result of the next call to the text: a row, the end as `.`, a long line as `!` and a
/// fault as `?`. If `keeps` is true, the row is kept.
fn push_answer<H: Host>(
    text: &mut Vec<u8>,
    cut: &mut LineCut,
    host: &mut H,
    keeps: bool,
) -> Result<(), AllocError> {
    match cut.next_line(host, Place::Trace) {
        Line::Row => {
            push_row(text, cut)?;
            if keeps {
                cut.keep();
            }
        }
        Line::End => text.push(b'.')?,
        Line::LongLine => text.push(b'!')?,
        Line::ReadFault => text.push(b'?')?,
    }
    Ok(())
}

/// Returns the results of `calls` calls as a text. If `keeps` is true, every second row is kept.
fn shown<H: Host>(
    alloc: Global,
    host: &mut H,
    calls: usize,
    keeps: bool,
) -> Result<Vec<u8>, AllocError> {
    let mut cut = LineCut::make(alloc)?;
    let mut text = Vec::new(alloc);
    for call in 0..calls {
        push_answer(&mut text, &mut cut, host, keeps && call % 2 == 0)?;
    }
    Ok(text)
}

#[test]
fn kept_lines_come_once_more(rt: HostRuntime) -> Result<(), Fail> {
    for block in [1, 4096] {
        let mut host = trace_of(rt.alloc(), b"1\r\n\n0", block)?;
        let text = shown(rt.alloc(), &mut host, 8, true)?;
        assert_eq!(rt; text.as_slice(), b"1:1|1:1|2:|2:|3:0|3:0|..".as_slice());
    }
    Ok(())
}

#[test]
fn tries_again_after_a_fault(rt: HostRuntime) -> Result<(), Fail> {
    // the attach is call 0, and each read returns two bytes
    let table = [
        (1, "?1:10|2:0|.."),
        (2, "?1:10|2:0|.."),
        (3, "1:10|?2:0|.."),
        (4, "1:10|2:0|..."),
    ];
    for (call, wanted) in table {
        let mut host = trace_of(rt.alloc(), b"10\n0", 2)?;
        host.fail(Place::Trace, call)?;
        let text = shown(rt.alloc(), &mut host, 5, false)?;
        assert_eq!(rt; text.as_slice(), wanted.as_bytes(), "call {call}");
    }
    Ok(())
}
