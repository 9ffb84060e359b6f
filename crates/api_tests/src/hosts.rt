//! Tests of the calls of a host in memory, with each case in which a call fails, and of the host
//! over a real file.

use std::alloc::{AllocError, Global};
use std::test::Fail;
use std::{env, fs};
use tool_io::{Attached, Got, Host, MemHost, Place, Put, RealHost};

/// A call, with its expected answer.
#[derive(Clone, Copy)]
enum Step {
    Attach(Place, &'static str, Attached),
    /// The step reads the trace.
    Read(Got),
    /// The step writes to the output.
    Write(&'static [u8], Put),
}

/// Returns true if the step returns the answer that the case expects.
fn answers<H: Host>(host: &mut H, step: Step, into: &mut [u8]) -> bool {
    match step {
        Step::Attach(place, name, wanted) => host.attach(place, name) == wanted,
        Step::Read(wanted) => !into.is_empty() && host.read(Place::Trace, into) == wanted,
        Step::Write(piece, wanted) => !piece.is_empty() && host.write(Place::Out, piece) == wanted,
    }
}

/// Makes a host with room for `events` events and `bytes` bytes, and with a file `rows` of four
/// bytes.
fn with_rows(alloc: Global, events: usize, bytes: usize) -> Result<MemHost, AllocError> {
    let mut host = MemHost::make(alloc, events, bytes)?;
    host.put_file("rows", b"none")?;
    host.put_file("rows", b"1\n0\n")?;
    Ok(host)
}

/// A test case: the room of a host, the call that is listed to fail, and steps.
#[derive(Clone, Copy)]
struct Case {
    listed: Option<(Place, u64)>,
    events: usize,
    bytes: usize,
    steps: [Step; 4],
}

/// Returns true if all steps of the case return the expected answers.
fn all_answer(alloc: Global, case: Case) -> Result<bool, AllocError> {
    let mut host = with_rows(alloc, case.events, case.bytes)?;
    if let Some((place, call)) = case.listed {
        host.fail(place, call)?;
    }
    for step in case.steps {
        if !answers(&mut host, step, &mut [0; 8]) {
            return Ok(false);
        }
    }
    Ok(true)
}

/// Makes a case in a host with room for nine events and 99 bytes.
fn roomy(listed: Option<(Place, u64)>, steps: [Step; 4]) -> Case {
    Case {
        listed,
        events: 9,
        bytes: 99,
        steps,
    }
}

/// Makes a case in a host with little room and no listed call.
fn narrow(events: usize, bytes: usize, steps: [Step; 4]) -> Case {
    Case {
        listed: None,
        events,
        bytes,
        steps,
    }
}

#[test]
fn fails_exactly_where_it_should(rt: HostRuntime) -> Result<(), Fail> {
    let ready = Step::Attach(Place::Trace, "rows", Attached::Ready);
    let unready = Step::Attach(Place::Trace, "rows", Attached::Failed);
    let absent = Step::Attach(Place::Trace, "absent", Attached::Failed);
    let four = Step::Read(Got::Bytes(4));
    let unread = Step::Read(Got::Failed);
    let end = Step::Read(Got::End);
    let wrote = Step::Write(b"T\n", Put::Wrote(2));
    let unwritten = Step::Write(b"T\n", Put::Failed);
    let cases = [
        // nothing fails
        narrow(4, 10, [ready, four, end, wrote]),
        // a listed call, and none after it
        roomy(Some((Place::Trace, 0)), [unready, ready, four, wrote]),
        roomy(Some((Place::Trace, 1)), [ready, unread, four, end]),
        roomy(Some((Place::Out, 1)), [wrote, unwritten, wrote, wrote]),
        // no file of that name, and a place that isn't attached
        roomy(None, [absent, unread, ready, four]),
        // a place stays attached if a later attach fails
        roomy(None, [ready, absent, four, end]),
        // no room for one more event, and none for one more byte
        narrow(3, 99, [ready, four, wrote, unwritten]),
        narrow(9, 9, [ready, four, unwritten, end]),
        narrow(9, 7, [ready, unread, wrote, unwritten]),
    ];
    for (i, case) in cases.iter().enumerate() {
        let answer = all_answer(rt.alloc(), *case)?;
        assert!(rt; answer, "case {i}");
    }
    Ok(())
}

/// Returns the answer of an attach.
fn attached<H: Host>(host: &mut H, place: Place, name: &str) -> Attached {
    host.attach(place, name)
}

#[test]
fn writes_and_reads_a_file(rt: HostRuntime) -> Result<(), Fail> {
    let mut path = env::temp_dir(&rt)?;
    path.push("call_tests_writes_and_reads_a_file")?;
    let name = path.as_path().to_string_lossy();
    let mut host = RealHost::new(rt);
    let mut into = [9; 3];
    assert!(rt; answers(&mut host, Step::Read(Got::Failed), &mut into));
    for rows in [b"1\n0\n", b"0\n1\n"] {
        assert_eq!(rt; attached(&mut host, Place::Out, name), Attached::Ready);
        assert!(rt; answers(&mut host, Step::Write(rows, Put::Wrote(4)), &mut into));
        assert_eq!(rt; attached(&mut host, Place::Trace, name), Attached::Ready);
        assert!(rt; answers(&mut host, Step::Read(Got::Bytes(3)), &mut into));
        assert_eq!(rt; into.as_slice(), &rows[..3]);
        assert!(rt; answers(&mut host, Step::Read(Got::Bytes(1)), &mut into));
        assert!(rt; answers(&mut host, Step::Read(Got::End), &mut into));
    }
    fs::remove_file(&rt, name)?;
    assert_eq!(rt; attached(&mut host, Place::Spec, name), Attached::Failed);
    assert_eq!(rt; attached(&mut host, Place::Err, "-"), Attached::Ready);
    Ok(())
}
