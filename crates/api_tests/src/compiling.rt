//! Tests of the call that compiles a text under a header line.

use c2po_compile::{CompileFault, HeaderWhy, compile};
use mltl_base::BzOp;
use mltl_base::limits::MAX_LINE_BYTES;
use std::alloc::Global;
use std::test::Fail;

/// Compiles a text of two signals under a header line. Returns the columns that are read, or the
/// fault of the line.
fn read_under(alloc: Global, line: &[u8]) -> &'static str {
    if line.len() >= MAX_LINE_BYTES {
        return "long";
    }
    match compile(alloc, b"INPUT p, q: bool; FTSPEC f: p && !q;", Some(line)) {
        Ok(checked) => match checked.program().bz.as_slice() {
            [BzOp::IsTrue(1), BzOp::IsTrue(0)] => "p in 1, q in 0",
            _ => "other columns",
        },
        Err(CompileFault::BadHeader(HeaderWhy::Missing(_))) => "missing",
        Err(CompileFault::BadHeader(HeaderWhy::Twice(_))) => "twice",
        Err(CompileFault::BadHeader(HeaderWhy::NoHeader)) => "none",
        Err(_) => "refused",
    }
}

#[test]
fn a_header_line_gives_the_columns(rt: HostRuntime) -> Result<(), Fail> {
    let table: [(&str, &str); 4] = [
        ("# q,p", "p in 1, q in 0"),
        ("# q", "missing"),
        ("# q,p,q", "twice"),
        ("q,p", "none"),
    ];
    for (line, wanted) in table {
        assert_eq!(rt; read_under(rt.alloc(), line.as_bytes()), wanted, "{line}");
    }
    Ok(())
}
