//! Tests of verdicts in a ring over few slots.

ghost use Rattle.std.specs.Prelude.{◌≡◌, ◌<◌, length};

use mltl_base::steps::Steps;
use scq_ring::{Ring, Seen, Slot};
use std::marker::Brand;
use std::process::Abort;
use std::sync::ledger::{Blank, Ledger};

/// A test case: writes into a new ring, and its expected state after them.
#[derive(Clone, Copy)]
struct Case<'a> {
    slots: usize,
    writes: &'a [(u64, bool)],
    frontier: u64,
    low: u64,
    reads: &'a [(u64, Seen)],
}

fn shows<L: Ledger>(rt: &impl Abort, slots: &mut [Slot], case: &Case, steps: &mut Steps<L>)
    requires { 0 < length slots.old }
{
    let mut ring = Ring::make();
    'writes: for &(upto, value) in case.writes {
        assert!(rt; ring.frontier() <= upto && upto < 1 << 41);
        ring.write(slots, upto, value, steps);
    }
    assert_eq!(rt; (ring.frontier(), ring.low()), (case.frontier, case.low));
    'reads: for &(from, seen) in case.reads {
        assert!(rt; ring.low() <= from);
        assert_eq!(rt; ring.read(slots, from, steps), seen);
    }
}

fn show<L: Ledger>(rt: &impl Abort, blank: Blank, cases: &[Case])
    requires name { blank.name ≡ L.name }
    requires parts { blank.parts ≡ L.parts }
    requires some_parts { 0 < blank.parts }
{
    let mut steps = Steps::<L>::start(blank);
    for case in cases {
        let mut slots = [Slot::clear(); 3];
        assert!(rt; 0 < case.slots && case.slots <= 3);
        shows(rt, &mut slots[..case.slots], case, &mut steps);
    }
}

#[test]
fn one_verdict_goes_on(rt: HostRuntime) {
    let cases = [
        // The ring is empty.
        Case {
            slots: 1,
            writes: &[],
            frontier: 0,
            low: 0,
            reads: &[(0, Seen::Nothing)],
        },
        // One verdict goes on, so none is dropped.
        Case {
            slots: 2,
            writes: &[(0, true), (1, true), (2, true)],
            frontier: 3,
            low: 0,
            reads: &[
                (0, Seen::Run(2, true)),
                (2, Seen::Run(2, true)),
                (3, Seen::Nothing),
            ],
        },
    ];
    show::<Brand>(&rt, Blank::new(1), &cases);
}
