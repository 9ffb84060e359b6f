//! Defined names of the instructions of a program.

ghost use Rattle.std.specs.Prelude.{◌≡◌, ◌+◌, ◌<◌, ◌^◌, IfOk, OnOk, count_by, length};
ghost use Rattle.obs_show.specs.Showing.{AreBefore, NamesAll};
ghost use Rattle.obs_verify.specs.Layout.{HasLayout};

use crate::names::free_numbers;
use crate::operation::Instruction;
use mltl_base::Program;
use std::alloc::{AllocError, Global};

/// The defined names of a program.
#[derive(Drop)]
pub(crate) struct Naming {
    /// The numbers of the defined names, in the order of the operations that have them.
    pub(crate) numbers: Vec<usize>,
    /// The number of operations of the program before each instruction of a part.
    pub(crate) bz: Vec<usize>,
    pub(crate) ft: Vec<usize>,
    pub(crate) pt: Vec<usize>,
}

/// Returns, for each instruction, the number of operations before it in the program. `next` counts
/// them all.
fn operations_before<T: Instruction>(
    alloc: Global,
    next: &mut usize,
    ops: &[T],
) -> Result<Vec<usize>, AllocError>
    requires { next.old + length ops.now < 2 ^ 63 }
    ensures before { IfOk result (λ counts. AreBefore T.operation next.old ops.now counts.items) }
    ensures all { OnOk result (next.new ≡ next.old + count_by T.operation ops.now) }
{
    let mut counts = Vec::new(alloc);
    for op in ops {
        counts.push(*next)?;
        if op.is_operation() {
            *next += 1;
        }
    }
    Ok(counts)
}

impl Naming {
    /// Returns the defined names of a program.
    pub(crate) fn of(alloc: Global, program: &Program) -> Result<Naming, AllocError>
        requires { HasLayout program.now }
        ensures { IfOk result (λ naming. NamesAll program.now naming) }
    {
        let mut next = 0;
        let bz = operations_before(alloc, &mut next, program.bz.as_slice())?;
        let ft = operations_before(alloc, &mut next, program.ft.as_slice())?;
        let pt = operations_before(alloc, &mut next, program.pt.as_slice())?;
        let numbers = free_numbers(alloc, program.signals.as_slice(), next)?;
        Ok(Naming {
            numbers,
            bz,
            ft,
            pt,
        })
    }
}
