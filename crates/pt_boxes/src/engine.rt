//! The past-time engine of a checked program.

use crate::boxes::{Boxes, Span};
use crate::restart::restart;
use crate::rows::{Node, row_of};
use booleanizer::Bz;
use mltl_base::steps::Steps;
use mltl_base::{Fixed, Seat};
use obs_verify::Checked;
use std::alloc::{AllocError, Global};
use std::sync::ledger::Ledger;

/// The truths of a program's past-time instructions at the last row, and the boxes of each Since in
/// one slab.
#[derive(Drop)]
pub struct Pt {
    nodes: Fixed<Node>,
    slab: Fixed<Span>,
    rows: u64,
}

impl Pt {
    ghost use Rattle.std.specs.Prelude.{◌≡◌, ℕ, ◌+◌, ◌^◌, ◌<◌, ◌≤◌, List, [], ◌∷◌, ◌++◌, length, IfOk};
    ghost use Rattle.mltl_base.specs.declared.limits.TheConstants.{MAX_MISSION};
    ghost use Rattle.mltl_base.specs.Atoms.{Row};
    ghost use Rattle.booleanizer.specs.Evaluation.{numbers_on};
    ghost use Rattle.pt_boxes.specs.Running.{row_work};
    ghost use Rattle.pt_boxes.specs.Standing.{PtHasTaken, instruction_count, now_at};

    /// Creates the engine of a program, before the first row. Allocates all its memory.
    pub fn make(alloc: Global, checked: &Checked) -> Result<Pt, AllocError>
        ensures stands { IfOk result (PtHasTaken checked.now []) }
    {
        let program = checked.program();
        let sizes = program.sizes.pt.as_slice();
        let mut nodes = Vec::with_capacity(alloc, sizes.len())?;
        let mut start = 0;
        for size in sizes {
            let size = *size as usize;
            nodes.push_reserved(Node {
                boxes: Boxes::none(),
                truth: false,
                seat: Seat { start, size },
            });
            start += size;
        }
        let slab = Fixed::filled(alloc, Span { first: 0, last: 0 }, start)?;
        Ok(Pt {
            nodes: Fixed::of(nodes),
            slab,
            rows: 0,
        })
    }

    /// Resets the engine to its state before the first row. Neither allocates nor frees.
    pub fn reset(&mut self, checked: &Checked)
        requires stands { (rows : List Row) × PtHasTaken checked.now rows self.old }
        ensures stands { PtHasTaken checked.now [] self.new }
    {
        restart(self.nodes.as_mut_slice());
        self.rows = 0;
    }

    /// Takes the row that the Booleanizer took last. Does not allocate.
    pub fn row<L: Ledger>(&mut self, checked: &Checked, bz: &Bz, steps: &mut Steps<L>)
        requires given { (row : Row) × (bz.now ≡ numbers_on row checked.now.bz) }
        requires stands { (rows : List Row) × PtHasTaken checked.now rows self.old
            × (length rows < MAX_MISSION) }
        ensures stands { (rows : List Row) (row : Row) → length rows < MAX_MISSION
            → bz.now ≡ numbers_on row checked.now.bz → PtHasTaken checked.now rows self.old
            → PtHasTaken checked.now (rows ++ row ∷ []) self.new }
        ensures counted { steps.new ≤ steps.old + row_work checked.now }
    {
        let program = checked.program();
        row_of(
            program.pt.as_slice(),
            bz,
            self.rows,
            self.nodes.as_mut_slice(),
            self.slab.as_mut_slice(),
            steps,
        );
        self.rows += 1;
    }

    /// Returns true if instruction `i` holds at the last row.
    #[tactic(auto, unfolding(crate::specs::Standing::instruction_count, crate::specs::Standing::now_at))]
    pub fn now(&self, i: u32) -> bool
        requires exists { i < instruction_count self.now }
        ensures now { result ≡ now_at self.now i }
    {
        self.nodes.as_slice()[i as usize].truth
    }
}
