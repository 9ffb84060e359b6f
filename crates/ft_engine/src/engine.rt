//! The future-time engine of a checked program.

ghost use Rattle.ft_engine.specs.Queues.{QueuesAreSound};
ghost use Rattle.ft_engine.specs.Sound.{AreSound-prop};

use crate::queue::{Queue, first_read, operand};
use crate::restart::restart;
use crate::rows::row_of;
use booleanizer::Bz;
use mltl_base::steps::Steps;
use mltl_base::{Fixed, Seat};
use obs_verify::Checked;
use scq_ring::{Ring, Seen, Slot};
use std::alloc::{AllocError, Global};
use std::marker::Brand;
use std::sync::ledger::{Blank, Ledger};

/// The queues of a program's future-time instructions. Their rings share one slab; each slot
/// belongs to one ring.
#[derive(Drop)]
pub struct Ft {
    queues: Fixed<Queue>,
    slab: Fixed<Slot>,
    ghost sound: { QueuesAreSound queues slab } by { AreSound-prop queues slab },
}

impl Ft {
    ghost use Rattle.std.specs.Prelude.{◌≡◌, ℕ, ◌+◌, ◌^◌, ◌<◌, ◌≤◌, List, [], ◌∷◌, ◌++◌, length, IfOk, MatchOption};
    ghost use Rattle.mltl_base.specs.declared.limits.TheConstants.{MAX_MISSION};
    ghost use Rattle.mltl_base.specs.Atoms.{Row};
    ghost use Rattle.booleanizer.specs.Evaluation.{numbers_on};
    ghost use Rattle.ft_engine.specs.Running.{row_work};
    ghost use Rattle.ft_engine.specs.Standing.{ShowsFrom, FtHasTaken, frontier_at, instruction_count, kept_verdict, lowest_at};

    /// Creates the engine of a program, before the first row. Allocates all its memory.
    pub fn make(alloc: Global, checked: &Checked) -> Result<Ft, AllocError>
        ensures stands { IfOk result (FtHasTaken checked.now []) }
    {
        let program = checked.program();
        let ops = program.ft.as_slice();
        let sizes = program.sizes.ft.as_slice();
        let mut queues = Vec::with_capacity(alloc, ops.len())?;
        let mut start = 0;
        for (i, op) in ops.iter().enumerate() {
            let size = sizes[i] as usize;
            queues.push_reserved(Queue {
                ring: Ring::make(),
                reads_at: first_read(*op),
                seat: Seat { start, size },
            });
            start += size;
        }
        let slab = Fixed::filled(alloc, Slot::clear(), start)?;
        let queues = Fixed::of(queues);
        Ok(Ft { queues, slab })
    }

    /// Resets the engine to its state before the first row. Neither allocates nor frees.
    pub fn reset(&mut self, checked: &Checked)
        requires stands { (rows : List Row) × FtHasTaken checked.now rows self.old }
        ensures stands { FtHasTaken checked.now [] self.new }
    {
        let program = checked.program();
        restart(program.ft.as_slice(), self.queues.as_mut_slice());
    }

    /// Takes the row that the Booleanizer took last. Does not allocate.
    pub fn row<L: Ledger>(&mut self, checked: &Checked, bz: &Bz, steps: &mut Steps<L>)
        requires given { (row : Row) × (bz.now ≡ numbers_on row checked.now.bz) }
        requires stands { (rows : List Row) × FtHasTaken checked.now rows self.old
            × (length rows < MAX_MISSION) }
        ensures stands { (rows : List Row) (row : Row) → length rows < MAX_MISSION
            → bz.now ≡ numbers_on row checked.now.bz → FtHasTaken checked.now rows self.old
            → FtHasTaken checked.now (rows ++ row ∷ []) self.new }
        ensures counted { steps.new ≤ steps.old + row_work checked.now }
    {
        let program = checked.program();
        row_of(
            program.ft.as_slice(),
            bz,
            self.queues.as_mut_slice(),
            self.slab.as_mut_slice(),
            steps,
        );
    }

    /// Returns the first time at which instruction `i` has no verdict yet.
    #[tactic(auto, unfolding(crate::specs::Standing::instruction_count, crate::specs::Standing::frontier_at))]
    pub fn front(&self, i: u32) -> u64
        requires exists { i < instruction_count self.now }
        ensures front { result ≡ frontier_at self.now i }
    {
        self.queues.as_slice()[i as usize].ring.frontier()
    }

    /// Returns the first time whose verdict instruction `i` keeps.
    #[tactic(auto, unfolding(crate::specs::Standing::instruction_count, crate::specs::Standing::lowest_at))]
    pub fn low(&self, i: u32) -> u64
        requires exists { i < instruction_count self.now }
        ensures low { result ≡ lowest_at self.now i }
    {
        self.queues.as_slice()[i as usize].ring.low()
    }

    /// Returns the verdict of instruction `i` at time `t`: `None` exactly at or past its frontier.
    pub fn verdict(&self, i: u32, t: u64) -> Option<bool>
        requires exists { i < instruction_count self.now }
        requires kept { lowest_at self.now i ≤ t }
        ensures verdict { MatchOption result (frontier_at self.now i ≤ t)
            (λ v. (t < frontier_at self.now i) × (kept_verdict self.now i t ≡ v)) }
    {
        match self.run_from(i, t) {
            Seen::Nothing => None,
            Seen::Run(_, value) => Some(value),
        }
    }

    /// Returns the verdict of instruction `i` at time `from`, and the last time up to which it
    /// stays the same; `Nothing` exactly at or past its frontier.
    pub fn run_from(&self, i: u32, from: u64) -> Seen
        requires exists { i < instruction_count self.now }
        requires kept { lowest_at self.now i ≤ from }
        ensures shows { ShowsFrom self.now i from result }
    {
        self.look::<Brand>(i, from, Blank::new(1))
    }

    /// Reads as `run_from` does, with a separate count.
    fn look<L: Ledger>(&self, i: u32, from: u64, blank: Blank) -> Seen
        requires exists { i < instruction_count self.now }
        requires kept { lowest_at self.now i ≤ from }
        requires name { blank.name ≡ L.name }
        requires parts { blank.parts ≡ L.parts }
        requires some_parts { 0 < blank.parts }
        ensures shows { ShowsFrom self.now i from result }
    {
        let mut steps = Steps::<L>::start(blank);
        let queue = operand(self.queues.as_slice(), self.slab.as_slice(), i);
        queue.ring.read(queue.slots, from, &mut steps)
    }
}
