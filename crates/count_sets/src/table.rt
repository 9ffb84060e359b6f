//! The table of thresholds: the gate of "at least j of the first k bodies" in row k and column j.

ghost use Rattle.std.specs.Prelude.{◌≡◌, ℕ, ◌+◌, ◌*◌, ◌^◌, ◌<◌, ◌≤◌, [], ◌∷◌, ◌++◌, length, OnOk, IfOk};
ghost use Rattle.count_sets.specs.Tables.{IsPlan, GatesRise, IsGateRow};

use crate::gate::Gate;
use mltl_base::List;
use std::alloc::{AllocError, Global};

/// The thresholds that are needed, from `lowest` to `highest`, and the number of bodies.
#[derive(Clone, Copy)]
pub struct Plan {
    pub bodies: u32,
    pub lowest: u32,
    pub highest: u32,
}

/// The gates so far, and the gate of each column in the latest row.
#[derive(Drop)]
pub struct Table {
    pub gates: List<Gate>,
    pub row: Vec<u32>,
}

/// Appends a gate and returns its number.
pub fn add(gates: &mut List<Gate>, gate: Gate) -> Result<u32, AllocError>
    requires { length gates.old < 2 ^ 32 }
    ensures added { OnOk result (gates.new ≡ gates.old ++ gate ∷ []) }
    ensures number { IfOk result (λ i. i ≡ length gates.old) }
{
    let number = gates.len() as u32;
    gates.push(gate)?;
    Ok(number)
}

/// Adds the gates of a cell: the body and one less of the others, or as many of the others.
fn cell(gates: &mut List<Gate>, body: u32, fewer: u32, same: u32) -> Result<u32, AllocError>
    requires { length gates.old + 1 < 2 ^ 32 }
    ensures added { OnOk result (gates.new
        ≡ gates.old ++ Gate.Both body fewer ∷ [] ++ Gate.Either (length gates.old) same ∷ []) }
    ensures number { IfOk result (λ i. i ≡ length gates.old + 1) }
{
    let with = add(gates, Gate::Both(body, fewer))?;
    add(gates, Gate::Either(with, same))
}

impl Table {
    /// Goes from row `k` to row `k + 1`, by the cells that the plan needs.
    fn extend(&mut self, plan: Plan, k: u32) -> Result<(), AllocError>
        requires next { k < plan.bodies }
        requires plan { IsPlan plan }
        requires room { length self.old.gates + 2 * plan.highest + 1 < 2 ^ 32 }
        requires table { IsGateRow plan k self.old.gates self.old.row.items }
        requires rising { GatesRise plan k self.old.gates self.old.row.items }
        ensures table { OnOk result (IsGateRow plan (k + 1) self.new.gates self.new.row.items) }
        ensures rising { OnOk result (GatesRise plan (k + 1) self.new.gates self.new.row.items) }
    {
        let first = (plan.lowest + k + 1).saturating_sub(plan.bodies).max(1);
        let end = (k + 1).min(plan.highest) + 1;
        let body = add(&mut self.gates, Gate::Body(k))?;
        let mut fewer = self.row[(first - 1) as usize];
        for j in first..end {
            let same = self.row[j as usize];
            let gate = cell(&mut self.gates, body, fewer, same)?;
            self.row[j as usize] = gate;
            fewer = same;
        }
        Ok(())
    }

    /// Builds the whole table of a plan.
    pub fn of(alloc: Global, plan: Plan) -> Result<Table, AllocError>
        requires some { 1 ≤ plan.bodies }
        requires plan { IsPlan plan }
        requires room { plan.bodies * (1 + 2 * plan.highest) < 2 ^ 31 }
        ensures table { IfOk result (λ table.
            IsGateRow plan plan.bodies table.gates table.row.items) }
        ensures rising { IfOk result (λ table.
            GatesRise plan plan.bodies table.gates table.row.items) }
    {
        let mut gates = List::new(alloc);
        let no = add(&mut gates, Gate::Truth(false))?;
        let yes = add(&mut gates, Gate::Truth(true))?;
        let mut row = vec![in alloc; no; plan.highest as usize + 1]?;
        row[0] = yes;
        let mut table = Table { gates, row };
        for k in 0..plan.bodies {
            table.extend(plan, k)?;
        }
        Ok(table)
    }
}
