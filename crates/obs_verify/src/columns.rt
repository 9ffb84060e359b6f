//! Programs with their stored signals in other columns.

ghost use Rattle.std.specs.Prelude.{◌≡◌, ℕ, length, map};
ghost use Rattle.mltl_base.specs.declared.operators.BzOp.TheVariants as bz;
ghost use Rattle.obs_verify.specs.Bound.{bound_op as op_in, bound_signals};
ghost use Rattle.obs_verify.specs.SignalNumbers.{signals_read};

use mltl_base::{BzOp, List, Program, StoredSignal};

/// Moves the columns that instructions read, given the number of the signal that each reads.
pub fn move_reads(program: &mut Program, signal_numbers: &[Option<u32>], columns: &[u32])
    requires one_each { length columns.now ≡ length program.old.signals }
    requires signal_numbers { signal_numbers.now ≡ signals_read program.old }
    ensures { program.new
        ≡ record program.old { bz = map (op_in program.old.signals columns.now) program.old.bz } }
{
    for (i, signal_number) in signal_numbers.iter().enumerate() {
        if let Some(k) = *signal_number {
            let op = moved_to(*program.bz.get(i), columns[k as usize]);
            program.bz.put(i, op);
        }
    }
}

/// Returns the instruction with this column in place of its own.
fn moved_to(op: BzOp, column: u32) -> BzOp
    ensures whole { (c : ℕ) → op ≡ bz.Column c → result ≡ bz.Column column }
    ensures truth { (c : ℕ) → op ≡ bz.IsTrue c → result ≡ bz.IsTrue column }
{
    match op {
        BzOp::Column(_) => BzOp::Column(column),
        BzOp::IsTrue(_) => BzOp::IsTrue(column),
        _ => op,
    }
}

/// Moves the signals to these columns.
pub fn move_signals(signals: &mut List<StoredSignal>, columns: &[u32])
    requires { length columns.now ≡ length signals.old }
    ensures { signals.new ≡ bound_signals signals.old columns.now }
{
    for (k, column) in columns.iter().enumerate() {
        let signal = signals.get(k);
        let moved = StoredSignal {
            name: signal.name.copy(),
            truth: signal.truth,
            column: *column,
        };
        signals.put(k, moved);
    }
}
