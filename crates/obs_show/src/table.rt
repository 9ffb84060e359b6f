//! The table of a program.

ghost use Rattle.std.specs.Prelude.{◌≡◌, ◌<◌, ◌++◌, List, ℕ, length, IfOk, OnOk};
ghost use Rattle.obs_show.specs.TableText.{HasText, figure_fields};
ghost use Rattle.obs_show.specs.Table.{bz_record, ft_figure_fields, ft_record, csv_lines as lines_of, numbered, pt_figure_fields, pt_record, table};

use crate::table_fields::{Figures, Shown};
use crate::table_lines::Lines;
use obs_verify::Checked;
use std::alloc::{AllocError, Global};

/// Returns the instruction table of a program: a first line with the names of the columns, then a
/// line for each instruction of the Booleanizer, of future time and of past time, in order. A field
/// that doesn't apply is empty.
///
/// # Errors
///
/// Out of memory.
pub fn instruction_table(alloc: Global, checked: &Checked) -> Result<Vec<u8>, AllocError>
    ensures written { IfOk result (λ bytes. bytes.items ≡ table checked.now) }
{
    let mut lines = Lines::new(alloc);
    lines.head()?;
    put_bz(&mut lines, checked)?;
    put_ft(&mut lines, checked)?;
    put_pt(&mut lines, checked)?;
    lines.into_text()
}

/// The figures of a Booleanizer instruction, which has neither delays nor a size.
const NO_FIGURES: Figures = Figures {
    best: None,
    worst: None,
    size: None,
};

/// Returns the delays and the slots of future-time instruction `i`.
fn ft_figures(checked: &Checked, i: usize) -> Figures
    requires { i < length checked.now.ft }
    ensures { figure_fields result ≡ ft_figure_fields checked.now i }
{
    let sizes = checked.program().sizes.ft.as_slice();
    let best = checked.delays().best.as_slice();
    let worst = checked.delays().worst.as_slice();
    Figures {
        best: Some(best[i]),
        worst: Some(worst[i]),
        size: Some(sizes[i]),
    }
}

/// Returns the boxes of past-time instruction `i`.
fn pt_figures(checked: &Checked, i: usize) -> Figures
    requires { i < length checked.now.pt }
    ensures { figure_fields result ≡ pt_figure_fields checked.now i }
{
    Figures {
        best: None,
        worst: None,
        size: Some(checked.program().sizes.pt.as_slice()[i]),
    }
}

fn put_bz(lines: &mut Lines, checked: &Checked) -> Result<(), AllocError>
    ensures { (text : List ℕ) → HasText lines.old text
        → OnOk result (HasText lines.new (text ++ lines_of (numbered bz_record checked.now.bz))) }
{
    for (i, op) in checked.program().bz.as_slice().iter().enumerate() {
        lines.put("bz", i, Shown::bz(*op), NO_FIGURES)?;
    }
    Ok(())
}

fn put_ft(lines: &mut Lines, checked: &Checked) -> Result<(), AllocError>
    ensures { (text : List ℕ) → HasText lines.old text
        → OnOk result (HasText lines.new
        (text ++ lines_of (numbered (ft_record checked.now) checked.now.ft))) }
{
    for (i, op) in checked.program().ft.as_slice().iter().enumerate() {
        lines.put("ft", i, Shown::ft(*op), ft_figures(checked, i))?;
    }
    Ok(())
}

fn put_pt(lines: &mut Lines, checked: &Checked) -> Result<(), AllocError>
    ensures { (text : List ℕ) → HasText lines.old text
        → OnOk result (HasText lines.new
        (text ++ lines_of (numbered (pt_record checked.now) checked.now.pt))) }
{
    for (i, op) in checked.program().pt.as_slice().iter().enumerate() {
        lines.put("pt", i, Shown::pt(*op), pt_figures(checked, i))?;
    }
    Ok(())
}
