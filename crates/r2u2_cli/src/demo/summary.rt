//! The text of a summary.

ghost use Rattle.std.specs.Prelude.{◌≡◌, ◌++◌, List as Seq, decimal, length, map, IfOk, OnOk};
ghost use Rattle.std.specs.List.{concat};
ghost use Rattle.mltl_base.specs.declared.report.Report.{Report};
ghost use Rattle.r2u2_cli.specs.Summary.{count_text, summary_line, listed_out, summary_of};
ghost use Rattle.r2u2_cli.specs.Tallies.{AreTallies, tallied};

use crate::demo::tally::Tally;
use itoa::Buffer;
use mltl_base::{Out, Word};
use std::alloc::{AllocError, Global};

/// Returns the summary of `rows` rows: a line for each output, with the number of reports of each
/// of its verdicts.
pub(crate) fn summary_of(
    alloc: Global,
    rows: u32,
    outs: &[Out],
    tallies: &[Tally],
) -> Result<Vec<u8>, AllocError>
    requires { length tallies.now ≡ length outs.now }
    ensures { IfOk result (λ text. (told : Seq Report) → AreTallies tallies.now told
        → text.items ≡ summary_of rows (map listed_out outs.now) told) }
{
    let mut text = b"rows=".to_vec(alloc)?;
    add_number(&mut text, u64::from(rows))?;
    text.extend_from_slice(b"\n")?;
    for (k, out) in outs.iter().enumerate() {
        add_line(&mut text, out, &tallies[k])?;
    }
    Ok(text)
}

/// Appends the line of an output.
fn add_line(text: &mut Vec<u8>, out: &Out, tally: &Tally) -> Result<(), AllocError>
    ensures { OnOk result (text.new.items
        ≡ text.old.items ++ summary_line (listed_out out.now) (tallied tally.now)) }
{
    text.extend_from_slice(out.name().bytes())?;
    text.extend_from_slice(b":")?;
    match out {
        Out::Formula(..) => {
            add_count(text, Word::T, tally)?;
            add_count(text, Word::F, tally)?;
        }
        Out::Contract(..) => {
            add_count(text, Word::Inactive, tally)?;
            add_count(text, Word::Invalid, tally)?;
            add_count(text, Word::Verified, tally)?;
        }
    }
    text.extend_from_slice(b"\n")
}

/// Appends the number of reports of a verdict.
fn add_count(text: &mut Vec<u8>, word: Word, tally: &Tally) -> Result<(), AllocError>
    ensures { OnOk result (text.new.items
        ≡ text.old.items ++ count_text word (tallied tally.now word)) }
{
    text.extend_from_slice(b" ")?;
    text.extend_from_slice(word.text().as_bytes())?;
    text.extend_from_slice(b"=")?;
    add_number(text, tally.count(word))
}

fn add_number(text: &mut Vec<u8>, n: u64) -> Result<(), AllocError>
    ensures { OnOk result (text.new.items ≡ text.old.items ++ decimal n) }
{
    let mut buffer = Buffer::new();
    text.extend_from_slice(buffer.format(n).as_bytes())
}
