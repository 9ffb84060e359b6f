//! Words of outputs, and the reports of rows.

ghost use Rattle.mltl_base.specs.Reports.{goes_on, of_words, reports as reports_of, status, same_word, word_of, words as words_of};
ghost use Rattle.mltl_base.specs.Verdicts.{known_front};
ghost use Rattle.mltl_oracle.specs.Computing.{ComputesBoth, ComputesOutput};
ghost use Rattle.mltl_oracle.specs.Shapes.{as_output};
ghost use Rattle.mltl_base.specs.declared.report.Word.{Word as Said};
ghost use Rattle.mltl_oracle.specs.declared.verdict.Fault.TheVariants.{Memory as NoMemory};
ghost use Rattle.mltl_oracle.specs.Telling.{is_told, of_outputs};
ghost use Rattle.std.specs.Prelude.{◌≡◌, ℕ, suc, ◌+◌, ◌^◌, ◌<◌, ◌≤◌, [], ◌∷◌, ◌++◌, if◌then◌else◌, length, drop, map, slice_get, slice_index_or, All, IfErr, IfOk, OnOk};

use crate::Output;
use crate::operators::known;
use crate::verdict::{Fault, verdicts};
use mltl_base::{List, Report, Style, Word};
use std::alloc::Global;

/// Returns the words of an output that are known after the rows.
pub fn words(alloc: Global, rows: &[List<i64>], output: &Output) -> Result<List<Word>, Fault>
    ensures known { IfOk result (λ ws. ws ≡ words_of rows.now (as_output output.now)) }
    ensures cause { ComputesOutput rows.now (as_output output.now) →
        IfErr result (λ why. why ≡ NoMemory) }
{
    match output {
        Output::Formula(p) => {
            let vs = verdicts(alloc, rows, p)?;
            named(alloc, &vs)
        }
        Output::Contract(p, q) => {
            let ps = verdicts(alloc, rows, p)?;
            let qs = verdicts(alloc, rows, q)?;
            statuses(alloc, &ps, &qs, rows.len())
        }
    }
}

/// Returns the reports of all rows, row by row, and output by output in each row.
pub fn reports(
    alloc: Global,
    style: Style,
    outs: &[Output],
    rows: &[List<i64>],
) -> Result<List<Report>, Fault>
    requires few { length outs.now ≤ 2 ^ 32 }
    ensures told { IfOk result (λ told. told ≡ reports_of style (map as_output outs.now) rows.now) }
    ensures cause { All (λ o. ComputesOutput rows.now (as_output o)) outs.now →
        IfErr result (λ why. why ≡ NoMemory) }
{
    let mut told = List::new(alloc);
    for n in 0..rows.len() {
        report_row(alloc, style, outs, &rows[..n], &rows[..n + 1], &mut told)?;
    }
    Ok(told)
}

/// Appends the reports of the words that are known now and weren't before.
fn report_row(
    alloc: Global,
    style: Style,
    outs: &[Output],
    before: &[List<i64>],
    now: &[List<i64>],
    told: &mut List<Report>,
) -> Result<(), Fault>
    requires few { length outs.now ≤ 2 ^ 32 }
    ensures told { OnOk result
        (told.new ≡ told.old ++ of_outputs style 0 (map as_output outs.now) before.now now.now) }
    ensures cause { All (λ o. ComputesBoth before.now now.now (as_output o)) outs.now →
        IfErr result (λ why. why ≡ NoMemory) }
{
    for k in 0..outs.len() {
        let output = &outs[k];
        let old = words(alloc, before, output)?;
        let all = words(alloc, now, output)?;
        let from = old.len();
        tell(style, k as u32, &all, from, told)?;
    }
    Ok(())
}

/// Appends the reports of the words from a time on.
fn tell(
    style: Style,
    out: u32,
    ws: &List<Word>,
    from: usize,
    told: &mut List<Report>,
) -> Result<(), Fault>
    ensures told { OnOk result (told.new ≡ told.old ++ of_words style out from (drop from ws.now)) }
    ensures cause { IfErr result (λ why. why ≡ NoMemory) }
{
    tell_slice(style, out, ws.as_slice(), from, told)
}

/// Appends the reports of the words from a time on, over slices.
fn tell_slice(
    style: Style,
    out: u32,
    ws: &[Word],
    from: usize,
    told: &mut List<Report>,
) -> Result<(), Fault>
    ensures told { OnOk result (told.new ≡ told.old ++ of_words style out from (drop from ws.now)) }
    ensures cause { IfErr result (λ why. why ≡ NoMemory) }
{
    for t in from..ws.len() {
        let word = ws[t];
        put_if(
            ends(style, ws, t),
            Report {
                out,
                time: t as u64,
                word,
            },
            told,
        )?;
    }
    Ok(())
}

/// Appends a report if it is due.
fn put_if(due: bool, report: Report, told: &mut List<Report>) -> Result<(), Fault>
    ensures told { OnOk result (told.new ≡ (if due then told.old ++ report ∷ [] else told.old)) }
    ensures cause { IfErr result (λ why. why ≡ NoMemory) }
{
    if !due {
        return Ok(());
    }
    told.push(report)?;
    Ok(())
}

/// Returns true if the word at a time is reported: with `Runs` only the last word of a run of one
/// word is.
fn ends(style: Style, ws: &[Word], t: usize) -> bool
    requires place { t < length ws.now }
    ensures { (w : Said) →
        result ≡ is_told style (slice_index_or ws.now t w) (drop (suc t) ws.now) }
{
    match style {
        Style::Each => true,
        Style::Runs => !continues(ws, t),
    }
}

/// Returns true if the word at a time is also the word at the next time.
fn continues(ws: &[Word], t: usize) -> bool
    requires place { t < length ws.now }
    ensures { (w : Said) → result ≡ goes_on (slice_index_or ws.now t w) (drop (suc t) ws.now) }
{
    if t + 1 < ws.len() {
        let word = ws[t];
        let next = ws[t + 1];
        return same(word, next);
    }
    false
}

/// Returns true if two words are equal.
fn same(v: Word, w: Word) -> bool
    ensures { result ≡ same_word v w }
{
    match (v, w) {
        (Word::T, Word::T) => true,
        (Word::F, Word::F) => true,
        (Word::Inactive, Word::Inactive) => true,
        (Word::Invalid, Word::Invalid) => true,
        (Word::Verified, Word::Verified) => true,
        _ => false,
    }
}

/// Returns the words of verdicts.
fn named(alloc: Global, vs: &List<bool>) -> Result<List<Word>, Fault>
    ensures known { IfOk result (λ ws. ws ≡ map word_of vs.now) }
    ensures cause { IfErr result (λ why. why ≡ NoMemory) }
{
    named_slice(alloc, vs.as_slice())
}

/// Returns the words of verdicts, over slices.
fn named_slice(alloc: Global, vs: &[bool]) -> Result<List<Word>, Fault>
    ensures known { IfOk result (λ ws. ws ≡ map word_of vs.now) }
    ensures cause { IfErr result (λ why. why ≡ NoMemory) }
{
    let mut ws = List::new(alloc);
    for v in vs {
        let word = if *v { Word::T } else { Word::F };
        ws.push(word)?;
    }
    Ok(ws)
}

/// Returns the status words over known verdicts of a contract's formulas, up to the first time
/// without a word.
fn statuses(alloc: Global, ps: &List<bool>, qs: &List<bool>, n: usize) -> Result<List<Word>, Fault>
    ensures known { IfOk result
        (λ ws. ws ≡ known_front (λ t. status (slice_get ps.now t) (slice_get qs.now t)) n) }
    ensures cause { IfErr result (λ why. why ≡ NoMemory) }
{
    statuses_of(alloc, ps.as_slice(), qs.as_slice(), n)
}

/// Returns the status words over known verdicts of a contract's formulas, over slices.
fn statuses_of(alloc: Global, ps: &[bool], qs: &[bool], n: usize) -> Result<List<Word>, Fault>
    ensures known { IfOk result
        (λ ws. ws ≡ known_front (λ t. status (slice_get ps.now t) (slice_get qs.now t)) n) }
    ensures cause { IfErr result (λ why. why ≡ NoMemory) }
{
    let mut ws = List::new(alloc);
    for t in 0..n {
        match status_of(known(ps, t), known(qs, t)) {
            Some(word) => ws.push(word)?,
            None => return Ok(ws),
        }
    }
    Ok(ws)
}

/// Returns the status of a contract, from the known verdicts of its two formulas.
fn status_of(p: Option<bool>, q: Option<bool>) -> Option<Word>
    ensures { result ≡ status p q }
{
    match (p, q) {
        (Some(false), _) => Some(Word::Inactive),
        (Some(true), Some(false)) => Some(Word::Invalid),
        (Some(true), Some(true)) => Some(Word::Verified),
        _ => None,
    }
}
