//! Verdicts and words of the outputs in both engines. These calls are inlined, so that a stretch
//! stays in registers: passing it through memory would take longer than finding it.

ghost use Rattle.std.specs.Prelude.{◌≡◌, ℕ, ◌+◌, ◌^◌, ◌<◌, ◌≤◌, true as holds, List, length, slice_get, slice_index, Some};
ghost use Rattle.mltl_base.specs.Atoms.{Row};
ghost use Rattle.mltl_base.specs.declared.program.Program.{Program as Observer};
ghost use Rattle.mltl_base.specs.declared.program.Out.{Out as Output};
ghost use Rattle.mltl_base.specs.declared.interval.Engine.TheVariants.{Pt as past};

use crate::cursor::Cursor;
use ft_engine::Ft;
use mltl_base::steps::Steps;
use mltl_base::{Engine, Out, Program, Style, Word};
use pt_boxes::Pt;
use scq_ring::Seen;
use std::sync::ledger::Ledger;

/// Both engines of a program, and the number of rows that they have taken.
#[derive(Clone, Copy)]
pub struct Engines<'a> {
    pub ft: &'a Ft,
    pub pt: &'a Pt,
    pub rows: u64,
}

/// A word that an output has at all times from some time up to `last`, and not at the time after
/// it.
#[derive(Clone, Copy)]
pub struct Stretch {
    pub last: u64,
    pub word: Word,
}

impl Stretch {
    ghost use Rattle.mltl_base.specs.declared.report.Word.{Word as Told};
    ghost use Rattle.contract_status.specs.Stretches.{Covers, IsLongestStretch};

    /// Returns the last time that the first report from `from` on covers, if this is the longest
    /// stretch from there.
    #[inline(always)]
    pub fn last_covered(self, style: Style, from: u64) -> u64
        ensures covers { (told : List Told) → IsLongestStretch told from self.last self.word
            → Covers style told from result self.word }
    {
        match style {
            Style::Each => from,
            Style::Runs => self.last,
        }
    }
}

impl Engines<'_> {
    ghost use Rattle.contract_status.specs.Cursors.{FitsEngines, LooksOnward};
    ghost use Rattle.contract_status.specs.Stretches.{AreReadable, AreTold, CanRead, CanReport, FindsOpen, HaveTaken, IsLongestStretch, ShowsVerdicts, ShowsWords, contract_words, formula_words, known_verdicts, known_words};
    ghost use Rattle.contract_status.specs.Open.{AreKnown};
    ghost use Rattle.contract_status.specs.declared.engines.Stretch.{Stretch as Found};

    /// Returns the verdict of an instruction at a time, and the last time up to which it stays the
    /// same.
    #[inline(always)]
    fn verdicts_from(&self, engine: Engine, i: u32, from: u64) -> Seen
        requires readable { CanRead self.now engine i from }
        ensures shows { (program : Observer) (rows : List Row) → HaveTaken program rows self.now
            → ShowsVerdicts (known_verdicts program rows engine i) from result }
    {
        match engine {
            Engine::Ft => self.ft.run_from(i, from),
            Engine::Pt => self.last_verdict(i, from),
        }
    }

    /// Returns the verdict of a past-time instruction at a time that isn't before the last row's.
    #[inline(always)]
    fn last_verdict(&self, i: u32, from: u64) -> Seen
        requires readable { CanRead self.now past i from }
        ensures shows { (program : Observer) (rows : List Row) → HaveTaken program rows self.now
            → ShowsVerdicts (known_verdicts program rows past i) from result }
    {
        if from < self.rows {
            Seen::Run(from, self.pt.now(i))
        } else {
            Seen::Nothing
        }
    }

    /// Returns the word of a formula at a time, and the last time up to which it stays the same.
    #[inline(always)]
    fn formula_from(&self, engine: Engine, i: u32, from: u64) -> Option<Stretch>
        requires readable { CanRead self.now engine i from }
        ensures shows { (program : Observer) (rows : List Row) → HaveTaken program rows self.now
            → ShowsWords (formula_words program rows engine i) from result }
    {
        match self.verdicts_from(engine, i, from) {
            Seen::Run(last, true) => Some(Stretch {
                last,
                word: Word::T,
            }),
            Seen::Run(last, false) => Some(Stretch {
                last,
                word: Word::F,
            }),
            Seen::Nothing => None,
        }
    }

    /// Returns the status of a contract of two instructions at a time, and the last time up to
    /// which it stays the same. If the first is false, the second needn't be known.
    #[inline(always)]
    fn contract_from(&self, engine: Engine, i: u32, j: u32, from: u64) -> Option<Stretch>
        requires first { CanRead self.now engine i from }
        requires second { CanRead self.now engine j from }
        ensures shows { (program : Observer) (rows : List Row) → HaveTaken program rows self.now
            → from ≤ length (contract_words program rows engine i j) → ShowsWords (contract_words program rows engine i j) from result }
    {
        match self.verdicts_from(engine, i, from) {
            Seen::Run(last, false) => Some(Stretch {
                last,
                word: Word::Inactive,
            }),
            Seen::Run(last, true) => self.guarantee_from(engine, j, from, last),
            Seen::Nothing => None,
        }
    }

    /// Returns the status of a contract whose first instruction is true from a time up to `last`.
    #[inline(always)]
    fn guarantee_from(&self, engine: Engine, j: u32, from: u64, last: u64) -> Option<Stretch>
        requires readable { CanRead self.now engine j from }
        ensures shows { (program : Observer) (rows : List Row) (i : ℕ)
            → HaveTaken program rows self.now
            → from ≤ length (contract_words program rows engine i j)
            → IsLongestStretch (known_verdicts program rows engine i) from last holds
            → ShowsWords (contract_words program rows engine i j) from result }
    {
        match self.verdicts_from(engine, j, from) {
            Seen::Run(end, true) => Some(Stretch {
                last: last.min(end),
                word: Word::Verified,
            }),
            Seen::Run(end, false) => Some(Stretch {
                last: last.min(end),
                word: Word::Invalid,
            }),
            Seen::Nothing => None,
        }
    }

    /// Returns the word of an output at a time, and the last time up to which it stays the same.
    #[inline(always)]
    fn stretch_from(&self, out: &Out, from: u64) -> Option<Stretch>
        requires readable { CanReport self.now out.now from }
        ensures shows { (program : Observer) (rows : List Row) → HaveTaken program rows self.now
            → from ≤ length (known_words program rows out.now) → ShowsWords (known_words program rows out.now) from result }
    {
        match *out {
            Out::Formula(engine, i, _) => self.formula_from(engine, i, from),
            Out::Contract(engine, i, j, _) => self.contract_from(engine, i, j, from),
        }
    }

    /// Returns the first output from `first` on with a known word at its next time, and the longest
    /// stretch of it. It counts a step for each output that it looks at.
    #[inline(always)]
    fn first_open<L: Ledger>(
        &self,
        program: &Program,
        next_times: &[u64],
        first: usize,
        steps: &mut Steps<L>,
    ) -> Option<(usize, Stretch)>
        requires readable { AreReadable program.now self.now next_times.now }
        requires same_length { length next_times.now ≡ length program.now.outs }
        requires told { (rows : List Row) → HaveTaken program.now rows self.now
            → AreKnown program.now rows next_times.now
            → AreTold program.now rows next_times.now first }
        ensures finds { (rows : List Row) → HaveTaken program.now rows self.now
            → AreKnown program.now rows next_times.now
            → FindsOpen program.now rows next_times.now result }
        ensures counted { LooksOnward (length next_times.now) first result steps.old steps.new }
    {
        for k in first..program.outs.len() {
            steps.tick();
            if let Some(stretch) = self.stretch_from(program.outs.get(k), next_times[k]) {
                return Some((k, stretch));
            }
        }
        None
    }

    /// Returns the first output with a known word at its next time, and the longest stretch of it.
    /// The search goes on at a cursor.
    #[inline(always)]
    pub fn next_open<L: Ledger>(
        &self,
        program: &Program,
        next_times: &[u64],
        cursor: Cursor,
        steps: &mut Steps<L>,
    ) -> Option<(usize, Stretch)>
        requires readable { AreReadable program.now self.now next_times.now }
        requires same_length { length next_times.now ≡ length program.now.outs }
        requires cursor { FitsEngines program.now self.now next_times.now cursor }
        ensures finds { (rows : List Row) → HaveTaken program.now rows self.now
            → AreKnown program.now rows next_times.now
            → FindsOpen program.now rows next_times.now result }
        ensures goes_on { (stretch : Found) → cursor.stretch ≡ Some stretch
            → result ≡ Some (cursor.out, stretch) }
        ensures counted { LooksOnward (length next_times.now) cursor.out result
            steps.old steps.new }
    {
        match cursor.stretch {
            Some(stretch) => Some((cursor.out, stretch)),
            None => self.first_open(program, next_times, cursor.out, steps),
        }
    }
}
