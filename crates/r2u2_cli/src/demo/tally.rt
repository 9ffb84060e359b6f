//! The tally of an output: the number of reports of each verdict.

ghost use Rattle.std.specs.Prelude.{◌≡◌, ◌+◌, ◌<◌, ◌^◌, if◌then◌else◌};
ghost use Rattle.mltl_base.specs.Reports.{same_word};
ghost use Rattle.mltl_base.specs.declared.report.Word.{Word as Told};
ghost use Rattle.r2u2_cli.specs.Tallies.{tallied, none as no_words};

use mltl_base::Word;

/// The number of reports of each verdict of an output.
#[derive(Clone, Copy)]
pub(crate) struct Tally {
    holds: u64,
    fails: u64,
    inactive: u64,
    invalid: u64,
    verified: u64,
}

impl Tally {
    /// Makes a tally without reports.
    pub(crate) fn new() -> Tally
        ensures { result ≡ no_words }
    {
        Tally {
            holds: 0,
            fails: 0,
            inactive: 0,
            invalid: 0,
            verified: 0,
        }
    }

    /// Adds one report of a word.
    pub(crate) fn add(&mut self, word: Word)
        requires room { tallied self.old word < 2 ^ 63 }
        ensures { (w : Told)
            → tallied self.new w ≡ tallied self.old w + (if same_word word w then 1 else 0) }
    {
        match word {
            Word::T => self.holds += 1,
            Word::F => self.fails += 1,
            Word::Inactive => self.inactive += 1,
            Word::Invalid => self.invalid += 1,
            Word::Verified => self.verified += 1,
        }
    }

    /// Returns the number of reports of a verdict.
    pub(crate) fn count(&self, word: Word) -> u64
        ensures { result ≡ tallied self.now word }
    {
        match word {
            Word::T => self.holds,
            Word::F => self.fails,
            Word::Inactive => self.inactive,
            Word::Invalid => self.invalid,
            Word::Verified => self.verified,
        }
    }
}
