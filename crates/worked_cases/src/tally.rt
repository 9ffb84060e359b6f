//! The numbers of cases and runs that agreed.

use std::fmt;

#[derive(Clone, Copy)]
pub struct Tally {
    pub cases: u32,
    pub agreeing_cases: u32,
    pub runs: u32,
    pub agreeing_runs: u32,
}

impl Tally {
    pub fn new() -> Tally {
        Tally {
            cases: 0,
            agreeing_cases: 0,
            runs: 0,
            agreeing_runs: 0,
        }
    }

    /// Counts a run.
    pub fn count_run(&mut self, agrees: bool) {
        self.runs = self.runs.saturating_add(1);
        self.agreeing_runs = self.agreeing_runs.saturating_add(u32::from(agrees));
    }

    /// Counts a case.
    pub fn count_case(&mut self, agrees: bool) {
        self.cases = self.cases.saturating_add(1);
        self.agreeing_cases = self.agreeing_cases.saturating_add(u32::from(agrees));
    }

    /// Returns true if all runs agreed.
    pub fn is_whole(&self) -> bool {
        self.runs == self.agreeing_runs
    }
}

impl fmt::Display for Tally {
    fn fmt<W: fmt::Write>(&self, f: &mut fmt::Formatter<W>) -> fmt::Result {
        let (cases, runs) = (self.cases, self.runs);
        let (agreeing_cases, agreeing_runs) = (self.agreeing_cases, self.agreeing_runs);
        write!(
            f,
            "{agreeing_cases} of {cases} cases agree, {agreeing_runs} of {runs} runs"
        )
    }
}
