//! Reports of a monitor on an output.

ghost use Rattle.std.specs.Prelude.{◌≡◌, ◌≤◌, length};
ghost use Rattle.mltl_base.specs.Lines.{word_text};

/// The verdict of a formula, or the status of an assume-guarantee contract.
#[derive(Clone, Copy, PartialEq, Eq, Debug)]
pub enum Word {
    T,
    F,
    /// The assumption is false.
    Inactive,
    /// The assumption is true and the guarantee is false.
    Invalid,
    /// The assumption and the guarantee are true.
    Verified,
}

impl Word {
    /// Returns the word as a line of verdicts has it.
    pub fn text(self) -> &'static str
        ensures text { result.now ≡ word_text self }
        ensures short { length result.now ≤ 8 }
    {
        match self {
            Word::T => "T",
            Word::F => "F",
            Word::Inactive => "inactive",
            Word::Invalid => "invalid",
            Word::Verified => "verified",
        }
    }
}

/// The style of reports: one for each time, or one for each longest run of new times with one word.
#[derive(Clone, Copy, PartialEq, Eq, Debug)]
pub enum Style {
    Each,
    Runs,
}

/// The word of output `out` at `time`, counted in rows from 0; with `Runs` also at the times since
/// the report before.
#[derive(Clone, Copy, PartialEq, Eq, Debug)]
pub struct Report {
    pub out: u32,
    pub time: u64,
    pub word: Word,
}
