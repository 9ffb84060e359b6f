//! Faults of compilation.

ghost use Rattle.std.specs.Prelude.{◌≡◌, ◌≤◌, length};
ghost use Rattle.c2po_compile.specs.FaultTexts.{header_fault_of, refusal_text};
ghost use Rattle.c2po_compile.specs.Refusals.{build_refusal, check_refusal, header_refusal, token_refusal, tree_refusal};

use crate::BuildFault;
use c2po_lexer::LexFault;
use c2po_parse::ParseFault;
use c2po_types::TypeFault;
use mltl_base::Name;
use std::alloc::AllocError;
use std::error::Error;
use std::fmt;
use trace_columns::HeaderFault;

/// The reason why a specification is refused.
#[derive(Clone, Copy)]
pub enum Refusal {
    /// A byte begins no token.
    Letter,
    /// A word has more than 64 bytes.
    LongWord,
    /// A number is above 9,223,372,036,854,775,807.
    Number,
    /// An item has more than 1,024 tokens.
    TooManyTokens,
    /// An item isn't in the grammar.
    Grammar,
    /// A name isn't declared.
    Unknown,
    /// A name is declared twice.
    Twice,
    /// A value has another kind than its place requires.
    Kind,
    /// The number of arguments isn't the struct's number of fields.
    Count,
    /// The struct has no such field.
    Field,
    /// An interval or the number of a quantifier is out of bounds.
    Bounds,
    /// There are more signals than the limit.
    Signals,
    /// A value unfolds to more than the limit.
    Wide,
    /// A divisor isn't a single number, or is 0.
    Divisor,
    /// An integer may leave 64 bits.
    Range,
    /// An output has an operator of the other tense than its section.
    Tense,
    /// There are more instructions than the limit.
    TooManyNodes,
    /// A worst-case delay is above the limit.
    TooLate,
    /// There are more queue slots and boxes than the limit.
    TooManySlots,
}

impl Refusal {
    /// Returns the reason in words.
    pub fn text(self) -> &'static str
        ensures text { result.now ≡ refusal_text self }
        ensures short { length result.now ≤ 25 }
    {
        match self {
            Refusal::Letter => "bad character",
            Refusal::LongWord => "word too long",
            Refusal::Number => "number too large",
            Refusal::TooManyTokens => "item too long",
            Refusal::Grammar => "syntax",
            Refusal::Unknown => "unknown name",
            Refusal::Twice => "name declared twice",
            Refusal::Kind => "wrong kind",
            Refusal::Count => "wrong number of arguments",
            Refusal::Field => "unknown field",
            Refusal::Bounds => "bad interval",
            Refusal::Signals => "too many signals",
            Refusal::Wide => "expansion too large",
            Refusal::Divisor => "bad divisor",
            Refusal::Range => "number range",
            Refusal::Tense => "mixed tense",
            Refusal::TooManyNodes => "too many nodes",
            Refusal::TooLate => "delay too large",
            Refusal::TooManySlots => "too many slots",
        }
    }
}

/// The fault of a header line.
#[derive(Drop)]
pub enum HeaderWhy {
    /// The line doesn't begin with `#`.
    NoHeader,
    /// No column has the name of this signal.
    Missing(Name),
    /// More than one column has the name of this signal.
    Twice(Name),
}

impl HeaderWhy {
    /// Returns the fault as the fault of the header reader.
    fn fault(&self) -> HeaderFault
        ensures { result ≡ header_fault_of self.now }
    {
        match self {
            HeaderWhy::NoHeader => HeaderFault::NoHeader,
            HeaderWhy::Missing(name) => HeaderFault::Missing(name.copy()),
            HeaderWhy::Twice(name) => HeaderFault::Twice(name.copy()),
        }
    }
}

/// The fault for which a specification isn't compiled.
#[derive(Drop)]
pub enum CompileFault {
    /// The specification has a fault, or exceeds a limit. Lines are counted from 1; line 0 stands
    /// for the whole specification.
    Refused(u32, Refusal),
    /// The header line doesn't name each signal once.
    BadHeader(HeaderWhy),
    /// Out of memory.
    Memory,
}

impl fmt::Display for CompileFault {
    ghost use Rattle.std.specs.Prelude.{Some};
    ghost use Rattle.c2po_compile.specs.FaultTexts.{compile_fault_text};

    ghost output = { λ fault. Some (compile_fault_text fault) };

    fn fmt<W: fmt::Write>(&self, f: &mut fmt::Formatter<W>) -> fmt::Result {
        match self {
            CompileFault::Refused(0, why) => {
                let why = why.text();
                write!(f, "{why}")
            }
            CompileFault::Refused(line, why) => {
                let why = why.text();
                write!(f, "line {line}: {why}")
            }
            CompileFault::BadHeader(why) => {
                let fault = why.fault();
                write!(f, "header: {fault}")
            }
            CompileFault::Memory => write!(f, "out of memory"),
        }
    }
}

impl fmt::Debug for CompileFault {
    fn fmt<W: fmt::Write>(&self, f: &mut fmt::Formatter<W>) -> fmt::Result {
        fmt::Display::fmt(self, f)
    }
}

impl Error for CompileFault {}

impl From<LexFault> for CompileFault {
    ghost from_gives = { λ fault e. e ≡ token_refusal fault };

    fn from(fault: LexFault) -> CompileFault {
        match fault {
            LexFault::Letter(line) => CompileFault::Refused(line, Refusal::Letter),
            LexFault::LongWord(line) => CompileFault::Refused(line, Refusal::LongWord),
            LexFault::Number(line) => CompileFault::Refused(line, Refusal::Number),
            LexFault::Memory => CompileFault::Memory,
        }
    }
}

impl From<ParseFault> for CompileFault {
    ghost from_gives = { λ fault e. e ≡ tree_refusal fault };

    fn from(fault: ParseFault) -> CompileFault {
        match fault {
            ParseFault::TooManyTokens(line) => CompileFault::Refused(line, Refusal::TooManyTokens),
            ParseFault::Grammar(line) => CompileFault::Refused(line, Refusal::Grammar),
            ParseFault::Memory => CompileFault::Memory,
        }
    }
}

impl From<TypeFault> for CompileFault {
    ghost from_gives = { λ fault e. e ≡ check_refusal fault };

    fn from(fault: TypeFault) -> CompileFault {
        match fault {
            TypeFault::Unknown(line) => CompileFault::Refused(line, Refusal::Unknown),
            TypeFault::Twice(line) => CompileFault::Refused(line, Refusal::Twice),
            TypeFault::Kind(line) => CompileFault::Refused(line, Refusal::Kind),
            TypeFault::Count(line) => CompileFault::Refused(line, Refusal::Count),
            TypeFault::Field(line) => CompileFault::Refused(line, Refusal::Field),
            TypeFault::Bounds(line) => CompileFault::Refused(line, Refusal::Bounds),
            TypeFault::Signals(line) => CompileFault::Refused(line, Refusal::Signals),
            TypeFault::Wide(line) => CompileFault::Refused(line, Refusal::Wide),
            TypeFault::Divisor(line) => CompileFault::Refused(line, Refusal::Divisor),
            TypeFault::Range(line) => CompileFault::Refused(line, Refusal::Range),
            TypeFault::Tense(line) => CompileFault::Refused(line, Refusal::Tense),
            TypeFault::Memory => CompileFault::Memory,
        }
    }
}

impl From<BuildFault> for CompileFault {
    ghost from_gives = { λ fault e. e ≡ build_refusal fault };

    fn from(fault: BuildFault) -> CompileFault {
        match fault {
            BuildFault::TooManyNodes => CompileFault::Refused(0, Refusal::TooManyNodes),
            BuildFault::TooLate => CompileFault::Refused(0, Refusal::TooLate),
            BuildFault::TooManySlots => CompileFault::Refused(0, Refusal::TooManySlots),
            BuildFault::Memory => CompileFault::Memory,
        }
    }
}

impl From<HeaderFault> for CompileFault {
    ghost from_gives = { λ fault e. e ≡ header_refusal fault };

    fn from(fault: HeaderFault) -> CompileFault {
        match fault {
            HeaderFault::NoHeader => CompileFault::BadHeader(HeaderWhy::NoHeader),
            HeaderFault::Missing(name) => CompileFault::BadHeader(HeaderWhy::Missing(name)),
            HeaderFault::Twice(name) => CompileFault::BadHeader(HeaderWhy::Twice(name)),
            HeaderFault::Memory => CompileFault::Memory,
        }
    }
}

impl From<AllocError> for CompileFault {
    ghost use Rattle.c2po_compile.specs.declared.fault.CompileFault.TheVariants.{Memory};

    ghost from_gives = { λ _ e. e ≡ Memory };

    fn from(_refused: AllocError) -> CompileFault {
        CompileFault::Memory
    }
}
