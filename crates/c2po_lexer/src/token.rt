//! The tokens of a specification.

ghost use Rattle.std.specs.Prelude.{◌≡◌, length};
ghost use Rattle.c2po_lexer.specs.Spelling.{keyword_text, keyword_of, sign_text, sign_at};

use mltl_base::{List, Name};

/// The tokens of a text in order. No two share a byte.
pub type Tokens = List<Token>;

/// A token with its sort, its line, counted from 1, and its bytes `start..end` of the text.
#[derive(Drop)]
pub struct Token {
    pub what: What,
    pub line: u32,
    pub start: u32,
    pub end: u32,
}

/// The sort of a token.
#[derive(Drop)]
pub enum What {
    /// A word that isn't reserved.
    Word(Name),
    Reserved(Keyword),
    Number(i64),
    Sign(Sign),
}

/// A reserved word. It is never the name of a signal, a definition, a variable or an output.
#[derive(Clone, Copy)]
pub enum Keyword {
    /// `STRUCT`
    Struct,
    /// `INPUT`
    Input,
    /// `DEFINE`
    Define,
    /// `FTSPEC`
    FtSpec,
    /// `PTSPEC`
    PtSpec,
    /// `bool`
    Bool,
    /// `int`
    Int,
    /// `set`
    Set,
    /// `true`
    True,
    /// `false`
    False,
    /// `foreach`
    ForEach,
    /// `forsome`
    ForSome,
    /// `forexactly`
    ForExactly,
    /// `foratleast`
    ForAtLeast,
    /// `foratmost`
    ForAtMost,
    /// `F`
    F,
    /// `G`
    G,
    /// `U`
    U,
    /// `R`
    R,
    /// `S`
    S,
    /// `O`
    O,
    /// `H`
    H,
}

/// A sign: an operator, a bracket or a separator.
#[derive(Clone, Copy, PartialEq, Eq)]
pub enum Sign {
    /// `<->`
    Iff,
    /// `->`
    Implies,
    /// `=>`, between the two formulas of a contract
    Promises,
    /// `:=`
    Becomes,
    /// `==`
    EqualEqual,
    /// `!=`
    NotEqual,
    /// `<=`
    LessEqual,
    /// `>=`
    GreaterEqual,
    /// `&&`
    AndAnd,
    /// `||`
    OrOr,
    /// `(`
    LeftRound,
    /// `)`
    RightRound,
    /// `{`
    LeftCurly,
    /// `}`
    RightCurly,
    /// `[`
    LeftSquare,
    /// `]`
    RightSquare,
    /// `,`
    Comma,
    /// `;`
    Semicolon,
    /// `:`
    Colon,
    /// `.`
    Dot,
    /// `!`
    Bang,
    /// `<`
    Less,
    /// `>`
    Greater,
    /// `+`
    Plus,
    /// `-`
    Minus,
    /// `*`
    Star,
    /// `/`
    Slash,
    /// `%`
    Percent,
}

impl Keyword {
    const ALL: [Keyword; 22] = [
        Keyword::Struct,
        Keyword::Input,
        Keyword::Define,
        Keyword::FtSpec,
        Keyword::PtSpec,
        Keyword::Bool,
        Keyword::Int,
        Keyword::Set,
        Keyword::True,
        Keyword::False,
        Keyword::ForEach,
        Keyword::ForSome,
        Keyword::ForExactly,
        Keyword::ForAtLeast,
        Keyword::ForAtMost,
        Keyword::F,
        Keyword::G,
        Keyword::U,
        Keyword::R,
        Keyword::S,
        Keyword::O,
        Keyword::H,
    ];

    /// Returns the letters of the word.
    pub(crate) fn text(self) -> &'static [u8]
        ensures { result.now ≡ keyword_text self }
    {
        match self {
            Keyword::Struct => b"STRUCT",
            Keyword::Input => b"INPUT",
            Keyword::Define => b"DEFINE",
            Keyword::FtSpec => b"FTSPEC",
            Keyword::PtSpec => b"PTSPEC",
            Keyword::Bool => b"bool",
            Keyword::Int => b"int",
            Keyword::Set => b"set",
            Keyword::True => b"true",
            Keyword::False => b"false",
            Keyword::ForEach => b"foreach",
            Keyword::ForSome => b"forsome",
            Keyword::ForExactly => b"forexactly",
            Keyword::ForAtLeast => b"foratleast",
            Keyword::ForAtMost => b"foratmost",
            Keyword::F => b"F",
            Keyword::G => b"G",
            Keyword::U => b"U",
            Keyword::R => b"R",
            Keyword::S => b"S",
            Keyword::O => b"O",
            Keyword::H => b"H",
        }
    }

    /// Returns the reserved word with these letters, if there is one.
    pub(crate) fn of(word: &[u8]) -> Option<Keyword>
        ensures { result ≡ keyword_of word.now }
    {
        Keyword::ALL
            .iter()
            .copied()
            .find(|keyword| word == keyword.text())
    }
}

impl Sign {
    /// All signs, longer ones first.
    const ALL: [Sign; 28] = [
        Sign::Iff,
        Sign::Implies,
        Sign::Promises,
        Sign::Becomes,
        Sign::EqualEqual,
        Sign::NotEqual,
        Sign::LessEqual,
        Sign::GreaterEqual,
        Sign::AndAnd,
        Sign::OrOr,
        Sign::LeftRound,
        Sign::RightRound,
        Sign::LeftCurly,
        Sign::RightCurly,
        Sign::LeftSquare,
        Sign::RightSquare,
        Sign::Comma,
        Sign::Semicolon,
        Sign::Colon,
        Sign::Dot,
        Sign::Bang,
        Sign::Less,
        Sign::Greater,
        Sign::Plus,
        Sign::Minus,
        Sign::Star,
        Sign::Slash,
        Sign::Percent,
    ];

    /// Returns the bytes of the sign.
    pub(crate) fn text(self) -> &'static [u8]
        ensures { result.now ≡ sign_text self }
    {
        match self {
            Sign::Iff => b"<->",
            Sign::Implies => b"->",
            Sign::Promises => b"=>",
            Sign::Becomes => b":=",
            Sign::EqualEqual => b"==",
            Sign::NotEqual => b"!=",
            Sign::LessEqual => b"<=",
            Sign::GreaterEqual => b">=",
            Sign::AndAnd => b"&&",
            Sign::OrOr => b"||",
            Sign::LeftRound => b"(",
            Sign::RightRound => b")",
            Sign::LeftCurly => b"{",
            Sign::RightCurly => b"}",
            Sign::LeftSquare => b"[",
            Sign::RightSquare => b"]",
            Sign::Comma => b",",
            Sign::Semicolon => b";",
            Sign::Colon => b":",
            Sign::Dot => b".",
            Sign::Bang => b"!",
            Sign::Less => b"<",
            Sign::Greater => b">",
            Sign::Plus => b"+",
            Sign::Minus => b"-",
            Sign::Star => b"*",
            Sign::Slash => b"/",
            Sign::Percent => b"%",
        }
    }

    /// Returns the longest sign at the front of a text, if there is one.
    pub(crate) fn at_front(text: &[u8]) -> Option<Sign>
        ensures { result ≡ sign_at text.now }
    {
        Sign::ALL
            .iter()
            .copied()
            .find(|sign| text.starts_with(sign.text()))
    }
}
