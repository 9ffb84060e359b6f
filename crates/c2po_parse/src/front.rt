//! The fronts of token lists: signs, names, operators and the starts of operands.

ghost use Rattle.std.specs.Prelude.{◌≡◌, ◌<◌, length, option_map, IfSome};
ghost use Rattle.c2po_parse.specs.Fronts.{past, name_at, natural_at, interval_at, sign_infix, word_between, word_window, word_quantifier, field_pick, operator_at, bound_start, window_start, start_at, threshold_at, middle_at, named_or_called, word_start, sign_start};

use crate::operator::{Atom, Bracket, Infix, Operator, Prefix, Quantifier, Start};
use c2po_lexer::{Keyword, Sign, Token, What};
use mltl_base::{ArithOp, BetweenOp, CompareOp, CountOp, LogicOp, Name, WindowOp};

/// Returns the tokens after a sign, if it is at the front.
pub fn take_sign(sign: Sign, tokens: &[Token]) -> Option<&[Token]>
    ensures taken { option_map (λ rest. rest.now) result ≡ past sign tokens.now }
    ensures shorter { IfSome result (λ rest. length rest.now < length tokens.now) }
{
    match tokens {
        [
            Token {
                what: What::Sign(found),
                ..
            },
            rest @ ..,
        ] if *found == sign => Some(rest),
        _ => None,
    }
}

/// Returns the name at the front and the tokens after it.
pub fn take_name(tokens: &[Token]) -> Option<(Name, &[Token])>
    ensures taken { option_map (λ x. (x.0, x.1.now)) result ≡ name_at tokens.now }
    ensures shorter { IfSome result (λ x. length x.1.now < length tokens.now) }
{
    match tokens {
        [
            Token {
                what: What::Word(name),
                ..
            },
            rest @ ..,
        ] => Some((name.copy(), rest)),
        _ => None,
    }
}

/// Returns the natural number at the front and the tokens after it.
fn take_natural(tokens: &[Token]) -> Option<(u64, &[Token])>
    ensures { option_map (λ x. (x.0, x.1.now)) result ≡ natural_at tokens.now }
{
    match tokens {
        [
            Token {
                what: What::Number(number),
                ..
            },
            rest @ ..,
        ] => {
            let number = u64::try_from(*number).ok()?;
            Some((number, rest))
        }
        _ => None,
    }
}

/// Returns the bounds of the interval at the front and the tokens after it. A single number is the
/// upper bound.
#[tactic(auto, unfolding(crate::specs::Fronts::interval_at))]
fn take_interval(tokens: &[Token]) -> Option<(u64, u64, &[Token])>
    ensures { option_map (λ x. (x.0, x.1, x.2.now)) result ≡ interval_at tokens.now }
{
    let rest = take_sign(Sign::LeftSquare, tokens)?;
    let (first, rest) = take_natural(rest)?;
    if let Some(rest) = take_sign(Sign::RightSquare, rest) {
        return Some((0, first, rest));
    }
    let rest = take_sign(Sign::Comma, rest)?;
    let (second, rest) = take_natural(rest)?;
    let rest = take_sign(Sign::RightSquare, rest)?;
    Some((first, second, rest))
}

/// Returns the operator between operands that a sign stands for.
fn infix_of(sign: Sign) -> Option<Infix>
    ensures { result ≡ sign_infix sign }
{
    match sign {
        Sign::Iff => Some(Infix::Logic(LogicOp::Iff)),
        Sign::Implies => Some(Infix::Logic(LogicOp::Implies)),
        Sign::OrOr => Some(Infix::Logic(LogicOp::Or)),
        Sign::AndAnd => Some(Infix::Logic(LogicOp::And)),
        Sign::EqualEqual => Some(Infix::Compare(CompareOp::Eq)),
        Sign::NotEqual => Some(Infix::Compare(CompareOp::Ne)),
        Sign::Less => Some(Infix::Compare(CompareOp::Lt)),
        Sign::LessEqual => Some(Infix::Compare(CompareOp::Le)),
        Sign::Greater => Some(Infix::Compare(CompareOp::Gt)),
        Sign::GreaterEqual => Some(Infix::Compare(CompareOp::Ge)),
        Sign::Plus => Some(Infix::Arith(ArithOp::Add)),
        Sign::Minus => Some(Infix::Arith(ArithOp::Sub)),
        Sign::Star => Some(Infix::Arith(ArithOp::Mul)),
        Sign::Slash => Some(Infix::Arith(ArithOp::Div)),
        Sign::Percent => Some(Infix::Arith(ArithOp::Rem)),
        _ => None,
    }
}

/// Returns the temporal operator between formulas that a word stands for.
fn between_of(word: Keyword) -> Option<BetweenOp>
    ensures { result ≡ word_between word }
{
    match word {
        Keyword::U => Some(BetweenOp::U),
        Keyword::R => Some(BetweenOp::R),
        Keyword::S => Some(BetweenOp::S),
        _ => None,
    }
}

/// Returns the temporal operator before a formula that a word stands for.
fn window_of(word: Keyword) -> Option<WindowOp>
    ensures { result ≡ word_window word }
{
    match word {
        Keyword::F => Some(WindowOp::F),
        Keyword::G => Some(WindowOp::G),
        Keyword::O => Some(WindowOp::O),
        Keyword::H => Some(WindowOp::H),
        _ => None,
    }
}

/// Returns the quantifier that a word stands for.
fn quantifier_of(word: Keyword) -> Option<Quantifier>
    ensures { result ≡ word_quantifier word }
{
    match word {
        Keyword::ForEach => Some(Quantifier::Each),
        Keyword::ForSome => Some(Quantifier::Exists),
        Keyword::ForExactly => Some(Quantifier::Count(CountOp::Exactly)),
        Keyword::ForAtLeast => Some(Quantifier::Count(CountOp::AtLeast)),
        Keyword::ForAtMost => Some(Quantifier::Count(CountOp::AtMost)),
        _ => None,
    }
}

/// Returns the picked field after a `.` and the tokens after it.
fn take_field(tokens: &[Token]) -> Option<(Operator, &[Token])>
    ensures { option_map (λ x. (x.0, x.1.now)) result ≡ field_pick tokens.now }
{
    match tokens {
        [
            Token {
                what: What::Word(name),
                line,
                ..
            },
            rest @ ..,
        ] => Some((Operator::Field(*line, name.copy()), rest)),
        _ => None,
    }
}

/// Returns the operator after an operand and the tokens after it.
#[tactic(auto, unfolding(crate::specs::Fronts::operator_at))]
pub(crate) fn take_operator(tokens: &[Token]) -> Option<(Operator, &[Token])>
    ensures { option_map (λ x. (x.0, x.1.now)) result ≡ operator_at tokens.now }
{
    match tokens {
        [
            Token {
                what: What::Sign(Sign::Dot),
                ..
            },
            rest @ ..,
        ] => take_field(rest),
        [
            Token {
                what: What::Sign(sign),
                line,
                ..
            },
            rest @ ..,
        ] => {
            let infix = infix_of(*sign)?;
            Some((Operator::Binary(*line, infix), rest))
        }
        [
            Token {
                what: What::Reserved(word),
                line,
                ..
            },
            rest @ ..,
        ] => {
            let op = between_of(*word)?;
            let (low, high, rest) = take_interval(rest)?;
            Some((Operator::Binary(*line, Infix::Between(op, low, high)), rest))
        }
        _ => None,
    }
}

/// Reads `(`, the variable of a quantifier and `:`, and returns the start with the tokens after it.
fn take_bound(line: u32, quantifier: Quantifier, tokens: &[Token]) -> Option<(Start, &[Token])>
    ensures { option_map (λ x. (x.0, x.1.now)) result ≡ bound_start line quantifier tokens.now }
{
    let rest = take_sign(Sign::LeftRound, tokens)?;
    let (name, rest) = take_name(rest)?;
    let rest = take_sign(Sign::Colon, rest)?;
    Some((Start::Bind(line, quantifier, name), rest))
}

/// Reads the interval of a temporal prefix, and returns the start with the tokens after it.
fn take_window(line: u32, word: Keyword, tokens: &[Token]) -> Option<(Start, &[Token])>
    ensures { option_map (λ x. (x.0, x.1.now)) result ≡ window_start line word tokens.now }
{
    let op = window_of(word)?;
    let (low, high, rest) = take_interval(tokens)?;
    Some((Start::Before(Prefix::Window(line, op, low, high)), rest))
}

/// Returns a call if `(` follows the name, else the name alone, and the tokens after it.
fn name_start(line: u32, name: Name, tokens: &[Token]) -> (Start, &[Token])
    ensures { (result.0, result.1.now)
        ≡ named_or_called line name tokens.now (past Sign.LeftRound tokens.now) }
{
    match take_sign(Sign::LeftRound, tokens) {
        Some(rest) => (Start::Open(Bracket::Call(line, name)), rest),
        None => (Start::Leaf(line, Atom::Ref(name)), tokens),
    }
}

/// Returns the start of an operand at a reserved word and the tokens after it.
fn word_begins(line: u32, word: Keyword, tokens: &[Token]) -> Option<(Start, &[Token])>
    ensures { option_map (λ x. (x.0, x.1.now)) result
        ≡ word_start line word tokens.now (word_quantifier word) }
{
    match word {
        Keyword::True => Some((Start::Leaf(line, Atom::Truth(true)), tokens)),
        Keyword::False => Some((Start::Leaf(line, Atom::Truth(false)), tokens)),
        _ => match quantifier_of(word) {
            Some(quantifier) => take_bound(line, quantifier, tokens),
            None => take_window(line, word, tokens),
        },
    }
}

/// Returns the start of an operand at a sign and the tokens after it.
fn sign_begins(line: u32, sign: Sign, tokens: &[Token]) -> Option<(Start, &[Token])>
    ensures { option_map (λ x. (x.0, x.1.now)) result ≡ sign_start line sign tokens.now }
{
    match sign {
        Sign::Bang => Some((Start::Before(Prefix::Not(line)), tokens)),
        Sign::Minus => Some((Start::Before(Prefix::Minus(line)), tokens)),
        Sign::LeftRound => Some((Start::Round, tokens)),
        Sign::LeftCurly => Some((Start::Open(Bracket::Curly(line)), tokens)),
        _ => None,
    }
}

/// Returns the start of the operand at the front and the tokens after it.
#[tactic(auto, unfolding(crate::specs::Fronts::start_at))]
pub(crate) fn take_start(tokens: &[Token]) -> Option<(Start, &[Token])>
    ensures { option_map (λ x. (x.0, x.1.now)) result ≡ start_at tokens.now }
{
    match tokens {
        [
            Token {
                what: What::Number(number),
                line,
                ..
            },
            rest @ ..,
        ] => Some((Start::Leaf(*line, Atom::Number(*number)), rest)),
        [
            Token {
                what: What::Word(name),
                line,
                ..
            },
            rest @ ..,
        ] => Some(name_start(*line, name.copy(), rest)),
        [
            Token {
                what: What::Reserved(word),
                line,
                ..
            },
            rest @ ..,
        ] => word_begins(*line, *word, rest),
        [
            Token {
                what: What::Sign(sign),
                line,
                ..
            },
            rest @ ..,
        ] => sign_begins(*line, *sign, rest),
        [] => None,
    }
}

/// Returns the number of a counting quantifier, or 0 for any other quantifier, and the tokens after
/// it.
fn take_number(quantifier: Quantifier, tokens: &[Token]) -> Option<(u64, &[Token])>
    ensures { option_map (λ x. (x.0, x.1.now)) result ≡ threshold_at quantifier tokens.now }
{
    match quantifier {
        Quantifier::Each | Quantifier::Exists => Some((0, tokens)),
        Quantifier::Count(_) => take_natural(take_sign(Sign::Comma, tokens)?),
    }
}

/// Reads the tokens between a quantifier's set and its body: the number if it counts, `)` and `(`.
#[tactic(auto, unfolding(crate::specs::Fronts::middle_at))]
pub(crate) fn take_middle(quantifier: Quantifier, tokens: &[Token]) -> Option<(u64, &[Token])>
    ensures { option_map (λ x. (x.0, x.1.now)) result ≡ middle_at quantifier tokens.now }
{
    let (number, rest) = take_number(quantifier, tokens)?;
    let rest = take_sign(Sign::RightRound, rest)?;
    let rest = take_sign(Sign::LeftRound, rest)?;
    Some((number, rest))
}
