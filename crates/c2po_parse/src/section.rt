//! The sections of a specification, and the ends of their items.

ghost use Rattle.std.specs.Prelude.{◌≡◌, ◌+◌, ◌^◌, ◌<◌, ◌≤◌, length, IfSome};
ghost use Rattle.c2po_parse.specs.Tokens.{depth_after};
ghost use Rattle.c2po_parse.specs.Sections.{section_of, braces_after, depth_within, piece_len};
ghost use Rattle.c2po_parse.specs.Forms.{is_promise, promise_at};

use c2po_lexer::{Keyword, Sign, Token, What};
use mltl_base::Engine;

/// The sort of a section, by the declarations of its items.
#[derive(Clone, Copy)]
pub enum Section {
    Struct,
    Input,
    Define,
    /// Outputs of an engine.
    Output(Engine),
}

/// Returns the section that a token begins, if it begins one.
pub(crate) fn section_begun(what: &What) -> Option<Section>
    ensures { result ≡ section_of what.now }
{
    match what {
        What::Reserved(Keyword::Struct) => Some(Section::Struct),
        What::Reserved(Keyword::Input) => Some(Section::Input),
        What::Reserved(Keyword::Define) => Some(Section::Define),
        What::Reserved(Keyword::FtSpec) => Some(Section::Output(Engine::Ft)),
        What::Reserved(Keyword::PtSpec) => Some(Section::Output(Engine::Pt)),
        _ => None,
    }
}

/// Returns the number of open braces after a token. A `}` without its `{` leaves none open.
fn braces_after(what: &What, depth: usize) -> usize
    requires { depth + 1 < 2 ^ 64 }
    ensures { result ≡ braces_after what.now depth }
{
    match what {
        What::Sign(Sign::LeftCurly) => depth + 1,
        What::Sign(Sign::RightCurly) => depth.saturating_sub(1),
        _ => depth,
    }
}

/// Returns the number of open braces after a token of an item, or `None` if the token ends the item
/// or begins a section.
fn next_depth(section: Option<Section>, depth: usize, what: &What) -> Option<usize>
    requires { depth + 1 < 2 ^ 64 }
    ensures { result ≡ depth_within section depth what.now }
{
    if section_begun(what).is_some() {
        return None;
    }
    if section.is_some() && depth == 0 && matches!(what, What::Sign(Sign::Semicolon)) {
        return None;
    }
    Some(braces_after(what, depth))
}

/// Returns the number of tokens before the end of the piece at the front.
#[tactic(auto, unfolding(crate::specs::Sections::piece_len))]
pub(crate) fn piece_end(section: Option<Section>, tokens: &[Token]) -> usize
    ensures before { result ≡ piece_len section 0 tokens.now }
    ensures within { result ≤ length tokens.now }
{
    let mut rest = tokens;
    let mut count = 0usize;
    let mut depth = 0usize;
    while let [token, tail @ ..] = rest {
        let Some(next) = next_depth(section, depth, &token.what) else {
            return count;
        };
        depth = next;
        count += 1;
        rest = tail;
    }
    count
}

/// Returns the number of open brackets after a token.
fn brackets_after(what: &What, depth: usize) -> usize
    requires { depth + 1 < 2 ^ 64 }
    ensures { result ≡ depth_after what.now depth }
{
    match what {
        What::Sign(Sign::LeftRound | Sign::LeftCurly | Sign::LeftSquare) => depth + 1,
        What::Sign(Sign::RightRound | Sign::RightCurly | Sign::RightSquare) => depth.saturating_sub(
            1,
        ),
        _ => depth,
    }
}

/// Returns `true` if a token is a `=>` outside brackets.
fn splits_contract(depth: usize, what: &What) -> bool
    ensures { result ≡ is_promise depth what.now }
{
    depth == 0 && matches!(what, What::Sign(Sign::Promises))
}

/// Returns the place of the first `=>` outside brackets.
#[tactic(auto, unfolding(crate::specs::Forms::promise_at))]
pub(crate) fn promise_place(tokens: &[Token]) -> Option<usize>
    ensures first { result ≡ promise_at 0 0 tokens.now }
    ensures within { IfSome result (λ n. n < length tokens.now) }
{
    let mut rest = tokens;
    let mut count = 0usize;
    let mut depth = 0usize;
    while let [token, tail @ ..] = rest {
        if splits_contract(depth, &token.what) {
            return Some(count);
        }
        depth = brackets_after(&token.what, depth);
        count += 1;
        rest = tail;
    }
    None
}
