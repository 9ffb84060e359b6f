//! The items of a specification, in the order of the text.

ghost use Rattle.std.specs.Prelude.{◌≡◌, ◌≢◌, ◌<◌, ◌≤◌, ◌++◌, ◌∷◌, [], true, List as Seq, Ok, Err, length, map, All, IfOk, IfErr};
ghost use Rattle.c2po_lexer.specs.Tokens.{HasPlainLetters};
ghost use Rattle.c2po_ast.specs.Names.{ArePlainItems};
ghost use Rattle.c2po_ast.specs.ItemShape.{ItemShape, item_shape, body_shape, spec_shape};
ghost use Rattle.c2po_parse.specs.Sections.{pieces, begins_item, ended_of, tail_of};
ghost use Rattle.c2po_parse.specs.Items.{IsSpecification, HasFirstFault};
ghost use Rattle.c2po_parse.specs.Specification.{piece_trees, with_first, reads_on, spec_of, with_line, piece_body};

use crate::form::read_body;
use crate::section::{Section, piece_end, section_begun};
use crate::{ParseFault, TreeFault};
use c2po_ast::{Item, SpecTree};
use c2po_lexer::{Token, Tokens};
use mltl_base::List;
use mltl_base::limits::MAX_ITEM_TOKENS;
use std::alloc::Global;

/// Makes the item on a line from its tokens.
fn item_on(
    alloc: Global,
    line: u32,
    section: Option<Section>,
    ended: bool,
    tokens: &[Token],
) -> Result<Item, ParseFault>
    requires { length tokens.now ≤ MAX_ITEM_TOKENS }
    ensures item { IfOk result
        (λ item. with_line line (piece_body section ended tokens.now) ≡ Ok (item_shape item)) }
    ensures fault { IfErr result (λ fault. fault ≢ ParseFault.Memory →
        with_line line (piece_body section ended tokens.now) ≡ Err fault) }
{
    let section = section.ok_or(ParseFault::Grammar(line))?;
    if !ended {
        return Err(ParseFault::Grammar(line));
    }
    match read_body(alloc, section, tokens) {
        Ok(body) => Ok(Item { line, body }),
        Err(TreeFault::NoTree) => Err(ParseFault::Grammar(line)),
        Err(TreeFault::Memory) => Err(ParseFault::Memory),
    }
}

/// Returns whether the first token, which ends a piece, ends an item, and the tokens after it.
fn after_end(tokens: &[Token]) -> (bool, &[Token])
    ensures ended { result.0 ≡ ended_of tokens.now }
    ensures tail { result.1.now ≡ tail_of tokens.now }
{
    match tokens {
        [] => (false, tokens),
        [first, tail @ ..] => (section_begun(&first.what).is_none(), tail),
    }
}

/// Reads the item at the front, whose first token begins no section, and returns it with the tokens
/// after its `;`.
fn item_at(
    alloc: Global,
    section: Option<Section>,
    tokens: &[Token],
) -> Result<(Item, &[Token]), ParseFault>
    requires { begins_item tokens.now ≡ true }
    ensures item { IfOk result (λ x. piece_trees (pieces section 0 [] tokens.now)
        ≡ with_first (item_shape x.0) (piece_trees (pieces section 0 [] x.1.now))) }
    ensures fault { IfErr result (λ fault. fault ≢ ParseFault.Memory →
        piece_trees (pieces section 0 [] tokens.now) ≡ Err fault) }
    ensures shorter { IfOk result (λ x. length x.1.now < length tokens.now) }
{
    let line = tokens[0].line;
    let end = piece_end(section, tokens);
    let piece = &tokens[..end];
    if piece.len() > MAX_ITEM_TOKENS {
        return Err(ParseFault::TooManyTokens(line));
    }
    let (ended, rest) = after_end(&tokens[end..]);
    let item = item_on(alloc, line, section, ended, piece)?;
    Ok((item, rest))
}

/// Reads the section's word or the item at the front, and returns the tokens after it.
fn read_front<'a>(
    alloc: Global,
    items: &mut List<Item>,
    section: &mut Option<Section>,
    tokens: &'a [Token],
) -> Result<&'a [Token], ParseFault>
    requires { 0 < length tokens.now }
    ensures read { IfOk result (λ rest. reads_on (map item_shape items.old) section.old tokens.now
        ≡ reads_on (map item_shape items.new) section.new rest.now) }
    ensures fault { IfErr result (λ fault. fault ≢ ParseFault.Memory →
        reads_on (map item_shape items.old) section.old tokens.now ≡ Err fault) }
    ensures shorter { IfOk result (λ rest. length rest.now < length tokens.now) }
{
    if let Some(next) = section_begun(&tokens[0].what) {
        *section = Some(next);
        return Ok(&tokens[1..]);
    }
    let (item, rest) = item_at(alloc, *section, tokens)?;
    items.push(item)?;
    Ok(rest)
}

/// Returns the trees of the items of a token list, or the fault of the first item without a tree.
fn read_pieces(alloc: Global, tokens: &Tokens) -> Result<SpecTree, ParseFault>
    ensures tree { IfOk result (λ tree. spec_of tokens.now ≡ Ok (spec_shape tree)) }
    ensures fault { IfErr result (λ fault. fault ≢ ParseFault.Memory
        → spec_of tokens.now ≡ Err fault) }
    ensures names { All (λ token. HasPlainLetters token.what) tokens.now
        → IfOk result (λ tree. ArePlainItems (spec_shape tree)) }
{
    let mut items = List::new(alloc);
    let mut section = None;
    let mut rest = tokens.as_slice();
    while !rest.is_empty() {
        rest = read_front(alloc, &mut items, &mut section, rest)?;
    }
    Ok(SpecTree { items })
}

/// Returns the trees of the items of a specification, or the fault of its first faulty item.
///
/// The words `STRUCT`, `INPUT`, `DEFINE`, `FTSPEC` and `PTSPEC` begin sections wherever they occur.
/// Within a section, an item ends at each `;` outside braces. The tree of an expression is defined
/// by splitting its tokens at the loosest operator outside brackets, level by level; the tokens are
/// read once, from the left.
///
/// Errors: `TooManyTokens` at an item of more than 1,024 tokens, else `Grammar` at an item that has
/// no tree, each with the line of the item's first token, or of its `;` if it has no token;
/// `Memory` when out of memory.
pub fn parse(alloc: Global, tokens: &Tokens) -> Result<SpecTree, ParseFault>
    // The grammar gives these trees, and no others.
    ensures tree { IfOk result (λ tree. IsSpecification tokens.now (spec_shape tree)) }
    ensures unique { IfOk result (λ tree. (items : Seq ItemShape) →
        IsSpecification tokens.now items → items ≡ spec_shape tree) }

    // On refusal the grammar gives no trees, and the first faulty item has this fault.
    ensures no_tree { IfErr result (λ fault. fault ≢ ParseFault.Memory →
        (items : Seq ItemShape) → ¬ IsSpecification tokens.now items) }
    ensures first_fault { IfErr result (λ fault. fault ≢ ParseFault.Memory →
        HasFirstFault tokens.now fault) }

    // `spec_of` finds the same trees, or the same fault.
    ensures found { IfOk result (λ tree. spec_of tokens.now ≡ Ok (spec_shape tree)) }
    ensures found_fault { IfErr result (λ fault. fault ≢ ParseFault.Memory
        → spec_of tokens.now ≡ Err fault) }

    // If the names in the tokens consist of letters, digits and `_`, so do the names in the tree.
    ensures names { All (λ token. HasPlainLetters token.what) tokens.now
        → IfOk result (λ tree. ArePlainItems (spec_shape tree)) }
{
    read_pieces(alloc, tokens)
}
