//! The choice of definitions that are unfolded when they are declared.
//!
//! The expression of a definition is unfolded within the expression that uses its name, so a chain
//! of definitions nests as deeply as it is long. Definitions that would nest too deeply are
//! unfolded when they are declared, so that the stack stays small. The choice doesn't change the
//! result.

use crate::heads::{deeper, is_operator};
use c2po_ast::{Body, Expr, Item, Node};
use mltl_base::NameTable;
use std::alloc::{AllocError, Global};

/// The number of levels that expressions may nest through the names that they use. A definition
/// with more is unfolded by itself.
const LEVELS: u32 = 200;

/// The indices of the items of definitions, by the definitions' names.
type Places = NameTable<usize>;

/// Returns the levels of an expression, and appends the definitions that it names to `found`.
#[cycle(naming)]
fn levels_of(
    places: &Places,
    found: &mut Vec<usize>,
    depth: u32,
    e: &Expr,
) -> Result<u32, AllocError> {
    let depth = deeper(depth)?;
    let within = match &e.node {
        Node::Number(_) | Node::Truth(_) => 0,
        Node::Ref(name) => {
            if let Some(place) = places.find(name) {
                found.push(place)?;
            }
            0
        }
        Node::Build(_, parts) => levels_of_all(places, found, depth, parts.as_slice())?,
        Node::Group(members) => levels_of_all(places, found, depth, members.as_slice())?,
        Node::Pick(a, _) => levels_of(places, found, depth, a)?,
        Node::Minus(a) => levels_of(places, found, depth, a)?,
        Node::Not(a) => levels_of(places, found, depth, a)?,
        Node::Window(_, _, _, a) => levels_of(places, found, depth, a)?,
        Node::Arith(_, a, b) => levels_of_both(places, found, depth, a, b)?,
        Node::Compare(_, a, b) => levels_of_both(places, found, depth, a, b)?,
        Node::Logic(_, a, b) => levels_of_both(places, found, depth, a, b)?,
        Node::Between(_, _, _, a, b) => levels_of_both(places, found, depth, a, b)?,
        Node::Each(_, a, b) => levels_of_both(places, found, depth, a, b)?,
        Node::Exists(_, a, b) => levels_of_both(places, found, depth, a, b)?,
        Node::Count(_, _, a, _, b) => levels_of_both(places, found, depth, a, b)?,
    };
    Ok(within.saturating_add(1))
}

/// Returns the levels of the deeper of two expressions.
#[cycle(naming)]
fn levels_of_both(
    places: &Places,
    found: &mut Vec<usize>,
    depth: u32,
    a: &Expr,
    b: &Expr,
) -> Result<u32, AllocError> {
    let left = levels_of(places, found, depth, a)?;
    let right = levels_of(places, found, depth, b)?;
    Ok(left.max(right))
}

/// Returns the levels of the deepest of these expressions.
#[cycle(naming)]
fn levels_of_all(
    places: &Places,
    found: &mut Vec<usize>,
    depth: u32,
    es: &[Expr],
) -> Result<u32, AllocError> {
    let mut most = 0;
    for e in es {
        let levels = levels_of(places, found, depth, e)?;
        most = levels.max(most);
    }
    Ok(most)
}

/// Returns the definitions of a specification by their names.
fn places_of(alloc: Global, items: &[Item]) -> Result<Places, AllocError> {
    let mut places = NameTable::new(alloc);
    for i in 0..items.len() {
        if let Body::Define(name, _) = &items[i].body {
            if !places.contains(name) {
                places.add(alloc, name, i)?;
            }
        }
    }
    Ok(places)
}

/// Returns the levels of an output or a used definition, or 0 for any other item, and appends the
/// definitions that it names to `found`.
fn levels_of_item(
    places: &Places,
    found: &mut Vec<usize>,
    item: &Item,
    is_used: bool,
) -> Result<u32, AllocError> {
    match &item.body {
        Body::Struct(..) | Body::Input(..) => Ok(0),
        Body::Define(_, e) => {
            if is_used {
                levels_of(places, found, u32::MAX, e)
            } else {
                Ok(0)
            }
        }
        Body::Formula(_, _, e) => levels_of(places, found, u32::MAX, e),
        Body::Contract(_, _, left, right) => {
            levels_of_both(places, found, u32::MAX, left, right)
        }
    }
}

/// Returns `true` if flag `i` is set, and `false` past the end.
pub(crate) fn is_set(flags: &[bool], i: usize) -> bool {
    match flags.get(i) {
        Some(flag) => *flag,
        None => false,
    }
}

/// Marks the definitions that were found as used.
fn mark(used: &mut Vec<bool>, found: &[usize]) {
    for place in found {
        if let Some(is_used) = used.get_mut(*place) {
            *is_used = true;
        }
    }
}

/// Returns a flag for each item, set if it is a definition that an output uses, directly or through
/// other definitions.
fn used_items(alloc: Global, places: &Places, items: &[Item]) -> Result<Vec<bool>, AllocError> {
    let mut used = vec![in alloc; false; items.len()]?;
    for k in 0..items.len() {
        let i = items.len() - 1 - k;
        let is_used = is_set(&used, i);
        let mut found = Vec::new(alloc);
        levels_of_item(places, &mut found, &items[i], is_used)?;
        mark(&mut used, &found);
    }
    Ok(used)
}

/// Returns the largest number of levels among the definitions that were found.
fn most_levels(levels: &[u32], found: &[usize]) -> u32 {
    let mut most = 0;
    for place in found {
        if let Some(own) = levels.get(*place) {
            most = most.max(*own);
        }
    }
    most
}

/// Returns `true` if an item defines a name as an operator.
fn defines_operator(item: &Item) -> bool {
    match &item.body {
        Body::Define(_, e) => is_operator(e),
        _ => false,
    }
}

/// Returns a flag for each item, set if it is a definition that is unfolded when it is declared.
pub(crate) fn deep_items(alloc: Global, items: &[Item]) -> Result<Vec<bool>, AllocError> {
    let places = places_of(alloc, items)?;
    let used = used_items(alloc, &places, items)?;
    let mut levels = Vec::new(alloc);
    let mut deep = Vec::new(alloc);
    for i in 0..items.len() {
        let is_used = is_set(&used, i);
        let mut found = Vec::new(alloc);
        let own = levels_of_item(&places, &mut found, &items[i], is_used)?;
        let all = own.saturating_add(most_levels(&levels, &found));
        let is_deep = all > LEVELS && defines_operator(&items[i]);
        levels.push(if is_deep { 0 } else { all })?;
        deep.push(is_deep)?;
    }
    Ok(deep)
}
