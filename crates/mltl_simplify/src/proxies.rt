//! The proxies of the nodes of a specification, made in one pass over the nodes, operands first.

ghost use Rattle.std.specs.Prelude.{◌≡◌, ◌<◌, [], length, IfOk};
ghost use Rattle.c2po_ast.specs.Nodes.{Has, Tree};
ghost use Rattle.mltl_simplify.specs.Nodes.{AreFormed, ProxiesAreNumbered, AreSimplified, IsNumbered, Places, known_number as known_at, place_at as stands_at};

use crate::numbers::{compared, computed, negated};
use crate::rules::{between, connective, negation, window};
use c2po_ast::{NodeList, Plain};
use std::alloc::{AllocError, Global};

/// The proxy of a node: the index of the node that represents it, and its value, if it is an
/// integer expression without signals and the value is known.
#[derive(Clone, Copy)]
pub struct Proxy {
    pub place: u32,
    pub number: Option<i64>,
}

/// Returns the number of an operand, if it is known.
fn number_at(proxies: &[Proxy], n: u32) -> Option<i64>
    requires { n < length proxies.now }
    ensures { result ≡ known_at proxies.now n }
{
    proxies[n as usize].number
}

/// Returns the index of the node that represents an operand.
pub fn place_at(proxies: &[Proxy], n: u32) -> u32
    requires { n < length proxies.now }
    ensures { result ≡ stands_at proxies.now n }
{
    proxies[n as usize].place
}

/// Returns the number of node `i`, if it is known, from the proxies of the nodes before it.
fn number_of(proxies: &[Proxy], nodes: &[Plain], i: usize) -> Option<i64>
    requires next { i < length nodes.now }
    requires formed { AreFormed nodes.now }
    requires each { length proxies.now ≡ i }
    requires numbered { ProxiesAreNumbered nodes.now proxies.now }
    ensures { (tree : Tree) → Has nodes.now i tree → IsNumbered result tree }
{
    match nodes[i] {
        Plain::Number(number) => Some(number),
        Plain::Minus(a) => negated(number_at(proxies, a)),
        Plain::Arith(op, a, b) => computed(op, number_at(proxies, a), number_at(proxies, b)),
        _ => None,
    }
}

/// Makes the node that represents node `i`, from the proxies of the nodes before it, and returns
/// its index.
fn place_of(
    simple: &mut NodeList,
    proxies: &[Proxy],
    nodes: &[Plain],
    i: usize,
) -> Result<u32, AllocError>
    requires next { i < length nodes.now }
    requires formed { AreFormed nodes.now }
    requires before { AreSimplified nodes.now i simple.old proxies.now }
    ensures { (tree : Tree) → Has nodes.now i tree
        → IfOk result (λ n. Places nodes.now simple.old simple.new n tree) }
{
    let node = nodes[i];
    match node {
        Plain::Minus(a) => simple.push(Plain::Minus(place_at(proxies, a))),
        Plain::Arith(op, a, b) => {
            simple.push(Plain::Arith(op, place_at(proxies, a), place_at(proxies, b)))
        }
        Plain::Compare(op, a, b) => {
            match compared(op, number_at(proxies, a), number_at(proxies, b)) {
                Some(value) => simple.push(Plain::Truth(value)),
                None => simple.push(Plain::Compare(op, place_at(proxies, a), place_at(proxies, b))),
            }
        }
        Plain::Not(a) => negation(simple, place_at(proxies, a)),
        Plain::Logic(op, a, b) => connective(
            simple,
            op,
            place_at(proxies, a),
            place_at(proxies, b),
        ),
        Plain::Window(op, i, a) => window(simple, op, i, place_at(proxies, a)),
        Plain::Between(op, i, a, b) => {
            between(simple, op, i, place_at(proxies, a), place_at(proxies, b))
        }
        // Other nodes have no operands.
        _ => simple.push(node),
    }
}

/// Returns the proxies of all nodes, in order.
pub fn read(alloc: Global, simple: &mut NodeList, nodes: &[Plain]) -> Result<Vec<Proxy>, AllocError>
    requires empty { simple.old ≡ [] }
    requires formed { AreFormed nodes.now }
    ensures { IfOk result (λ proxies.
        AreSimplified nodes.now (length nodes.now) simple.new proxies.items) }
{
    let mut proxies = Vec::new(alloc);
    for i in 0..nodes.len() {
        let place = place_of(simple, &proxies, nodes, i)?;
        let number = number_of(&proxies, nodes, i);
        proxies.push(Proxy { place, number })?;
    }
    Ok(proxies)
}
