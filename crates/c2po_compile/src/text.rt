//! The checked specification of a text.

ghost use Rattle.std.specs.Prelude.{◌≡◌, ◌≢◌, ◌≤◌, None, length, IfErr, IfOk, OnOk};
ghost use Rattle.c2po_ast.specs.ItemShape.{spec_shape};
ghost use Rattle.c2po_compile.specs.Refusals.{IsFirstRefusal};
ghost use Rattle.c2po_compile.specs.Front.{IsRefusedBy, Says, first_refusal, items_in};

use crate::CompileFault;
use c2po_lexer::lex;
use c2po_parse::parse;
use c2po_types::{TypedSpec, check_owned};
use mltl_base::limits::MAX_SPEC_BYTES;
use std::alloc::Global;

/// Returns the specification of a text of at most 1,048,576 bytes.
///
/// Errors: `Refused` with the first fault of the text: of its tokens, else of the trees of its
/// items, else of names, kinds, weights, ranges or tenses; `Memory` when out of memory. `BadHeader`
/// never occurs.
#[tactic(auto, using(crate::proofs::ByRules::answered_by, crate::proofs::ByRules::said))]
pub fn front(alloc: Global, text: &[u8]) -> Result<TypedSpec, CompileFault>
    requires { length text.now ≤ MAX_SPEC_BYTES }
    ensures faultless { OnOk result (first_refusal text.now ≡ None) }
    ensures says { IfOk result (λ spec. Says text.now (spec_shape spec)) }
    ensures refused_by { IfErr result (λ fault.
        fault ≢ CompileFault.Memory → IsRefusedBy text.now fault) }
    ensures items { IfOk result (λ spec. spec_shape spec ≡ items_in text.now) }
    ensures refused { IfErr result (λ fault. IsFirstRefusal (first_refusal text.now) fault) }
{
    let tokens = lex(alloc, text)?;
    let tree = parse(alloc, &tokens)?;
    drop(tokens);
    let spec = check_owned(alloc, tree)?;
    Ok(spec)
}
