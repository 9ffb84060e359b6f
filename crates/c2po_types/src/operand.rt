//! Requirements on the kinds of operands.

ghost use Rattle.std.specs.Prelude.{◌≡◌, ◌&&◌, Ok, slice_get};
ghost use Rattle.c2po_types.specs.Checking.{Gives};
ghost use Rattle.c2po_types.specs.Kinds.{same_kind, set_kind, expected, member_kind, known_value, fit, built_from, known_built, other_line, set_of_elements, struct_of, picked_kind};

use crate::{Base, Declarations, Kind, Meaning, NameTable, TypeFault};
use mltl_base::Name;

/// The kind of integers.
pub const WHOLE: Kind = Kind {
    sets: 0,
    base: Base::Int,
};

/// The kind of Booleans, which is also the kind of formulas.
pub const TRUTH: Kind = Kind {
    sets: 0,
    base: Base::Bool,
};

/// Returns `true` if two kinds are the same.
pub fn is_same(left: Kind, right: Kind) -> bool
    ensures { result ≡ same_kind left right }
{
    left == right
}

/// Returns `true` if two operands both have the wanted kind.
pub fn are_same(left: Kind, right: Kind, wanted: Kind) -> bool
    ensures { result ≡ (same_kind left wanted && same_kind right wanted) }
{
    is_same(left, wanted) && is_same(right, wanted)
}

/// Returns the given kind if a test holds, and the fault `Kind` if it fails.
pub fn expect(line: u32, holds: bool, given: Kind) -> Result<Kind, TypeFault>
    ensures { Gives result (expected line holds given) }
{
    if holds {
        Ok(given)
    } else {
        Err(TypeFault::Kind(line))
    }
}

/// Returns the kind of sets with members of this kind.
pub fn set_of(kind: Kind) -> Result<Kind, TypeFault>
    ensures { Gives result (Ok (set_kind kind)) }
{
    let sets = kind.sets.checked_add(1).ok_or(TypeFault::Memory)?;
    Ok(Kind {
        sets,
        base: kind.base,
    })
}

/// Returns the kind of the members of a set.
pub fn member_of(line: u32, kind: Kind) -> Result<Kind, TypeFault>
    ensures { Gives result (member_kind line kind) }
{
    let sets = kind.sets.checked_sub(1).ok_or(TypeFault::Kind(line))?;
    Ok(Kind {
        sets,
        base: kind.base,
    })
}

/// Returns the kind of a name that has a value.
pub fn value_of(line: u32, meaning: Option<Meaning>) -> Result<Kind, TypeFault>
    ensures { Gives result (known_value line meaning) }
{
    match meaning {
        None => Err(TypeFault::Unknown(line)),
        Some(Meaning::Struct(_)) => Err(TypeFault::Kind(line)),
        Some(Meaning::Value(kind)) => Ok(kind),
    }
}

/// Returns `true` if each operand has the kind of its field.
fn fits(fields: &NameTable<Kind>, operands: &[(u32, Kind)]) -> bool
    ensures { result ≡ fit fields.now operands.now }
{
    for (i, (_, kind)) in operands.iter().enumerate() {
        if i >= fields.len() {
            return true;
        }
        if !is_same(*kind, fields.value_at(i)) {
            return false;
        }
    }
    true
}

/// Returns the kind of a value of the struct with this number, if the operands fit its fields.
fn build_struct(
    line: u32,
    declared: &Declarations,
    operands: &[(u32, Kind)],
    number: u32,
) -> Result<Kind, TypeFault>
    ensures { Gives result
        (built_from line number operands.now (slice_get declared.now.structs number)) }
{
    let structs = declared.structs.as_slice();
    let fields = structs.get(number as usize).ok_or(TypeFault::Count(line))?;
    if operands.len() != fields.len() {
        return Err(TypeFault::Count(line));
    }
    let given = Kind {
        sets: 0,
        base: Base::Struct(number),
    };
    expect(line, fits(fields, operands), given)
}

/// Returns the kind of a struct's value, from the operands and the meaning of the struct's name.
pub fn build(
    line: u32,
    declared: &Declarations,
    operands: &[(u32, Kind)],
    meaning: Option<Meaning>,
) -> Result<Kind, TypeFault>
    ensures { Gives result (known_built line declared.now operands.now meaning) }
{
    match meaning {
        None => Err(TypeFault::Unknown(line)),
        Some(Meaning::Value(_)) => Err(TypeFault::Kind(line)),
        Some(Meaning::Struct(number)) => build_struct(line, declared, operands, number),
    }
}

/// Returns the line of the first operand of another kind.
fn first_other(kind: Kind, operands: &[(u32, Kind)]) -> Option<u32>
    ensures { result ≡ other_line kind operands.now }
{
    let mut rest = operands;
    while let [(line, other), tail @ ..] = rest {
        if !is_same(*other, kind) {
            return Some(*line);
        }
        rest = tail;
    }
    None
}

/// Returns the kind of a set of operands.
pub fn gather(line: u32, operands: &[(u32, Kind)]) -> Result<Kind, TypeFault>
    ensures { Gives result (set_of_elements line operands.now) }
{
    match operands {
        [] => Err(TypeFault::Kind(line)),
        [(_, kind), others @ ..] => match first_other(*kind, others) {
            Some(odd) => Err(TypeFault::Kind(odd)),
            None => set_of(*kind),
        },
    }
}

/// Returns the number of the struct, if the kind is a struct.
fn struct_number(kind: Kind) -> Option<u32>
    ensures { result ≡ struct_of kind }
{
    match kind.base {
        Base::Struct(number) if kind.sets == 0 => Some(number),
        _ => None,
    }
}

/// Returns the kind of a field of a struct's value.
pub fn pick(line: u32, declared: &Declarations, field: &Name, kind: Kind) -> Result<Kind, TypeFault>
    ensures { Gives result (picked_kind line field.now declared.now kind) }
{
    let number = struct_number(kind).ok_or(TypeFault::Kind(line))?;
    let structs = declared.structs.as_slice();
    let fields = structs.get(number as usize).ok_or(TypeFault::Field(line))?;
    fields.find(field).ok_or(TypeFault::Field(line))
}
