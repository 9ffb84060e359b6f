//! The names of outputs.

ghost use Rattle.std.specs.Prelude.{◌≡◌, decimal};
ghost use Rattle.c2po_types.specs.Outputs.{name_of};

use itoa::Buffer;
use mltl_base::Name;

/// Returns the decimal text of a number as a name.
#[tactic(auto, using(std::proofs::lemmas::Fmt::decimal_nonempty))]
fn numeral(number: usize) -> Name
    ensures { result ≡ decimal number }
{
    let mut buffer = Buffer::new();
    Name::of(buffer.format(number).as_bytes()).unwrap()
}

/// Returns the name of an output: its label, or the decimal text of its number if it has none.
pub fn output_name(number: usize, label: &Option<Name>) -> Name
    ensures { result ≡ name_of number label.now }
{
    match label {
        Some(name) => name.copy(),
        None => numeral(number),
    }
}
