//! The numbers of places, which any reference has.

ghost use Rattle.std.specs.Prelude.{◌≡◌};
ghost use Rattle.machine_types.specs.Words.{header_word, value_word, variable_word};

use machine_types::Variable;

/// The place of the header of an object.
pub fn header_place(reference: u64) -> u128
    ensures { result ≡ header_word reference }
{
    reference as u128 + 1
}

/// The place of a value by its number in the object.
pub fn value_place(reference: u64, number: u64) -> u128
    ensures { result ≡ value_word reference number }
{
    reference as u128 + 2 + number as u128
}

/// The place of a field.
pub fn variable_place(variable: Variable) -> u128
    ensures { result ≡ variable_word variable }
{
    match variable {
        Variable::Instance(reference, number) => value_place(reference, number as u64),
        Variable::Static(word) => word as u128,
    }
}
