//! The numbers of words. Each answer is below 2^32, as the caller has to know.

ghost use Rattle.std.specs.Prelude.{◌≡◌, ◌+◌, ◌<◌, ◌^◌};
ghost use Rattle.machine_types.specs.Words.{bits_word, header_word, owner_word, value_word};
ghost use Rattle.machine_types.specs.Words.{variable_word};
ghost use Rattle.jvm_types.specs.declared.fixed_words.TheConstants.{MONITOR_RECORDS};

use jvm_types::fixed_words::{FIRST_RECORD_WORD, OBJECT_HEAD_WORDS};
use machine_types::Variable;

/// The word of the header of an object or array.
#[inline(always)]
pub fn header_word(reference: u32) -> u32
    requires { header_word reference < 2 ^ 32 }
    ensures { result ≡ header_word reference }
{
    reference + 1
}

/// The word of a field by its place in the object, or of an element by its index.
#[inline(always)]
pub fn place(reference: u32, index: u32) -> u32
    requires { value_word reference index < 2 ^ 32 }
    ensures { result ≡ value_word reference index }
{
    reference + OBJECT_HEAD_WORDS + index
}

/// The word of a field.
#[inline(always)]
pub fn variable_word(variable: Variable) -> u32
    requires { variable_word variable < 2 ^ 32 }
    ensures { result ≡ variable_word variable }
{
    match variable {
        Variable::Instance(reference, index) => place(reference as u32, index),
        Variable::Static(word) => word,
    }
}

/// The word of the owner of a monitor record, of which there are 1,024.
#[inline(always)]
pub fn owner_word(number: u32) -> u32
    requires { number < MONITOR_RECORDS }
    ensures { result ≡ owner_word number }
{
    FIRST_RECORD_WORD + 2 * number
}

/// The word of the waiting bits of a monitor record.
#[inline(always)]
pub fn bits_word(number: u32) -> u32
    requires { number < MONITOR_RECORDS }
    ensures { result ≡ bits_word number }
{
    FIRST_RECORD_WORD + 1 + 2 * number
}
