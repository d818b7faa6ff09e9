//! Accesses to the words that threads share: which one an effect wants, and what an access does.

ghost use Rattle.std.specs.Prelude.{◌≡◌, ◌<◌, ◌^◌, Some, IfSome, length, slice_index};
ghost use Rattle.std.specs.Option.{option_map};
ghost use Rattle.machine_types.specs.Accesses.{accessed, found, left_by, performed};
ghost use Rattle.machine_types.specs.Effects.{read_by};
ghost use Rattle.machine_types.specs.Elision.{is_checked, looks};
ghost use Rattle.machine_types.specs.Instructions.{effect_wants, has_print_left};
ghost use Rattle.machine_types.specs.Threads.{Thread};
ghost use Rattle.machine_types.specs.declared.access.Access.TheVariants.{Load};
ghost use Rattle.instr_effects.specs.Fitting.{HasPlace};

use heap_words::{header_word, variable_word};
use jvm_types::Rows;
use jvm_types::fixed_words::{NEXT_FREE_WORD, NEXT_TICKET_WORD};
use machine_types::{Access, Effect};

/// Whether an attempt looks at its lock word first: at a jump to the instruction's own pc or one
/// before, and at a call.
#[inline(always)]
pub fn is_checked(pc: u32, effect: Effect) -> bool
    ensures { result ≡ is_checked pc effect }
{
    match effect {
        Effect::Goes(to, _) => to <= pc,
        Effect::Calls(_) => true,
        _ => false,
    }
}

/// The word that an effect reads: that of a field, or the header of an array or an exception.
#[inline(always)]
pub fn read_by(effect: Effect) -> Option<u32>
    requires { HasPlace effect }
    ensures { result ≡ read_by effect }
{
    match effect {
        Effect::Reads(variable) => Some(variable_word(variable)),
        Effect::Indexes(array, _, _) => Some(header_word(array as u32)),
        Effect::Measures(array) => Some(header_word(array as u32)),
        Effect::Raises(object) => Some(header_word(object as u32)),
        _ => None,
    }
}

/// The access that the instruction at `pc` wants, by its effect. The lock word of an attempt, where
/// the thread has one, is at `monitor`; `prints` says whether the thread may print once more.
#[inline(always)]
pub fn wants(pc: u32, effect: Effect, monitor: Option<u32>, prints: bool) -> Option<Access>
    requires { HasPlace effect }
    ensures { (s : Thread) → looks s.attempt ≡ option_map Load monitor → has_print_left s ≡ prints
        → result ≡ effect_wants s pc effect }
{
    match effect {
        Effect::Goes(_, _) | Effect::Calls(_) => match monitor {
            Some(word) if is_checked(pc, effect) => Some(Access::Load(word)),
            _ => None,
        },
        Effect::Writes(variable, word) => Some(Access::Store(variable_word(variable), word)),
        Effect::Makes(_, size) => Some(Access::Add(NEXT_FREE_WORD, size)),
        Effect::Prints(_) => {
            if prints {
                Some(Access::Add(NEXT_TICKET_WORD, 1))
            } else {
                None
            }
        }
        _ => match read_by(effect) {
            Some(word) => Some(Access::Load(word)),
            None => None,
        },
    }
}

/// What an access leaves of a word `n`, whose sum fits 64 bits where it adds.
#[inline(always)]
fn left_by(access: Access, n: u64) -> u64
    requires { left_by access n < 2 ^ 64 }
    ensures { result ≡ left_by access n }
{
    match access {
        Access::Load(_) => n,
        Access::Store(_, v) => v,
        Access::Cas(_, is, v) => { if n == is { v } else { n } }
        Access::Add(_, v) => n + v,
        Access::Or(_, v) => n | v,
        Access::And(_, v) => n & v,
        Access::Rest => n,
    }
}

/// The number of the word of an access.
#[inline(always)]
fn accessed(access: Access) -> u32
    ensures { result ≡ accessed access }
{
    match access {
        Access::Load(word) => word,
        Access::Store(word, _) => word,
        Access::Cas(word, _, _) => word,
        Access::Add(word, _) => word,
        Access::Or(word, _) => word,
        Access::And(word, _) => word,
        Access::Rest => 0,
    }
}

/// Makes an access to a word that there is, and answers what it found there. The sum of an `Add`
/// fits 64 bits.
#[inline(always)]
pub fn perform(words: &mut Rows<u64>, access: Access) -> u64
    requires word { accessed access < length words.old }
    requires sum { left_by access (slice_index words.old (accessed access)) < 2 ^ 64 }
    ensures found { result ≡ found words.old access }
    ensures words { words.new ≡ performed words.old access }
{
    if access == Access::Rest {
        return 0;
    }
    let place = accessed(access) as usize;
    let found = words.as_slice()[place];
    words.set(place, left_by(access, found));
    found
}
