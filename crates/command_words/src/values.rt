//! The values of options, each as the text that stands for it.
ghost use Rattle.std.specs.Prelude.{◌≡◌, ◌&&◌, ◌-◌, ◌≤◌, nat_le, nat_lt, IfOk, IfSome, length, map};
ghost use Rattle.std.specs.Prelude.{option_map};
ghost use Rattle.std.specs.List.{list_all};
ghost use Rattle.std.specs.Option.{option_copied};
ghost use Rattle.command_words.specs.Command.{green as the_green};
ghost use Rattle.command_words.specs.Command.{green_or_none as the_green_or_none};
ghost use Rattle.command_words.specs.Command.{memory_or_table as the_memory};
ghost use Rattle.command_words.specs.Command.{mode_or_replay as the_mode};
ghost use Rattle.command_words.specs.Bounds.{IsGreen};
ghost use Rattle.command_words.specs.Values.{is_worker as is_the_worker, number as the_number};
ghost use Rattle.command_words.specs.Values.{number_or as the_number_or, on_or_off as the_switch};
ghost use Rattle.command_words.specs.Values.{order_or_none as the_order};
ghost use Rattle.command_words.specs.Values.{number_within as the_number_within};

use crate::request::{Green, Memory, Mode, Task};
use jvm_types::Bytes;
use jvm_types::limits::MOST_WORKERS;
use std::alloc::{AllocError, Global};

/// The most digits of an order.
pub const LONGEST_ORDER: usize = 100_000;

/// The most instructions of a thread, where the words say nothing of them.
pub const USUAL_STEPS: u32 = 10_000_000;

/// The most prints of a thread, where the words say nothing of them.
pub const USUAL_PRINTS: u32 = 65_536;

/// The rounds of each worker of a cell, or the methods of a load, where the words say nothing of
/// them.
pub const USUAL_SIZE: u32 = 100;

/// The most rounds of each worker of a cell, and methods of a load.
pub const MOST_SIZE: u32 = 1_000;

/// The most events whose order is recorded, and so many where the words say nothing of them.
pub const MOST_EVENTS: u32 = 100_000;

/// The most events of a thread's turn.
pub const MOST_TURN: u32 = 1_000_000;

/// The events of a thread's turn, where the words say nothing of them.
pub const USUAL_TURN: u32 = 64;

/// The heap words, where the words say nothing of them.
pub const USUAL_HEAP: u32 = 65_536;

/// The numbers that an option may have, and the one that stands where it isn't given.
#[derive(Clone, Copy, Debug)]
pub struct Numbers {
    pub unless: u32,
    pub least: u32,
    pub most: u32,
}

/// A text as a number: decimal digits, before which a plus may stand.
fn number(text: &str) -> Option<u32>
    ensures { result ≡ the_number text.now }
{
    text.parse::<u32>().ok()
}

fn within(numbers: Numbers, number: Option<u32>) -> Option<u32>
    ensures within { IfSome result (λ n. (numbers.least ≤ n) × (n ≤ numbers.most)) }
    ensures value { result ≡ the_number_within numbers.least numbers.most number }
{
    match number {
        Some(n) if numbers.least <= n && n <= numbers.most => Some(n),
        _ => None,
    }
}

/// The number of an option, or the one that stands where it isn't given.
pub fn number_or(numbers: Numbers, given: Option<&str>) -> Option<u32>
    requires { (numbers.least ≤ numbers.unless) × (numbers.unless ≤ numbers.most) }
    ensures within { IfSome result (λ n. (numbers.least ≤ n) × (n ≤ numbers.most)) }
    ensures value { result
        ≡ the_number_or numbers.unless numbers.least numbers.most (option_copied given.entry) }
{
    match given {
        Some(text) => within(numbers, number(text)),
        None => Some(numbers.unless),
    }
}

/// The mode that a text names; `replay` where it isn't given.
pub fn mode_or_replay(given: Option<&str>) -> Option<Mode>
    ensures { result ≡ the_mode (option_copied given.entry) }
{
    match given {
        None => Some(Mode::Program(Task::Replay)),
        Some(text) if text == "replay" => Some(Mode::Program(Task::Replay)),
        Some(text) if text == "run" => Some(Mode::Program(Task::Run)),
        Some(text) if text == "record" => Some(Mode::Program(Task::Record)),
        Some(text) if text == "mark" => Some(Mode::Program(Task::Mark)),
        Some(text) if text == "list" => Some(Mode::List),
        Some(text) if text == "asm" => Some(Mode::Assemble),
        Some(text) if text == "load" => Some(Mode::Load),
        Some(text) if text == "cell" => Some(Mode::Cell),
        Some(_) => None,
    }
}

/// The memory that a text names; `table` where it isn't given.
pub fn memory_or_table(given: Option<&str>) -> Option<Memory>
    ensures { result ≡ the_memory (option_copied given.entry) }
{
    match given {
        None => Some(Memory::Table),
        Some(text) if text == "table" => Some(Memory::Table),
        Some(text) if text == "locked" => Some(Memory::Locked),
        Some(_) => None,
    }
}

const WORKERS: Numbers = Numbers {
    unless: 1,
    least: 1,
    most: MOST_WORKERS as u32,
};

const TURN: Numbers = Numbers {
    unless: USUAL_TURN,
    least: 1,
    most: MOST_TURN,
};

/// The workers that a text names, with the turn that another one names.
fn green(workers: &str, turn: Option<&str>) -> Option<Green>
    ensures bounds { IfSome result IsGreen }
    ensures value { result ≡ the_green workers.now (option_copied turn.entry) }
{
    let workers = number_or(WORKERS, Some(workers))?;
    let turn = number_or(TURN, turn)?;
    Some(Green {
        workers: workers as u8,
        turn,
    })
}

/// The workers that run the threads, with their turn, where workers are given; they are given
/// beside the table alone, and a turn beside workers alone.
pub fn green_or_none(
    memory: Memory,
    workers: Option<&str>,
    turn: Option<&str>,
) -> Option<Option<Green>>
    ensures bounds { IfSome result (λ g. IfSome g IsGreen) }
    ensures value { result
        ≡ the_green_or_none memory (option_copied workers.entry) (option_copied turn.entry) }
{
    match (memory, workers) {
        (_, None) => match turn {
            None => Some(None),
            Some(_) => None,
        },
        (Memory::Table, Some(workers)) => {
            let green = green(workers, turn)?;
            Some(Some(green))
        }
        (Memory::Locked, Some(_)) => None,
    }
}

/// `on` or `off`; `on` where it isn't given.
pub fn on_or_off(given: Option<&str>) -> Option<bool>
    ensures { result ≡ the_switch (option_copied given.entry) }
{
    match given {
        None => Some(true),
        Some(text) if text == "on" => Some(true),
        Some(text) if text == "off" => Some(false),
        Some(_) => None,
    }
}

/// The numbers of workers that an order has as digits; none where it isn't given.
pub fn order_or_none(alloc: Global, given: Option<&str>) -> Result<Option<Bytes>, AllocError>
    ensures { IfOk result (λ order. order ≡ the_order (option_copied given.entry)) }
{
    match given {
        None => Ok(Some(Bytes::new(alloc))),
        Some(text) if is_order(text.as_bytes()) => Ok(Some(workers(alloc, text.as_bytes())?)),
        Some(_) => Ok(None),
    }
}

#[tactic(auto, using(crate::proofs::Orders::in_range))]
fn is_order(digits: &[u8]) -> bool
    ensures { result ≡ (nat_lt 0 (length digits.now) && nat_le (length digits.now) LONGEST_ORDER &&
        list_all is_the_worker digits.now) }
{
    match digits.len() {
        1..=LONGEST_ORDER => are_workers(digits),
        _ => false,
    }
}

fn are_workers(digits: &[u8]) -> bool
    ensures { result ≡ list_all is_the_worker digits.now }
{
    digits.iter().all(|digit| is_worker(*digit))
}

/// Whether a digit is one of 1 to 8.
fn is_worker(digit: u8) -> bool
    ensures { result ≡ is_the_worker digit }
{
    matches!(digit, b'1'..=b'8')
}

fn workers(alloc: Global, digits: &[u8]) -> Result<Bytes, AllocError>
    ensures { IfOk result (λ order. order ≡ map (λ c. c - 48) digits.now) }
{
    let mut order = Bytes::new(alloc);
    for digit in digits {
        order.push(digit.saturating_sub(b'0'))?;
    }
    Ok(order)
}
