//! The characters of a text, one after the other.

ghost use Rattle.std.specs.Prelude.{◌≡◌, ◌<◌};
ghost use Rattle.json_lines.specs.Json.{is_continuation as byte_goes_on, with_bits as more_bits};
ghost use Rattle.json_lines.specs.Json.{of_two as the_one_of_two, of_three as the_one_of_three};
ghost use Rattle.json_lines.specs.Json.{of_four as the_one_of_four, character as the_character};

/// The number that stands for bytes that are no character.
pub const UNKNOWN: u32 = 0xFFFD;

/// A character of a text.
#[derive(Clone, Copy, Debug, PartialEq, Eq)]
pub struct Character {
    /// Its number, or that of a half of a character beyond 16 bits.
    pub number: u32,
    /// How many bytes go on with it behind its first.
    pub more: usize,
}

const NO_CHARACTER: Character = Character {
    number: UNKNOWN,
    more: 0,
};

fn goes_on(byte: u8) -> bool
    ensures { result ≡ byte_goes_on byte }
{
    matches!(byte, 0x80..=0xBF)
}

fn with_bits(number: u32, byte: u8) -> u32
    requires { number < 33_554_432 }
    ensures { result ≡ more_bits number byte }
{
    number * 64 + u32::from(byte.saturating_sub(0x80))
}

fn of_two(first: u8, rest: &[u8]) -> Character
    ensures { result ≡ the_one_of_two first rest.now }
{
    match rest {
        [b, ..] if goes_on(*b) => Character {
            number: with_bits(u32::from(first.saturating_sub(0xC0)), *b),
            more: 1,
        },
        _ => NO_CHARACTER,
    }
}

fn of_three(first: u8, rest: &[u8]) -> Character
    ensures { result ≡ the_one_of_three first rest.now }
{
    match rest {
        [b, c, ..] if goes_on(*b) && goes_on(*c) => {
            let front = with_bits(u32::from(first.saturating_sub(0xE0)), *b);
            Character {
                number: with_bits(front, *c),
                more: 2,
            }
        }
        _ => NO_CHARACTER,
    }
}

fn of_four(first: u8, rest: &[u8]) -> Character
    ensures { result ≡ the_one_of_four first rest.now }
{
    match rest {
        [b, c, d, ..] if goes_on(*b) && goes_on(*c) && goes_on(*d) => {
            let front = with_bits(u32::from(first.saturating_sub(0xF0)), *b);
            Character {
                number: with_bits(with_bits(front, *c), *d),
                more: 3,
            }
        }
        _ => NO_CHARACTER,
    }
}

/// The character that a first byte and those behind it begin with.
#[tactic(auto, unfolding(crate::specs::Json::character))]
pub fn front_character(first: u8, rest: &[u8]) -> Character
    ensures { result ≡ the_character first rest.now }
{
    match first {
        0x00..=0x7F => Character {
            number: u32::from(first),
            more: 0,
        },
        0x80..=0xBF => NO_CHARACTER,
        0xC0..=0xDF => of_two(first, rest),
        0xE0..=0xEF => of_three(first, rest),
        0xF0..=0xF7 => of_four(first, rest),
        0xF8..=0xFF => NO_CHARACTER,
    }
}
