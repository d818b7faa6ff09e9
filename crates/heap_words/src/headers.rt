//! Headers of objects: a class in the low 16 bits, and above them the length of an array, which is
//! 0 for every other object.

ghost use Rattle.std.specs.Prelude.{◌≡◌, ◌<◌, ◌^◌};
ghost use Rattle.machine_types.specs.Words.{header, header_class, header_length};

use jvm_types::fixed_words::HEADER_CLASSES;

/// The header of an object of a class, or of an array of so many elements.
#[inline(always)]
pub fn header(class: u16, length: u32) -> u64
    ensures header { result ≡ header class length }
    ensures class { header_class result ≡ class }
    ensures length { header_length result ≡ length }
{
    HEADER_CLASSES * length as u64 + class as u64
}

/// The class that a header names.
#[inline(always)]
pub fn header_class(word: u64) -> u16
    ensures { result ≡ header_class word }
{
    (word % HEADER_CLASSES) as u16
}

/// The number of elements of the array that has a header of 48 bits.
#[inline(always)]
pub fn header_length(word: u64) -> u32
    requires { word < 2 ^ 48 }
    ensures { result ≡ header_length word }
{
    (word / HEADER_CLASSES) as u32
}
