//! The built-in throwables by the numbers of their classes, and the objects that are there from the
//! start on: one of each class that the machine throws by itself, and `System.out`.

ghost use Rattle.std.specs.Prelude.{◌≡◌};
ghost use Rattle.machine_types.specs.ReadyObjects.{class_of, out_object, ready, thrown_of};

use jvm_types::Thrown;
use jvm_types::class_numbers::THROWABLE_CLASS;
use jvm_types::fixed_words::{FIRST_READY_WORD, OBJECT_HEAD_WORDS, READY_OBJECTS};

/// The number of the class of a throwable.
pub fn class_of(thrown: Thrown) -> u16
    ensures { result ≡ class_of thrown }
{
    match thrown {
        Thrown::Throwable => THROWABLE_CLASS,
        Thrown::Exception => THROWABLE_CLASS + 1,
        Thrown::Error => THROWABLE_CLASS + 2,
        Thrown::RuntimeException => THROWABLE_CLASS + 3,
        Thrown::InterruptedException => THROWABLE_CLASS + 4,
        Thrown::ArithmeticException => THROWABLE_CLASS + 5,
        Thrown::NullPointerException => THROWABLE_CLASS + 6,
        Thrown::ArrayIndexOutOfBoundsException => THROWABLE_CLASS + 7,
        Thrown::NegativeArraySizeException => THROWABLE_CLASS + 8,
        Thrown::IllegalMonitorStateException => THROWABLE_CLASS + 9,
        Thrown::OutOfMemoryError => THROWABLE_CLASS + 10,
        Thrown::StackOverflowError => THROWABLE_CLASS + 11,
    }
}

/// The throwable of a class, or `None` where the class is that of none.
pub fn thrown_of(class: u16) -> Option<Thrown>
    ensures { result ≡ thrown_of class }
{
    if class < THROWABLE_CLASS {
        return None;
    }
    match class - THROWABLE_CLASS {
        0 => Some(Thrown::Throwable),
        1 => Some(Thrown::Exception),
        2 => Some(Thrown::Error),
        3 => Some(Thrown::RuntimeException),
        4 => Some(Thrown::InterruptedException),
        5 => Some(Thrown::ArithmeticException),
        6 => Some(Thrown::NullPointerException),
        7 => Some(Thrown::ArrayIndexOutOfBoundsException),
        8 => Some(Thrown::NegativeArraySizeException),
        9 => Some(Thrown::IllegalMonitorStateException),
        10 => Some(Thrown::OutOfMemoryError),
        11 => Some(Thrown::StackOverflowError),
        _ => None,
    }
}

/// The object that the machine throws of a class that it throws by itself.
pub fn ready(thrown: Thrown) -> u32
    ensures { result ≡ ready thrown }
{
    let first = class_of(Thrown::ArithmeticException);
    FIRST_READY_WORD + OBJECT_HEAD_WORDS * class_of(thrown).saturating_sub(first) as u32
}

/// `System.out`, the last of these objects.
#[inline(always)]
pub fn out_object() -> u32
    ensures { result ≡ out_object }
{
    FIRST_READY_WORD + OBJECT_HEAD_WORDS * (READY_OBJECTS - 1)
}
