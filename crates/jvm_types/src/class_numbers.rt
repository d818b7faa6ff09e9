//! The classes of a program by their numbers.

ghost use Rattle.std.specs.Prelude.{◌≡◌, ◌<◌};
ghost use Rattle.jvm_types.specs.ClassNames.{file_class};

use crate::limits::MOST_FILES;

/// What stands for `java/lang/System`, which has no objects and so no number, where a constant
/// names a class.
pub const SYSTEM_CLASS: u16 = 0;

/// `java/lang/Object`.
pub const OBJECT_CLASS: u16 = 1;

/// `[I`, the class of the arrays of int.
pub const INT_ARRAY_CLASS: u16 = 2;

/// `java/io/PrintStream`.
pub const PRINT_STREAM_CLASS: u16 = 3;

/// `java/lang/Throwable`; the throwables below it have the numbers behind its own.
pub const THROWABLE_CLASS: u16 = 4;

/// How many throwables there are, `java/lang/Throwable` among them.
pub const THROWABLES: u16 = 12;

/// What the header of a class itself names.
pub const CLASS_ITSELF: u16 = THROWABLE_CLASS + THROWABLES;

/// The class of the first file; those of the other files follow in order.
pub const FIRST_FILE_CLASS: u16 = CLASS_ITSELF + 1;

/// The class of a file, by the number of the file.
pub fn file_class(file: usize) -> u16
    requires { file < MOST_FILES }
    ensures { result ≡ file_class file }
{
    FIRST_FILE_CLASS + file as u16
}
