//! How many arguments a method takes.

ghost use Rattle.std.specs.Prelude.{◌≡◌, ◌<◌};
ghost use Rattle.frames.specs.FrameLists.{argument_count};

use jvm_types::MethodInfo;
use jvm_types::flags::is_static;

/// The arguments with the receiver.
pub fn argument_count(m: &MethodInfo) -> usize
    requires { argument_count m.now < 65536 }
    ensures { result ≡ argument_count m.now }
{
    if is_static(m.flags) {
        m.args.len()
    } else {
        1 + m.args.len()
    }
}
