//! The monitors of synchronized methods (JVMS 2.11.10).

ghost use Rattle.std.specs.Prelude.{◌≡◌, ◌<◌};
ghost use Rattle.machine_types.specs.Frames.{monitor_by};

use checked_program::Checked;
use jvm_types::MethodInfo;
use jvm_types::class_numbers::FIRST_FILE_CLASS;
use jvm_types::flags::is_static;

/// The monitor of a synchronized method whose frame has this receiver: that of the receiver, or of
/// its class where the method is static.
#[inline(always)]
pub fn monitor_of(p: &Checked, m: &MethodInfo, receiver: u64) -> u64
    ensures monitor { result ≡ monitor_by p.now.program m.now receiver }
    ensures fits { receiver < 4294967296 → result < 4294967296 }
{
    if is_static(m.flags) {
        u64::from(p.class_word(m.class.saturating_sub(FIRST_FILE_CLASS)))
    } else {
        receiver
    }
}
