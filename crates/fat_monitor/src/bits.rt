//! Waiting bits: one for each thread, of which there are at most 9.

ghost use Rattle.std.specs.Prelude.{◌≡◌, ◌≤◌, ◌^◌, ◌-◌};
ghost use Rattle.jvm_types.specs.Numbers.{has_flag};
ghost use Rattle.jvm_types.specs.declared.limits.TheConstants.{MOST_WORKERS};
ghost use Rattle.machine_types.specs.Monitors.{bit_of, lowest_of};

/// The bit of a thread.
#[inline(always)]
pub fn bit_of(thread: u8) -> u64
    requires { thread ≤ MOST_WORKERS }
    ensures { result ≡ bit_of thread }
{
    1 << thread
}

/// All bits but that of a thread.
#[inline(always)]
pub fn all_but(thread: u8) -> u64
    requires { thread ≤ MOST_WORKERS }
    ensures { result ≡ 2 ^ 64 - 1 - bit_of thread }
{
    u64::MAX - bit_of(thread)
}

/// Whether a thread's bit is set.
#[inline(always)]
pub fn has_bit(thread: u8, bits: u64) -> bool
    requires { thread ≤ MOST_WORKERS }
    ensures { result ≡ has_flag (bit_of thread) bits }
{
    bits & bit_of(thread) != 0
}

/// The lowest of the threads whose bits are set, or 0 where none is.
pub fn lowest_of(bits: u64) -> u8
    ensures { result ≡ lowest_of bits }
{
    for thread in 0..9 {
        if has_bit(thread, bits) {
            return thread;
        }
    }
    0
}
