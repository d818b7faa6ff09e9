//! The flags of classes, fields and methods that count (JVMS 4.1, 4.5, 4.6); every other flag has
//! no effect.

ghost use Rattle.std.specs.Prelude.{◌≡◌};
ghost use Rattle.jvm_types.specs.Numbers.{has_flag};
ghost use Rattle.jvm_types.specs.Members.{is_private, is_static, is_final, is_synchronized};

pub const PUBLIC: u16 = 0x0001;

pub const PRIVATE: u16 = 0x0002;

pub const STATIC: u16 = 0x0008;

pub const FINAL: u16 = 0x0010;

pub const SYNCHRONIZED: u16 = 0x0020;

pub const NATIVE: u16 = 0x0100;

pub const INTERFACE: u16 = 0x0200;

pub const ABSTRACT: u16 = 0x0400;

/// Whether some flags have a flag.
pub fn has_flag(flag: u16, flags: u16) -> bool
    ensures { result ≡ has_flag flag flags }
{
    flags & flag != 0
}

pub fn is_private(flags: u16) -> bool
    ensures { result ≡ is_private flags }
{
    has_flag(PRIVATE, flags)
}

pub fn is_static(flags: u16) -> bool
    ensures { result ≡ is_static flags }
{
    has_flag(STATIC, flags)
}

pub fn is_final(flags: u16) -> bool
    ensures { result ≡ is_final flags }
{
    has_flag(FINAL, flags)
}

pub fn is_synchronized(flags: u16) -> bool
    ensures { result ≡ is_synchronized flags }
{
    has_flag(SYNCHRONIZED, flags)
}
