//! How much memory visits may keep, and how much they may do.

ghost use Rattle.std.specs.Prelude.{◌≡◌, ◌+◌, ◌<◌, min, OnOk, OnErr};

use std::alloc::AllocError;
use std::marker::Model;

/// The bytes that an analysis of one method alone keeps at most: 64 MiB. Where it would keep more,
/// memory is wanting. What analyses of all methods keep together has a budget of the program.
pub const MOST_KEPT: usize = 67108864;

/// How many bytes may still be kept, which contracts see as that number; and for how many more
/// bytes may be done what is reckoned so, of which contracts see nothing.
#[derive(Debug, Drop)]
pub struct Budget {
    left: usize,
    work: usize,
}

impl Model for Budget {
    ghost use Rattle.std.specs.Prelude.{ℕ};

    ghost Value = { ℕ };

    ghost view = { λ b. b.left };
}

impl Budget {
    /// So many bytes may be kept, and work for as many more be done.
    pub fn of(bytes: usize) -> Budget
        ensures { result ≡ bytes }
    {
        Budget {
            left: bytes,
            work: bytes,
        }
    }

    /// So many bytes may be kept, and work for so many done.
    pub fn with_work(bytes: usize, work: usize) -> Budget
        ensures { result ≡ bytes }
    {
        Budget { left: bytes, work }
    }

    pub(crate) fn copy(&self) -> Budget
        ensures { result ≡ self.now }
    {
        Budget {
            left: self.left,
            work: self.work,
        }
    }

    /// Takes so many bytes, where there are so many.
    pub fn take(&mut self, bytes: usize) -> Result<(), AllocError>
        ensures taken { OnOk result (self.old ≡ self.new + bytes) }
        ensures fewer { OnErr result (self.old < bytes) }
        ensures unchanged { OnErr result (self.new ≡ self.old) }
    {
        if self.left < bytes {
            return Err(AllocError);
        }
        self.left -= bytes;
        Ok(())
    }

    /// Takes work for so many bytes, where there is as much.
    pub fn spend(&mut self, bytes: usize) -> Result<(), AllocError>
        ensures { self.new ≡ self.old }
    {
        if self.work < bytes {
            return Err(AllocError);
        }
        self.work -= bytes;
        Ok(())
    }

    /// No more is left than of another.
    pub(crate) fn lower(&mut self, other: &Budget)
        ensures { self.new ≡ min self.old other.now }
    {
        self.left = self.left.min(other.left);
        self.work = self.work.min(other.work);
    }
}
