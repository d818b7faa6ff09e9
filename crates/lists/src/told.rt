ghost use Rattle.std.specs.Prelude.{◌≡◌};
ghost use Rattle.std.specs.Borrow.{ftrue};

use std::marker::{Model, PhantomData};

/// A value of `T` that contracts see as `told`, as that for which something else was made. It takes
/// no bytes.
#[derive(Drop)]
pub struct Told<T> {
    of: PhantomData<T>,
    pub ghost told: { T } by { T.code },
}

impl<T> Model for Told<T> {
    ghost also_owns = { λ _. ftrue };
}

// It owns nothing, and a borrow of it has nothing in memory either.
unsafe impl<T: Send> Send for Told<T> {}

unsafe impl<T: Send> Sync for Told<T> {}

impl<T> Told<T> {
    /// Tells of this value.
    pub fn of(value: &T) -> Told<T>
        ensures { result.told ≡ value.now }
    {
        Told { of: PhantomData }
    }

    /// Tells once more of what this one tells of.
    pub fn again(&self) -> Told<T>
        ensures { result.told ≡ self.now.told }
    {
        Told { of: PhantomData }
    }
}
