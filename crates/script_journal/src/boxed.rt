//! A large value that stands apart, so that what owns it stays small.

ghost use Rattle.std.specs.Prelude.{◌≡◌, IfOk};

use osi_base::NoMemory;
use std::alloc::Global;
use std::marker::Model;

/// A value that stands apart. Contracts see it as the value itself.
pub struct Boxed<T> {
    inner: Box<T>,
}

// By hand, so that it is proved here alone: what is derived is proved again in each crate that lets one go.
impl<T: Drop> Drop for Boxed<T> {
    fn drop(self) {
        let Boxed { inner: _ } = self;
    }
}

impl<T> Model for Boxed<T> {
    ghost Value = { T };

    ghost view = { λ b. b.inner.value };
}

impl<T: Drop> Boxed<T> {
    /// This value.
    pub fn new(alloc: Global, value: T) -> Result<Boxed<T>, NoMemory>
        ensures { IfOk result (λ boxed. boxed ≡ value) }
    {
        let inner = Box::new(alloc, value)?;
        Ok(Boxed { inner })
    }

    /// The value, lent.
    pub fn get(&self) -> &T
        ensures { result.now ≡ self.now }
    {
        &self.inner
    }
}
