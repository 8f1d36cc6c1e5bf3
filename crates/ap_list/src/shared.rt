ghost use Rattle.std.specs.Prelude.{◌≡◌, IfOk, IfErr};

use std::alloc::{AllocError, Global};
use std::marker::Model;
use std::ops::Deref;
use std::sync::Arc;

/// A value on the heap that may have several owners, in any threads. Contracts see the value alone, so a
/// type may hold itself through it, and what is shared equals what it was shared from.
#[derive(Debug, Drop)]
pub struct Shared<T> {
    inner: Arc<T, Global>,
}

impl<T> Model for Shared<T> {
    ghost Value = { T };

    ghost coded = { T.code };

    ghost view = { λ s. s.inner.value };
}

impl<T> Shared<T> {
    /// The value, lent. Takes no memory.
    pub fn get(&self) -> &T
        ensures { result.now ≡ self.now }
    {
        &self.inner
    }

    /// The same value for one more owner: a count and not the value is copied. It takes no memory, and
    /// fails only where the count of owners is full.
    pub fn share(&self) -> Result<Shared<T>, AllocError>
        ensures { IfOk result (λ s. s ≡ self.now) }
    {
        let inner = Arc::try_clone(&self.inner)?;
        Ok(Shared { inner })
    }

    /// The value where this is its one owner, and else this owner. Takes no memory.
    pub fn try_into_inner(self) -> Result<T, Shared<T>>
        ensures ok { IfOk result (λ value. value ≡ self) }
        ensures err { IfErr result (λ owner. owner ≡ self) }
    {
        let Shared { inner } = self;
        match Arc::try_unwrap(inner) {
            Ok(value) => Ok(value),
            Err(inner) => Err(Shared { inner }),
        }
    }
}

impl<T: Drop> Shared<T> {
    /// Moves a value to where it can be shared.
    pub fn new(alloc: Global, value: T) -> Result<Shared<T>, AllocError>
        ensures { IfOk result (λ s. s ≡ value) }
    {
        let inner = Arc::new(alloc, value)?;
        Ok(Shared { inner })
    }
}

impl<T> Deref for Shared<T> {
    type Target = T;

    ghost deref_gives = { λ s x. x ≡ s };

    fn deref(&self) -> &T
        ensures { result.now ≡ self.now }
    {
        &*self.inner
    }
}
