ghost use Rattle.std.specs.Prelude.{◌≡◌, [], ◌<◌, ◌↔◌, length, slice_get, IsTrue, IfOk, IfErr, OnSome};
ghost use Rattle.std.specs.Option.{option_copied};

use crate::seq::Seq;
use crate::shared::Shared;
use std::alloc::{AllocError, Global};
use std::marker::Model;
use std::ops::Deref;

/// A list that may have several owners, in any threads. Contracts see the elements alone, so a type may hold
/// itself through it.
#[derive(Debug, Drop)]
pub struct SharedSeq<T> {
    inner: Shared<Seq<T>>,
}

impl<T> Model for SharedSeq<T> {
    ghost use Rattle.std.specs.Prelude.{List};
    ghost use Rattle.std.specs.Coded.{coded_list};

    ghost Value = { List T };

    ghost coded = { coded_list T.code };

    ghost view = { λ s. s.inner };
}

impl<T> SharedSeq<T> {
    /// The elements, lent.
    pub fn as_slice(&self) -> &[T]
        ensures { result.now ≡ self.now }
    {
        self.inner.get().as_slice()
    }

    /// The number of elements.
    pub fn len(&self) -> usize
        ensures { result ≡ length self.now }
    {
        self.inner.get().len()
    }

    /// Whether there is no element.
    pub fn is_empty(&self) -> bool
        ensures { IsTrue result ↔ (self.now ≡ []) }
    {
        self.inner.get().is_empty()
    }

    /// The element at a place, or `None` past the end.
    pub fn get(&self, place: usize) -> Option<&T>
        ensures value { option_copied result ≡ slice_get self.now place }
        ensures within { OnSome result (place < length self.now) }
    {
        self.inner.get().get(place)
    }

    /// The same list for one more owner: a count and not the elements is copied. It takes no memory, and
    /// fails only where the count of owners is full.
    pub fn share(&self) -> Result<SharedSeq<T>, AllocError>
        ensures { IfOk result (λ s. s ≡ self.now) }
    {
        let inner = self.inner.share()?;
        Ok(SharedSeq { inner })
    }

    /// The list where this is its one owner, and else this owner. Takes no memory.
    pub fn try_into_seq(self) -> Result<Seq<T>, SharedSeq<T>>
        ensures ok { IfOk result (λ items. items ≡ self) }
        ensures err { IfErr result (λ owner. owner ≡ self) }
    {
        let SharedSeq { inner } = self;
        match inner.try_into_inner() {
            Ok(items) => Ok(items),
            Err(inner) => Err(SharedSeq { inner }),
        }
    }
}

impl<T: Drop> SharedSeq<T> {
    /// Moves a list to where it can be shared.
    pub fn new(alloc: Global, items: Seq<T>) -> Result<SharedSeq<T>, AllocError>
        ensures { IfOk result (λ s. s ≡ items) }
    {
        let inner = Shared::new(alloc, items)?;
        Ok(SharedSeq { inner })
    }
}

impl<T> Deref for SharedSeq<T> {
    type Target = Seq<T>;

    ghost deref_gives = { λ s x. x ≡ s };

    fn deref(&self) -> &Seq<T>
        ensures { result.now ≡ self.now }
    {
        self.inner.get()
    }
}
