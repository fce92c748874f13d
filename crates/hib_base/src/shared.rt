// A list with several owners, which contracts see as a list. Cells and lists of queries are such, so a copy takes no
// memory.
ghost use Rattle.std.specs.Prelude.{◌≡◌, ◌↔◌, IsTrue, ◌<◌, [], length, slice_get, IfOk, Some};

use std::alloc::{AllocError, Global};
use std::marker::Model;
use std::sync::Arc;

/// A list of values that may have several owners, in any threads. Contracts see the list alone.
pub struct Shared<T> {
    pub(crate) items: Arc<Vec<T>, Global>,
}

// By hand: so a function that lets a list go has one call for it.
impl<T: Drop> Drop for Shared<T> {
    fn drop(self) {
        let Shared { items: _ } = self;
    }
}

impl<T> Model for Shared<T> {
    ghost use Rattle.std.specs.Prelude.{List};
    ghost use Rattle.hib_base.specs.Items.{items_of};

    ghost Value = { List T };

    ghost view = { λ s. items_of s.items };
}

impl<T: PartialEq> PartialEq for Shared<T> {
    ghost use Rattle.std.specs.Cmp.Lexicographic.{pointwise, lists_per};

    ghost eq = { λ x y. pointwise T.eq x y };

    ghost laws = { lists_per T.laws };

    fn eq(&self, other: &Self) -> bool {
        self.as_slice() == other.as_slice()
    }
}

impl<T: Eq> Eq for Shared<T> {
    ghost use Rattle.std.specs.Cmp.Lexicographic.{lists_equiv};

    ghost laws = { lists_equiv T.Eq.laws };
}

impl<T> Shared<T> {
    /// The values of the list, in order.
    pub fn as_slice(&self) -> &[T]
        ensures { result.now ≡ self.now }
    {
        self.items.as_slice()
    }

    /// How many values there are.
    pub fn len(&self) -> usize
        ensures { result ≡ length self.now }
    {
        self.as_slice().len()
    }

    /// Whether there is no value.
    pub fn is_empty(&self) -> bool
        ensures { IsTrue result ↔ (self.now ≡ []) }
    {
        self.as_slice().is_empty()
    }

    /// The value at a place, from 0.
    pub fn at(&self, i: usize) -> &T
        requires { i < length self.now }
        ensures { slice_get self.now i ≡ Some result.now }
    {
        &self.as_slice()[i]
    }
}

impl<T: Drop> Shared<T> {
    /// The list of a vector. Fails for want of memory alone.
    pub fn from_vec(items: Vec<T>) -> Result<Self, AllocError>
        ensures { IfOk result (λ s. s ≡ items.items) }
    {
        let alloc = *items.allocator();
        let items = Arc::new(alloc, items)?;
        Ok(Shared { items })
    }

    /// The same list for one more owner. It takes no memory, and fails only if the list has 2 ^ 63 - 1 owners.
    pub fn share(&self) -> Result<Self, AllocError>
        ensures { IfOk result (λ s. s ≡ self.now) }
    {
        Ok(Shared {
            items: Arc::try_clone(&self.items)?,
        })
    }
}
