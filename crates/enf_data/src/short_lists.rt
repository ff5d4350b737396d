//! A list that needs no memory while it is short.
ghost use Rattle.std.specs.Prelude.{◌≡◌, ◌++◌, ◌∷◌, [], IfErr, OnErr, OnOk};
ghost use Rattle.std.specs.Cmp.Lexicographic.{pointwise, lists_equiv, lists_per};
ghost use Rattle.std.specs.Hash.{items_Alike};
ghost use Rattle.std.specs.Hash as fed;

use crate::items::Duplicate;
use crate::memory::NoMemory;
use smallvec::SmallVec;
use std::alloc::Global;
use std::hash::{Hash, Hasher};
use std::marker::Model;

/// A list of items that grows at its end, seen as the list of them. The first two take no memory.
#[derive(Debug, Drop)]
pub struct ShortList<T> {
    items: SmallVec<T, 2>,
}

impl<T> Model for ShortList<T> {
    ghost use Rattle.std.specs.Prelude.{List};

    ghost Value = { List T };

    ghost view = { λ list. list.items.items };
}

impl<T> ShortList<T> {
    /// The items in order.
    pub fn as_slice(&self) -> &[T]
        ensures { result.now ≡ self.now }
    {
        self.items.as_slice()
    }
}

impl<T: Default + Drop> ShortList<T> {
    /// The empty list.
    pub fn new(alloc: Global) -> ShortList<T>
        ensures { result ≡ [] }
    {
        ShortList {
            items: SmallVec::new(alloc),
        }
    }

    /// The items of a vector; it takes no memory.
    pub fn from_vec(items: Vec<T>) -> ShortList<T>
        ensures { result ≡ items.items }
    {
        ShortList {
            items: SmallVec::from_vec(items),
        }
    }

    /// Puts an item last; where memory runs out, nothing changes.
    #[inline(always)]
    pub fn put(&mut self, item: T) -> Result<(), NoMemory>
        ensures ok { OnOk result (self.new ≡ self.old ++ item ∷ []) }
        ensures err { OnErr result (self.new ≡ self.old) }
    {
        self.items.push(item)?;
        Ok(())
    }

    /// Puts an item last, or hands it back where memory runs out.
    pub fn push(&mut self, item: T) -> Result<(), T>
        ensures ok { OnOk result (self.new ≡ self.old ++ item ∷ []) }
        ensures value_returned { IfErr result (λ back. back ≡ item) }
        ensures err { OnErr result (self.new ≡ self.old) }
    {
        self.items.push(item).map_err(|failed| failed.value)
    }
}

impl<T: Duplicate + Default + Drop> Duplicate for ShortList<T> {
    fn duplicate(&self, alloc: Global) -> Result<ShortList<T>, NoMemory> {
        if self.as_slice().is_empty() {
            return Ok(ShortList::new(alloc));
        }
        let mut copy = SmallVec::with_capacity(alloc, self.items.len())?;
        for item in self.as_slice() {
            copy.push(item.duplicate(alloc)?)?;
        }
        Ok(ShortList { items: copy })
    }
}

impl<T: PartialEq> PartialEq for ShortList<T> {
    ghost eq = { pointwise T.eq };

    ghost laws = { lists_per T.laws };

    fn eq(&self, other: &ShortList<T>) -> bool {
        self.as_slice() == other.as_slice()
    }
}

impl<T: Eq> Eq for ShortList<T> {
    ghost laws = { lists_equiv T.Eq.laws };
}

impl<T: Hash> Hash for ShortList<T> {
    ghost hash_input = { fed.slice T.hash_input };

    ghost respects_eq = { (items_Alike (record { fed = T.respects_eq })).fed };

    fn hash<H: Hasher>(&self, state: &mut H) {
        self.as_slice().hash(state);
    }
}
