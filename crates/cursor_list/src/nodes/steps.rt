//! Nodes that come and go anywhere: after the first `passed` nodes, of which the last lies at `last`.
ghost use Rattle.std.specs.Prelude.{◌≡◌, ◌+◌, ◌^◌, ◌<◌, ◌≤◌, ◌∷◌, ◌++◌, [], take};
ghost use Rattle.std.specs.Prelude.{drop};
ghost use Rattle.std_collections.specs.LinkedList.Links.{links_of, place_of};
ghost use Rattle.cursor_list.specs.machine.NodePlaces.{IsLastOf, KeepsPlaces};

use super::{Node, Nodes, Place};
use std::alloc::Allocator;
use std_alloc::room::Vacant;

impl<T, A: Allocator> Nodes<T, A> {
    // Where the node after them lies.
    pub(crate) fn behind(&self, last: Place, passed: usize) -> Place
        requires { (passed < self.now.len) × IsLastOf passed (links_of self.now.blocks) last.ptr }
        ensures { result.ptr ≡ place_of (links_of self.now.blocks) passed }
    {
        if passed == 0 {
            self.head()
        } else {
            self.next(last, passed - 1)
        }
    }

    pub(crate) fn put_back(&mut self, room: Vacant<Node<T, A>, A>, elem: T)
        requires { self.old.len + 1 < 2 ^ 63 }
        ensures items { self.new.items ≡ self.old.items ++ elem ∷ [] }
        ensures places { KeepsPlaces self.old.len (links_of self.old.blocks) (links_of self.new.blocks) }
    {
        if self.len() == 0 {
            return self.link_first(room, elem);
        }
        self.link_back(room, elem)
    }

    pub(crate) fn put(&mut self, last: Place, passed: usize, room: Vacant<Node<T, A>, A>, elem: T)
        requires fits { (passed ≤ self.old.len) × (self.old.len + 1 < 2 ^ 63) }
        requires last { IsLastOf passed (links_of self.old.blocks) last.ptr }
        ensures items { self.new.items ≡ take passed self.old.items ++ elem ∷ drop passed self.old.items }
        ensures places { KeepsPlaces passed (links_of self.old.blocks) (links_of self.new.blocks) }
    {
        if passed == self.len() {
            return self.put_back(room, elem);
        }
        if passed == 0 {
            return self.link_front(room, elem);
        }
        let at = self.behind(last, passed);
        self.link_before(at, passed, room, elem)
    }

    pub(crate) fn take(&mut self, last: Place, passed: usize) -> (T, Vacant<Node<T, A>, A>)
        requires { (passed < self.old.len) × IsLastOf passed (links_of self.old.blocks) last.ptr }
        ensures items { self.old.items ≡ take passed self.new.items ++ result.0 ∷ drop passed self.new.items }
        ensures places { KeepsPlaces passed (links_of self.old.blocks) (links_of self.new.blocks) }
    {
        if passed == 0 {
            return self.unlink_front();
        }
        if passed + 1 == self.len() {
            return self.unlink_back();
        }
        let at = self.behind(last, passed);
        self.unlink(at, passed)
    }
}
