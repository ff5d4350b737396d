//! Nodes that come and go between two others.
ghost use Rattle.std.specs.Prelude.{◌≡◌, ◌+◌, ◌^◌, ◌<◌, ◌∷◌, ◌++◌, take, drop};
ghost use Rattle.std_collections.specs.LinkedList.Links.{links_of, place_of};
ghost use Rattle.cursor_list.specs.machine.NodePlaces.{KeepsPlaces};

use super::{Node, Nodes, Place};
use std::alloc::Allocator;
use std_alloc::room::Vacant;

impl<T, A: Allocator> Nodes<T, A> {
    // Links the node in before the one at `at`, whose index `i` the proof alone needs.
    pub(crate) fn link_before(&mut self, at: Place, i: usize, room: Vacant<Node<T, A>, A>, elem: T)
        requires { (0 < i) × (i < self.old.len) × (self.old.len + 1 < 2 ^ 63)
            × (at.ptr ≡ place_of (links_of self.old.blocks) i) }
        ensures items { self.new.items ≡ take i self.old.items ++ elem ∷ drop i self.old.items }
        ensures places { KeepsPlaces i (links_of self.old.blocks) (links_of self.new.blocks) }
    {
        let Vacant { ptr, alloc } = room;
        let next = at.ptr as *mut Node<T, A>;
        unsafe {
            let prev = (*next).prev.cast_mut();
            ptr.write(Node {
                next,
                prev,
                elem,
                alloc,
            });
            (*prev).next = ptr;
            (*next).prev = ptr;
        }
        self.len = self.len + 1;
    }

    // Takes the node at `at` out, which is neither the first nor the last.
    pub(crate) fn unlink(&mut self, at: Place, i: usize) -> (T, Vacant<Node<T, A>, A>)
        requires { (0 < i) × (i + 1 < self.old.len) × (at.ptr ≡ place_of (links_of self.old.blocks) i) }
        ensures items { self.old.items ≡ take i self.new.items ++ result.0 ∷ drop i self.new.items }
        ensures places { KeepsPlaces i (links_of self.old.blocks) (links_of self.new.blocks) }
    {
        let ptr = at.ptr as *mut Node<T, A>;
        self.len = self.len - 1;
        unsafe {
            let next = (*ptr).next.cast_mut();
            let prev = (*ptr).prev.cast_mut();
            (*prev).next = next;
            (*next).prev = prev;
            let elem = (&raw const (*ptr).elem).read();
            let alloc = (&raw const (*ptr).alloc).read();
            (elem, Vacant { ptr, alloc })
        }
    }
}
