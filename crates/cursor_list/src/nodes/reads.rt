//! What is read of the nodes. `i` is the index of the node at `at`, which the proof alone needs.
ghost use Rattle.std.specs.Prelude.{◌≡◌, ◌+◌, ◌<◌, slice_index_or};
ghost use Rattle.std_collections.specs.LinkedList.Links.{links_of, place_of};

use super::{Node, Nodes, Place};
use std::alloc::Allocator;

impl<T, A: Allocator> Nodes<T, A> {
    pub(crate) fn len(&self) -> usize
        ensures { result ≡ self.now.len }
    {
        self.len
    }

    pub(crate) fn head(&self) -> Place
        ensures { 0 < self.now.len → result.ptr ≡ place_of (links_of self.now.blocks) 0 }
    {
        Place {
            ptr: self.head as *const u8,
        }
    }

    pub(crate) fn next(&self, at: Place, i: usize) -> Place
        requires { (i < self.now.len) × (at.ptr ≡ place_of (links_of self.now.blocks) i) }
        ensures { i + 1 < self.now.len → result.ptr ≡ place_of (links_of self.now.blocks) (i + 1) }
    {
        let node = at.ptr as *const Node<T, A>;
        Place {
            ptr: unsafe { (*node).next } as *const u8,
        }
    }

    pub(crate) fn elem(&self, at: Place, i: usize) -> &T
        requires { (i < self.now.len) × (at.ptr ≡ place_of (links_of self.now.blocks) i) }
        ensures { result.now ≡ slice_index_or self.now.items i result.now }
    {
        let node = at.ptr as *const Node<T, A>;
        unsafe { &(*node).elem }
    }
}
