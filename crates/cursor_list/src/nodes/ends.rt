//! Nodes that come and go at the ends.
ghost use Rattle.std.specs.Prelude.{◌≡◌, ◌+◌, ◌^◌, ◌<◌, ◌∷◌, ◌++◌, []};
ghost use Rattle.std_collections.specs.LinkedList.Links.{links_of};
ghost use Rattle.cursor_list.specs.machine.NodePlaces.{KeepsPlaces};

use super::{Node, Nodes};
use std::alloc::Allocator;
use std_alloc::room::Vacant;

impl<T, A: Allocator> Nodes<T, A> {
    pub(crate) fn new() -> Nodes<T, A>
        ensures { result.items ≡ [] }
    {
        let none: [u8; 0] = [];
        let nowhere = &raw const none as *const Node<T, A>;
        Nodes {
            head: nowhere,
            tail: nowhere,
            len: 0,
        }
    }

    // Nodes are let go of only where there are none: each was taken out before, with its block.
    pub(crate) fn end(self)
        requires { self.len ≡ 0 }
    {
        let Nodes {
            head: _,
            tail: _,
            len: _,
        } = self;
    }

    pub(crate) fn link_first(&mut self, room: Vacant<Node<T, A>, A>, elem: T)
        requires { self.old.len ≡ 0 }
        ensures { self.new.items ≡ elem ∷ [] }
    {
        let Vacant { ptr, alloc } = room;
        unsafe {
            ptr.write(Node {
                next: ptr,
                prev: ptr,
                elem,
                alloc,
            });
        }
        self.head = ptr;
        self.tail = ptr;
        self.len = 1;
    }

    pub(crate) fn link_front(&mut self, room: Vacant<Node<T, A>, A>, elem: T)
        requires { (0 < self.old.len) × (self.old.len + 1 < 2 ^ 63) }
        ensures { self.new.items ≡ elem ∷ self.old.items }
    {
        let Vacant { ptr, alloc } = room;
        let head = self.head.cast_mut();
        unsafe {
            ptr.write(Node {
                next: head,
                prev: ptr,
                elem,
                alloc,
            });
            (*head).prev = ptr;
        }
        self.head = ptr;
        self.len = self.len + 1;
    }

    pub(crate) fn link_back(&mut self, room: Vacant<Node<T, A>, A>, elem: T)
        requires { (0 < self.old.len) × (self.old.len + 1 < 2 ^ 63) }
        ensures items { self.new.items ≡ self.old.items ++ elem ∷ [] }
        ensures places { KeepsPlaces self.old.len (links_of self.old.blocks) (links_of self.new.blocks) }
    {
        let Vacant { ptr, alloc } = room;
        let tail = self.tail.cast_mut();
        unsafe {
            ptr.write(Node {
                next: ptr,
                prev: tail,
                elem,
                alloc,
            });
            (*tail).next = ptr;
        }
        self.tail = ptr;
        self.len = self.len + 1;
    }

    pub(crate) fn unlink_front(&mut self) -> (T, Vacant<Node<T, A>, A>)
        requires { 0 < self.old.len }
        ensures { self.old.items ≡ result.0 ∷ self.new.items }
    {
        let ptr = self.head.cast_mut();
        self.len = self.len - 1;
        unsafe {
            self.head = (*ptr).next;
            let elem = (&raw const (*ptr).elem).read();
            let alloc = (&raw const (*ptr).alloc).read();
            (elem, Vacant { ptr, alloc })
        }
    }

    pub(crate) fn unlink_back(&mut self) -> (T, Vacant<Node<T, A>, A>)
        requires { 0 < self.old.len }
        ensures items { self.old.items ≡ self.new.items ++ result.0 ∷ [] }
        ensures places { KeepsPlaces self.new.len (links_of self.old.blocks) (links_of self.new.blocks) }
    {
        let ptr = self.tail.cast_mut();
        self.len = self.len - 1;
        unsafe {
            self.tail = (*ptr).prev;
            let elem = (&raw const (*ptr).elem).read();
            let alloc = (&raw const (*ptr).alloc).read();
            (elem, Vacant { ptr, alloc })
        }
    }
}
