//! A list with a cursor.
ghost use Rattle.std.specs.Prelude.{◌≡◌, ◌↔◌, ◌+◌, ◌^◌, ◌<◌, ◌++◌, ◌∷◌, [], drop};
ghost use Rattle.std.specs.Prelude.{take, length, IfErr, IfSome, IsFalse, IsNone, IsSome, OnErr, OnOk};
ghost use Rattle.std.specs.Option.{option_to_list};
ghost use Rattle.cursor_list.specs.machine.Split.{items};

use crate::nodes::{Node, Nodes, Place};
use crate::walk::Walk;
use std::alloc::Global;
use std::marker::Model;
use std_alloc::room::Vacant;

// One more than the most items that a list holds.
const LIMIT: usize = 0x8000_0000_0000_0000;

/// A doubly linked list that keeps one place in it, seen as the items in front of that place and those after it.
pub struct CursorList<T> {
    nodes: Nodes<T, Global>,
    alloc: Global,
    // Where the last of the items in front lies, if there is one.
    last: Place,
    passed: usize,
}

impl<T> Model for CursorList<T> {
    ghost use Rattle.std.specs.Prelude.{◌≤◌, drop, take};
    ghost use Rattle.std_collections.specs.LinkedList.Links.{links_of};
    ghost use Rattle.cursor_list.specs.machine.NodePlaces.{IsLastOf};
    ghost use Rattle.cursor_list.specs.machine.Split.{Split};

    ghost Value = { Split T };

    ghost view = { λ list. record {
      before = take list.passed list.nodes.items;
      after = drop list.passed list.nodes.items;
    } };

    ghost invariant = { λ list.
        (list.passed ≤ list.nodes.len) × IsLastOf list.passed (links_of list.nodes.blocks) list.last.ptr };
}

impl<T> CursorList<T> {
    /// A list without items. It takes no memory.
    pub fn new(alloc: Global) -> CursorList<T>
        ensures before { result.before ≡ [] }
        ensures after { result.after ≡ [] }
    {
        let nodes = Nodes::new();
        let last = nodes.head();
        CursorList {
            nodes,
            alloc,
            last,
            passed: 0,
        }
    }

    /// How many items there are.
    pub fn len(&self) -> usize
        ensures { result ≡ length (items self.now) }
    {
        self.nodes.len()
    }

    /// All items in order.
    pub fn walk(&self) -> Walk<'_, T>
        ensures { result ≡ items self.now }
    {
        Walk::over(&self.nodes)
    }

    // A block for one more node.
    fn room(&self) -> Option<Vacant<Node<T, Global>, Global>>
        ensures { IsSome result → length (items self.now) + 1 < 2 ^ 63 }
    {
        if LIMIT - 1 <= self.nodes.len() {
            return None;
        }
        Vacant::take(self.alloc).ok()
    }

    /// Puts an item after all others. Without memory the list stays, and the item is handed back.
    pub fn push_back(&mut self, value: T) -> Result<(), T>
        ensures before { self.new.before ≡ self.old.before }
        ensures ok { OnOk result (self.new.after ≡ self.old.after ++ value ∷ []) }
        ensures err { OnErr result (self.new.after ≡ self.old.after) }
        ensures returned { IfErr result (λ refused. refused ≡ value) }
    {
        let Some(room) = self.room() else {
            return Err(value);
        };
        self.nodes.put_back(room, value);
        Ok(())
    }

    /// Puts the cursor in front of all items. It takes no memory.
    pub fn rewind(&mut self)
        ensures before { self.new.before ≡ [] }
        ensures after { self.new.after ≡ items self.old }
    {
        self.passed = 0;
    }

    /// The item after the cursor. It takes no memory.
    pub fn peek(&self) -> Option<&T>
        ensures none { IsNone result ↔ (self.now.after ≡ []) }
        ensures some { IfSome result (λ item. self.now.after ≡ item.now ∷ drop 1 self.now.after) }
    {
        if self.passed == self.nodes.len() {
            return None;
        }
        let at = self.nodes.behind(self.last, self.passed);
        Some(self.nodes.elem(at, self.passed))
    }

    /// Passes the item after the cursor, and answers false where there is none. It takes no memory.
    pub fn move_next(&mut self) -> bool
        ensures before { self.new.before ≡ self.old.before ++ take 1 self.old.after }
        ensures after { self.new.after ≡ drop 1 self.old.after }
        ensures ended { IsFalse result ↔ (self.old.after ≡ []) }
    {
        if self.passed == self.nodes.len() {
            return false;
        }
        self.last = self.nodes.behind(self.last, self.passed);
        self.passed += 1;
        true
    }

    /// Takes the item after the cursor out. It takes no memory.
    pub fn remove(&mut self) -> Option<T>
        ensures before { self.new.before ≡ self.old.before }
        ensures after { self.old.after ≡ option_to_list result ++ self.new.after }
        ensures none { IsNone result ↔ (self.old.after ≡ []) }
    {
        if self.passed == self.nodes.len() {
            return None;
        }
        let (item, room) = self.nodes.take(self.last, self.passed);
        room.free();
        Some(item)
    }

    /// Puts an item in front of the cursor. Without memory the list stays, and the item is handed back.
    pub fn insert_before(&mut self, value: T) -> Result<(), T>
        ensures after { self.new.after ≡ self.old.after }
        ensures ok { OnOk result (self.new.before ≡ self.old.before ++ value ∷ []) }
        ensures err { OnErr result (self.new.before ≡ self.old.before) }
        ensures returned { IfErr result (λ refused. refused ≡ value) }
    {
        let Some(room) = self.room() else {
            return Err(value);
        };
        self.nodes.put(self.last, self.passed, room, value);
        self.last = self.nodes.behind(self.last, self.passed);
        self.passed += 1;
        Ok(())
    }

    // Ends a list without items.
    fn end(self)
        requires { items self ≡ [] }
    {
        let CursorList {
            nodes,
            alloc: _,
            last: _,
            passed: _,
        } = self;
        nodes.end();
    }
}

impl<T: Drop> Drop for CursorList<T> {
    fn drop(mut self) {
        self.rewind();
        while let Some(item) = self.remove() {
            drop(item);
        }
        self.end();
    }
}
