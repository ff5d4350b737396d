//! All items of a list in order.
ghost use Rattle.std.specs.Prelude.{◌≡◌, length};
ghost use Rattle.std.specs.Iterator.{at_most};
ghost use Rattle.std_collections.specs.Map.Iter.{TakesFirst, deref};

use crate::nodes::{Nodes, Place};
use std::alloc::Global;
use std::iter::Iterator;
use std::marker::Model;

/// The items that a walk over a list has left.
#[derive(Drop)]
pub struct Walk<'a, T> {
    nodes: &'a Nodes<T, Global>,
    at: Place,
    passed: usize,
}

impl<'a, T> Model for Walk<'a, T> {
    ghost use Rattle.std.specs.Prelude.{◌≡◌, ◌<◌, ◌≤◌, List, drop};
    ghost use Rattle.std_collections.specs.LinkedList.Links.{links_of, place_of};

    ghost Value = { List T };

    ghost view = { λ walk. drop walk.passed walk.nodes.now.items };

    ghost invariant = { λ walk.
        (walk.passed ≤ walk.nodes.now.len)
        × (walk.passed < walk.nodes.now.len
        → walk.at.ptr ≡ place_of (links_of walk.nodes.now.blocks) walk.passed) };
}

impl<'a, T> Walk<'a, T> {
    pub(crate) fn over(nodes: &'a Nodes<T, Global>) -> Walk<'a, T>
        ensures { result ≡ nodes.now.items }
    {
        Walk {
            nodes,
            at: nodes.head(),
            passed: 0,
        }
    }
}

impl<'a, T> Iterator for Walk<'a, T> {
    type Item = &'a T;

    ghost next_gives = { TakesFirst deref };

    ghost remaining = { λ s. at_most (length s) };

    fn next(&mut self) -> Option<&'a T> {
        if self.passed == self.nodes.len() {
            return None;
        }
        let (nodes, at, passed) = (self.nodes, self.at, self.passed);
        self.at = nodes.next(at, passed);
        self.passed = passed + 1;
        Some(nodes.elem(at, passed))
    }
}
