//! The nodes of a list, each in a block of its own. All that touches a pointer stands here and in the modules below.
ghost use Rattle.std.specs.Prelude.{◌≡◌, ◌^◌, ◌<◌, List, length};
ghost use Rattle.std_collections.specs.LinkedList.Links.{Link, links_of, IsChained};
ghost use Rattle.std_collections.specs.LinkedList.Ownership.{nodes_own, chain_lent};

use std::alloc::Allocator;
use std::marker::Model;

mod changes;
mod ends;
mod reads;
mod steps;

/// An item with its neighbours. `next` of the last node and `prev` of the first mean nothing.
pub struct Node<T, A> {
    next: *const Node<T, A>,
    prev: *const Node<T, A>,
    elem: T,
    alloc: A,
}

/// Linked nodes. With none, `head` and `tail` mean nothing.
pub struct Nodes<T, A: Allocator> {
    head: *const Node<T, A>,
    tail: *const Node<T, A>,
    len: usize,
    ghost items: { List T },
    // Of each node where it lies, its `next` and `prev`, and its handle.
    ghost blocks: { List (Link × A) },
    ghost ok: { (len ≡ length items) × (len ≡ length blocks) },
    ghost small: { len < 2 ^ 63 },
    ghost chained: { ∥ IsChained head tail (links_of blocks) ∥₁ },
}

impl<T, A: Allocator> Model for Nodes<T, A> {
    ghost also_owns = { λ n. nodes_own T.row A.row A.dealloc_token n.blocks n.items };

    ghost also_shares = { λ n _ κ. chain_lent T.row (links_of n.blocks) n.items κ };
}

/// Where a node lies. It owns nothing.
#[derive(Clone, Copy)]
pub struct Place {
    ptr: *const u8,
}
