//! The links between the nodes, from the trailer around to the trailer.

ghost use Rattle.std.specs.Prelude.{◌≡◌, List as Seq, [], ◌∷◌, ◌++◌};
ghost use Rattle.std.specs.Borrow.{sem};
ghost use Rattle.std.specs.Coded.{prop_coded};
ghost use denote.RawPtr.{Ptr};
ghost use Rattle.piece_raw.specs.Linked.{Linked, linked, places, round, IsApart, IsApart-prop};
ghost use Rattle.piece_raw.specs.Linked.{IsAt, AtNode, IsSplitAfter, IsOn, HasNext, HasPrev};
ghost use Rattle.piece_raw.specs.Ownership.{links_own, links_lent};

use crate::block::{Detached, Node, NodePtr};
use std::marker::{Model, PhantomData};

// The owner of the nodes' memory. It takes no space: the ring holds the pointers.
pub struct Links<V> {
    mark: PhantomData<*mut Node<V>>,
    ghost trailer: { Linked V },
    ghost nodes: { Seq (Linked V) },
    ghost apart: { IsApart (places (trailer ∷ nodes)) } by { prop_coded (IsApart-prop (places (trailer ∷ nodes))) },
}

impl<V> Model for Links<V> {
    ghost also_owns = { λ l. links_own V.row l.trailer l.nodes };

    ghost also_shares = { λ l _ κ. links_lent V.row l.trailer l.nodes κ };
}

impl<V> Links<V> {
    ghost use Rattle.piece_raw.specs.Lends.{lends_value};

    // A ring of the trailer alone.
    pub(crate) fn new(trailer: Detached<V>) -> Links<V>
        ensures { (result.trailer ≡ linked trailer.ptr trailer.value) × (result.nodes ≡ []) }
    {
        let Detached { ptr: node } = trailer;
        unsafe {
            (*node).prev = node;
            (*node).next = node;
        }
        Links { mark: PhantomData }
    }

    // Ends a ring of the trailer alone.
    pub(crate) fn into_trailer(self, trailer: NodePtr<V>) -> Detached<V>
        requires { (trailer.ptr ≡ self.trailer.at) × (self.nodes ≡ []) }
        ensures { self.trailer ≡ linked result.ptr result.value }
    {
        let Links { mark: _ } = self;
        Detached { ptr: trailer.ptr }
    }

    // Links the node in directly after the one at `at`.
    pub(crate) fn attach(&mut self, at: NodePtr<V>, node: Detached<V>)
        requires { IsOn self.old.trailer self.old.nodes at.ptr }
        ensures trailer { self.new.trailer ≡ self.old.trailer }
        ensures nodes { (xs : Seq (Linked V)) × (ys : Seq (Linked V))
            × IsSplitAfter self.old.trailer self.old.nodes at.ptr xs ys
            × (self.new.nodes ≡ xs ++ linked node.ptr node.value ∷ ys) }
    {
        let at = at.ptr;
        let Detached { ptr: node } = node;
        unsafe {
            (*node).next = (*at).next;
            (*node).prev = at;
            (*at).next = node;
            (*(*node).next).prev = node;
        }
    }

    pub(crate) fn detach(&mut self, node: NodePtr<V>) -> Detached<V>
        requires { IsAt self.old.nodes node.ptr }
        ensures trailer { self.new.trailer ≡ self.old.trailer }
        ensures nodes { AtNode self.old.nodes node.ptr
            (λ xs n ys. (self.new.nodes ≡ xs ++ ys) × (n ≡ linked result.ptr result.value)) }
    {
        let node = node.ptr;
        unsafe {
            (*(*node).prev).next = (*node).next;
            (*(*node).next).prev = (*node).prev;
        }
        Detached { ptr: node }
    }

    pub(crate) fn next(&self, node: NodePtr<V>) -> NodePtr<V>
        requires { (after : Ptr) × HasNext (round self.now.trailer self.now.nodes) node.ptr after }
        ensures { (after : Ptr) → HasNext (round self.now.trailer self.now.nodes) node.ptr after
            → result.ptr ≡ after }
    {
        NodePtr {
            ptr: unsafe { (*node.ptr).next },
        }
    }

    pub(crate) fn prev(&self, node: NodePtr<V>) -> NodePtr<V>
        requires { (before : Ptr) × HasPrev (round self.now.trailer self.now.nodes) node.ptr before }
        ensures { (before : Ptr) → HasPrev (round self.now.trailer self.now.nodes) node.ptr before
            → result.ptr ≡ before }
    {
        NodePtr {
            ptr: unsafe { (*node.ptr).prev },
        }
    }

    pub(crate) fn value(&self, node: NodePtr<V>) -> &V
        requires { IsAt (self.now.trailer ∷ self.now.nodes) node.ptr }
        ensures { AtNode (self.now.trailer ∷ self.now.nodes) node.ptr (λ _ n _. result.now ≡ n.value) }
    {
        unsafe { &(*node.ptr).value }
    }

    pub(crate) fn value_mut(&mut self, node: NodePtr<V>) -> &mut V
        requires { IsAt self.old.nodes node.ptr }
        ensures* writes_back { sem 𝓛 (lends_value V.row self.entry node.ptr result) }
        ensures value { AtNode self.old.nodes node.ptr (λ _ n _. result.now ≡ n.value) }
    {
        unsafe { &mut (*node.ptr).value }
    }
}
