//! The links and the table together. Each method keeps the two in step.

ghost use Rattle.std.specs.Prelude.{◌≡◌, ◌+◌, ◌<◌, [], ◌∷◌, Some as Just, IfOk, vec_len, vec_capacity};
ghost use Rattle.piece_raw.specs.Linked.{Linked};
ghost use Rattle.piece_raw.specs.Ring.{Follows, IsMember, HasTag, IsPushed};
ghost use Rattle.piece_raw.specs.Tied.{Held, members, stop_of, IsNodeAmong, IsStop, IsBlock, IsTied, all_nodes};

use crate::block::{Block, NodePtr, Room, allocate, deallocate};
use crate::links::Links;
use std::alloc::{AllocError, Global};

// A member of the ring.
#[derive(Drop)]
pub struct Member<T> {
    pub(crate) tag: u64,
    pub(crate) value: T,
}

pub struct Nodes<T> {
    pub(crate) links: Links<Option<Member<T>>>,
    // A trailer makes linking uniform: each node has one before it and one after it.
    trailer: Block<Option<Member<T>>, Global>,
    // A block's place is its member's tag.
    pub(crate) table: Vec<Block<Option<Member<T>>, Global>>,
}

impl<T> Nodes<T> {
    pub(crate) fn new(alloc: Global) -> Result<Nodes<T>, AllocError>
        ensures { IfOk result (λ n. IsTied n × (n.links.nodes ≡ [])) }
    {
        let (room, trailer) = allocate(&alloc)?;
        Ok(Nodes {
            links: Links::new(room.fill(None)),
            trailer,
            table: Vec::new(alloc),
        })
    }

    // Where the trailer, or the member of a tag, lies.
    pub(crate) fn find(&self, stop: Option<u64>) -> NodePtr<Option<Member<T>>>
        requires { IsTied self.now × IsStop (all_nodes self.now) stop }
        ensures { (x : Linked (Held T)) → IsNodeAmong (all_nodes self.now) x → stop_of x ≡ stop
            → result.ptr ≡ x.at }
    {
        match stop {
            None => self.trailer.node,
            Some(tag) => self.table[tag as usize].node,
        }
    }

    // The tag of the node's member; `None` for the trailer.
    fn stop_at(&self, node: NodePtr<Option<Member<T>>>) -> Option<u64>
        requires { (x : Linked (Held T)) × IsNodeAmong (all_nodes self.now) x × (x.at ≡ node.ptr) }
        ensures { (x : Linked (Held T)) → IsNodeAmong (all_nodes self.now) x → x.at ≡ node.ptr
            → result ≡ stop_of x }
    {
        match self.links.value(node) {
            Some(member) => Some(member.tag),
            None => None,
        }
    }

    pub(crate) fn next(&self, stop: Option<u64>) -> Option<u64>
        requires { IsTied self.now × IsStop (all_nodes self.now) stop }
        ensures follows { Follows (members self.now.links.nodes) stop result }
        ensures there { IsStop (all_nodes self.now) result }
    {
        let node = self.links.next(self.find(stop));
        self.stop_at(node)
    }

    pub(crate) fn prev(&self, stop: Option<u64>) -> Option<u64>
        requires { IsTied self.now × IsStop (all_nodes self.now) stop }
        ensures follows { Follows (members self.now.links.nodes) result stop }
        ensures there { IsStop (all_nodes self.now) result }
    {
        let node = self.links.prev(self.find(stop));
        self.stop_at(node)
    }

    pub(crate) fn value(&self, tag: u64) -> &T
        requires { IsTied self.now × HasTag (members self.now.links.nodes) tag }
        ensures { IsMember (members self.now.links.nodes) tag result.now }
    {
        match self.links.value(self.find(Some(tag))) {
            Some(member) => &member.value,
            None => unreachable!(),
        }
    }

    // Links a new member in directly after the stop, under the next tag.
    pub(crate) fn push(
        &mut self,
        stop: Option<u64>,
        value: T,
        room: Room<Option<Member<T>>>,
        block: Block<Option<Member<T>>, Global>,
    ) -> u64
        requires tied { IsTied self.old × IsStop (all_nodes self.old) stop }
        requires reserved { vec_len self.old.table < vec_capacity self.old.table }
        requires block { (block.node.ptr ≡ room.ptr) × IsBlock block }
        ensures tied { IsTied self.new }
        ensures tag { result ≡ vec_len self.old.table }
        ensures members { IsPushed (members self.old.links.nodes) stop result value
            (members self.new.links.nodes) }
        ensures there { IsStop (all_nodes self.new) (Just result) }
        ensures capacity { vec_capacity self.new.table ≡ vec_capacity self.old.table }
        ensures len { vec_len self.new.table ≡ vec_len self.old.table + 1 }
    {
        let at = self.find(stop);
        let tag = self.table.len() as u64;
        let node = room.fill(Some(Member { tag, value }));
        self.links.attach(at, node);
        self.table.push_reserved(block);
        tag
    }

    // Takes out and frees each member's node.
    fn clear(&mut self, alloc: &Global)
    where
        T: Drop,
        requires { IsTied self.old }
        ensures tied { IsTied self.new }
        ensures empty { (self.new.links.nodes ≡ []) × (vec_len self.new.table ≡ 0) }
    {
        while let Some(block) = self.table.pop() {
            let (held, room) = self.links.detach(block.node).take();
            drop(held);
            deallocate(alloc, room, block);
        }
    }

    pub(crate) fn destroy(mut self, alloc: &Global)
    where
        T: Drop,
        requires { IsTied self }
    {
        self.clear(alloc);
        let Nodes {
            links,
            trailer,
            table,
        } = self;
        table.destroy_empty();
        let (held, room) = links.into_trailer(trailer.node).take();
        drop(held);
        deallocate(alloc, room, trailer);
    }
}
