ghost use Rattle.std.specs.Prelude.{◌≡◌, ℕ, ◌++◌, List};
ghost use Rattle.std.specs.Iterator.{YieldsFirstBy, item_count};
ghost use Rattle.piece_raw.specs.Ring.{first_tag, last_tag};
ghost use Rattle.piece_raw.specs.Tied.{members, IsTied, IsStop, all_nodes};

use crate::block::NodePtr;
use crate::nodes::{Member, Nodes};
use std::marker::Model;

/// The members that are left of a ring, in order, each with its tag. It goes from node to node, and reads the table for
/// the first one alone.
#[derive(Drop)]
pub struct Members<'a, T> {
    nodes: &'a Nodes<T>,
    // Where the next one lies; the trailer after the last one.
    at: NodePtr<Option<Member<T>>>,
}

impl<'a, T> Model for Members<'a, T> {
    ghost use Rattle.std.specs.Prelude.{◌≡◌, ℕ, List};
    ghost use Rattle.piece_raw.specs.Linked.{Linked};
    ghost use Rattle.piece_raw.specs.Tied.{Held, members, nodes_from, IsTied, IsNodeAmong, all_nodes};

    ghost Value = { List (ℕ × T) };

    ghost view = { λ m. members (nodes_from m.at.ptr m.nodes.now.links.nodes) };

    ghost invariant = { λ m. IsTied m.nodes.now
        × ((x : Linked (Held T)) × IsNodeAmong (all_nodes m.nodes.now) x × (x.at ≡ m.at.ptr)) };
}

impl<'a, T> Iterator for Members<'a, T> {
    type Item = (u64, &'a T);

    ghost next_gives = { YieldsFirstBy (λ m. (m.0, m.1.now)) (λ rest. rest) };

    ghost remaining = { item_count (λ rest. rest) };

    fn next(&mut self) -> Option<(u64, &'a T)> {
        let links = &self.nodes.links;
        match links.value(self.at) {
            Some(member) => {
                self.at = links.next(self.at);
                Some((member.tag, &member.value))
            }
            None => None,
        }
    }
}

impl<'a, T> Members<'a, T> {
    // Those from the one of this tag on; none for `None`.
    pub(crate) fn from(nodes: &'a Nodes<T>, at: Option<u64>) -> Members<'a, T>
        requires { IsTied nodes.now × IsStop (all_nodes nodes.now) at }
        ensures { (before left : List (ℕ × T)) → members nodes.now.links.nodes ≡ before ++ left
            → first_tag left ≡ at → result ≡ left }
    {
        Members {
            nodes,
            at: nodes.find(at),
        }
    }

    // Those after the one of this tag; all for `None`.
    pub(crate) fn rest_after(nodes: &'a Nodes<T>, last: Option<u64>) -> Members<'a, T>
        requires { IsTied nodes.now × IsStop (all_nodes nodes.now) last }
        ensures { (before left : List (ℕ × T)) → members nodes.now.links.nodes ≡ before ++ left
            → last_tag before ≡ last → result ≡ left }
    {
        Members {
            nodes,
            at: nodes.links.next(nodes.find(last)),
        }
    }
}
