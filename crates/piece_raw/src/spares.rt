//! Nodes in reserve: each has its memory, and nothing in it.

ghost use Rattle.std.specs.Prelude.{◌≡◌, ◌≤◌, vec_len, OnOk, IsOk};
ghost use Rattle.std.specs.List.{AllByRecursion};
ghost use Rattle.piece_raw.specs.Spares.{IsSpare};

use crate::block::{Block, Room, allocate, deallocate};
use crate::nodes::Member;
use std::alloc::{AllocError, Global};

pub struct Spare<T> {
    pub(crate) room: Room<Option<Member<T>>>,
    pub(crate) block: Block<Option<Member<T>>, Global>,
}

// Makes it n of them, where there are fewer. An `Err` keeps those that were made.
pub(crate) fn fill_up<T>(spare: &mut Vec<Spare<T>>, n: usize) -> Result<(), AllocError>
    requires { AllByRecursion IsSpare spare.old.items }
    ensures spares { AllByRecursion IsSpare spare.new.items }
    ensures ok { OnOk result (n ≤ vec_len spare.new) }
    ensures more { vec_len spare.old ≤ vec_len spare.new }
    ensures enough { n ≤ vec_len spare.old → IsOk result }
{
    let alloc = *spare.allocator();
    spare.reserve(n.saturating_sub(spare.len()))?;
    while spare.len() < n {
        let (room, block) = allocate(&alloc)?;
        spare.push_reserved(Spare { room, block });
    }
    Ok(())
}

pub(crate) fn free_all<T>(mut spare: Vec<Spare<T>>, alloc: &Global)
    requires { AllByRecursion IsSpare spare.items }
{
    while let Some(Spare { room, block }) = spare.pop() {
        deallocate(alloc, room, block);
    }
    spare.destroy_empty();
}
