//! The block of one node, and the values that stand for who owns which part of it.

ghost use Rattle.std.specs.Prelude.{◌≡◌, IfOk, ⊤};
ghost use base.Fml.{ftrue};
ghost use denote.RawPtr.{Ptr};
ghost use Rattle.piece_raw.specs.Ownership.{room_owns, deed_owns, detached_owns};

use std::alloc::{AllocError, Allocator};
use std::marker::{Model, PhantomData};
use std::mem::{align_of, size_of};

// A node of the ring.
pub struct Node<V> {
    pub(crate) prev: *mut Node<V>,
    pub(crate) next: *mut Node<V>,
    pub(crate) value: V,
}

// Where a node lies. It owns nothing.
pub struct NodePtr<V> {
    pub(crate) ptr: *mut Node<V>,
}

impl<V> Clone for NodePtr<V> {
    ghost is_clone = { λ x y. y ≡ x };

    ghost is_infallible = { λ _. ⊤ };

    fn clone(&self) -> Result<NodePtr<V>, AllocError> {
        Ok(*self)
    }
}

impl<V> Copy for NodePtr<V> {}

// The right to give the block at `at` back to `alloc`. It takes no space.
pub struct Deed<V, A: Allocator> {
    mark: PhantomData<*const (V, A)>,
    ghost at: { Ptr },
    ghost alloc: { A },
}

impl<V, A: Allocator> Model for Deed<V, A> {
    ghost also_owns = { λ d. deed_owns V.row (A.dealloc_token d.alloc) d.at };

    ghost also_shares = { λ _ _ _. ftrue };
}

// Where a node lies, and the right to free it.
pub struct Block<V, A: Allocator> {
    pub(crate) node: NodePtr<V>,
    pub(crate) deed: Deed<V, A>,
}

// The three fields of a block, with nothing in them.
pub struct Room<V> {
    pub(crate) ptr: *mut Node<V>,
}

impl<V> Model for Room<V> {
    ghost also_owns = { λ r. room_owns V.row r.ptr };
}

// A node with its value that is in no ring.
pub struct Detached<V> {
    pub(crate) ptr: *mut Node<V>,
    ghost value: { V },
}

impl<V> Model for Detached<V> {
    ghost also_owns = { λ d. detached_owns V.row d.ptr d.value };
}

pub(crate) fn allocate<V, A: Allocator>(alloc: &A) -> Result<(Room<V>, Block<V, A>), AllocError>
    ensures { IfOk result (λ r. (r.1.node.ptr ≡ r.0.ptr) × (r.1.deed.at ≡ r.0.ptr)
        × (r.1.deed.alloc ≡ alloc.now)) }
{
    match alloc.allocate(size_of::<Node<V>>(), align_of::<Node<V>>()) {
        Ok(block) => {
            let ptr = block as *mut Node<V>;
            let slot = Block {
                node: NodePtr { ptr },
                deed: Deed { mark: PhantomData },
            };
            Ok((Room { ptr }, slot))
        }
        Err(error) => Err(error),
    }
}

pub(crate) fn deallocate<V, A: Allocator>(alloc: &A, room: Room<V>, block: Block<V, A>)
    requires { (block.deed.at ≡ room.ptr) × (block.deed.alloc ≡ alloc.now) }
{
    let Room { ptr } = room;
    let Block {
        node: _,
        deed: Deed { mark: _ },
    } = block;
    unsafe {
        alloc.deallocate(ptr as *mut u8, size_of::<Node<V>>(), align_of::<Node<V>>());
    }
}

impl<V> Room<V> {
    // Moves the value in.
    pub(crate) fn fill(self, value: V) -> Detached<V>
        ensures { (result.ptr ≡ self.ptr) × (result.value ≡ value) }
    {
        let Room { ptr } = self;
        unsafe {
            (&raw mut (*ptr).value).write(value);
        }
        Detached { ptr }
    }
}

impl<V> Detached<V> {
    // Moves the value out.
    pub(crate) fn take(self) -> (V, Room<V>)
        ensures { (result.0 ≡ self.value) × (result.1.ptr ≡ self.ptr) }
    {
        let Detached { ptr } = self;
        unsafe {
            let value = (&raw const (*ptr).value).read();
            (value, Room { ptr })
        }
    }
}
