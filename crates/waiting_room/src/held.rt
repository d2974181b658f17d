ghost use Rattle.std.specs.Prelude.{◌≡◌, Contains};
ghost use Rattle.operations.specs.Operation.{Operation};
ghost use Rattle.tree_order.specs.Good.{Good};
ghost use Rattle.tree_order.specs.Tree.{IsInsertOf};
ghost use Rattle.set_laws.specs.Fronts.{front_of, file_len, IsHeld, IsHere};
ghost use Rattle.set_laws.specs.Sets.{AreIdentified};

use char_files::{Name, SiteNo};

/// What a replica has taken in, as far as the verdict on another operation asks for it. It is seen as the
/// list of these operations. No call takes memory.
pub trait Held {
    ghost use Rattle.std.specs.Prelude.{List};
    ghost use Rattle.operations.specs.Operation.{Operation};

    ghost ops: { Self → List Operation };

    /// A law: the operations are a good set, and no two have one identity. A proof gets it by calling this.
    fn lemma_are_good(&self)
        ensures good { Good (ops self.now) }
        ensures identified { AreIdentified (ops self.now) };

    /// The greatest seq of a site's operations, 0 for none.
    fn front(&self, site: SiteNo) -> u32
        ensures { result ≡ front_of (ops self.now) site };

    /// How long a site's file is by what its Inserts append.
    fn file_len(&self, site: SiteNo) -> u32
        ensures { result ≡ file_len (ops self.now) site };

    /// The stamp of the operation of this identity.
    fn op_stamp(&self, site: SiteNo, seq: u32) -> u64
        requires { IsHeld (ops self.now) site seq }
        ensures { (p : Operation) → Contains (ops self.now) p → p.site ≡ site → p.seq ≡ seq
            → result ≡ p.stamp };

    /// The stamp of the Insert of a name that is here.
    fn name_stamp(&self, name: Name) -> u64
        requires { IsHere (ops self.now) name }
        ensures found { (i : Operation) × IsInsertOf (ops self.now) name i × (result ≡ i.stamp) }
        ensures only { (i : Operation) → IsInsertOf (ops self.now) name i → result ≡ i.stamp };
}
