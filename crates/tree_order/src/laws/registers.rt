//! What the registers of a character tell, and what one operation more makes of them.

ghost use Rattle.std.specs.Prelude.{List, [], ◌∷◌, ◌++◌, Contains};
ghost use Rattle.operations.specs.Operation.{Operation};
ghost use Rattle.tree_order.specs.Good.{Good};
ghost use Rattle.tree_order.specs.Registers.{Atom, HasRegisters, AreAtoms};
ghost use Rattle.tree_order.specs.RegisterLaws.{FollowRegisters, ShowsAtoms, HasOneAtoms, InsertsNone};
ghost use Rattle.tree_order.specs.RegisterLaws.{ShowsByOffers, OffersItsValues};

/// A law: the registers of a character tell whether it is visible, and its looks.
pub fn registers_determine_what_is_shown()
    ensures { (ops : List Operation) → Good ops → (k : Atom) → HasRegisters ops k → FollowRegisters ops k }
{}

/// The same law, for one who has all characters in order with their registers: what is shown are those that
/// aren't hidden, in their atoms' looks, each with its byte.
pub fn atoms_determine_what_is_shown()
    ensures { (ops : List Operation) → Good ops → (atoms : List Atom) → AreAtoms ops atoms → ShowsAtoms ops atoms }
{}

/// A law: a good set has a list of all characters in order with their registers, and only one.
pub fn there_is_one_atom_list()
    ensures { (ops : List Operation) → Good ops → HasOneAtoms ops }
{}

/// A law, for one new operation more: the registers of an old character are the old ones, offered its values
/// under its key; those of a character that it inserts have its own key and values.
pub fn registers_are_offered()
    ensures { (ops : List Operation) (op : Operation) → Good ops → Good (ops ++ op ∷ [])
        → (Contains ops op → ⊥) → OffersItsValues ops op }
{}

/// A law, for one Delete, Restore or ChangeLooks more: a character is visible, and has the looks, as its old
/// registers tell that were offered the operation's values under its key, attribute by attribute.
pub fn offers_determine_what_is_shown()
    ensures { (ops : List Operation) (op : Operation) → Good (ops ++ op ∷ []) → InsertsNone op
        → (k : Atom) → HasRegisters ops k → ShowsByOffers ops op k }
{}
