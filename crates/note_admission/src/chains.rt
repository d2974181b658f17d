ghost use Rattle.std.specs.Prelude.{◌≡◌, IfNone, IfSome};
ghost use Rattle.note_laws.specs.Note.{Note, Entries, Saying as Said};
ghost use Rattle.note_admission.specs.Places.{StandsInChain};

use char_files::{SiteNo, TextNo};
use note_entries::{Hash, Saying};

/// The chains of a note's messages.
pub trait Chains {
    ghost use Rattle.note_laws.specs.Note.{Note, Entries};

    /// Whose they are.
    ghost are_of: { Self → Note → Entries → Type 0 };

    /// The message that holds this place of a chain, after the one of this hash.
    fn at(&self, text: TextNo, site: SiteNo, seq: u32, before: Hash) -> Option<&Saying>
        ensures placed { IfSome result (λ s. (s.now.op.text ≡ text) × (s.now.op.site ≡ site) × (s.now.op.seq ≡ seq)) }
        ensures some { IfSome result (λ s. (note : Note) (entries : Entries) → are_of self.now note entries
            → StandsInChain note entries text site seq before s.now) }
        ensures none { IfNone result ((note : Note) (entries : Entries) → are_of self.now note entries
            → (s : Said) → ¬ StandsInChain note entries text site seq before s) };
}
