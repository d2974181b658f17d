use crate::replica::Replica;
use char_files::Source;
use looks::Looks;

// The characters shown.
impl Source for Replica {
    ghost use Rattle.texts.specs.TextState.{shown_items};

    ghost items = { shown_items };

    fn len(&self) -> u64 {
        self.shown_len()
    }

    fn at(&self, pos: u64) -> (u8, Looks) {
        self.attributes(pos)
    }
}
