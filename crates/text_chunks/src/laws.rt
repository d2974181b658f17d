ghost use Rattle.text_chunks.specs.Laws.{ChunksHandInTheMessages};

use chunks::{lemma_chunks_tell, lemma_one_chunk};

/// A law: to unpack all chunks of what a text has beyond some fronts is to take all messages of it. A proof gets it by
/// calling this, at no cost.
pub fn lemma_chunks_hand_in_the_messages()
    ensures { ChunksHandInTheMessages }
{
    lemma_one_chunk();
    lemma_chunks_tell();
}
