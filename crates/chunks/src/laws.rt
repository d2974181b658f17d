ghost use Rattle.chunks.specs.Laws.{OneChunk, ChunksTell, WhatIsBeyondCanCome};

/// A law: a chunk is of one text and one list of operations. A proof gets it by calling this, at no cost.
pub fn lemma_one_chunk()
    ensures { OneChunk }
{}

/// A law: operations that can come one after the other are cut into chunks that tell them; and those of a history beyond
/// some of each site can. A proof gets it by calling this, at no cost.
pub fn lemma_chunks_tell()
    ensures told { ChunksTell }
    ensures beyond { WhatIsBeyondCanCome }
{}
