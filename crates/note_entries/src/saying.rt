use crate::hash::Hash;
use operations::Op;
use std::marker::Model;

/// A message that an author said.
#[derive(Debug, Drop)]
pub struct Saying {
    /// His key.
    pub author: Hash,
    pub hash: Hash,
    /// The hash of the message before it, zeros for the first.
    pub before: Hash,
    /// What it builds on.
    pub on: Option<Hash>,
    pub op: Op,
}

impl Model for Saying {
    ghost use Rattle.note_laws.specs.Note.{Saying as Said};

    ghost Value = { Said };

    ghost view = { λ s. record {
      author = s.author;
      hash = s.hash;
      before = s.before;
      on = s.on;
      op = s.op;
    } };
}
