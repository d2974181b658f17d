ghost use Rattle.std.specs.Prelude.{◌≡◌, ◌↔◌, IsTrue, IsSome, IfSome, IfOk};
ghost use Rattle.looks.specs.Refusal.{RefusedForMemoryAlone};
ghost use Rattle.operations.specs.Operation.{Begins, key_of};
ghost use Rattle.operations.specs.Spelling.{HasSpelling};
ghost use Rattle.operations.specs.Seen.{kind_of, operation_with};

use crate::kind::Kind;
use char_files::{SiteNo, TextNo};
use looks::{Key, Refusal};
use std::marker::Model;

/// The greatest stamp: 2^48 - 1.
pub const MAX_STAMP: u64 = (1 << 48) - 1;

/// An operation that has a message: what one edit did, for every site to do alike.
#[derive(Debug, Drop)]
pub struct Op {
    text: TextNo,
    site: SiteNo,
    seq: u32,
    stamp: u64,
    kind: Kind,
}

impl Model for Op {
    ghost use Rattle.operations.specs.Operation.{Operation};
    ghost use Rattle.operations.specs.Spelling.{HasSpelling};
    ghost use Rattle.operations.specs.Seen.{operation_with};

    ghost Value = { Operation };

    ghost view = { λ op. operation_with op.text op.site op.seq op.stamp op.kind };

    ghost invariant = { λ op. HasSpelling (operation_with op.text op.site op.seq op.stamp op.kind) };
}

impl Op {
    /// The operation of these fields, or `None` where it has no spelling.
    ///
    /// A stamp is 1 to 2^48 - 1, a seq 1 or more. An Insert has 1 to 4,096 bytes, which end within 2^24 bytes
    /// of its site's file, and a cause of its own site is one that stood in that file before it. The other
    /// kinds have a name at least, and looks that aren't selected are the default.
    pub fn new(text: TextNo, site: SiteNo, seq: u32, stamp: u64, kind: Kind) -> Option<Op>
        ensures valid { IsSome result ↔ HasSpelling (operation_with text site seq stamp kind) }
        ensures value { IfSome result (λ op. op ≡ operation_with text site seq stamp kind) }
    {
        // Texts and sites are above 0 by their types, as these readers say.
        let _ = (text.get(), site.get());
        if seq == 0 || stamp == 0 || MAX_STAMP < stamp || !kind.is_valid(site) {
            return None;
        }
        Some(Op {
            text,
            site,
            seq,
            stamp,
            kind,
        })
    }

    /// The same operation again. Refused `OutOfMemory` alone.
    pub fn copy(&self) -> Result<Op, Refusal>
        ensures ok { IfOk result (λ op. op ≡ self.now) }
        ensures errors { RefusedForMemoryAlone result }
    {
        Ok(Op {
            text: self.text,
            site: self.site,
            seq: self.seq,
            stamp: self.stamp,
            kind: self.kind.copy()?,
        })
    }

    /// Whether both are the same operation.
    pub fn is_same(&self, other: &Op) -> bool
        ensures { IsTrue result ↔ (self.now ≡ other.now) }
    {
        let same_identity = self.site == other.site && self.seq == other.seq;
        same_identity
            && self.text == other.text
            && self.stamp == other.stamp
            && self.kind.is_same(&other.kind)
    }

    /// The text that it belongs to.
    pub fn text(&self) -> TextNo
        ensures { result ≡ self.now.text }
    {
        self.text
    }

    /// The site that made it.
    pub fn site(&self) -> SiteNo
        ensures { result ≡ self.now.site }
    {
        self.site
    }

    /// Its number among its site's operations on this text, 1 or more; a site counts from 1 without gaps.
    /// Site and number are its identity (a dot).
    pub fn seq(&self) -> u32
        ensures { result ≡ self.now.seq }
    {
        self.seq
    }

    /// Its stamp (a Lamport timestamp), 1 to 2^48 - 1; a site stamps each operation above all that it has
    /// taken in.
    pub fn stamp(&self) -> u64
        ensures { result ≡ self.now.stamp }
    {
        self.stamp
    }

    /// Its key: the stamp, then the site, by which siblings and registers are ordered.
    pub fn key(&self) -> Key
        ensures { result ≡ key_of self.now }
    {
        Key {
            stamp: self.stamp,
            site: self.site.get(),
        }
    }

    /// What it does.
    pub fn kind(&self) -> &Kind
        ensures { kind_of result.now ≡ self.now.kind }
    {
        &self.kind
    }

    /// Whether an Insert says this length of its site's file; the other kinds say none.
    pub fn begins_at(&self, len: u64) -> bool
        ensures { IsTrue result ↔ Begins self.now.kind len }
    {
        match self.kind() {
            Kind::Insert { at, .. } => u64::from(*at) == len,
            Kind::Delete { .. } | Kind::Restore { .. } | Kind::ChangeLooks { .. } => true,
        }
    }

    /// A law: an operation has a spelling. A proof gets it by calling this, at no cost.
    pub fn lemma_has_spelling(&self)
        ensures { HasSpelling self.now }
    {
        let _ = &self.kind;
    }
}
