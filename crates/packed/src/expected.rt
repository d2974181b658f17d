ghost use Rattle.std.specs.Prelude.{◌≡◌, ◌+◌, ◌<◌};
ghost use Rattle.char_files.specs.declared.TheConstants.{MAX_FILE};
ghost use Rattle.char_files.specs.declared.name.Anchor.TheVariants.{At};
ghost use Rattle.operations.specs.Operation.{Begins, appended_len};
ghost use Rattle.packed.specs.Told.{after_one_more, at_first, before_first, looks_after, own_caret_after};

use char_files::{Anchor, Name, SiteNo};
use looks::Looks;
use operations::{Kind, NameSet, Op};

/// What a site's operations lead one to expect of its next one.
#[derive(Debug, Drop)]
pub struct Expected {
    /// The seq of the site's last operation, 0 at first.
    pub seq: u32,
    /// How long the site's file is.
    pub len: u32,
    /// The stamp of the site's last operation, 0 at first.
    pub stamp: u64,
    /// Where the site types or deletes next, if it goes on.
    pub caret: Anchor,
    /// The looks that the site types in.
    pub looks: Looks,
}

// A name of a site's file.
pub(crate) fn name_at(site: SiteNo, off: u32) -> Anchor
    requires { off < MAX_FILE }
    ensures { result ≡ At (record { site = site; off = off }) }
{
    match Name::new(site, off) {
        Some(name) => Anchor::At(name),
        None => unreachable!(),
    }
}

// The name one offset before the first of these; the root where there is none.
fn before_first(names: &NameSet) -> Anchor
    ensures { result ≡ before_first names.now }
{
    match names.ranges() {
        [] => Anchor::Root,
        [first, ..] => {
            let _ = first.len();
            match first.at().checked_sub(1) {
                None => Anchor::Root,
                Some(off) => name_at(first.site(), off),
            }
        }
    }
}

impl Expected {
    // What is expected of a site that has no operations.
    pub(crate) fn at_first() -> Expected
        ensures { result ≡ at_first }
    {
        Expected {
            seq: 0,
            len: 0,
            stamp: 0,
            caret: Anchor::Root,
            looks: Looks::plain(),
        }
    }

    // The same again.
    pub(crate) fn copy(&self) -> Expected
        ensures { result ≡ self.now }
    {
        Expected {
            seq: self.seq,
            len: self.len,
            stamp: self.stamp,
            caret: self.caret,
            looks: self.looks.copy(),
        }
    }

    // How long the site's file is after its next operation.
    fn len_after(&self, op: &Op) -> u32
        requires { Begins op.now.kind self.now.len }
        ensures { result ≡ self.now.len + appended_len op.now.kind }
    {
        op.lemma_has_spelling();
        match op.kind() {
            Kind::Insert { bytes, .. } => self.len + bytes.len() as u32,
            Kind::Delete { .. } | Kind::Restore { .. } | Kind::ChangeLooks { .. } => self.len,
        }
    }

    // Where the site's caret is after its next operation.
    fn caret_after(&self, op: &Op) -> Anchor
        ensures { result ≡ own_caret_after op.now.site self.now.caret op.now.kind }
    {
        op.lemma_has_spelling();
        match op.kind() {
            Kind::Insert { at, bytes, .. } => name_at(op.site(), *at + (bytes.len() as u32 - 1)),
            Kind::Delete { names } => before_first(names),
            Kind::Restore { .. } | Kind::ChangeLooks { .. } => self.caret,
        }
    }

    // The looks that the site types in after its next operation.
    fn looks_after(&self, op: &Op) -> Looks
        ensures { result ≡ looks_after self.now.looks op.now.kind }
    {
        match op.kind() {
            Kind::Insert { looks, .. } => looks.copy(),
            Kind::Delete { .. } | Kind::Restore { .. } | Kind::ChangeLooks { .. } => {
                self.looks.copy()
            }
        }
    }

    // What is expected of the site after its next operation.
    pub(crate) fn after(&self, op: &Op) -> Expected
        requires { Begins op.now.kind self.now.len }
        ensures { result ≡ after_one_more self.now op.now }
    {
        Expected {
            seq: op.seq(),
            len: self.len_after(op),
            stamp: op.stamp(),
            caret: self.caret_after(op),
            looks: self.looks_after(op),
        }
    }
}
