ghost use Rattle.std.specs.Prelude.{◌≡◌};
ghost use Rattle.tree_order.specs.Good.{Good};

use crate::held::Held;
use char_files::{Name, SiteNo};
use op_log::Log;
use std::marker::Model;

/// A log whose operations are a good set.
#[derive(Drop)]
pub struct GoodLog<'a> {
    log: &'a Log,
}

impl<'a> Model for GoodLog<'a> {
    ghost use Rattle.std.specs.Prelude.{List};
    ghost use Rattle.operations.specs.Operation.{Operation};
    ghost use Rattle.tree_order.specs.Good.{Good};

    ghost Value = { List Operation };

    ghost view = { λ g. g.log.now.ops };

    ghost invariant = { λ g. Good g.log.now.ops };
}

impl<'a> GoodLog<'a> {
    /// The log, which is good.
    pub fn new(log: &'a Log) -> GoodLog<'a>
        requires { Good log.now.ops }
        ensures { result ≡ log.now.ops }
    {
        GoodLog { log }
    }
}

impl<'a> Held for GoodLog<'a> {
    ghost ops = { λ ops. ops };

    fn lemma_are_good(&self) {
        self.log.lemma_are_held_to_the_front();
    }

    fn front(&self, site: SiteNo) -> u32 {
        self.log.front(site)
    }

    fn file_len(&self, site: SiteNo) -> u32 {
        self.log.file_len(site)
    }

    fn op_stamp(&self, site: SiteNo, seq: u32) -> u64 {
        self.log.op_stamp(site, seq)
    }

    fn name_stamp(&self, name: Name) -> u64 {
        self.log.name_stamp(name)
    }
}
