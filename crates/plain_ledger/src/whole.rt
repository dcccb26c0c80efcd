//! The store as a whole.

ghost use Rattle.std.specs.Prelude.{◌≡◌, List, Some, OnOk, OnErr};
ghost use Rattle.store_model.specs.declared.ends.RetainEnd.TheVariants as retains;
ghost use Rattle.store_model.specs.declared.events.Act.TheVariants as acts;
ghost use Rattle.store_model.specs.declared.events.LookedAt.{LookedAt as LookedAtOf};
ghost use Rattle.store_model.specs.Acts.Retain.{IsFree};
ghost use Rattle.plain_stock.specs.Contents.{AreBytesOf};
ghost use Rattle.store_model.specs.Acts.Collect.{collect_answer};
ghost use Rattle.plain_ledger.specs.Ledgers.{Notes, Stays};

use crate::ledger::{Ledger, make_room};
use pkg_names::Roots;
use plain_stock::Contents;
use std::alloc::AllocError;
use store_model::{Act, RetainEnd};

impl Ledger {
    /// These blobs, which no protected package names, are removed.
    pub fn collect(&mut self, lane: u32, roots: Roots) -> Result<(), AllocError>
        requires { collect_answer self.old.state ≡ Some roots }
        ensures ok { OnOk result (Notes self.old lane (acts.Collect (Some roots)) self.new) }
        ensures err { OnErr result (Stays self.old self.new) }
    {
        make_room(&mut self.history, &self.state, 1)?;
        self.state.collect(&roots);
        let reply = Some(roots);
        self.history.note(lane, Act::Collect { reply });
        Ok(())
    }

    /// These packages, and no others, are retained. What is not known of them is looked at.
    pub fn retain(&mut self, lane: u32, roots: Roots, contents: &Contents) -> Result<(), AllocError>
        requires free { IsFree self.old.state }
        requires bytes { AreBytesOf contents.now self.old.state.stock }
        ensures ok { OnOk result ((seen : List LookedAtOf)
            × Notes self.old lane (acts.Retain roots retains.Done seen) self.new) }
        ensures err { OnErr result (Stays self.old self.new) }
    {
        make_room(&mut self.history, &self.state, 1)?;
        let told = roots.try_copy(self.alloc)?;
        let seen = self.state.keep_only(roots, contents)?;
        let reply = RetainEnd::Done;
        self.history.note(
            lane,
            Act::Retain {
                roots: told,
                reply,
                seen,
            },
        );
        Ok(())
    }
}
