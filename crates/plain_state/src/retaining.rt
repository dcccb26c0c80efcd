//! The packages that are retained, with what the books learn and forget of them.

ghost use Rattle.std.specs.Prelude.{◌≡◌, [], IfOk, OnOk, OnErr};
ghost use Rattle.store_model.specs.declared.ends.RetainEnd.TheVariants as retains;
ghost use Rattle.store_model.specs.Mirrors.{Mirrors};
ghost use Rattle.store_model.specs.Settling.{IsSeen};
ghost use Rattle.store_model.specs.Acts.Retain.{next_retain};
ghost use Rattle.plain_stock.specs.Contents.{AreBytesOf};
ghost use Rattle.plain_state.specs.Learning.{Forgets, IsReady, IsSettled, LearnsAmong, LearnsLengths, LearnsOf};
ghost use Rattle.plain_state.specs.Looking.{AreFrom};

use crate::state::State;
use pkg_names::{Items, Root, Roots};
use plain_stock::Contents;
use std::alloc::AllocError;
use store_model::{Looked, LookedAt};

impl State {
    /// These packages, and no others, are retained. The books learn what they don't know of them, and what
    /// had to be looked at for that is told.
    pub fn keep_only(&mut self, roots: Roots, contents: &Contents) -> Result<Looked, AllocError>
        requires ready { IsReady self.old }
        requires bytes { AreBytesOf contents.now self.old.stock }
        ensures seen { IfOk result (λ seen. IsSeen seen self.old.stock) }
        ensures ok { IfOk result (λ seen. IsSettled seen (next_retain self.old roots retains.Done) self.new) }
        ensures err { OnErr result (Mirrors self.old self.new) }
    {
        let former = Vec::from_slice(self.alloc, self.indexes.retained())?;
        let mut seen = Vec::new(self.alloc);
        match self.learn_each(roots.as_slice(), contents, &mut seen) {
            Ok(()) => {
                self.retain(roots);
                self.forget_each(&former);
                Ok(Items::make(seen))
            }
            Err(fault) => {
                self.forget_each(roots.as_slice());
                Err(fault)
            }
        }
    }

    // The books learn what they don't know of these packages. Looks at those that aren't too long to be read.
    fn learn_each(
        &mut self,
        roots: &[Root],
        contents: &Contents,
        seen: &mut Vec<LookedAt>,
    ) -> Result<(), AllocError>
        requires nothing { seen.old.items ≡ [] }
        requires bytes { AreBytesOf contents.now self.old.stock }
        ensures from { AreFrom contents.now seen.new.items }
        ensures ok { OnOk result (LearnsOf roots.now seen.new.items self.old self.new) }
        ensures err { OnErr result (LearnsAmong roots.now self.old self.new) }
    {
        self.look_at_each(contents, roots, seen)?;
        self.learn_lengths(roots)
    }

    /// The books learn the lengths of those of these packages that are stored and too long to be read.
    pub fn learn_lengths(&mut self, roots: &[Root]) -> Result<(), AllocError>
        ensures ok { OnOk result (LearnsLengths roots.now self.old self.new) }
        ensures err { OnErr result (LearnsAmong roots.now self.old self.new) }
    {
        for root in roots {
            self.learn_length(*root)?;
        }
        Ok(())
    }

    // The books forget these packages, but for those that are protected.
    fn forget_each(&mut self, roots: &[Root])
        ensures { Forgets roots.now self.old self.new }
    {
        for root in roots {
            self.forget(root);
        }
    }
}
