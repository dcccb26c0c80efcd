//! What a collection removes.

ghost use Rattle.std.specs.Prelude.{◌≡◌, IfOk};
ghost use Rattle.store_model.specs.State.{protected_in};
ghost use Rattle.store_model.specs.Packages.{rest};
ghost use Rattle.store_model.specs.Acts.Collect.{collect_answer};

use crate::state::State;
use collector::slow;
use pkg_names::Roots;
use std::alloc::AllocError;

impl State {
    /// The packages that are protected.
    pub fn protected(&self) -> Result<Roots, AllocError>
        ensures { IfOk result (λ roots. roots ≡ protected_in self.now) }
    {
        self.indexes.protected(&self.dirs)
    }

    /// The stored blobs that no protected package names, in the order of the stock.
    pub fn rest(&self) -> Result<Roots, AllocError>
        ensures { IfOk result (λ roots. roots ≡ rest self.now) }
    {
        let stock = self.stock.roots(self.alloc)?;
        let protected = self.protected()?;
        slow::unprotected(self.alloc, &stock, protected.as_slice(), &self.books)
    }

    /// What a collection removes, or nothing where the running system may not stay.
    pub fn collect_answer(&self) -> Result<Option<Roots>, AllocError>
        ensures { IfOk result (λ reply. reply ≡ collect_answer self.now) }
    {
        if !self.is_committed() {
            return Ok(None);
        }
        Ok(Some(self.rest()?))
    }
}
