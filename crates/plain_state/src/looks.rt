//! Looks at blobs that are stored.

ghost use Rattle.std.specs.Prelude.{◌≡◌, ◌∷◌, [], ◌++◌, Some, OnOk, OnErr};
ghost use Rattle.package_book.specs.Books.Meta.{Read};
ghost use Rattle.plain_state.specs.Learning.{Learns};
ghost use Rattle.plain_state.specs.Looking.{Sees, AreAmong, IsLookedAt, IsLearned, AreLearned};
ghost use Rattle.plain_state.specs.Judged.{IsListSeen, AreListsSeen};

use crate::state::State;
use package_book::META_LIMIT;
use pkg_names::{Bytes, Root, read_file};
use plain_stock::Contents;
use std::alloc::AllocError;
use store_model::LookedAt;

impl State {
    /// Looks at a blob, if it is stored and isn't too long to be read: `seen` has its bytes, and so have the books.
    pub fn look(
        &mut self,
        contents: &Contents,
        root: Root,
        seen: &mut Vec<LookedAt>,
    ) -> Result<(), AllocError>
        ensures sees { Sees contents.now seen.old.items seen.new.items self.old self.new }
        ensures among { AreAmong (root ∷ []) seen.old.items seen.new.items }
        ensures looked { OnOk result (IsLookedAt contents.now seen.new.items root) }
        ensures learned { OnOk result (IsLearned contents.now self.new root) }
    {
        match contents.get(&root) {
            Some(bytes) => {
                if bytes.len() > META_LIMIT {
                    return Ok(());
                }
                self.look_at(root, bytes, seen)
            }
            None => Ok(()),
        }
    }

    fn look_at(
        &mut self,
        root: Root,
        bytes: &[u8],
        seen: &mut Vec<LookedAt>,
    ) -> Result<(), AllocError>
        ensures learns { OnOk result (Learns root (Some (Read bytes.now)) self.old self.new) }
        ensures seen { OnOk result (seen.new.items ≡ seen.old.items ++ record { root = root; bytes = bytes.now } ∷ []) }
        ensures err { OnErr result (self.new ≡ self.old) }
        ensures unseen { OnErr result (seen.new.items ≡ seen.old.items) }
    {
        let kept = Bytes::make(Vec::from_slice(self.alloc, bytes)?);
        let meta = Vec::from_slice(self.alloc, bytes)?;
        seen.reserve(1)?;
        self.learn(root, meta)?;
        seen.push_reserved(LookedAt { root, bytes: kept });
        Ok(())
    }

    /// Looks at each of these packages that the books don't know.
    pub fn look_at_each(
        &mut self,
        contents: &Contents,
        roots: &[Root],
        seen: &mut Vec<LookedAt>,
    ) -> Result<(), AllocError>
        ensures sees { Sees contents.now seen.old.items seen.new.items self.old self.new }
        ensures among { AreAmong roots.now seen.old.items seen.new.items }
        ensures learned { OnOk result (AreLearned contents.now roots.now self.new) }
    {
        for root in roots {
            self.look_unless_known(contents, *root, seen)?;
        }
        Ok(())
    }

    fn look_unless_known(
        &mut self,
        contents: &Contents,
        root: Root,
        seen: &mut Vec<LookedAt>,
    ) -> Result<(), AllocError>
        ensures sees { Sees contents.now seen.old.items seen.new.items self.old self.new }
        ensures among { AreAmong (root ∷ []) seen.old.items seen.new.items }
        ensures learned { OnOk result (IsLearned contents.now self.new root) }
    {
        if self.is_known(&root) {
            return Ok(());
        }
        self.look(contents, root, seen)
    }

    /// Looks at the two lists of the system with this package.
    pub fn look_at_lists(
        &mut self,
        contents: &Contents,
        system: &Root,
        seen: &mut Vec<LookedAt>,
    ) -> Result<(), AllocError>
        ensures sees { Sees contents.now seen.old.items seen.new.items self.old self.new }
        ensures lists { OnOk result (AreListsSeen contents.now seen.new.items self.old system.now) }
    {
        self.look_at_list(contents, system, b"data/static_packages", seen)?;
        self.look_at_list(contents, system, b"data/cache_packages.json", seen)
    }

    // Looks at the system package's file of this path, if it has one.
    fn look_at_list(
        &mut self,
        contents: &Contents,
        system: &Root,
        path: &[u8],
        seen: &mut Vec<LookedAt>,
    ) -> Result<(), AllocError>
        ensures sees { Sees contents.now seen.old.items seen.new.items self.old self.new }
        ensures list { OnOk result (IsListSeen contents.now seen.new.items self.old system.now path.now) }
    {
        let Ok(file) = read_file(self.alloc, path) else {
            return Err(AllocError);
        };
        match self.outer_of(system, &file) {
            Some(root) => self.look(contents, root, seen),
            None => Ok(()),
        }
    }
}
