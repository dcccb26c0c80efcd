//! Blobs that are fetched.

ghost use Rattle.std.specs.Prelude.{◌≡◌, ◌&&◌, [], None, Some, is_some, nat_le, length, IfSome, OnOk, OnErr};
ghost use Rattle.package_book.specs.declared.book.TheConstants.{META_LIMIT};
ghost use Rattle.pkg_merkle.specs.Merkle.{merkle_root};
ghost use Rattle.store_model.specs.declared.events.Act.TheVariants as acts;
ghost use Rattle.store_model.specs.State.{has_root, protected_in};
ghost use Rattle.store_model.specs.Acts.Room.{IsDueRoom};
ghost use Rattle.store_model.specs.Acts.Put.{IsDuePut};
ghost use Rattle.store_model.specs.Acts.Land.{IsDueLand};
ghost use Rattle.store_model.specs.Acts.Missed.{IsDueMissed, next_missed};
ghost use Rattle.plain_state.specs.Learning.{seen_of};
ghost use Rattle.plain_ledger.specs.Ledgers.{Notes, Stays};

use crate::ledger::{Ledger, make_room};
use fetch_queue::FetchEnd;
use pkg_names::{Bytes, Root};
use plain_state::State;
use std::alloc::AllocError;
use store_model::{Act, Looked, Miss};

impl Ledger {
    /// Room is made for a claimed blob.
    pub fn give_room(&mut self, lane: u32, root: Root, len: u64) -> Result<(), AllocError>
        requires { IsDueRoom self.old.state lane root len None }
        ensures ok { OnOk result (Notes self.old lane (acts.Room root len None) self.new) }
        ensures err { OnErr result (Stays self.old self.new) }
    {
        make_room(&mut self.history, &self.state, 1)?;
        self.state.make_room(&root, len);
        self.history.note(
            lane,
            Act::Room {
                root,
                len,
                reply: None,
            },
        );
        Ok(())
    }

    /// There is no room for a claimed blob.
    pub fn end_room(&mut self, lane: u32, root: Root, len: u64, end: FetchEnd)
        requires { IsDueRoom self.old.state lane root len (Some end) }
        ensures { Notes self.old lane (acts.Room root len (Some end)) self.new }
    {
        self.state.end_claim(&root, end);
        let reply = Some(end);
        self.history.note(lane, Act::Room { root, len, reply });
    }

    /// More bytes came for a claimed blob than were declared.
    pub fn end_put(&mut self, lane: u32, root: Root, end: FetchEnd)
        requires { IsDuePut self.old.state lane root (Some end) }
        ensures { Notes self.old lane (acts.Put root (Some end)) self.new }
    {
        self.state.end_claim(&root, end);
        let reply = Some(end);
        self.history.note(lane, Act::Put { root, reply });
    }

    /// The bytes of a claimed blob are too few, or others. What was looked at is empty.
    pub fn end_land(&mut self, lane: u32, root: Root, len: u64, end: FetchEnd)
        requires { IsDueLand self.old.state lane root len (Some end) }
        ensures { Notes self.old lane (acts.Land root len (Some end) []) self.new }
    {
        self.state.end_claim(&root, end);
        let reply = Some(end);
        let seen = Looked::make(Vec::new(self.alloc));
        self.history.note(
            lane,
            Act::Land {
                root,
                len,
                reply,
                seen,
            },
        );
    }

    /// A claimed blob is stored. Takes its bytes, where a protected package's book needs them, and the same as
    /// what was looked at.
    pub fn land(
        &mut self,
        lane: u32,
        root: Root,
        len: u64,
        meta: Option<Bytes>,
        seen: Looked,
    ) -> Result<(), AllocError>
        requires due { IsDueLand self.old.state lane root len None }
        requires read { is_some meta ≡ (has_root (protected_in self.old.state) root && nat_le len META_LIMIT) }
        requires bytes { IfSome meta (λ bytes. (merkle_root bytes ≡ root) × (length bytes ≡ len)) }
        requires seen { seen ≡ seen_of root meta }
        ensures ok { OnOk result (Notes self.old lane (acts.Land root len None seen) self.new) }
        ensures err { OnErr result (Stays self.old self.new) }
    {
        self.state.store(root, len, meta)?;
        self.history.note(
            lane,
            Act::Land {
                root,
                len,
                reply: None,
                seen,
            },
        );
        Ok(())
    }

    /// A claim ends without bytes.
    pub fn miss(&mut self, lane: u32, root: Root, why: Miss)
        requires { IsDueMissed self.old.state lane root }
        ensures { Notes self.old lane (acts.Missed root why) self.new }
    {
        end_missed(&mut self.state, &root, why);
        self.history.note(lane, Act::Missed { root, why });
    }
}

// The claim goes. For want of memory no package is marked.
fn end_missed(state: &mut State, root: &Root, why: Miss)
    ensures { state.new ≡ next_missed state.old root.now why }
{
    match why {
        Miss::Absent => state.end_claim(root, FetchEnd::Absent),
        Miss::Read => state.end_claim(root, FetchEnd::Read),
        Miss::Memory => state.unclaim(root),
    }
}
