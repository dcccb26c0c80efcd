//! Packages that are asked for, and what becomes of them.

ghost use Rattle.std.specs.Prelude.{◌≡◌, [], Some, is_some, IfSome, IfOk, OnOk, OnErr, length};
ghost use Rattle.pkg_merkle.specs.Merkle.{merkle_root};
ghost use Rattle.store_model.specs.declared.ends.BeginEnd.TheVariants as begun;
ghost use Rattle.store_model.specs.declared.ends.WantEnd.TheVariants as wants;
ghost use Rattle.store_model.specs.declared.events.Act.TheVariants as acts;
ghost use Rattle.store_model.specs.State.{stored_len};
ghost use Rattle.store_model.specs.Acts.Begin.{begin_answer, has_to_read};
ghost use Rattle.store_model.specs.Acts.Want.{IsDueWant};
ghost use Rattle.store_model.specs.Acts.GaveUp.{IsDueGaveUp};
ghost use Rattle.plain_state.specs.Learning.{seen_of};
ghost use Rattle.plain_ledger.specs.Ledgers.{Notes, NotesAt, Stays};

use crate::ledger::{Ledger, make_room};
use package_indexes::Choice;
use pkg_names::{Bytes, PackagePath, Root};
use std::alloc::AllocError;
use store_model::{Act, BeginEnd, Cause, Looked, WantEnd};

impl Ledger {
    /// A package is asked for, and arrives. Takes its meta blob, where that has to be read, and the same as
    /// what was looked at.
    pub fn arrive(
        &mut self,
        lane: u32,
        path: PackagePath,
        choice: Choice,
        root: Root,
        meta: Option<Bytes>,
        seen: Looked,
    ) -> Result<u64, AllocError>
        requires answer { begin_answer self.old.state path choice ≡ begun.Ticket root }
        requires read { is_some meta ≡ has_to_read self.old.state root }
        requires bytes { IfSome meta (λ bytes. (merkle_root bytes ≡ root)
            × (stored_len self.old.state.stock root ≡ Some (length bytes))) }
        requires seen { seen ≡ seen_of root meta }
        ensures ok { IfOk result (NotesAt self.old lane (acts.Begin path choice (begun.Ticket root) seen) self.new) }
        ensures err { OnErr result (Stays self.old self.new) }
    {
        let number = self.history.next_number();
        make_room(&mut self.history, &self.state, 2)?;
        self.state.begin(number, lane, &path, root, meta)?;
        let reply = BeginEnd::Ticket(root);
        self.history.note(
            lane,
            Act::Begin {
                path,
                choice,
                reply,
                seen,
            },
        );
        Ok(number)
    }

    /// A package that arrives can't be had.
    pub fn fail(&mut self, lane: u32, ticket: u64, cause: Cause)
        requires { IsDueWant self.old.state lane ticket (wants.Failed cause) }
        ensures { Notes self.old lane (acts.Want ticket (wants.Failed cause)) self.new }
    {
        self.state.end_ticket(ticket);
        let reply = WantEnd::Failed(cause);
        self.history.note(lane, Act::Want { ticket, reply });
    }

    /// A package that arrives is opened. The event's number is the directory.
    pub fn open_ticket(&mut self, lane: u32, ticket: u64) -> Result<u64, AllocError>
        requires { IsDueWant self.old.state lane ticket wants.Opened }
        ensures ok { IfOk result (NotesAt self.old lane (acts.Want ticket wants.Opened) self.new) }
        ensures err { OnErr result (Stays self.old self.new) }
    {
        let number = self.history.next_number();
        make_room(&mut self.history, &self.state, 1)?;
        self.state.open_arrived(number, lane, ticket)?;
        let reply = WantEnd::Opened;
        self.history.note(lane, Act::Want { ticket, reply });
        Ok(number)
    }

    /// A blob of a package that arrives is to be fetched.
    pub fn grant(&mut self, lane: u32, ticket: u64, root: Root) -> Result<(), AllocError>
        requires { IsDueWant self.old.state lane ticket (wants.Fetch root) }
        ensures ok { OnOk result (Notes self.old lane (acts.Want ticket (wants.Fetch root)) self.new) }
        ensures err { OnErr result (Stays self.old self.new) }
    {
        make_room(&mut self.history, &self.state, 2)?;
        self.state.grant(root, lane)?;
        let reply = WantEnd::Fetch(root);
        self.history.note(lane, Act::Want { ticket, reply });
        Ok(())
    }

    /// A ticket is given up.
    pub fn give_up(&mut self, lane: u32, ticket: u64)
        requires { IsDueGaveUp self.old.state lane ticket }
        ensures { Notes self.old lane (acts.GaveUp ticket) self.new }
    {
        self.state.end_ticket(ticket);
        self.history.note(lane, Act::GaveUp { ticket });
    }
}
