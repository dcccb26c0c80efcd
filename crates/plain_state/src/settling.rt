//! Acts that change what the books have to know, each with what the event leaves of the books.

ghost use Rattle.std.specs.Prelude.{◌≡◌, ◌≢◌, ◌&&◌, [], All, Bool, true, false, is_some, nat_le, Some, None, OnOk, OnErr};
ghost use Rattle.open_tracker.specs.Directories.{root_of};
ghost use Rattle.package_book.specs.Books.Meta.{Long};
ghost use Rattle.store_model.specs.declared.ends.BeginEnd.TheVariants as begun;
ghost use Rattle.store_model.specs.Mirrors.{Mirrors};
ghost use Rattle.store_model.specs.State.{stored_len, is_stored, has_root, protected_in};
ghost use Rattle.store_model.specs.Acts.Begin.{has_to_read, next_begin};
ghost use Rattle.store_model.specs.Acts.GaveUp.{next_gave_up};
ghost use Rattle.store_model.specs.Acts.Land.{next_land};
ghost use Rattle.store_model.specs.Acts.Close.{IsDueClose, next_close};
ghost use Rattle.plain_state.specs.Learning.{Learns, Forgets, IsReady, IsSettled, listed, first_known, looked_at, long_of, told_at, seen_of};

use crate::state::State;
use package_book::META_LIMIT;
use pkg_names::{Bytes, PackagePath, Root};
use std::alloc::AllocError;

impl State {
    /// Closes the lane's directory with this number, and tells whether it was open.
    pub fn close_dir(&mut self, dir: u64, lane: u32) -> bool
        requires { IsReady self.old }
        ensures settled { IsSettled [] (next_close self.old lane dir) self.new }
        ensures was_open { IsDueClose self.old lane dir result }
    {
        let root = self.root_of_dir(dir, lane);
        let closed = self.close(dir, lane);
        self.forget_found(root);
        closed
    }

    /// The package of a ticket arrives no longer: it is given up, or can't be had.
    pub fn end_ticket(&mut self, ticket: u64)
        requires { IsReady self.old }
        ensures { IsSettled [] (next_gave_up self.old ticket) self.new }
    {
        let root = self.root_of_ticket(ticket);
        self.give_up(ticket);
        self.forget_found(root);
    }

    /// A package arrives under a new ticket. Takes its meta blob, where that has to be read.
    pub fn begin(
        &mut self,
        number: u64,
        lane: u32,
        path: &PackagePath,
        root: Root,
        meta: Option<Bytes>,
    ) -> Result<(), AllocError>
        requires ready { IsReady self.old }
        requires fresh { All (λ arrival. arrival.ticket ≢ number) self.old.arriving }
        requires read { is_some meta ≡ has_to_read self.old root }
        ensures ok { OnOk result
            (IsSettled (seen_of root meta) (next_begin self.old number lane path.now (begun.Ticket root)) self.new) }
        ensures err { OnErr result (Mirrors self.old self.new) }
    {
        let is_new = !self.is_known(&root);
        self.learn_stored(root, meta)?;
        if let Err(fault) = self.arrive(number, lane, path, root) {
            if is_new {
                self.unlearn(&root);
            }
            return Err(fault);
        }
        Ok(())
    }

    // The books learn of a package: by the bytes that are given, or by its length, if it is too long to be read.
    fn learn_stored(&mut self, root: Root, meta: Option<Bytes>) -> Result<(), AllocError>
        ensures ok { OnOk result (Learns root (told_at (seen_of root meta) self.old.stock root) self.old self.new) }
        ensures err { OnErr result (self.new ≡ self.old) }
    {
        match meta {
            Some(bytes) => self.learn(root, bytes.into_vec()),
            None => self.learn_length(root),
        }
    }

    pub(crate) fn learn_length(&mut self, root: Root) -> Result<(), AllocError>
        ensures ok { OnOk result (Learns root (long_of (stored_len self.old.stock root)) self.old self.new) }
        ensures err { OnErr result (self.new ≡ self.old) }
    {
        match self.stored_len(&root) {
            Some(len) if len > META_LIMIT as u64 => self.learn_long(root, len),
            _ => Ok(()),
        }
    }

    /// A blob is stored whose bytes are whole. Takes the bytes, where its package is protected and isn't too
    /// long to be read.
    pub fn store(&mut self, root: Root, len: u64, meta: Option<Bytes>) -> Result<(), AllocError>
        requires ready { IsReady self.old }
        requires missing { is_stored self.old.stock root ≡ false }
        requires read { is_some meta ≡ (has_root (protected_in self.old) root && nat_le len META_LIMIT) }
        ensures ok { OnOk result (IsSettled (seen_of root meta) (next_land self.old root len None) self.new) }
        ensures err { OnErr result (Mirrors self.old self.new) }
    {
        let learns = self.is_protected(&root);
        if learns {
            self.learn_landing(root, len, meta)?;
        }
        if let Err(fault) = self.land(root, len) {
            if learns {
                self.unlearn(&root);
            }
            return Err(fault);
        }
        Ok(())
    }

    fn learn_landing(&mut self, root: Root, len: u64, meta: Option<Bytes>) -> Result<(), AllocError>
        requires { is_some meta ≡ nat_le len META_LIMIT }
        ensures ok { OnOk result
            (Learns root (first_known (looked_at (seen_of root meta) root) (Some (Long len))) self.old self.new) }
        ensures err { OnErr result (self.new ≡ self.old) }
    {
        match meta {
            Some(bytes) => self.learn(root, bytes.into_vec()),
            None => self.learn_long(root, len),
        }
    }

    /// The package of the lane's directory with this number.
    pub fn root_of_dir(&self, dir: u64, lane: u32) -> Option<Root>
        ensures { result ≡ root_of self.now.dirs dir lane }
    {
        self.dirs.root_of(dir, lane)
    }

    // The books forget what was found, unless it is protected.
    fn forget_found(&mut self, root: Option<Root>)
        ensures { Forgets (listed root) self.old self.new }
    {
        if let Some(root) = root {
            self.forget(&root);
        }
    }
}
