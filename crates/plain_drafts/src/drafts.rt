//! The bytes that lanes have put under their claims.

ghost use Rattle.std.specs.Prelude.{◌≡◌, ◌==◌, ◌+◌, ◌≤◌, ◌++◌, [], length, map, option_copied, IfOk, OnOk, OnErr};
ghost use Rattle.std.specs.List.{position};
ghost use Rattle.plain_drafts.specs.Drafts.{DraftOf, Drafted, added, draft_of, draft_with, room_in, without_draft};

use pkg_names::Bytes;
use std::alloc::{AllocError, Global};
use std::marker::Model;

/// The bytes that a lane has put under its claim, in the room that was made for them.
#[derive(Drop)]
struct Draft {
    lane: u32,
    room: usize,
    bytes: Vec<u8>,
}

impl Model for Draft {
    ghost use Rattle.std.specs.Prelude.{◌≤◌, vec_capacity, vec_len};
    ghost use Rattle.plain_drafts.specs.Drafts.{DraftOf};

    ghost Value = { DraftOf };

    ghost view = { λ d. record { lane = d.lane; room = d.room; bytes = d.bytes.items } };

    // Bytes within the room need no more memory.
    ghost invariant = { λ d. (vec_len d.bytes ≤ d.room) × (d.room ≤ vec_capacity d.bytes) };
}

/// The drafts of all lanes that have room for a blob.
#[derive(Drop)]
pub struct Drafts {
    drafts: Vec<Draft>,
}

impl Model for Drafts {
    ghost use Rattle.std.specs.Prelude.{List};
    ghost use Rattle.plain_drafts.specs.Drafts.{DraftOf};

    ghost Value = { List DraftOf };

    ghost view = { λ d. d.drafts.items };
}

impl Drafts {
    pub fn new(alloc: Global) -> Drafts
        ensures { result ≡ [] }
    {
        Drafts {
            drafts: Vec::new(alloc),
        }
    }

    /// The bytes that the lane has put. Without a draft there are none.
    pub fn bytes_of(&self, lane: u32) -> &[u8]
        ensures { result.now ≡ draft_of self.now lane }
    {
        match draft_with(&self.drafts, lane) {
            Some(draft) => draft.bytes(),
            None => &[],
        }
    }

    /// The room that the lane has.
    pub fn room_of(&self, lane: u32) -> usize
        ensures { result ≡ room_in self.now lane }
    {
        match draft_with(&self.drafts, lane) {
            Some(draft) => draft.room(),
            None => 0,
        }
    }

    /// The lane has room for so many bytes from now on, and has put none.
    pub fn begin(&mut self, alloc: Global, lane: u32, room: usize) -> Result<(), AllocError>
        ensures ok { OnOk result (Drafted lane room [] self.old self.new) }
        ensures err { OnErr result (Drafted lane 0 [] self.old self.new) }
    {
        self.end(lane);
        let draft = Draft::make(alloc, lane, room)?;
        self.drafts.push(draft)?;
        Ok(())
    }

    /// These bytes come behind those that the lane has put.
    pub fn add(&mut self, lane: u32, bytes: &[u8])
        requires { length (draft_of self.old lane) + length bytes.now ≤ room_in self.old lane }
        ensures { Drafted lane (room_in self.old lane) (draft_of self.old lane ++ bytes.now) self.old self.new }
    {
        add(&mut self.drafts, lane, bytes);
    }

    /// Gives the bytes that the lane has put, without a copy. It has no room for a blob from now on.
    pub fn take(&mut self, alloc: Global, lane: u32) -> Bytes
        ensures bytes { result ≡ draft_of self.old lane }
        ensures list { self.new ≡ without_draft self.old lane }
        ensures drafted { Drafted lane 0 [] self.old self.new }
    {
        let bytes = take_first(alloc, &mut self.drafts, lane);
        self.end(lane);
        bytes
    }

    /// The lane has no room for a blob from now on.
    pub fn end(&mut self, lane: u32)
        ensures list { self.new ≡ without_draft self.old lane }
        ensures drafted { Drafted lane 0 [] self.old self.new }
    {
        self.drafts.retain(|draft| draft.lane != lane);
    }
}

fn draft_with(drafts: &[Draft], lane: u32) -> Option<&Draft>
    ensures { option_copied result ≡ draft_with drafts.now lane }
{
    drafts.iter().find(|draft| draft.lane == lane)
}

// The place of the lane's first draft.
fn place_of(drafts: &[Draft], lane: u32) -> Option<usize>
    ensures { result ≡ position (λ (draft : DraftOf). draft.lane == lane) drafts.now }
{
    drafts.iter().position(|draft| draft.lane == lane)
}

// Takes the lane's first draft out of the drafts, and gives its bytes.
fn take_first(alloc: Global, drafts: &mut Vec<Draft>, lane: u32) -> Bytes
    ensures bytes { result ≡ draft_of drafts.old.items lane }
    ensures others { without_draft drafts.new.items lane ≡ without_draft drafts.old.items lane }
{
    match place_of(drafts, lane) {
        Some(place) => drafts.remove(place).into_bytes(),
        None => Bytes::make(Vec::new(alloc)),
    }
}

fn add(drafts: &mut [Draft], lane: u32, bytes: &[u8])
    ensures { drafts.new ≡ map (added lane bytes.now) drafts.old }
{
    for draft in drafts.iter_mut() {
        draft.add(lane, bytes);
    }
}

impl Draft {
    // Room without bytes.
    fn make(alloc: Global, lane: u32, room: usize) -> Result<Draft, AllocError>
        ensures { IfOk result (λ draft. draft ≡ record { lane = lane; room = room; bytes = [] }) }
    {
        let bytes = Vec::with_capacity(alloc, room)?;
        Ok(Draft { lane, room, bytes })
    }

    fn bytes(&self) -> &[u8]
        ensures { result.now ≡ self.now.bytes }
    {
        &self.bytes
    }

    // The bytes that were put.
    fn into_bytes(self) -> Bytes
        ensures { result ≡ self.bytes }
    {
        Bytes::make(self.bytes)
    }

    fn room(&self) -> usize
        ensures { result ≡ self.now.room }
    {
        self.room
    }

    // The bytes come behind those that are there, if the draft is the lane's and has room for them.
    fn add(&mut self, lane: u32, bytes: &[u8])
        ensures { self.new ≡ added lane bytes.now self.old }
    {
        if self.lane == lane && bytes.len() <= self.room - self.bytes.len() {
            // It fits, so no memory is wanting.
            let _ = self.bytes.extend_from_slice(bytes);
        }
    }
}
