//! The draft of a blob.

ghost use Rattle.std.specs.Prelude.{◌≡◌, ◌+◌, ◌*◌, ◌<◌, ◌≤◌, ◌↔◌, ℕ, List, [], ◌++◌, length, take, drop, vec_capacity, IsErr, IsSome, IfOk, IfErr, IfSome, OnOk, OnErr};
ghost use Rattle.std.specs.Option.{option_map};
ghost use Rattle.pkg_merkle.specs.declared.hasher.TheConstants.{BYTES_LIMIT};

use crate::tail::{begun_page, forget_front, room_for, to_forget};
use pkg_merkle::Hasher;
use pkg_names::{Bytes, Root};
use std::alloc::{AllocError, Global};
use std::marker::Model;

/// The bytes of a page.
pub const PAGE_SIZE: usize = 4096;

/// The most bytes of a piece.
pub const PIECE_LIMIT: usize = 65_536;

/// The most bytes of a blob whose draft keeps them all.
pub const KEPT_LIMIT: u64 = 1_048_576;

/// More bytes came than were declared.
#[derive(Clone, Copy, Debug, PartialEq, Eq)]
pub struct Long {
    pub len: u64,
}

/// What is left to do with a blob that came whole.
#[derive(Drop)]
pub struct Whole {
    /// The last page, with zeros behind its bytes, where it has a byte and wasn't passed.
    pub open: Option<[u8; 4096]>,
    /// All bytes, where they are at most `KEPT_LIMIT`.
    pub kept: Option<Bytes>,
}

/// What came of a draft.
#[derive(Drop)]
pub enum DraftEnd {
    /// As many bytes came as were declared, and they have the declared root.
    Whole(Whole),
    /// Fewer bytes came.
    Short { have: u64 },
    /// As many bytes came, and they have another root.
    Wrong { got: Root },
}

/// A blob that comes in pieces. Each page is full once its 4096 bytes came; whoever writes it then
/// passes it. So the draft holds no more than a piece and a page, and the bytes that it keeps.
#[derive(Drop)]
pub struct Draft {
    root: Root,
    len: u64,
    hasher: Hasher,
    // How many pages were passed.
    pages: usize,
    // The last bytes that came: all of them where the draft keeps its bytes.
    tail: Vec<u8>,
    // How many of these are of pages that were passed.
    from: usize,
}

impl Model for Draft {
    ghost use Rattle.blob_pages.specs.Draft.{Progress, progress, IsDraft};

    ghost Value = { Progress };

    ghost view = { λ d. progress d.root d.len d.hasher d.pages d.tail.items d.from };

    ghost invariant = { λ d. IsDraft d.len d.hasher d.pages d.tail d.from };
}

impl Draft {
    ghost use Rattle.blob_pages.specs.Pages.{page_of};
    ghost use Rattle.blob_pages.specs.Draft.{have, IsDraftOf, HasNoFullPage, kept_of, EndsAs, LeavesOpen};

    /// The draft of a blob of this root and length, of which nothing came yet.
    pub fn make(alloc: Global, root: Root, len: u64) -> Result<Draft, AllocError>
        requires { len ≤ BYTES_LIMIT }
        ensures declared { IfOk result (λ draft. (draft.root ≡ root) × (draft.len ≡ len)) }
        ensures empty { IfOk result (λ draft. IsDraftOf draft []) }
        ensures pages { IfOk result (λ draft. draft.pages ≡ 0) }
        ensures open { IfOk result (λ draft. HasNoFullPage draft) }
    {
        let tail = Vec::with_capacity(alloc, room_for(len))?;
        Ok(Draft {
            root,
            len,
            hasher: Hasher::new(),
            pages: 0,
            tail,
            from: 0,
        })
    }

    /// The declared root.
    pub fn root(&self) -> Root
        ensures { result ≡ self.now.root }
    {
        self.root
    }

    /// The declared length.
    pub fn len(&self) -> u64
        ensures { result ≡ self.now.len }
    {
        self.len
    }

    /// How many bytes came.
    pub fn have(&self) -> u64
        ensures count { result ≡ have self.now }
        ensures parts { result ≡ PAGE_SIZE * self.now.pages + length self.now.rest }
        ensures most { result ≤ self.now.len }
        ensures limit { self.now.len ≤ BYTES_LIMIT }
    {
        (PAGE_SIZE * self.pages + (self.tail.len() - self.from)) as u64
    }

    /// How many pages were passed.
    pub fn pages(&self) -> u32
        ensures { result ≡ self.now.pages }
    {
        self.pages as u32
    }

    /// Takes the next bytes of the blob: it hashes them, and keeps what is to be written or kept.
    pub fn add(&mut self, bytes: &[u8]) -> Result<(), Long>
        requires piece { length bytes.now ≤ PIECE_LIMIT }
        requires open { HasNoFullPage self.old }
        ensures long { IsErr result ↔ (self.old.len < have self.old + length bytes.now) }
        ensures told { IfErr result (λ long. long.len ≡ self.old.len) }
        ensures ok { OnOk result ((blob : List ℕ) → IsDraftOf self.old blob
            → IsDraftOf self.new (blob ++ bytes.now)) }
        ensures declared { OnOk result ((self.new.root ≡ self.old.root)
            × (self.new.len ≡ self.old.len) × (self.new.pages ≡ self.old.pages)) }
        ensures count { OnOk result (have self.new ≡ have self.old + length bytes.now) }
        ensures rest { OnOk result (self.new.rest ≡ self.old.rest ++ bytes.now) }
        ensures err { OnErr result (self.new ≡ self.old) }
    {
        if self.len - self.have() < bytes.len() as u64 {
            return Err(Long { len: self.len });
        }
        let passed = to_forget(self.len, self.from);
        forget_front(&mut self.tail, passed);
        self.from -= passed;
        let _ = self.hasher.update(bytes);
        let _ = self.tail.extend_from_slice(bytes);
        Ok(())
    }

    /// The next page that is full and wasn't passed.
    pub fn full_page(&self) -> Option<&[u8; 4096]>
        ensures some { IsSome result ↔ (PAGE_SIZE ≤ length self.now.rest) }
        ensures front { IfSome result (λ page. page.now ≡ take PAGE_SIZE self.now.rest) }
        ensures page { (blob : List ℕ) → IsDraftOf self.now blob
            → IfSome result (λ page. page.now ≡ page_of blob self.now.pages) }
    {
        self.tail[self.from..].first_chunk()
    }

    /// Passes the next full page, which was written.
    pub fn pass_page(&mut self)
        requires { PAGE_SIZE ≤ length self.old.rest }
        ensures passed { self.new
            ≡ record self.old { pages = self.old.pages + 1; rest = drop PAGE_SIZE self.old.rest } }
        ensures stands { (blob : List ℕ) → IsDraftOf self.old blob → IsDraftOf self.new blob }
    {
        self.pages += 1;
        self.from += PAGE_SIZE;
    }

    /// All bytes so far, where the declared length is at most `KEPT_LIMIT`.
    pub fn kept(&self) -> Option<&[u8]>
        ensures value { option_map (λ bytes. bytes.now) result ≡ self.now.kept }
        ensures bytes { (blob : List ℕ) → IsDraftOf self.now blob
            → option_map (λ bytes. bytes.now) result ≡ kept_of self.now.len blob }
    {
        if self.len <= KEPT_LIMIT {
            Some(&self.tail)
        } else {
            None
        }
    }

    /// Whether the blob came whole, and what is left to do with it.
    pub fn end(self) -> DraftEnd
        requires { HasNoFullPage self }
        ensures ends { (blob : List ℕ) → IsDraftOf self blob → EndsAs self blob result }
        ensures begun { LeavesOpen self.len result }
    {
        let Draft {
            root,
            len,
            hasher,
            pages,
            tail,
            from,
        } = self;
        let have = (PAGE_SIZE * pages + (tail.len() - from)) as u64;
        if have < len {
            return DraftEnd::Short { have };
        }
        let got = hasher.finish();
        if got != root {
            return DraftEnd::Wrong { got };
        }
        let open = begun_page(&tail[from..]);
        let kept = if len <= KEPT_LIMIT {
            Some(Bytes::make(tail))
        } else {
            None
        };
        DraftEnd::Whole(Whole { open, kept })
    }
}
