//! A store with one blob, whose bytes may be damaged.

use boot_core::{Look, LookReply};
use pkg_merkle::{BYTES_LIMIT, root_of};
use pkg_names::{Bytes, Root};
use std::alloc::Global;

/// A store with one blob. It doesn't tell its bytes, which may have another root.
#[derive(Debug, Drop)]
pub struct DamagedLook {
    pub root: Root,
    pub bytes: Bytes,
}

impl Look for DamagedLook {
    ghost use Rattle.std.specs.Prelude.{[], ◌∷◌, length, None};

    ghost stock = { λ d. record { root = d.root; len = length d.bytes } ∷ [] };

    ghost blobs = { λ d. None };

    ghost faults = { λ d. 0 };

    fn len(&self, root: &Root) -> Option<u64> {
        if self.root == *root {
            Some(self.bytes.as_slice().len() as u64)
        } else {
            None
        }
    }

    fn look(&mut self, alloc: Global, root: &Root, limit: u32) -> LookReply {
        if self.root != *root {
            return LookReply::Missing;
        }
        let bytes = self.bytes.as_slice();
        let len = bytes.len() as u64;
        if len > u64::from(limit) {
            return LookReply::TooLong { len };
        }
        if bytes.len() > BYTES_LIMIT {
            return LookReply::NoMemory;
        }
        let got = root_of(bytes);
        if got != *root {
            return LookReply::Rotten { got };
        }
        match self.bytes.try_copy(alloc) {
            Ok(copy) => LookReply::Bytes(copy),
            Err(_) => LookReply::NoMemory,
        }
    }
}
