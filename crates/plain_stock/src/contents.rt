//! The bytes of the blobs that are stored.

ghost use Rattle.std.specs.Prelude.{◌≡◌, true, [], Some, None, OnOk, OnErr, is_some, option_copied};
ghost use Rattle.store_model.specs.Systems.{seen_bytes};
ghost use Rattle.plain_stock.specs.Contents.{Holds};

use pkg_names::{Bytes, Root};
use std::alloc::{AllocError, Global};
use std::collections::BTreeMap;
use std::marker::Model;

/// Blobs by their roots. Contracts see a list of roots with their bytes, which is read as a map.
#[derive(Drop)]
pub struct Contents {
    blobs: BTreeMap<Root, Bytes>,
}

impl Model for Contents {
    ghost use Rattle.std.specs.Prelude.{List};
    ghost use Rattle.store_model.specs.declared.events.LookedAt.{LookedAt};
    ghost use Rattle.plain_stock.specs.Contents.{contents_in};

    ghost Value = { List LookedAt };

    ghost view = { λ c. contents_in c.blobs };
}

impl Contents {
    /// No blobs.
    pub fn new(alloc: Global) -> Contents
        ensures { result ≡ [] }
    {
        Contents {
            blobs: BTreeMap::new(alloc),
        }
    }

    /// The bytes of a blob.
    pub fn get(&self, root: &Root) -> Option<&[u8]>
        ensures { option_copied result ≡ seen_bytes self.now root.now }
    {
        match self.blobs.get(root) {
            Some(bytes) => Some(bytes.as_slice()),
            None => None,
        }
    }

    /// The root has these bytes from now on.
    pub fn put(&mut self, root: Root, bytes: Bytes) -> Result<(), AllocError>
        ensures ok { OnOk result (Holds root (Some bytes) self.old self.new) }
        ensures err { OnErr result (self.new ≡ self.old) }
    {
        self.blobs.insert(root, bytes)?;
        Ok(())
    }

    /// The root has a place from now on, without bytes.
    pub fn reserve(&mut self, alloc: Global, root: Root) -> Result<(), AllocError>
        ensures ok { OnOk result (Holds root (Some []) self.old self.new) }
        ensures err { OnErr result (self.new ≡ self.old) }
    {
        self.put(root, Bytes::make(Vec::new(alloc)))
    }

    /// The root, which has a place, has these bytes from now on. It takes no memory.
    pub fn fill(&mut self, root: &Root, bytes: Bytes)
        requires { is_some (seen_bytes self.old root.now) ≡ true }
        ensures { Holds root.now (Some bytes) self.old self.new }
    {
        if let Some(place) = self.blobs.get_mut(root) {
            *place = bytes;
        }
    }

    /// Takes a blob away, if it is there.
    pub fn remove(&mut self, root: &Root)
        ensures { Holds root.now None self.old self.new }
    {
        let _ = self.blobs.remove(root);
    }
}
