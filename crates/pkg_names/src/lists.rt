//! Vectors and a string that contracts see as lists.

ghost use Rattle.std.specs.Prelude.{◌≡◌, IfOk};
ghost use Rattle.std.specs.String.{string_bytes};

use crate::root::Root;
use std::alloc::{AllocError, Global};
use std::marker::Model;

/// A vector. Contracts see the list of its items.
#[derive(Debug, Drop)]
pub struct Items<T> {
    items: Vec<T>,
}

/// A vector of bytes.
pub type Bytes = Items<u8>;

/// A vector of roots.
pub type Roots = Items<Root>;

impl<T> Model for Items<T> {
    ghost use Rattle.std.specs.Prelude.{List};
    ghost use Rattle.std.specs.Coded.{coded_list};

    ghost Value = { List T };

    ghost coded = { coded_list T.code };

    ghost view = { λ b. b.items.items };
}

impl<T> Items<T> {
    pub fn make(items: Vec<T>) -> Items<T>
        ensures list { result ≡ items.items }
    {
        Items { items }
    }

    pub fn as_slice(&self) -> &[T]
        ensures list { result.now ≡ self.now }
    {
        &self.items
    }

    /// The vector that these are.
    pub fn into_vec(self) -> Vec<T>
        ensures list { result.items ≡ self }
    {
        self.items
    }
}

impl<T: Copy> Items<T> {
    /// Equal items.
    pub fn try_copy(&self, alloc: Global) -> Result<Items<T>, AllocError>
        ensures same { IfOk result (λ items. items ≡ self.now) }
    {
        Ok(Items::make(Vec::from_slice(alloc, self.as_slice())?))
    }
}

impl<T: PartialEq> PartialEq for Items<T> {
    ghost use Rattle.std.specs.Cmp.Lexicographic.{pointwise};
    ghost use Rattle.std.specs.Cmp.Rules.{comparing};
    ghost use Rattle.std.proofs.Common.{rules};

    ghost eq = { pointwise T.eq };

    ghost laws = { Prim.search (comparing, rules) };

    fn eq(&self, other: &Items<T>) -> bool {
        self.as_slice() == other.as_slice()
    }
}

impl<T: Eq> Eq for Items<T> {
    ghost use Rattle.std.specs.Cmp.Rules.{comparing};
    ghost use Rattle.std.proofs.Common.{rules};

    ghost laws = { Prim.search (comparing, rules) };
}

/// A text, which contracts see as its bytes.
#[derive(Debug, Drop)]
pub struct Texts {
    text: String,
}

impl Model for Texts {
    ghost use Rattle.std.specs.Prelude.{List, ℕ};
    ghost use Rattle.std.specs.String.{string_bytes};

    ghost Value = { List ℕ };

    ghost view = { λ t. string_bytes t.text };
}

impl Texts {
    pub fn make(text: String) -> Texts
        ensures bytes { result ≡ string_bytes text }
    {
        Texts { text }
    }

    pub fn as_slice(&self) -> &[u8]
        ensures bytes { result.now ≡ self.now }
    {
        self.text.as_bytes()
    }
}
