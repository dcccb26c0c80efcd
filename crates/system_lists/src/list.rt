ghost use Rattle.std.specs.Prelude.{◌≡◌, ◌<◌, ◌⊎◌, length, Err, IfErr, OnOk};
ghost use Rattle.pkg_names.specs.NameAndVariant.{path_eq};
ghost use Rattle.system_lists.specs.Entries.{placed, Adds};
ghost use Rattle.system_lists.specs.Lists.{has_path_of, is_among};
ghost use Rattle.system_lists.specs.declared.list.ListFault.TheVariants as fault;

use pkg_names::{Items, PackagePath, Pinned};
use std::alloc::AllocError;

/// Packages with their roots, no two with one path.
pub type PinnedList = Items<Pinned>;

/// The most packages that a list has.
pub const ENTRY_LIMIT: usize = 4096;

/// The most bytes of a file with a list, which is what is read of one.
pub const LIST_LIMIT: usize = 1_048_576;

/// What is wrong with a list, by the number of its entry, counted from 1.
#[derive(Clone, Copy, Debug, PartialEq, Eq)]
pub enum ListFault {
    /// The entry says nothing, or it is one too many.
    Bad { n: u32 },
    /// The entry says an item again.
    Repeat { n: u32 },
    NoMemory,
}

impl From<AllocError> for ListFault {
    ghost from_gives = { λ _ e. e ≡ fault.NoMemory };

    fn from(_e: AllocError) -> ListFault {
        ListFault::NoMemory
    }
}

/// Puts the package of an entry last, if it says one and no other has its path.
pub(crate) fn put(list: &mut Vec<Pinned>, entry: Option<Pinned>) -> Result<(), ListFault>
    requires { length list.old.items < ENTRY_LIMIT }
    ensures found { OnOk result (Adds (placed has_path_of list.old.items entry) list.old.items list.new.items) }
    ensures fault { IfErr result (λ fault. (fault ≡ ListFault.NoMemory)
        ⊎ (placed has_path_of list.old.items entry ≡ Err fault)) }
{
    let n = list.len() as u32 + 1;
    let Some(pinned) = entry else {
        return Err(ListFault::Bad { n });
    };
    if is_among(&pinned.path, list) {
        return Err(ListFault::Repeat { n });
    }
    match list.push(pinned) {
        Ok(()) => Ok(()),
        Err(_) => Err(ListFault::NoMemory),
    }
}

fn is_among(path: &PackagePath, list: &[Pinned]) -> bool
    ensures { result ≡ is_among path.now list.now }
{
    list.iter().any(|other| is_same(&other.path, path))
}

fn is_same(path: &PackagePath, other: &PackagePath) -> bool
    ensures { result ≡ path_eq path.now other.now }
{
    path.name() == other.name() && path.variant() == other.variant()
}
