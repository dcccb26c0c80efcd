ghost use Rattle.std.specs.Prelude.{◌≡◌, ◌↔◌, [], List, Option, Ok, Err};
ghost use Rattle.pkg_names.specs.declared.pinned.Pinned.{Pinned as PinnedOf};
ghost use Rattle.system_lists.specs.declared.list.ListFault.{ListFault as FaultOf};
ghost use Rattle.system_lists.specs.Entries.{listed, IsMadeOf, IsFirstFault};
ghost use Rattle.system_lists.specs.Lists.{has_path_of};

use crate::list::{ENTRY_LIMIT, LIST_LIMIT};

/// The numbers that definitions cite by name.
pub fn limits()
    ensures entries { ENTRY_LIMIT ≡ 4096 }
    ensures bytes { LIST_LIMIT ≡ 1_048_576 }
{}

/// A list is made of its entries exactly where each says a package, no path stands twice and they are not
/// too many. Else it has the first fault: the entries before that one make a list.
pub fn lists_are_made_of_entries()
    ensures made { (entries : List (Option PinnedOf)) (list : List PinnedOf) →
        (listed has_path_of [] entries ≡ Ok list) ↔ IsMadeOf has_path_of entries list }
    ensures refused { (entries : List (Option PinnedOf)) (fault : FaultOf) →
        (listed has_path_of [] entries ≡ Err fault) ↔ IsFirstFault has_path_of entries fault }
{}
