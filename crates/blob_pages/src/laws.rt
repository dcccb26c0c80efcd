//! Laws of the pages of a blob, and the limits. Each function has an empty body: its contract is the law.

ghost use Rattle.std.specs.Prelude.{◌≡◌, ◌-◌, ◌*◌, ◌/◌, ◌≤◌, ℕ, List, [], ◌∷◌, ◌++◌, length, replicate};
ghost use Rattle.std.specs.List.{flat_map, range_with_len};
ghost use Rattle.disk_model.specs.declared.act.DiskAct.TheVariants.{Synced};
ghost use Rattle.blob_pages.specs.Pages.{page_of, open_page, page_count};
ghost use Rattle.blob_pages.specs.Written.{page_acts, settling_acts};

use crate::draft::{KEPT_LIMIT, PAGE_SIZE, PIECE_LIMIT};

/// The numbers that definitions cite by name.
pub fn limits()
    ensures page { PAGE_SIZE ≡ 4096 }
    ensures piece { PIECE_LIMIT ≡ 65_536 }
    ensures kept { KEPT_LIMIT ≡ 1_048_576 }
{}

/// The pages of a blob, one behind the other, are its bytes with zeros behind them.
pub fn blobs_are_their_pages()
    ensures joined { (blob : List ℕ) (count : ℕ) → length blob ≤ PAGE_SIZE * count
        → flat_map (page_of blob) (range_with_len 0 count)
        ≡ blob ++ replicate (PAGE_SIZE * count - length blob) 0 }
    ensures size { (blob : List ℕ) (i : ℕ) → length (page_of blob i) ≡ PAGE_SIZE }
{}

/// The acts of a landing. What `write_full` wrote piece after piece and what `settle_blob` did are together
/// one write of each page of the blob, in order, and a sync.
pub fn landings_write_each_page_once()
    ensures joined { (start : ℕ) (chain blob : List ℕ) (from mid to : ℕ) → from ≤ mid → mid ≤ to
        → page_acts start chain blob from mid ++ page_acts start chain blob mid to
        ≡ page_acts start chain blob from to }
    ensures settled { (start : ℕ) (chain blob : List ℕ)
        → page_acts start chain blob 0 (length blob / PAGE_SIZE)
        ++ settling_acts start chain (length blob) (open_page blob)
        ≡ page_acts start chain blob 0 (page_count (length blob)) ++ Synced ∷ [] }
{}
