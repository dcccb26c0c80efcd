//! Laws of the counts. Each function has an empty body: its contract is the law.

ghost use Rattle.std.specs.Prelude.{◌≡◌, ◌+◌, ◌^◌, ◌<◌, List, [], ◌∷◌, ◌++◌, length};
ghost use Rattle.pkg_names.specs.declared.root.Root.{Root};
ghost use Rattle.package_book.specs.Books.{Books};
ghost use Rattle.package_book.specs.Names.{names};
ghost use Rattle.package_book.specs.Unprotected.{unprotected};
ghost use Rattle.collector.specs.Counts.{Tally, CountsNames, HasRoom, IsGained, Gains, Loses, zeros};

/// Where each entry of a list of packages has gained its package's names once, the roots with the count 0
/// are the blobs that none of these packages names.
pub fn zeros_are_unprotected()
    ensures { (stock tops : List Root) (books : Books) (tally : Tally) → CountsNames tops books tally
        → zeros tally stock ≡ unprotected stock tops books }
{}

/// Counts stay those of a list of packages: an entry that comes gains its package's names, and one that
/// goes loses them. The names of an entry may always be lost, and there is room to gain those of one more.
pub fn counts_follow_packages()
    ensures none { (books : Books) → CountsNames [] books [] }
    ensures room { (tops : List Root) (top : Root) (books : Books) (tally : Tally)
        → CountsNames tops books tally → length tops + 1 < 2 ^ 128 → HasRoom (names top books) tally }
    ensures gained { (before after : List Root) (top : Root) (books : Books) (old new : Tally)
        → CountsNames (before ++ after) books old → Gains (names top books) old new
        → CountsNames (before ++ top ∷ after) books new }
    ensures held { (before after : List Root) (top : Root) (books : Books) (tally : Tally)
        → CountsNames (before ++ top ∷ after) books tally → IsGained (names top books) tally }
    ensures lost { (before after : List Root) (top : Root) (books : Books) (old new : Tally)
        → CountsNames (before ++ top ∷ after) books old → Loses (names top books) old new
        → CountsNames (before ++ after) books new }
{}
