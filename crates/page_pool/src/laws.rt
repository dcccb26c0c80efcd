//! Laws of the flags that a pool is seen as. Each function has an empty body: its contract is the law.

ghost use Rattle.std.specs.Prelude.{◌≡◌, ◌≢◌, ◌⊎◌, ◌↔◌, ℕ, ◌+◌, ◌<◌, List, Bool, true, false, length};
ghost use Rattle.std.specs.List.{All, Contains};
ghost use Rattle.page_pool.specs.Flags.{IsTaken, IsFree, free_count, taken_count, with_flags, AreDistinct};

/// Free and taken make up all pages, and no page is both. Flags are the same where they are as many and
/// the same pages are taken.
pub fn free_or_taken()
    ensures each { (flags : List Bool) (page : ℕ) → page < length flags → IsFree flags page
        ⊎ IsTaken flags page }
    ensures apart { (flags : List Bool) (page : ℕ) → IsFree flags page → IsTaken flags page → ⊥ }
    ensures counts { (flags : List Bool) → free_count flags + taken_count flags ≡ length flags }
    ensures none { (flags : List Bool) → (free_count flags ≡ 0)
        ↔ ((page : ℕ) → IsFree flags page → ⊥) }
    ensures same { (a : List Bool) (b : List Bool) → length a ≡ length b
        → ((page : ℕ) → IsTaken a page ↔ IsTaken b page) → a ≡ b }
{}

/// Which pages are taken once these were taken, or given back, and how many are free.
pub fn taken_after()
    ensures length { (flag : Bool) (flags : List Bool) (pages : List ℕ)
        → length (with_flags flag pages flags) ≡ length flags }
    ensures take { (flags : List Bool) (pages : List ℕ) (page : ℕ) → page < length flags
        → IsTaken (with_flags true pages flags) page ↔ (IsTaken flags page ⊎ Contains pages page) }
    ensures give { (flags : List Bool) (pages : List ℕ) (page : ℕ)
        → IsTaken (with_flags false pages flags) page ↔ (IsTaken flags page × All
        (λ p. p ≢ page) pages) }
    ensures take_count { (flags : List Bool) (pages : List ℕ) → All (IsFree flags) pages
        → AreDistinct pages
        → free_count (with_flags true pages flags) + length pages ≡ free_count flags }
    ensures give_count { (flags : List Bool) (pages : List ℕ) → All (IsTaken flags) pages
        → AreDistinct pages
        → free_count (with_flags false pages flags) ≡ free_count flags + length pages }
{}
