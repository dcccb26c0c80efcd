//! Laws of the regions. The function has an empty body: its contract is the law.

ghost use Rattle.std.specs.Prelude.{ℕ, ◌+◌, ◌<◌, ◌≤◌};
ghost use Rattle.std.specs.List.{All, AllPairs, Any};
ghost use Rattle.image_layout.specs.declared.geometry.Geometry.{Geometry};
ghost use Rattle.image_layout.specs.Geometry.{IsWithinLimits, Region, IsIn, regions, total_pages};

/// The regions stand one behind the other, lie below the total and make up all of it.
pub fn regions_follow()
    ensures apart { (g : Geometry) → AllPairs (λ a b. a.first + a.size ≤ b.first) (regions g) }
    ensures below { (g : Geometry) → All (λ a. a.first + a.size ≤ total_pages g) (regions g) }
    ensures cover { (g : Geometry) (n : ℕ) → n < total_pages g → Any (λ a. IsIn a n) (regions g) }
{}
