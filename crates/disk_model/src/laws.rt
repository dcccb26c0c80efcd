//! Laws of the images of a disk. Each function has an empty body: its contract is the law.

ghost use Rattle.std.specs.Prelude.{◌≡◌, ◌≢◌, ◌⊎◌, ◌↔◌, ℕ, ◌<◌, ◌≤◌, [], ◌++◌, List, length, slice_set};
ghost use Rattle.std.specs.List.{AllByRecursion};
ghost use Rattle.disk_model.specs.declared.act.DiskAct.{DiskAct};
ghost use Rattle.disk_model.specs.declared.act.DiskAct.TheVariants.{Wrote, Failed, Synced};
ghost use Rattle.disk_model.specs.Past.{Page, Pages, Past, IsPage, IsPast, IsActIn, page_at, then_act, state_of, IsPossible, IsLatest};
ghost use Rattle.disk_model.specs.Images.{IsImage, IsLatestImage, contents, moment};

/// A write, made or failed, leaves each image possible, and makes possible what each image becomes by
/// that write, and nothing else.
pub fn images_after_write()
    ensures wrote { (past : Past) (n : ℕ) (bytes : Page) (image : Pages)
        → IsImage (then_act past (Wrote n bytes)) image
        → IsImage past image ⊎ ((old : Pages) × (n < length old) × IsImage past old
        × (image ≡ slice_set old n bytes)) }
    ensures failed { (past : Past) (n : ℕ) (bytes : Page) (image : Pages)
        → IsImage (then_act past (Failed n bytes)) image
        → IsImage past image ⊎ ((old : Pages) × (n < length old) × IsImage past old
        × (image ≡ slice_set old n bytes)) }
    ensures wrote_may { (past : Past) (n : ℕ) (bytes : Page) (image : Pages) → IsImage past image
        → IsImage (then_act past (Wrote n bytes)) image
        × IsImage (then_act past (Wrote n bytes)) (slice_set image n bytes) }
    ensures failed_may { (past : Past) (n : ℕ) (bytes : Page) (image : Pages) → IsImage past image
        → IsImage (then_act past (Failed n bytes)) image
        × IsImage (then_act past (Failed n bytes)) (slice_set image n bytes) }
{}

/// After an act a value is possible at a page that was so before, or that the act writes there. A sync
/// leaves what was written last and the values of writes that failed since then.
pub fn possible_after_act()
    ensures wrote { (past : Past) (page n : ℕ) (bytes value : Page)
        → IsPossible (state_of (then_act past (Wrote page bytes)) n) value
        ↔ (IsPossible (state_of past n) value ⊎ ((page ≡ n) × (value ≡ bytes))) }
    ensures failed { (past : Past) (page n : ℕ) (bytes value : Page)
        → IsPossible (state_of (then_act past (Failed page bytes)) n) value
        ↔ (IsPossible (state_of past n) value ⊎ ((page ≡ n) × (value ≡ bytes))) }
    ensures synced { (past : Past) (n : ℕ) (value : Page)
        → IsPossible (state_of (then_act past Synced) n) value ↔ IsLatest (state_of past n) value }
{}

/// A sync takes images away, and leaves just those whose pages have each what was written last or the
/// value of a write that failed since. A page whose writes have not failed since the last that succeeded
/// has the value of that write in all that are left.
pub fn images_after_sync()
    ensures exact { (past : Past) (image : Pages) → IsImage (then_act past Synced) image
        ↔ IsLatestImage past image }
    ensures fewer { (past : Past) (image : Pages) → IsImage (then_act past Synced) image
        → IsImage past image }
    ensures settled { (past : Past) (n : ℕ) (image : Pages) → n < length past.start
        → (state_of past n).failed ≡ []
        → IsImage (then_act past Synced) image → page_at image n ≡ (state_of past n).now }
{}

/// A page with one value in all images keeps it over acts that don't write it.
pub fn untouched_page()
    ensures { (past : Past) (acts : List DiskAct) (n : ℕ) (value : Page)
        → ((image : Pages) → IsImage past image → page_at image n ≡ value)
        → AllByRecursion (IsActIn (λ k. k ≢ n)) acts
        → (image : Pages) → IsImage (record past { trail = past.trail ++ acts }) image
        → page_at image n ≡ value }
{}

/// A disk without acts has one image, what it began with.
pub fn fresh_disk()
    ensures { (start image : Pages) → IsImage (record { start = start; trail = [] }) image
        → image ≡ start }
{}

/// What is done later leaves the images of earlier moments.
pub fn earlier_moment()
    ensures { (past : Past) (acts : List DiskAct) (count : ℕ) (image : Pages)
        → count ≤ length past.trail
        → IsImage (moment (record past { trail = past.trail ++ acts }) count) image
        ↔ IsImage (moment past count) image }
{}

/// The pages of an image decide apart from each other. What stands on the disk is an image. The pages
/// of an image are pages.
pub fn pages_apart()
    ensures mix { (past : Past) (image : Pages) (n : ℕ) (value : Page) → IsImage past image
        → IsPossible (state_of past n) value → IsImage past (slice_set image n value) }
    ensures contents { (past : Past) → IsImage past (contents past) }
    ensures pages { (count : ℕ) (past : Past) (image : Pages) → IsPast count past
        → IsImage past image
        → AllByRecursion IsPage image }
{}
