//! The full pages of a draft are written.

ghost use Rattle.std.specs.Prelude.{◌≡◌, ◌≢◌, ◌⊎◌, ◌+◌, ◌*◌, ◌/◌, ◌<◌, ◌≤◌, ℕ, List, length, OnOk, OnErr, IsSome};
ghost use Rattle.std.specs.List.{All, AllPairs};
ghost use Rattle.disk_model.specs.Past.{with_act, Rose};
ghost use Rattle.disk_model.specs.Images.{with_acts, WritesOnly};
ghost use Rattle.disk_model.specs.declared.act.DiskAct.TheVariants.{Wrote, Failed, Synced};
ghost use Rattle.blob_pages.specs.Draft.{IsDraftOf, HasNoFullPage};
ghost use Rattle.blob_pages.specs.Pages.{page_of, open_page, page_count};
ghost use Rattle.blob_pages.specs.Written.{place, IsOn, AreWritten, AreSettled, page_acts, settling_acts, IsHalfSettled};

use crate::draft::{Draft, PAGE_SIZE};
use disk_model::{Disk, DiskFailed};

/// Writes the pages of a draft that are full, each once and in order, and passes each. Its chain has a
/// data page for each page of the blob, counted from `start`.
pub fn write_full<D: Disk>(
    disk: &mut D,
    start: u32,
    chain: &[u32],
    draft: &mut Draft,
) -> Result<(), DiskFailed>
    requires whole { draft.old.len ≤ PAGE_SIZE * length chain.now }
    requires range { All (λ page. start + page < D.pages disk.old) chain.now }
    requires apart { AllPairs (λ a b. a ≢ b) chain.now }
    ensures open { OnOk result (HasNoFullPage draft.new) }
    ensures stands { (blob : List ℕ) → IsDraftOf draft.old blob → IsDraftOf draft.new blob }
    ensures declared { (draft.new.root ≡ draft.old.root) × (draft.new.len ≡ draft.old.len)
        × (draft.new.hasher ≡ draft.old.hasher) × (draft.new.kept ≡ draft.old.kept) }
    ensures forward { draft.old.pages ≤ draft.new.pages }
    ensures acts { (blob : List ℕ) → IsDraftOf draft.old blob → OnOk result (D.past disk.new
        ≡ with_acts (D.past disk.old) (page_acts start chain.now blob draft.old.pages draft.new.pages)) }
    ensures broke { (blob : List ℕ) → IsDraftOf draft.old blob → OnErr result
        (let passed = with_acts (D.past disk.old)
        (page_acts start chain.now blob draft.old.pages draft.new.pages) in
        (D.past disk.new ≡ passed) ⊎ (D.past disk.new ≡ with_act passed
        (Failed (place start chain.now draft.new.pages) (page_of blob draft.new.pages)))) }
    ensures written { (blob : List ℕ) → IsDraftOf draft.old blob
        → AreWritten (D.past disk.old) start chain.now blob draft.old.pages
        → AreWritten (D.past disk.new) start chain.now blob draft.new.pages }
    ensures only { WritesOnly (D.past disk.old) (D.past disk.new) (IsOn start chain.now) }
    ensures pages_stay { D.pages disk.new ≡ D.pages disk.old }
    ensures tie_stays { D.tie disk.new ≡ D.tie disk.old }
    ensures reads_stay { D.reads disk.new ≡ D.reads disk.old }
    ensures faults_never_fall { D.faults disk.old ≤ D.faults disk.new }
    ensures cause { OnErr result (Rose (D.faults disk.old) (D.faults disk.new)) }
{
    // so the numbers of its pages fit their type
    let _count = disk.pages();
    let _have = draft.have();
    while let Some(page) = draft.full_page() {
        disk.write(start + chain[draft.pages() as usize], page)?;
        draft.pass_page();
    }
    Ok(())
}

/// Writes the open page of a blob that came whole, if it has one.
fn write_open<D: Disk>(
    disk: &mut D,
    start: u32,
    chain: &[u32],
    len: u64,
    page: &Option<[u8; 4096]>,
) -> Result<(), DiskFailed>
    requires whole { IsSome page.now → len / PAGE_SIZE < length chain.now }
    requires range { All (λ page. start + page < D.pages disk.old) chain.now }
    requires apart { AllPairs (λ a b. a ≢ b) chain.now }
    ensures written { OnOk result ((blob : List ℕ) → length blob ≡ len → page.now ≡ open_page blob
        → AreWritten (D.past disk.old) start chain.now blob (len / PAGE_SIZE)
        → AreWritten (D.past disk.new) start chain.now blob (page_count len)) }
    ensures acts { OnOk result (with_act (D.past disk.new) Synced
        ≡ with_acts (D.past disk.old) (settling_acts start chain.now len page.now)) }
    ensures half { IsHalfSettled (D.past disk.old) (D.past disk.new) start chain.now len page.now }
    ensures only { WritesOnly (D.past disk.old) (D.past disk.new) (IsOn start chain.now) }
    ensures pages_stay { D.pages disk.new ≡ D.pages disk.old }
    ensures tie_stays { D.tie disk.new ≡ D.tie disk.old }
    ensures reads_stay { D.reads disk.new ≡ D.reads disk.old }
    ensures faults_never_fall { D.faults disk.old ≤ D.faults disk.new }
    ensures cause { OnErr result (Rose (D.faults disk.old) (D.faults disk.new)) }
{
    match page {
        Some(page) => write_at(disk, start, chain, (len / 4096) as usize, page),
        None => Ok(()),
    }
}

// Writes one page of a chain.
fn write_at<D: Disk>(
    disk: &mut D,
    start: u32,
    chain: &[u32],
    i: usize,
    page: &[u8; 4096],
) -> Result<(), DiskFailed>
    requires within { i < length chain.now }
    requires range { All (λ page. start + page < D.pages disk.old) chain.now }
    ensures wrote { OnOk result
        (D.past disk.new ≡ with_act (D.past disk.old) (Wrote (place start chain.now i) page.now)) }
    ensures failed { OnErr result
        ((D.past disk.new ≡ with_act (D.past disk.old) (Failed (place start chain.now i) page.now))
        ⊎ (D.past disk.new ≡ D.past disk.old)) }
    ensures only { WritesOnly (D.past disk.old) (D.past disk.new) (IsOn start chain.now) }
    ensures pages_stay { D.pages disk.new ≡ D.pages disk.old }
    ensures tie_stays { D.tie disk.new ≡ D.tie disk.old }
    ensures reads_stay { D.reads disk.new ≡ D.reads disk.old }
    ensures faults_never_fall { D.faults disk.old ≤ D.faults disk.new }
    ensures cause { OnErr result (Rose (D.faults disk.old) (D.faults disk.new)) }
{
    let _count = disk.pages();
    disk.write(start + chain[i], page)
}

/// Writes the open page of a blob that came whole, if it has one, and syncs. So each of its pages has its
/// one value in each image.
pub fn settle_blob<D: Disk>(
    disk: &mut D,
    start: u32,
    chain: &[u32],
    len: u64,
    page: &Option<[u8; 4096]>,
) -> Result<(), DiskFailed>
    requires whole { page_count len ≤ length chain.now }
    requires begun { IsSome page.now → len / PAGE_SIZE < length chain.now }
    requires range { All (λ page. start + page < D.pages disk.old) chain.now }
    requires apart { AllPairs (λ a b. a ≢ b) chain.now }
    ensures settled { OnOk result ((blob : List ℕ) → length blob ≡ len → page.now ≡ open_page blob
        → AreWritten (D.past disk.old) start chain.now blob (len / PAGE_SIZE)
        → AreSettled (D.past disk.new) start chain.now blob (page_count len)) }
    ensures acts { OnOk result (D.past disk.new
        ≡ with_acts (D.past disk.old) (settling_acts start chain.now len page.now)) }
    ensures broke { OnErr result
        (IsHalfSettled (D.past disk.old) (D.past disk.new) start chain.now len page.now) }
    ensures only { WritesOnly (D.past disk.old) (D.past disk.new) (IsOn start chain.now) }
    ensures pages_stay { D.pages disk.new ≡ D.pages disk.old }
    ensures tie_stays { D.tie disk.new ≡ D.tie disk.old }
    ensures reads_stay { D.reads disk.new ≡ D.reads disk.old }
    ensures faults_never_fall { D.faults disk.old ≤ D.faults disk.new }
    ensures cause { OnErr result (Rose (D.faults disk.old) (D.faults disk.new)) }
{
    write_open(disk, start, chain, len, page)?;
    disk.sync()?;
    Ok(())
}
