//! What acts leave on pages, and picks of them.

ghost use Rattle.std.specs.Prelude.{◌≡◌, ◌⊎◌, ℕ, ◌+◌, ◌^◌, ◌<◌, ◌≤◌, length, take, [], ◌∷◌, true, false, Some, None, IsOk, IfOk, IfErr, OnOk, slice_set, slice_index_or, replicate};
ghost use Rattle.std.specs.List.{AllByRecursion};
ghost use Rattle.std.specs.Option.{option_copied};
ghost use Rattle.disk_model.specs.Past.{Page, IsActIn};
ghost use Rattle.disk_model.specs.Images.{contents_after};
ghost use Rattle.disk_model.specs.Picks.{is_sync, synced_len, pick_value, AreGood, HasCause, Takes};

use crate::act::DiskAct;
use crate::power_loss::{Pick, RestartFault};
use std::alloc::{AllocError, Global};

fn is_sync(act: &DiskAct) -> bool
    ensures { result ≡ is_sync act.now }
{
    matches!(act, DiskAct::Synced)
}

// How many acts there are up to the last sync, with it.
pub(crate) fn synced_len(acts: &[DiskAct]) -> usize
    ensures { result ≡ synced_len acts.now }
{
    let mut synced = 0;
    for (i, act) in acts.iter().enumerate() {
        if is_sync(act) {
            synced = i + 1;
        }
    }
    synced
}

// Makes a write that succeeded.
fn apply(act: &DiskAct, pages: &mut [[u8; 4096]])
    requires { IsActIn (λ n. n < length pages.old) act.now }
    ensures { pages.new ≡ contents_after (act.now ∷ []) pages.old }
{
    if let DiskAct::Wrote(page, bytes) = act {
        pages[*page as usize] = *bytes;
    }
}

// Makes each write that succeeded.
fn replay(acts: &[DiskAct], pages: &mut [[u8; 4096]])
    requires { AllByRecursion (IsActIn (λ n. n < length pages.old)) acts.now }
    ensures { pages.new ≡ contents_after acts.now pages.old }
{
    for act in acts {
        apply(act, pages);
    }
}

// The value that a pick names.
fn value_of<'a>(acts: &'a [DiskAct], synced: usize, pick: &Pick) -> Option<&'a [u8; 4096]>
    requires { synced ≡ synced_len acts.now }
    ensures { option_copied result ≡ pick_value acts.now pick.now }
{
    if pick.act < synced as u64 {
        return None;
    }
    match acts.get(pick.act as usize) {
        Some(DiskAct::Wrote(page, bytes)) if *page == pick.page => Some(bytes),
        Some(DiskAct::Failed(page, bytes)) if *page == pick.page => Some(bytes),
        _ => None,
    }
}

// Puts the value of a pick on its page, which wasn't picked before. Whether that could be done.
fn put_pick(
    acts: &[DiskAct],
    synced: usize,
    pick: &Pick,
    pages: &mut [[u8; 4096]],
    marks: &mut [bool],
) -> bool
    requires synced { synced ≡ synced_len acts.now }
    requires range { AllByRecursion (IsActIn (λ n. n < length pages.old)) acts.now }
    requires size { length marks.old ≡ length pages.old }
    ensures inside { result ≡ true → pick.now.page < length pages.old }
    ensures free { result ≡ true → slice_index_or marks.old pick.now.page false ≡ false }
    ensures put { result ≡ true → (bytes : Page) × (pick_value acts.now pick.now ≡ Some bytes)
        × (pages.new ≡ slice_set pages.old pick.now.page bytes) }
    ensures marked { result ≡ true → marks.new ≡ slice_set marks.old pick.now.page true }
    ensures bad { result ≡ false → (pick_value acts.now pick.now ≡ None)
        ⊎ (slice_index_or marks.old pick.now.page false ≡ true) }
{
    let Some(bytes) = value_of(acts, synced, pick) else {
        return false;
    };
    let page = pick.page as usize;
    if marks[page] {
        return false;
    }
    pages[page] = *bytes;
    marks[page] = true;
    true
}

// Puts the value of each pick on its page.
fn put_picks(
    acts: &[DiskAct],
    synced: usize,
    picks: &[Pick],
    pages: &mut [[u8; 4096]],
    marks: &mut [bool],
) -> Result<(), RestartFault>
    requires synced { synced ≡ synced_len acts.now }
    requires range { AllByRecursion (IsActIn (λ n. n < length pages.old)) acts.now }
    requires small { length pages.old < 2 ^ 32 }
    requires unmarked { marks.old ≡ replicate (length pages.old) false }
    ensures good { OnOk result (AreGood acts.now picks.now) }
    ensures taken { OnOk result (Takes acts.now picks.now pages.old pages.new) }
    ensures cause { IfErr result (HasCause acts.now picks.now) }
{
    for (n, pick) in picks.iter().enumerate() {
        if !put_pick(acts, synced, pick, pages, marks) {
            return Err(RestartFault::BadPick { n: n as u32 });
        }
    }
    Ok(())
}

// The pages that a restart with these picks begins with.
pub(crate) fn picked_pages(
    alloc: Global,
    start: &[[u8; 4096]],
    acts: &[DiskAct],
    picks: &[Pick],
) -> Result<Vec<[u8; 4096]>, RestartFault>
    requires range { AllByRecursion (IsActIn (λ n. n < length start.now)) acts.now }
    requires small { length start.now < 2 ^ 32 }
    ensures good { OnOk result (AreGood acts.now picks.now) }
    ensures taken { IfOk result
        (λ pages. Takes acts.now picks.now
        (contents_after (take (synced_len acts.now) acts.now) start.now) pages.items) }
    ensures cause { IfErr result (HasCause acts.now picks.now) }
{
    let synced = synced_len(acts);
    let mut pages = Vec::from_slice(alloc, start)?;
    replay(&acts[..synced], &mut pages);
    let mut marks = unmarked(alloc, start.len())?;
    put_picks(acts, synced, picks, &mut pages, &mut marks)?;
    Ok(pages)
}

fn unmarked(alloc: Global, count: usize) -> Result<Vec<bool>, AllocError>
    ensures { IfOk result (λ marks. marks.items ≡ replicate count false) }
{
    vec![in alloc; false; count]
}
