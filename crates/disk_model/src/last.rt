//! The last write of each page since the last sync.

ghost use Rattle.std.specs.Prelude.{◌≡◌, ℕ, ◌+◌, ◌^◌, ◌<◌, ◌≤◌, ◌++◌, length, Option, None, IfOk, OnOk, replicate, slice_index_or};
ghost use Rattle.std.specs.List.{AllByRecursion};
ghost use Rattle.disk_model.specs.Past.{IsActIn};
ghost use Rattle.disk_model.specs.Picks.{synced_len, noted, picked, IsLastAct, HasPicks, AreGood, AreLastPicks};

use crate::act::DiskAct;
use crate::power_loss::Pick;
use crate::replay::synced_len;
use std::alloc::{AllocError, Global};

// Notes an act at the page that it writes.
fn note(act: &DiskAct, number: u64, last: &mut [Option<u64>])
    requires { IsActIn (λ n. n < length last.old) act.now }
    ensures { last.new ≡ noted act.now number last.old }
{
    match act {
        DiskAct::Wrote(page, _) => last[*page as usize] = Some(number),
        DiskAct::Failed(page, _) => last[*page as usize] = Some(number),
        DiskAct::Synced => {}
    }
}

// Notes each act.
fn note_all(acts: &[DiskAct], last: &mut [Option<u64>])
    requires range { AllByRecursion (IsActIn (λ n. n < length last.old)) acts.now }
    requires unnoted { last.old ≡ replicate (length last.old) None }
    ensures size { length last.new ≡ length last.old }
    ensures each { (page : ℕ) → page < length last.old
        → IsLastAct acts.now page (slice_index_or last.new page None) }
{
    for (i, act) in acts.iter().enumerate() {
        note(act, i as u64, last);
    }
}

// Puts the pick of a page with this last act behind the others, where the act comes after the last sync.
fn push_pick(
    picks: &mut Vec<Pick>,
    synced: u64,
    page: u32,
    last: Option<u64>,
) -> Result<(), AllocError>
    ensures { OnOk result (picks.new.items ≡ picks.old.items ++ picked synced page last) }
{
    match last {
        Some(act) if act >= synced => picks.push(Pick { page, act })?,
        _ => {}
    }
    Ok(())
}

fn picks_of(alloc: Global, synced: u64, last: &[Option<u64>]) -> Result<Vec<Pick>, AllocError>
    requires small { length last.now < 2 ^ 32 }
    ensures { IfOk result (λ picks. HasPicks last.now synced (length last.now) picks.items) }
{
    let mut picks = Vec::new(alloc);
    for (page, act) in last.iter().enumerate() {
        push_pick(&mut picks, synced, page as u32, *act)?;
    }
    Ok(picks)
}

// The last write of each page since the last sync.
pub(crate) fn last_picks_of(
    alloc: Global,
    count: usize,
    acts: &[DiskAct],
) -> Result<Vec<Pick>, AllocError>
    requires range { AllByRecursion (IsActIn (λ n. n < count)) acts.now }
    requires small { count < 2 ^ 32 }
    ensures last { IfOk result (λ picks. AreLastPicks acts.now picks.items) }
    ensures good { IfOk result (λ picks. AreGood acts.now picks.items) }
{
    let mut last = unnoted(alloc, count)?;
    note_all(acts, &mut last);
    let picks = picks_of(alloc, synced_len(acts) as u64, &last)?;
    Ok(picks)
}

fn unnoted(alloc: Global, count: usize) -> Result<Vec<Option<u64>>, AllocError>
    ensures { IfOk result (λ last. last.items ≡ replicate count None) }
{
    vec![in alloc; None; count]
}
