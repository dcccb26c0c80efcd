//! The manifests of an update package: they are read and judged one after the other.

ghost use Rattle.std.specs.Prelude.{◌≡◌, ◌≤◌, length, IfOk, IfErr, IfSome, Option, List, ℕ, IsTrue};
ghost use Rattle.pkg_names.specs.declared.pinned.Pinned.{Pinned as PinnedOf};
ghost use Rattle.system_lists.specs.declared.list.TheConstants.{ENTRY_LIMIT};
ghost use Rattle.store_model.specs.declared.replies.Dir.{Dir as DirOf};
ghost use Rattle.system_updater.specs.Plan.{name_of};
ghost use Rattle.system_updater.specs.Serving.{Prior, next_file, closed, judged};
ghost use Rattle.system_updater.specs.Serving.Prior.{NothingRead, EpochRead, PackagesRead};
ghost use Rattle.system_updater.specs.Serving.Point.{Reading, Staging};
ghost use Rattle.system_updater.specs.Viewing.{Told};
ghost use Rattle.system_updater.specs.Filled.{Did, ReadsFile, ReadsImages, IsEarly, EarlyRefusal, OrEarly, OrBad};
ghost use Rattle.system_updater.specs.Steps.{Goes, at_refusal, or_refused, or_closed, Judges, refusal_with};

use crate::plan::Plan;
use crate::reply::UpdateReply;
use pkg_names::{Bytes, read_file};
use std::alloc::Global;
use store_model::{Desk, Dir, ReadReply, RejectReply};
use system_lists::{ManifestFault, ManifestFile, lists_are_made_of_entries};
use update_manifest::{Images, PinnedList, read_epoch, read_images, read_packages};

// Why the manifests weren't read to their end.
#[derive(Clone, Copy, Debug, PartialEq, Eq)]
pub(crate) enum Refusal {
    // This one is bad, which is still to be told.
    Bad {
        file: ManifestFile,
        why: ManifestFault,
    },
    Ended(UpdateReply),
}

// Reads the three manifests of the open update package.
pub(crate) fn read_plan<K: Desk>(alloc: Global, desk: &mut K, dir: Dir) -> Result<Plan, UpdateReply>
    ensures goes { (repo : Told) → Goes (Reading dir NothingRead) (or_closed (Staging dir) dir result)
        (K.view desk.old) (K.view desk.new) repo repo (K.firm desk.old) (K.firm desk.new) }
    ensures few { IfOk result (λ plan. length plan.packages ≤ ENTRY_LIMIT) }
    ensures images { OrEarly (λ plan. Did (K.view desk.old) (K.view desk.new) (ReadsImages plan.images)) result }
{
    match read_all(alloc, desk, dir) {
        Ok(plan) => Ok(plan),
        Err(refusal) => Err(refuse(desk, refusal)),
    }
}

// Tells that a manifest is bad.
fn refuse<K: Desk>(desk: &mut K, refusal: Refusal) -> UpdateReply
    ensures goes { (dir : DirOf) (repo : Told) → Goes (at_refusal dir refusal) (closed dir result)
        (K.view desk.old) (K.view desk.new) repo repo (K.firm desk.old) (K.firm desk.new) }
    ensures early { EarlyRefusal refusal → IsEarly result }
{
    match refusal {
        Refusal::Bad { file, why } => match desk.reject(file, why) {
            RejectReply::Noted => UpdateReply::Manifest { file, why },
            RejectReply::Broken { number } => UpdateReply::Broken { number },
            RejectReply::NoMemory => UpdateReply::NoMemory,
        },
        Refusal::Ended(reply) => reply,
    }
}

fn read_all<K: Desk>(alloc: Global, desk: &mut K, dir: Dir) -> Result<Plan, Refusal>
    ensures goes { (repo : Told) → Goes (Reading dir NothingRead) (or_refused (Staging dir) dir result)
        (K.view desk.old) (K.view desk.new) repo repo (K.firm desk.old) (K.firm desk.new) }
    ensures few { IfOk result (λ plan. length plan.packages ≤ ENTRY_LIMIT) }
    ensures images { OrBad (λ plan. Did (K.view desk.old) (K.view desk.new) (ReadsImages plan.images)) result }
{
    let epoch = epoch_of(alloc, desk, dir)?;
    let packages = packages_of(alloc, desk, dir)?;
    let images = images_of(alloc, desk, dir)?;
    Ok(Plan {
        epoch,
        packages,
        images,
    })
}

fn epoch_of<K: Desk>(alloc: Global, desk: &mut K, dir: Dir) -> Result<u64, Refusal>
    ensures goes { (repo : Told) → Goes (Reading dir NothingRead)
        (or_refused (λ epoch. Reading dir (EpochRead epoch)) dir result)
        (K.view desk.old) (K.view desk.new) repo repo (K.firm desk.old) (K.firm desk.new) }
    ensures early { IfErr result EarlyRefusal }
{
    let found = read_manifest(alloc, desk, dir, ManifestFile::Epoch)?;
    judge_epoch(alloc, found)
}

fn packages_of<K: Desk>(alloc: Global, desk: &mut K, dir: Dir) -> Result<PinnedList, Refusal>
    ensures goes { (epoch : ℕ) (repo : Told) → Goes (Reading dir (EpochRead epoch))
        (or_refused (λ packages. Reading dir (PackagesRead epoch packages)) dir result)
        (K.view desk.old) (K.view desk.new) repo repo (K.firm desk.old) (K.firm desk.new) }
    ensures few { IfOk result (λ packages. length packages ≤ ENTRY_LIMIT) }
    ensures early { IfErr result EarlyRefusal }
{
    let found = read_manifest(alloc, desk, dir, ManifestFile::Packages)?;
    judge_packages(alloc, found)
}

fn images_of<K: Desk>(alloc: Global, desk: &mut K, dir: Dir) -> Result<Images, Refusal>
    ensures goes { (epoch : ℕ) (packages : List PinnedOf) (repo : Told)
        → Goes (Reading dir (PackagesRead epoch packages))
        (or_refused (λ images. Staging dir (record { epoch = epoch; packages = packages; images = images })) dir result)
        (K.view desk.old) (K.view desk.new) repo repo (K.firm desk.old) (K.firm desk.new) }
    ensures images { OrBad (λ images. Did (K.view desk.old) (K.view desk.new) (ReadsImages images)) result }
{
    let found = read_manifest(alloc, desk, dir, ManifestFile::Images)?;
    judge_images(alloc, found)
}

// The path of a manifest.
fn name_of(file: ManifestFile) -> &'static [u8]
    ensures { result.now ≡ name_of file }
{
    match file {
        ManifestFile::Epoch => b"epoch.json",
        ManifestFile::Packages => b"packages.json",
        ManifestFile::Images => b"images.json",
    }
}

// The bytes of a manifest, if the file is there.
fn read_manifest<K: Desk>(
    alloc: Global,
    desk: &mut K,
    dir: Dir,
    file: ManifestFile,
) -> Result<Option<Bytes>, Refusal>
    ensures goes { (prior : Prior) (repo : Told) → next_file prior ≡ file
        → Goes (Reading dir prior) (or_refused (judged dir prior) dir result)
        (K.view desk.old) (K.view desk.new) repo repo (K.firm desk.old) (K.firm desk.new) }
    ensures images { OrBad (λ found. IfSome found (λ bytes. Did (K.view desk.old) (K.view desk.new)
        (ReadsFile (name_of file) bytes))) result }
{
    let Ok(path) = read_file(alloc, name_of(file)) else {
        return Err(Refusal::Ended(UpdateReply::NoMemory));
    };
    match desk.read(dir, &path) {
        ReadReply::Got(bytes) => Ok(Some(bytes)),
        ReadReply::NoFile => Ok(None),
        ReadReply::TooLong { len } => Err(Refusal::Bad {
            file,
            why: ManifestFault::TooLong { len },
        }),
        ReadReply::BadDir => Err(Refusal::Ended(UpdateReply::BadDir)),
        ReadReply::DiskRead => Err(Refusal::Ended(UpdateReply::DiskRead)),
        ReadReply::Rotten { root, got } => Err(Refusal::Ended(UpdateReply::Rotten { root, got })),
        ReadReply::Broken { number } => Err(Refusal::Ended(UpdateReply::Broken { number })),
        ReadReply::NoMemory => Err(Refusal::Ended(UpdateReply::NoMemory)),
    }
}

// Where memory is short there is no fault to tell.
fn refusal_with(file: ManifestFile, why: ManifestFault) -> Refusal
    ensures { result ≡ refusal_with file why }
{
    match why {
        ManifestFault::NoMemory => Refusal::Ended(UpdateReply::NoMemory),
        why => Refusal::Bad { file, why },
    }
}

// A missing epoch is 0.
fn judge_epoch(alloc: Global, found: Option<Bytes>) -> Result<u64, Refusal>
    ensures { (dir : DirOf)
        → Judges (λ epoch. Reading dir (EpochRead epoch)) dir result (judged dir NothingRead found) }
{
    let Some(bytes) = found else {
        return Ok(0);
    };
    match read_epoch(alloc, bytes.as_slice()) {
        Ok(epoch) => Ok(epoch),
        Err(why) => Err(refusal_with(ManifestFile::Epoch, why)),
    }
}

fn judge_packages(alloc: Global, found: Option<Bytes>) -> Result<PinnedList, Refusal>
    ensures judges { (dir : DirOf) (epoch : ℕ)
        → Judges (λ packages. Reading dir (PackagesRead epoch packages)) dir result
        (judged dir (EpochRead epoch) found) }
    ensures few { IfOk result (λ packages. length packages ≤ ENTRY_LIMIT) }
{
    lists_are_made_of_entries();
    let file = ManifestFile::Packages;
    let Some(bytes) = found else {
        return Err(refusal_with(file, ManifestFault::Missing));
    };
    match read_packages(alloc, bytes.as_slice()) {
        Ok(packages) => Ok(packages),
        Err(why) => Err(refusal_with(file, why)),
    }
}

fn judge_images(alloc: Global, found: Option<Bytes>) -> Result<Images, Refusal>
    ensures { (dir : DirOf) (epoch : ℕ) (packages : List PinnedOf)
        → Judges (λ images. Staging dir (record { epoch = epoch; packages = packages; images = images })) dir result
        (judged dir (PackagesRead epoch packages) found) }
{
    let file = ManifestFile::Images;
    let Some(bytes) = found else {
        return Err(refusal_with(file, ManifestFault::Missing));
    };
    match read_images(alloc, bytes.as_slice()) {
        Ok(images) => Ok(images),
        Err(why) => Err(refusal_with(file, why)),
    }
}
