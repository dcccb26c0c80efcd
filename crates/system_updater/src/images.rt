//! The images of the next system: each is copied from a file of its package into the slot.

ghost use Rattle.std.specs.Prelude.{◌≡◌, ℕ, ◌∷◌, [], List, Some};
ghost use Rattle.image_layout.specs.declared.ImageKind.TheVariants as kinds;
ghost use Rattle.open_tracker.specs.Directories.{root_of};
ghost use Rattle.pkg_names.specs.declared.root.Root.{Root};
ghost use Rattle.store_model.specs.declared.replies.Dir.{Dir as DirOf};
ghost use Rattle.store_model.specs.State.Phase.{Filling as Fills};
ghost use Rattle.store_model.specs.Calls.{HoldsNoClaim, HoldsStage};
ghost use Rattle.store_model.specs.Desk.{held_by};
ghost use Rattle.store_model.specs.Desk.Keeping.{Image};
ghost use Rattle.system_updater.specs.declared.plan.Plan.{Plan as PlanOf};
ghost use Rattle.system_updater.specs.Plan.{Task, tasks_of};
ghost use Rattle.system_updater.specs.Serving.Point.{Filling, Copying};
ghost use Rattle.system_updater.specs.Holding.{HoldsAt};
ghost use Rattle.system_updater.specs.Viewing.{Told, told};
ghost use Rattle.system_updater.specs.Filled.{HasBytesOf, HasFileOf, HaveFilesOf, KeepsOther, IsBegun, OrEarly, CopiesOn};
ghost use Rattle.system_updater.specs.Steps.{Goes, or_left, or_image_left, after_part, IsFilling};

use crate::closing::close;
use crate::reply::{UpdateReply, refusal_of};
use image_layout::ImageKind;
use package_url::Url;
use pkg_names::FilePath;
use repo_source::Repo;
use resolver::{ResolveReply, resolve};
use std::alloc::Global;
use std::sync::Wait;
use store_model::{CopyReply, Desk, Dir};
use update_manifest::{ImageRef, Images};

// Fills the zbi, and the vbmeta if there is one.
pub(crate) fn fill_all<W: Wait, K: Desk, R: Repo>(
    rt: &W,
    alloc: Global,
    desk: &mut K,
    repo: &mut R,
    images: Images,
) -> Result<(), UpdateReply>
    requires { IsFilling (tasks_of images) (K.view desk.old) }
    ensures goes { (dir : DirOf) (plan : PlanOf) → HoldsAt (Filling dir plan (tasks_of images)) (K.view desk.old)
        → Goes (Filling dir plan (tasks_of images)) (or_left (λ done. Filling dir plan []) dir result)
        (K.view desk.old) (K.view desk.new)
        (told (R.listing repo.old) (R.files repo.old) (R.faults repo.old) (R.fetches repo.old))
        (told (R.listing repo.new) (R.files repo.new) (R.faults repo.new) (R.fetches repo.new))
        (K.firm desk.old) (K.firm desk.new) }
    ensures images { (dir : DirOf) (plan : PlanOf) → HoldsAt (Filling dir plan (tasks_of images)) (K.view desk.old)
        → K.kept desk.old (Image kinds.Zbi) [] → K.kept desk.old (Image kinds.Vbmeta) []
        → OrEarly (λ done. HaveFilesOf (K.firm desk.old) (K.kept desk.new) (K.view desk.old) (K.view desk.new) images)
        result }
{
    let Images { zbi, vbmeta, .. } = images;
    fill(rt, alloc, desk, repo, ImageKind::Zbi, zbi)?;
    match vbmeta {
        Some(image) => fill(rt, alloc, desk, repo, ImageKind::Vbmeta, image),
        None => Ok(()),
    }
}

// Resolves the package of an image, copies its file, and closes it.
fn fill<W: Wait, K: Desk, R: Repo>(
    rt: &W,
    alloc: Global,
    desk: &mut K,
    repo: &mut R,
    kind: ImageKind,
    image: ImageRef,
) -> Result<(), UpdateReply>
    requires free { HoldsNoClaim (K.view desk.old) }
    requires stage { HoldsStage (K.view desk.old) Fills }
    ensures goes { (dir : DirOf) (plan : PlanOf) (later : List Task)
        → HoldsAt (Filling dir plan (record { kind = kind; image = image } ∷ later)) (K.view desk.old)
        → Goes (Filling dir plan (record { kind = kind; image = image } ∷ later))
        (or_left (λ done. Filling dir plan later) dir result)
        (K.view desk.old) (K.view desk.new)
        (told (R.listing repo.old) (R.files repo.old) (R.faults repo.old) (R.fetches repo.old))
        (told (R.listing repo.new) (R.files repo.new) (R.faults repo.new) (R.fetches repo.new))
        (K.firm desk.old) (K.firm desk.new) }
    ensures images { (dir : DirOf) (plan : PlanOf) (later : List Task)
        → HoldsAt (Filling dir plan (record { kind = kind; image = image } ∷ later)) (K.view desk.old)
        → K.kept desk.old (Image kind) []
        → OrEarly (λ done. HasFileOf (K.firm desk.old) (K.kept desk.new) (K.view desk.old) (K.view desk.new) kind
        image.url × KeepsOther kind (K.kept desk.old) (K.kept desk.new)) result }
{
    let Url {
        host,
        path,
        pin,
        file,
    } = image.url;
    let url = Url {
        host,
        path,
        pin,
        file: None,
    };
    match resolve(rt, alloc, desk, repo, &url) {
        ResolveReply::Resolved(from) => {
            let result = copy(rt, desk, kind, from, file);
            close(desk, from);
            result
        }
        refused => Err(refusal_of(refused)),
    }
}

// Copies a file of an open package into an image.
fn copy<W: Wait, K: Desk>(
    rt: &W,
    desk: &mut K,
    kind: ImageKind,
    from: Dir,
    file: Option<FilePath>,
) -> Result<(), UpdateReply>
    requires { HoldsStage (K.view desk.old) Fills }
    ensures goes { (dir : DirOf) (plan : PlanOf) (task : Task) (later : List Task) (repo : Told)
        → task.kind ≡ kind → task.image.url.file ≡ file
        → Goes (Copying dir plan task from later) (or_image_left (Filling dir plan later) dir from result)
        (K.view desk.old) (K.view desk.new) repo repo (K.firm desk.old) (K.firm desk.new) }
    ensures images { (root : Root)
        → root_of (held_by (K.view desk.old)).dirs from.number (K.view desk.old).lane ≡ Some root
        → K.kept desk.old (Image kind) []
        → OrEarly (λ done. (name : List ℕ) × (file ≡ Some name)
        × HasBytesOf (K.firm desk.old) (K.kept desk.new) (K.view desk.new) kind from.number name
        × KeepsOther kind (K.kept desk.old) (K.kept desk.new)) result }
{
    match file {
        Some(file) => copy_file(rt, desk, kind, from, &file),
        None => Err(UpdateReply::NoFile { image: kind }),
    }
}

// Copies the file part by part, to its end.
fn copy_file<W: Wait, K: Desk>(
    rt: &W,
    desk: &mut K,
    kind: ImageKind,
    from: Dir,
    file: &FilePath,
) -> Result<(), UpdateReply>
    requires { HoldsStage (K.view desk.old) Fills }
    ensures goes { (dir : DirOf) (plan : PlanOf) (task : Task) (later : List Task) (repo : Told)
        → task.kind ≡ kind → task.image.url.file ≡ Some file.now
        → Goes (Copying dir plan task from later) (or_image_left (Filling dir plan later) dir from result)
        (K.view desk.old) (K.view desk.new) repo repo (K.firm desk.old) (K.firm desk.new) }
    ensures images { (root : Root)
        → root_of (held_by (K.view desk.old)).dirs from.number (K.view desk.old).lane ≡ Some root
        → K.kept desk.old (Image kind) []
        → OrEarly (λ done. HasBytesOf (K.firm desk.old) (K.kept desk.new) (K.view desk.new) kind from.number file.now
        × KeepsOther kind (K.kept desk.old) (K.kept desk.new)) result }
{
    for _ in rt.forever() {
        match copy_part(desk, kind, from, file) {
            Part::More => {}
            Part::Last(result) => return result,
        }
    }
    unreachable!()
}

// What becomes of a file with one part more.
#[derive(Clone, Copy, Debug, PartialEq, Eq)]
enum Part {
    // It was copied, and more is to come.
    More,
    // The copying is over.
    Last(Result<(), UpdateReply>),
}

// Copies the next part of the file.
fn copy_part<K: Desk>(desk: &mut K, kind: ImageKind, from: Dir, file: &FilePath) -> Part
    requires { HoldsStage (K.view desk.old) Fills }
    ensures goes { (dir : DirOf) (plan : PlanOf) (task : Task) (later : List Task) (repo : Told)
        → task.kind ≡ kind → task.image.url.file ≡ Some file.now
        → Goes (Copying dir plan task from later)
        (after_part (Copying dir plan task from later) (Filling dir plan later) dir from result)
        (K.view desk.old) (K.view desk.new) repo repo (K.firm desk.old) (K.firm desk.new) }
    ensures held { held_by (K.view desk.new) ≡ held_by (K.view desk.old) }
    ensures images { (root : Root)
        → root_of (held_by (K.view desk.old)).dirs from.number (K.view desk.old).lane ≡ Some root
        → IsBegun (K.kept desk.old) (K.view desk.old) kind from.number file.now
        → CopiesOn (K.firm desk.old) (K.firm desk.new) (K.kept desk.old) (K.kept desk.new)
        (K.view desk.old) (K.view desk.new) kind from.number file.now result }
{
    let refusal = match desk.copy_part(kind, from, file) {
        CopyReply::More { .. } => return Part::More,
        CopyReply::Whole { .. } => return Part::Last(Ok(())),
        CopyReply::BadDir => UpdateReply::BadDir,
        CopyReply::NoFile => UpdateReply::NoFile { image: kind },
        CopyReply::TooLarge { len, room } => UpdateReply::TooLarge {
            image: kind,
            len,
            room,
        },
        CopyReply::DiskRead => UpdateReply::DiskRead,
        CopyReply::Broken { number } => UpdateReply::Broken { number },
        CopyReply::NoMemory => UpdateReply::NoMemory,
    };
    Part::Last(Err(refusal))
}
