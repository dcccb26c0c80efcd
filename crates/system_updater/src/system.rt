//! The slot of the next system: it is taken, sealed, and made the one that boots next.

ghost use Rattle.std.specs.Prelude.{◌≡◌, []};
ghost use Rattle.image_layout.specs.declared.ImageKind.TheVariants as kinds;
ghost use Rattle.image_layout.specs.declared.Sys.{Sys as SysOf};
ghost use Rattle.pkg_names.specs.NameAndVariant.{path_eq};
ghost use Rattle.repo_source.specs.Repo.{listed_root};
ghost use Rattle.system_lists.specs.Judging.{system_path};
ghost use Rattle.store_model.specs.declared.replies.Dir.{Dir as DirOf};
ghost use Rattle.store_model.specs.State.Phase.{Filling as Fills};
ghost use Rattle.store_model.specs.Calls.{HoldsStage, HoldsSealed};
ghost use Rattle.store_model.specs.Desk.Keeping.{Image};
ghost use Rattle.system_updater.specs.Plan.{system_root, sum_of, vbmeta_sum, sys_of};
ghost use Rattle.system_updater.specs.declared.plan.Plan.{Plan as PlanOf};
ghost use Rattle.system_updater.specs.Serving.{left};
ghost use Rattle.system_updater.specs.Serving.Point.{Staging, Retaining, Filling, Activating};
ghost use Rattle.system_updater.specs.Viewing.{Told};
ghost use Rattle.system_updater.specs.Filled.{OrEarly, SealsOf, IsJudged};
ghost use Rattle.system_updater.specs.Steps.{Goes, or_closed, or_left};

use crate::plan::Plan;
use crate::reply::UpdateReply;
use image_layout::{ImageSum, Sys};
use pkg_names::{PackagePath, Pinned, Root};
use sha2::{Digest, Sha256};
use store_model::{ActivateReply, Desk, SealReply, StageReply};
use update_manifest::ImageRef;

// Takes the slot for a system of this epoch.
pub(crate) fn stage<K: Desk>(desk: &mut K, epoch: u64) -> Result<(), UpdateReply>
    ensures goes { (dir : DirOf) (plan : PlanOf) (repo : Told) → plan.epoch ≡ epoch
        → Goes (Staging dir plan) (or_closed (λ done. Retaining dir plan) dir result)
        (K.view desk.old) (K.view desk.new) repo repo (K.firm desk.old) (K.firm desk.new) }
    ensures images { OrEarly (λ done. K.kept desk.new (Image kinds.Zbi) [] × K.kept desk.new (Image kinds.Vbmeta) [])
        result }
{
    match desk.stage(epoch) {
        StageReply::Turn { .. } => Ok(()),
        StageReply::InRecovery => Err(UpdateReply::InRecovery),
        StageReply::Busy { lane } => Err(UpdateReply::Busy { lane }),
        StageReply::NotCommitted => Err(UpdateReply::NotCommitted),
        StageReply::Older { have } => Err(UpdateReply::Epoch { have, want: epoch }),
        StageReply::Broken { number } => Err(UpdateReply::Broken { number }),
        StageReply::NoMemory => Err(UpdateReply::NoMemory),
    }
}

// The system that is sealed.
pub(crate) fn sys_of(plan: &Plan) -> Sys
    ensures { result ≡ sys_of plan.now }
{
    Sys {
        system: system_root(plan.packages.as_slice()),
        epoch: plan.epoch,
        zbi: sum_of(&plan.images.zbi),
        vbmeta: vbmeta_sum(&plan.images.vbmeta),
    }
}

// The root of the system package. A list that was read has one.
fn system_root(packages: &[Pinned]) -> Root
    ensures { result ≡ system_root packages.now }
{
    match listed_system(packages) {
        Some(root) => root,
        None => Root([0; 32]),
    }
}

fn listed_system(packages: &[Pinned]) -> Option<Root>
    ensures { result ≡ listed_root packages.now system_path }
{
    packages
        .iter()
        .find(|pinned| is_system(&pinned.path))
        .map(|pinned| pinned.root)
}

fn is_system(path: &PackagePath) -> bool
    ensures { result ≡ path_eq path.now system_path }
{
    path.name() == b"system_image".as_slice() && path.variant() == b"0".as_slice()
}

fn sum_of(image: &ImageRef) -> ImageSum
    ensures { result ≡ sum_of image.now }
{
    ImageSum {
        len: image.len,
        sha: image.sha,
    }
}

// Without a vbmeta it is the empty image.
fn vbmeta_sum(image: &Option<ImageRef>) -> ImageSum
    ensures { result ≡ vbmeta_sum image.now }
{
    match image {
        Some(image) => sum_of(image),
        None => ImageSum {
            len: 0,
            sha: Sha256::digest(b"".as_slice()),
        },
    }
}

// Seals the filled slot.
pub(crate) fn seal<K: Desk>(desk: &mut K, sys: &Sys) -> Result<(), UpdateReply>
    requires { HoldsStage (K.view desk.old) Fills }
    ensures goes { (dir : DirOf) (plan : PlanOf) (repo : Told) → sys_of plan ≡ sys.now
        → Goes (Filling dir plan []) (or_left (λ done. Activating dir (sys_of plan)) dir result)
        (K.view desk.old) (K.view desk.new) repo repo (K.firm desk.old) (K.firm desk.new) }
    ensures images { SealsOf (K.kept desk.old) sys.now result }
{
    match desk.seal(sys) {
        SealReply::Sealed => Ok(()),
        SealReply::Differs { image, got } => Err(UpdateReply::Differs { image, got }),
        SealReply::Broken { number } => Err(UpdateReply::Broken { number }),
        SealReply::NoMemory => Err(UpdateReply::NoMemory),
    }
}

// Makes the sealed slot the one that boots next.
pub(crate) fn activate<K: Desk>(desk: &mut K) -> UpdateReply
    requires { HoldsSealed (K.view desk.old) }
    ensures goes { (dir : DirOf) (sys : SysOf) (repo : Told) → Goes (Activating dir sys) (left dir result)
        (K.view desk.old) (K.view desk.new) repo repo (K.firm desk.old) (K.firm desk.new) }
    ensures images { IsJudged result }
{
    match desk.activate() {
        ActivateReply::Active { slot } => UpdateReply::Staged { slot },
        ActivateReply::BaseMissing { root } => UpdateReply::BaseMissing { root },
        ActivateReply::NotASystem { why } => UpdateReply::NotASystem { why },
        ActivateReply::DiskRead => UpdateReply::DiskRead,
        ActivateReply::Rotten { root, got } => UpdateReply::Rotten { root, got },
        ActivateReply::Broken { number } => UpdateReply::Broken { number },
        ActivateReply::NoMemory => UpdateReply::NoMemory,
    }
}
