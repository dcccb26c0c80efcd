//! A call, with what it is about.

ghost use Rattle.std.specs.Prelude.{◌≡◌, ◌++◌, OnOk, length};
ghost use Rattle.store_model.specs.declared.events.CallName.TheVariants.{Retain, Copy, Reject};
ghost use Rattle.script_lang.specs.Text.{name_text, call_text};

use crate::pieces::{image_name, manifest_name, push_counted, push_file, push_path, push_rooted};
use image_layout::ImageKind;
use pkg_names::{FilePath, Roots};
use std::alloc::{AllocError, Global};
use store_model::{Act, CallName};
use system_lists::ManifestFile;

pub(crate) fn push_call(alloc: Global, out: &mut Vec<u8>, act: &Act) -> Result<(), AllocError>
    ensures { OnOk result (out.new.items ≡ out.old.items ++ call_text act.now) }
{
    match act {
        Act::Boot { .. } => out.extend_from_slice(b"boot"),
        Act::Begin { path, .. } => push_path(out, b"begin ", path),
        Act::Want { ticket, .. } => push_counted(alloc, out, "want ", *ticket),
        Act::Room { root, .. } => push_rooted(out, b"room ", root),
        Act::Put { root, .. } => push_rooted(out, b"put ", root),
        Act::Land { root, .. } => push_rooted(out, b"land ", root),
        Act::Missed { root, .. } => push_rooted(out, b"miss ", root),
        Act::GaveUp { ticket } => push_counted(alloc, out, "give-up ", *ticket),
        Act::OpenPath { path, .. } => push_path(out, b"open ", path),
        Act::Read { dir, file, .. } => push_file(alloc, out, "read ", *dir, file),
        Act::Check { dir, file, .. } => push_file(alloc, out, "check ", *dir, file),
        Act::Close { dir, .. } => push_counted(alloc, out, "close ", *dir),
        Act::Collect { .. } => out.extend_from_slice(b"collect"),
        Act::Retain { roots, .. } => push_retain(alloc, out, roots),
        Act::Stage { epoch, .. } => push_counted(alloc, out, "stage ", *epoch),
        Act::Copy {
            image,
            dir,
            file,
            ..
        } => push_copy(alloc, out, *image, *dir, file),
        Act::Seal { .. } => out.extend_from_slice(b"seal"),
        Act::Activate { .. } => out.extend_from_slice(b"activate"),
        Act::LeftStage => out.extend_from_slice(b"leave-stage"),
        Act::Commit { .. } => out.extend_from_slice(b"commit"),
        Act::Reject { file, .. } => push_reject(out, *file),
        Act::Refused { call, .. } => push_name(alloc, out, call),
    }
}

fn push_name(alloc: Global, out: &mut Vec<u8>, call: &CallName) -> Result<(), AllocError>
    ensures { OnOk result (out.new.items ≡ out.old.items ++ name_text call.now) }
{
    match call {
        CallName::Begin(path) => push_path(out, b"begin ", path),
        CallName::Want(ticket) => push_counted(alloc, out, "want ", *ticket),
        CallName::Room(root) => push_rooted(out, b"room ", root),
        CallName::Put(root) => push_rooted(out, b"put ", root),
        CallName::Land(root) => push_rooted(out, b"land ", root),
        CallName::OpenPath(path) => push_path(out, b"open ", path),
        CallName::Read { dir, file } => push_file(alloc, out, "read ", *dir, file),
        CallName::Check { dir, file } => push_file(alloc, out, "check ", *dir, file),
        CallName::Collect => out.extend_from_slice(b"collect"),
        CallName::Retain(count) => push_counted(alloc, out, "retain ", u64::from(*count)),
        CallName::Stage(epoch) => push_counted(alloc, out, "stage ", *epoch),
        CallName::Copy { image, dir, file } => push_copy(alloc, out, *image, *dir, file),
        CallName::Seal => out.extend_from_slice(b"seal"),
        CallName::Activate => out.extend_from_slice(b"activate"),
        CallName::Commit => out.extend_from_slice(b"commit"),
        CallName::Reject(file) => push_reject(out, *file),
    }
}

fn push_retain(alloc: Global, out: &mut Vec<u8>, roots: &Roots) -> Result<(), AllocError>
    ensures { OnOk result (out.new.items ≡ out.old.items ++ name_text (Retain (length roots.now))) }
{
    push_counted(alloc, out, "retain ", roots.as_slice().len() as u64)
}

fn push_copy(
    alloc: Global,
    out: &mut Vec<u8>,
    image: ImageKind,
    dir: u64,
    file: &FilePath,
) -> Result<(), AllocError>
    ensures { OnOk result (out.new.items ≡ out.old.items ++ name_text (Copy image dir file.now)) }
{
    out.extend_from_slice(b"copy ")?;
    out.extend_from_slice(image_name(image))?;
    push_file(alloc, out, " ", dir, file)
}

fn push_reject(out: &mut Vec<u8>, file: ManifestFile) -> Result<(), AllocError>
    ensures { OnOk result (out.new.items ≡ out.old.items ++ name_text (Reject file)) }
{
    out.extend_from_slice(b"reject ")?;
    out.extend_from_slice(manifest_name(file))
}
