//! The files of a tree, judged and posted as they come.

ghost use Rattle.std.specs.Prelude.{◌≡◌, ◌≤◌, ◌<◌, ◌∷◌, ◌++◌, [], List, Err, false, IfSome, IfOk, IfErr, OnOk, is_some, length};
ghost use Rattle.pkg_merkle.specs.Merkle.{merkle_root};
ghost use Rattle.far_archive.specs.declared.write.FarEntry.{FarEntry as EntryOf};
ghost use Rattle.meta_contents.specs.Contents.{is_in_meta as stands_in_meta, is_among, paths};
ghost use Rattle.repo_source.specs.Repo.{Fails};
ghost use Rattle.repo_publish.specs.Published.{outer_blobs, Posts};
ghost use Rattle.repo_publish.specs.Ends.{IfRefused, IsRefused, IfUnfit};
ghost use Rattle.repo_publish.specs.Steps.{IsTaken, AreTaken, IsPostCut, EndsAt, IsGathered, EndsFiles, failed_post, failed_tree};

use crate::draft::Draft;
use crate::post::Post;
use crate::publishing::{PublishEnd, end_of};
use crate::tree::{Tree, TreeReply};
use far_archive::FarEntry;
use meta_contents::{AddFault, Contents, LINE_LIMIT, is_in_meta};
use pkg_merkle::{BYTES_LIMIT, root_of};
use std::alloc::Global;

/// Takes all files of a tree, and posts those outside `meta/`.
pub(crate) fn gather<T: Tree, P: Post>(
    alloc: Global,
    tree: &mut T,
    post: &mut P,
) -> Result<Draft, PublishEnd>
    ensures gathered { IfOk result (λ draft. IsGathered (T.left tree.old) (P.files post.old) (P.files post.new)
        draft.inner.items draft.contents draft.last) }
    ensures end { IfErr result (EndsFiles (T.left tree.old)) }
    ensures refused { IfErr result (λ end. IfRefused end (IsRefused (T.left tree.old) (T.left tree.new)
        (P.files post.old) (P.files post.new) end)) }
    ensures unfit { IfErr result (λ end. IfUnfit end ⊥) }
    ensures none_left { OnOk result (IfSome (T.left tree.new) (λ list. list ≡ [])) }
    ensures post_faults { Fails (failed_post result) (P.faults post.old) (P.faults post.new) }
    ensures tree_faults { Fails (failed_tree result) (T.faults tree.old) (T.faults tree.new) }
    ensures no_sink { result ≡ Err PublishEnd.SinkFault → ⊥ }
    ensures listing { P.listing post.new ≡ P.listing post.old }
    ensures files_told { is_some (P.files post.new) ≡ is_some (P.files post.old) }
    ensures list_faults { P.list_faults post.new ≡ P.list_faults post.old }
    ensures tree_told { is_some (T.left tree.new) ≡ is_some (T.left tree.old) }
{
    let mut draft = Draft::new(alloc);
    // One file more than there may be is refused.
    for _count in 0..8193_u32 {
        let file = match tree.next(alloc) {
            TreeReply::File(file) => file,
            TreeReply::End => return Ok(draft),
            TreeReply::Failed => return Err(PublishEnd::TreeFault),
            TreeReply::NoMemory => return Err(PublishEnd::NoMemory),
        };
        match take(alloc, post, &mut draft, file) {
            Ok(()) => {}
            Err(end) => return Err(end),
        }
    }
    unreachable!()
}

// Takes a file, unless it is refused.
fn take<P: Post>(
    alloc: Global,
    post: &mut P,
    draft: &mut Draft,
    file: FarEntry,
) -> Result<(), PublishEnd>
    requires taken { AreTaken draft.old.inner.items draft.old.contents draft.old.last }
    ensures taken { OnOk result ((done : List EntryOf)
        → IsTaken done draft.old.inner.items draft.old.contents draft.old.last
        → IsTaken (done ++ file ∷ []) draft.new.inner.items draft.new.contents draft.new.last) }
    ensures end { IfErr result (λ end. (done : List EntryOf)
        → IsTaken done draft.old.inner.items draft.old.contents draft.old.last → EndsAt done file end) }
    ensures posts { OnOk result (Posts (outer_blobs (file ∷ [])) (P.files post.old) (P.files post.new)) }
    ensures untouched { IfErr result (λ end. IfRefused end (P.files post.new ≡ P.files post.old)) }
    ensures faults { Fails (failed_post result) (P.faults post.old) (P.faults post.new) }
    ensures listing { P.listing post.new ≡ P.listing post.old }
    ensures files_told { is_some (P.files post.new) ≡ is_some (P.files post.old) }
    ensures list_faults { P.list_faults post.new ≡ P.list_faults post.old }
{
    if let Some(end) = draft.refusal(&file) {
        return Err(end);
    }
    let Ok(last) = file.name.try_copy(alloc) else {
        return Err(PublishEnd::NoMemory);
    };
    if is_in_meta(file.name.as_slice()) {
        return match draft.inner.push(file) {
            Ok(()) => {
                draft.last = Some(last);
                Ok(())
            }
            Err(_) => Err(PublishEnd::NoMemory),
        };
    }
    match put_outer(alloc, post, &mut draft.contents, file) {
        Ok(()) => {
            draft.last = Some(last);
            Ok(())
        }
        Err(end) => Err(end),
    }
}

// Posts a file outside `meta/`, and lists it.
fn put_outer<P: Post>(
    alloc: Global,
    post: &mut P,
    contents: &mut Contents,
    file: FarEntry,
) -> Result<(), PublishEnd>
    requires outer { stands_in_meta file.name ≡ false }
    requires small { length file.bytes ≤ BYTES_LIMIT }
    requires fresh { is_among file.name (paths contents.old) ≡ false }
    requires room { length contents.old < LINE_LIMIT }
    ensures listed { OnOk result
        (contents.new ≡ contents.old ++ (file.name, merkle_root file.bytes) ∷ []) }
    ensures cut { IfErr result IsPostCut }
    ensures posts { OnOk result (Posts (file.bytes ∷ []) (P.files post.old) (P.files post.new)) }
    ensures faults { Fails (failed_post result) (P.faults post.old) (P.faults post.new) }
    ensures listing { P.listing post.new ≡ P.listing post.old }
    ensures files_told { is_some (P.files post.new) ≡ is_some (P.files post.old) }
    ensures list_faults { P.list_faults post.new ≡ P.list_faults post.old }
{
    let root = root_of(file.bytes.as_slice());
    match end_of(post.blob(alloc, &root, file.bytes.as_slice())) {
        Ok(()) => {}
        Err(end) => return Err(end),
    }
    match contents.add(file.name, root) {
        Ok(()) => Ok(()),
        Err(AddFault::NoMemory) => Err(PublishEnd::NoMemory),
        Err(AddFault::InMeta) => unreachable!(),
        Err(AddFault::Repeat) => unreachable!(),
        Err(AddFault::TooMany) => unreachable!(),
    }
}
