//! A publication, over any tree, post, output and report.

ghost use Rattle.std.specs.Prelude.{◌≡◌, ◌++◌, ◌∷◌, [], ℕ, List, Option, IfSome, OnOk, IsErrOf};
ghost use Rattle.std.specs.Option.{option_copied, option_map};
ghost use Rattle.std.specs.Process.{exit_status};
ghost use Rattle.pkg_names.specs.Streams.{Rose};
ghost use Rattle.pkg_names.specs.Text.{line_feed};
ghost use Rattle.system_lists.specs.Static.{line_text};
ghost use Rattle.pkg_tool.specs.Written.{Wrote};
ghost use Rattle.repo_source.specs.Repo.{Fails};
ghost use Rattle.repo_publish.specs.Published.{package_root};
ghost use Rattle.repo_publish.specs.Steps.{is_post_fault, is_tree_fault};
ghost use Rattle.repo_publish.specs.Ends.{EndsAs, Stays, IsPosted, IfListed, IfPublished, IfUnwritten};
ghost use Rattle.repo_publish.specs.Ends.{IfRefused, IsRefused, IfUnfit, IsUnfit, IfCutShort, IsCutShort};
ghost use Rattle.folder_publish.specs.declared.post.PostTrouble.{PostTrouble as TroubleOf};
ghost use Rattle.pkg_report.specs.PublishLines.{line_of_publication, number_of_publication};

use folder_publish::{FolderFiles, FolderPost, FolderTree, PostTrouble, PutFiles};
use pkg_names::PackagePath;
use pkg_names::streams::Sink;
use pkg_report::{Publication, Report, Told, Untold, tell_publication};
use repo_publish::{Post, PublishEnd, Tree, publish};
use std::alloc::Global;

/// A tree that tells where it stands.
pub(crate) trait PlacedTree: Tree {
    ghost place: { Self → Option (List ℕ) };

    fn place(&self) -> Option<&str>
        ensures { option_copied result ≡ place self.now };
}

/// A post that tells what failed last.
pub(crate) trait TroubledPost: Post {
    ghost trouble: { Self → Option TroubleOf };

    fn trouble(&self) -> Option<PostTrouble>
        ensures { result ≡ trouble self.now };
}

impl<F: FolderFiles + Drop> PlacedTree for FolderTree<'_, F> {
    ghost use Rattle.std.specs.Option.{option_map};
    ghost use Rattle.std.specs.String.{string_bytes};

    ghost place = { λ t. option_map string_bytes t.place };

    fn place(&self) -> Option<&str> {
        self.place()
    }
}

impl<F: PutFiles + Drop> TroubledPost for FolderPost<'_, F> {
    ghost trouble = { λ p. p.trouble };

    fn trouble(&self) -> Option<PostTrouble> {
        self.trouble()
    }
}

/// What a publication leaves.
#[derive(Debug, Drop)]
pub(crate) struct PublishedTree {
    pub(crate) end: PublishEnd,
    pub(crate) told: Told,
}

/// Publishes the files of a tree as a package, says what was wrong, and gives the exit status. The tree is that of
/// the folder, and the post is the repository.
pub(crate) fn publish_tree<T: PlacedTree, P: TroubledPost, W: Sink, E: Report>(
    alloc: Global,
    path: &PackagePath,
    tree: &mut T,
    post: &mut P,
    folder: &str,
    repo: &str,
    out: &mut W,
    errors: &mut E,
) -> PublishedTree
    // The exit status is that of the publication's end, and so is the line.
    ensures code { exit_status result.told.code ≡ number_of_publication result.end }
    ensures line { OnOk result.told.line (Wrote (E.said errors.old)
        (line_of_publication result.end (T.place tree.new) (P.trouble post.new) folder.now repo.now)
        (E.said errors.new)) }
    ensures line_failed { IsErrOf result.told.line Untold.Failed → Rose (E.faults errors.old) (E.faults errors.new) }

    // The publication is that of this tree, post and output.
    ensures exact { EndsAs (T.left tree.old) (P.listing post.old) path.now result.end }
    ensures posted { IfListed result.end (IsPosted (T.left tree.old) path.now (P.listing post.old)
        (P.listing post.new) (P.files post.old) (P.files post.new)) }
    ensures root { IfPublished result.end (λ root.
        IfSome (T.left tree.old) (λ files. root ≡ package_root path.now files)) }
    ensures printed { IfPublished result.end (λ root. W.written out.new ≡ option_map (λ written. written
        ++ (line_text (record { path = path.now; root = root }) ++ line_feed ∷ [])) (W.written out.old)) }
    ensures listing { Stays (P.listing post.old) (P.listing post.new) (P.list_faults post.old)
        (P.list_faults post.new) result.end }
    ensures refused { IfRefused result.end (IsRefused (T.left tree.old) (T.left tree.new)
        (P.files post.old) (P.files post.new) result.end) }
    ensures unfit { IfUnfit result.end (IsUnfit (T.left tree.old) (T.left tree.new) path.now
        (P.files post.old) (P.files post.new) result.end) }
    ensures none_left { IfListed result.end (IfSome (T.left tree.new) (λ list. list ≡ [])) }
    ensures unwritten { IfUnwritten result.end (out.new ≡ out.old) }
    ensures cut_short { IfCutShort result.end (IsCutShort (T.left tree.old) path.now (P.listing post.old)
        (W.written out.old) (W.written out.new)) }
    ensures post_faults { Fails (is_post_fault result.end) (P.faults post.old) (P.faults post.new) }
    ensures tree_faults { Fails (is_tree_fault result.end) (T.faults tree.old) (T.faults tree.new) }
    ensures sink_cause { result.end ≡ PublishEnd.SinkFault → Rose (W.faults out.old) (W.faults out.new) }
{
    let end = publish(alloc, path, tree, post, out);
    let ended = Publication {
        end,
        folder,
        place: tree.place(),
        repo,
        trouble: post.trouble(),
    };
    let told = tell_publication(alloc, ended, errors);
    PublishedTree { end, told }
}
