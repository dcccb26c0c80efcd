//! Publishing.

ghost use Rattle.std.specs.Prelude.{◌≡◌, ◌≤◌, ◌⊎◌, ◌∷◌, ◌++◌, [], Ok, Err, IfSome, IfOk, IfErr, OnOk, is_some, length};
ghost use Rattle.std.specs.Option.{option_map};
ghost use Rattle.pkg_names.specs.Streams.{Rose};
ghost use Rattle.pkg_names.specs.Text.{line_feed};
ghost use Rattle.system_lists.specs.Static.{line_text, static_of};
ghost use Rattle.repo_source.specs.Repo.{Fails};
ghost use Rattle.repo_publish.specs.Published.{package_root};
ghost use Rattle.repo_publish.specs.Post.{Puts, IsListing, post_failed};
ghost use Rattle.repo_publish.specs.Steps.{IsMade, IsPostCut, failed_post, failed_tree, is_post_fault, is_tree_fault};
ghost use Rattle.repo_publish.specs.Ends.{ended, EndsAs, EndsEarly, Stays, IsAllPosted, IsPosted, IsEarly};
ghost use Rattle.repo_publish.specs.Ends.{IfListed, IfPublished, IfUnwritten};
ghost use Rattle.repo_publish.specs.Ends.{IfRefused, IsRefused, IfUnfit, IsUnfit, IfCutShort, IsCutShort};

use crate::files::gather;
use crate::line::{give_all, line_of};
use crate::listing::next_listing;
use crate::package::package_of;
use crate::post::{Post, PostReply};
use crate::tree::Tree;
use package_book::{META_LIMIT, PackageFault};
use pkg_merkle::root_of;
use pkg_names::streams::Sink;
use pkg_names::{PackagePath, Root};
use std::alloc::Global;

/// The most files under `meta/`, and the most of the others.
pub const FILE_LIMIT: usize = 4096;

/// The number that definitions cite by name.
pub fn limits()
    ensures { FILE_LIMIT ≡ 4096 }
{}

/// How a publication ended. Files are counted from 1.
#[derive(Clone, Copy, Debug, PartialEq, Eq)]
pub enum PublishEnd {
    /// All is posted, and the line `<path>=<root>` is written.
    Published { root: Root },
    /// The path of this file isn't greater than the one before.
    Order { file: u64 },
    /// The file is `meta/contents`.
    Reserved { file: u64 },
    /// The file has this many bytes, which are too many for a blob.
    TooLarge { file: u64, len: u64 },
    /// There are more files than a package has.
    TooMany,
    /// The files don't make a package.
    NotAPackage { why: PackageFault },
    /// The listing would pass a limit.
    FullListing,
    PostFault,
    TreeFault,
    SinkFault,
    NoMemory,
}

/// Publishes the files of a tree as a package.
pub fn publish<T: Tree, P: Post, W: Sink>(
    alloc: Global,
    path: &PackagePath,
    tree: &mut T,
    post: &mut P,
    out: &mut W,
) -> PublishEnd
    ensures exact { EndsAs (T.left tree.old) (P.listing post.old) path.now result }
    ensures posted { IfListed result (IsPosted (T.left tree.old) path.now (P.listing post.old) (P.listing post.new)
        (P.files post.old) (P.files post.new)) }
    ensures root { IfPublished result (λ root. IfSome (T.left tree.old) (λ files. root ≡ package_root path.now files)) }
    ensures line { IfPublished result (λ root. W.written out.new ≡ option_map (λ written. written
        ++ (line_text (record { path = path.now; root = root }) ++ line_feed ∷ [])) (W.written out.old)) }
    ensures listing { Stays (P.listing post.old) (P.listing post.new) (P.list_faults post.old) (P.list_faults post.new)
        result }
    ensures refused { IfRefused result (IsRefused (T.left tree.old) (T.left tree.new)
        (P.files post.old) (P.files post.new) result) }
    ensures unfit { IfUnfit result (IsUnfit (T.left tree.old) (T.left tree.new) path.now
        (P.files post.old) (P.files post.new) result) }
    ensures none_left { IfListed result (IfSome (T.left tree.new) (λ list. list ≡ [])) }
    ensures unwritten { IfUnwritten result (out.new ≡ out.old) }
    ensures cut_short { IfCutShort result (IsCutShort (T.left tree.old) path.now (P.listing post.old)
        (W.written out.old) (W.written out.new)) }
    ensures post_faults { Fails (is_post_fault result) (P.faults post.old) (P.faults post.new) }
    ensures tree_faults { Fails (is_tree_fault result) (T.faults tree.old) (T.faults tree.new) }
    ensures sink_cause { result ≡ PublishEnd.SinkFault → Rose (W.faults out.old) (W.faults out.new) }
    ensures list_faults { P.list_faults post.old ≤ P.list_faults post.new }
    ensures sink_faults { W.faults out.old ≤ W.faults out.new }
    ensures listing_told { is_some (P.listing post.new) ≡ is_some (P.listing post.old) }
    ensures files_told { is_some (P.files post.new) ≡ is_some (P.files post.old) }
    ensures tree_told { is_some (T.left tree.new) ≡ is_some (T.left tree.old) }
{
    match post_all(alloc, path, tree, post) {
        Ok(posted) => match give_all(out, &posted.line) {
            Ok(()) => PublishEnd::Published { root: posted.root },
            Err(_) => PublishEnd::SinkFault,
        },
        Err(end) => end,
    }
}

// A package that was posted, with the line that is to be written.
#[derive(Drop)]
struct PostedPackage {
    root: Root,
    line: Vec<u8>,
}

// Posts all.
fn post_all<T: Tree, P: Post>(
    alloc: Global,
    path: &PackagePath,
    tree: &mut T,
    post: &mut P,
) -> Result<PostedPackage, PublishEnd>
    ensures posted { IfOk result (λ posted. IsAllPosted (T.left tree.old) path.now
        (P.listing post.old) (P.listing post.new) (P.files post.old) (P.files post.new) posted.root) }
    ensures line { IfOk result (λ posted. posted.line.items
        ≡ line_text (record { path = path.now; root = posted.root }) ++ line_feed ∷ []) }
    ensures end { IfErr result (EndsAs (T.left tree.old) (P.listing post.old) path.now) }
    ensures early { IfErr result IsEarly }
    ensures refused { IfErr result (λ end. IfRefused end (IsRefused (T.left tree.old) (T.left tree.new)
        (P.files post.old) (P.files post.new) end)) }
    ensures unfit { IfErr result (λ end. IfUnfit end (IsUnfit (T.left tree.old) (T.left tree.new) path.now
        (P.files post.old) (P.files post.new) end)) }
    ensures none_left { OnOk result (IfSome (T.left tree.new) (λ list. list ≡ [])) }
    ensures listing { IfErr result (Stays (P.listing post.old) (P.listing post.new)
        (P.list_faults post.old) (P.list_faults post.new)) }
    ensures post_faults { Fails (failed_post result) (P.faults post.old) (P.faults post.new) }
    ensures tree_faults { Fails (failed_tree result) (T.faults tree.old) (T.faults tree.new) }
    ensures list_faults { P.list_faults post.old ≤ P.list_faults post.new }
    ensures listing_told { is_some (P.listing post.new) ≡ is_some (P.listing post.old) }
    ensures files_told { is_some (P.files post.new) ≡ is_some (P.files post.old) }
    ensures tree_told { is_some (T.left tree.new) ≡ is_some (T.left tree.old) }
{
    let meta = match meta_of(alloc, path, tree, post) {
        Ok(meta) => meta,
        Err(end) => return Err(end),
    };
    let root = root_of(&meta);
    let listing = match next_listing(alloc, post, path, root) {
        Ok(listing) => listing,
        Err(end) => return Err(end),
    };
    let Ok(line) = line_of(alloc, path, &root) else {
        return Err(PublishEnd::NoMemory);
    };
    match put_package(alloc, post, &root, &meta, &listing) {
        Ok(()) => Ok(PostedPackage { root, line }),
        Err(end) => Err(end),
    }
}

// The meta blob of the files of a tree. Those outside `meta/` are posted.
fn meta_of<T: Tree, P: Post>(
    alloc: Global,
    path: &PackagePath,
    tree: &mut T,
    post: &mut P,
) -> Result<Vec<u8>, PublishEnd>
    ensures made { IfOk result (λ meta. IsMade (T.left tree.old) path.now (P.files post.old) (P.files post.new)
        meta.items) }
    ensures small { IfOk result (λ meta. length meta.items ≤ META_LIMIT) }
    ensures end { IfErr result (EndsEarly (T.left tree.old) path.now) }
    ensures early { IfErr result IsEarly }
    ensures refused { IfErr result (λ end. IfRefused end (IsRefused (T.left tree.old) (T.left tree.new)
        (P.files post.old) (P.files post.new) end)) }
    ensures unfit { IfErr result (λ end. IfUnfit end (IsUnfit (T.left tree.old) (T.left tree.new) path.now
        (P.files post.old) (P.files post.new) end)) }
    ensures none_left { OnOk result (IfSome (T.left tree.new) (λ list. list ≡ [])) }
    ensures post_faults { Fails (failed_post result) (P.faults post.old) (P.faults post.new) }
    ensures tree_faults { Fails (failed_tree result) (T.faults tree.old) (T.faults tree.new) }
    ensures listing { P.listing post.new ≡ P.listing post.old }
    ensures files_told { is_some (P.files post.new) ≡ is_some (P.files post.old) }
    ensures list_faults { P.list_faults post.new ≡ P.list_faults post.old }
    ensures tree_told { is_some (T.left tree.new) ≡ is_some (T.left tree.old) }
{
    let draft = match gather(alloc, tree, post) {
        Ok(draft) => draft,
        Err(end) => return Err(end),
    };
    match package_of(alloc, path, draft) {
        Ok(meta) => Ok(meta),
        Err(end) => Err(end),
    }
}

// Posts the meta blob, and then the listing.
fn put_package<P: Post>(
    alloc: Global,
    post: &mut P,
    root: &Root,
    meta: &[u8],
    listing: &[u8],
) -> Result<(), PublishEnd>
    requires { IsListing listing.now }
    ensures blob { OnOk result (IfSome (P.files post.old) (λ before.
        IfSome (P.files post.new) (Puts root.now meta.now before))) }
    ensures listed { OnOk result (IfSome (P.listing post.new) (λ list. static_of listing.now ≡ Ok list)) }
    ensures kept { IfErr result (λ end. (P.listing post.new ≡ P.listing post.old)
        ⊎ ((end ≡ PublishEnd.PostFault) × Rose (P.list_faults post.old) (P.list_faults post.new))) }
    ensures end { IfErr result IsPostCut }
    ensures faults { Fails (failed_post result) (P.faults post.old) (P.faults post.new) }
    ensures listing_told { is_some (P.listing post.new) ≡ is_some (P.listing post.old) }
    ensures files_told { is_some (P.files post.new) ≡ is_some (P.files post.old) }
    ensures list_faults { P.list_faults post.old ≤ P.list_faults post.new }
{
    match end_of(post.blob(alloc, root, meta)) {
        Ok(()) => {}
        Err(end) => return Err(end),
    }
    match end_of(post.list(alloc, listing)) {
        Ok(()) => Ok(()),
        Err(end) => Err(end),
    }
}

// What a publication ends with where a post doesn't take something.
pub(crate) fn end_of(reply: PostReply) -> Result<(), PublishEnd>
    ensures ended { result ≡ ended reply }
    ensures failed { failed_post result ≡ post_failed reply }
{
    match reply {
        PostReply::Posted => Ok(()),
        PostReply::Failed => Err(PublishEnd::PostFault),
        PostReply::NoMemory => Err(PublishEnd::NoMemory),
    }
}
