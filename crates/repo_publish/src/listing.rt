//! The listing with the package in it.

ghost use Rattle.std.specs.Prelude.{◌≡◌, ◌||◌, nat_lt, length, IfOk, IfErr, OnOk, is_some};
ghost use Rattle.repo_source.specs.Repo.{Fails};
ghost use Rattle.repo_publish.specs.Post.{NamesOnce};
ghost use Rattle.repo_publish.specs.Ends.{IfUnfit};
ghost use Rattle.repo_publish.specs.Steps.{IsNext, EndsListing, IsTextWith, EndsText, failed_post};
ghost use Rattle.std.specs.List.{All, position};
ghost use Rattle.system_lists.specs.Lists.{IsPinned};
ghost use Rattle.pkg_names.specs.NameAndVariant.{path_eq};
ghost use Rattle.pkg_names.specs.declared.pinned.Pinned.{Pinned as PinnedOf};
ghost use Rattle.repo_publish.specs.Published.{set_pair as with_pair, listing_text as text_of_listing};

use crate::line::put_line;
use crate::post::{Post, PostListing};
use crate::publishing::PublishEnd;
use pkg_names::{PackagePath, Pinned, Root};
use std::alloc::{AllocError, Global};
use system_lists::{ENTRY_LIMIT, LIST_LIMIT, PinnedList, texts_stand_for_what_is_read};

/// The bytes of the listing with this package in it, if it passes no limit.
pub(crate) fn next_listing<P: Post>(
    alloc: Global,
    post: &mut P,
    path: &PackagePath,
    root: Root,
) -> Result<Vec<u8>, PublishEnd>
    ensures next { IfOk result (λ text. IsNext (P.listing post.old) path.now root text.items) }
    ensures end { IfErr result (EndsListing (P.listing post.old) path.now root) }
    ensures faults { Fails (failed_post result) (P.faults post.old) (P.faults post.new) }
    ensures listing { P.listing post.new ≡ P.listing post.old }
    ensures files { OnOk result (P.files post.new ≡ P.files post.old) }
    ensures full { IfErr result (λ end. IfUnfit end (P.files post.new ≡ P.files post.old)) }
    ensures files_told { is_some (P.files post.new) ≡ is_some (P.files post.old) }
    ensures list_faults { P.list_faults post.new ≡ P.list_faults post.old }
{
    match post.listing(alloc) {
        PostListing::Have(listing) => text_with(alloc, listing, path, root),
        PostListing::Failed => Err(PublishEnd::PostFault),
        PostListing::NoMemory => Err(PublishEnd::NoMemory),
    }
}

// The bytes of a listing with this package in it, if it passes no limit.
fn text_with(
    alloc: Global,
    listing: PinnedList,
    path: &PackagePath,
    root: Root,
) -> Result<Vec<u8>, PublishEnd>
    requires { NamesOnce listing }
    ensures text { IfOk result (λ text. IsTextWith listing path.now root text.items) }
    ensures end { IfErr result (EndsText listing path.now root) }
{
    texts_stand_for_what_is_read();
    let mut pairs = listing.into_vec();
    let Ok(()) = set_pair(alloc, &mut pairs, path, root) else {
        return Err(PublishEnd::NoMemory);
    };
    let Ok(text) = text_of(alloc, &pairs) else {
        return Err(PublishEnd::NoMemory);
    };
    if is_over(&pairs, &text) {
        Err(PublishEnd::FullListing)
    } else {
        Ok(text)
    }
}

// The pairs are too many, or their text is too long.
fn is_over(pairs: &[Pinned], text: &[u8]) -> bool
    ensures { result ≡ nat_lt ENTRY_LIMIT (length pairs.now) || nat_lt LIST_LIMIT (length text.now) }
{
    pairs.len() > ENTRY_LIMIT || text.len() > LIST_LIMIT
}

// Puts the pair in the place of the first one of its path, or last.
fn set_pair(
    alloc: Global,
    listing: &mut Vec<Pinned>,
    path: &PackagePath,
    root: Root,
) -> Result<(), AllocError>
    ensures { OnOk result (listing.new.items ≡ with_pair path.now root listing.old.items) }
{
    let pair = Pinned {
        path: path.try_copy(alloc)?,
        root,
    };
    match place_of(listing, path) {
        Some(place) => {
            listing[place] = pair;
            Ok(())
        }
        None => {
            listing.push(pair)?;
            Ok(())
        }
    }
}

// The place of the first pair of the path.
fn place_of(listing: &[Pinned], path: &PackagePath) -> Option<usize>
    ensures { result ≡ position (λ (pair : PinnedOf). path_eq pair.path path.now) listing.now }
{
    listing.iter().position(|pair| pair.path == *path)
}

// Each line with its line feed.
fn text_of(alloc: Global, listing: &[Pinned]) -> Result<Vec<u8>, AllocError>
    ensures text { IfOk result (λ text. text.items ≡ text_of_listing listing.now) }
    ensures pinned { IfOk result (λ _. All IsPinned listing.now) }
{
    let mut text = Vec::new(alloc);
    for pair in listing {
        put_line(&mut text, &pair.path, pair.root)?;
    }
    Ok(text)
}
