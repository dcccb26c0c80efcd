//! A whole resolve.

ghost use Rattle.std.specs.Prelude.{◌≡◌, ◌<◌, ◌≤◌, ◌↔◌, ℕ, List, length, Option, Some, None, IfSome, IfOk, IfErr};
ghost use Rattle.pkg_names.specs.declared.pinned.Pinned.{Pinned};
ghost use Rattle.pkg_names.specs.declared.root.Root.{Root};
ghost use Rattle.repo_source.specs.declared.file.RepoFile.{RepoFile};
ghost use Rattle.repo_source.specs.Repo.{FailedBy};
ghost use Rattle.store_model.specs.declared.ends.TheConstants.{PIECE_LIMIT};
ghost use Rattle.store_model.specs.declared.replies.BeginReply.TheVariants as begin;
ghost use Rattle.store_model.specs.Desk.{held_by, KeepsImages};
ghost use Rattle.store_model.specs.Calls.{HoldsNoClaim, Begins};
ghost use Rattle.resolver.specs.Serving.{IsChoiceFor};
ghost use Rattle.resolver.specs.Serving.Point.{Asking};
ghost use Rattle.resolver.specs.Fetched.{IsListed};
ghost use Rattle.resolver.specs.Viewing.{IsHeldAfter, Resolves};
ghost use Rattle.resolver.specs.Steps.{Goes, after_asking, failures_of, told_by};

use crate::reply::ResolveReply;
use crate::rounds::arrive;
use package_indexes::Choice;
use package_url::Url;
use pkg_names::PackagePath;
use repo_source::{FindReply, Repo};
use std::alloc::Global;
use std::sync::Wait;
use store_model::{BeginReply, Desk, PIECE_LIMIT, Ticket};

/// Brings the package of a URL to the store and opens it. A URL without a pin has its root from the
/// repository's listing. Each blob that is missing and that no other lane fetches is fetched from the
/// repository; the others are waited for. Whatever is answered, the lane has no claim and no ticket of this
/// call, and no directory but the one that is replied.
pub fn resolve<W: Wait, K: Desk, R: Repo>(
    rt: &W,
    alloc: Global,
    desk: &mut K,
    repo: &mut R,
    url: &Url,
) -> ResolveReply
    requires no_file { url.now.file ≡ None }
    requires free { HoldsNoClaim (K.view desk.old) }
    ensures run { Resolves url.now.path url.now.pin result (K.view desk.old) (K.view desk.new)
        (R.listing repo.old) (R.files repo.old) (R.faults repo.old) (R.faults repo.new)
        (R.fetches repo.old) (R.fetches repo.new) }
    ensures images { KeepsImages (K.kept desk.old) (K.kept desk.new) }
    ensures firm { K.firm desk.old ↔ K.firm desk.new }
    ensures listing { R.listing repo.new ≡ R.listing repo.old }
    ensures files { R.files repo.new ≡ R.files repo.old }
{
    match vec![in alloc; 0u8; PIECE_LIMIT] {
        Ok(mut buffer) => resolve_by(rt, alloc, desk, repo, &mut buffer, url),
        Err(_) => ResolveReply::NoMemory,
    }
}

// The same, with its buffer.
fn resolve_by<W: Wait, K: Desk, R: Repo>(
    rt: &W,
    alloc: Global,
    desk: &mut K,
    repo: &mut R,
    buffer: &mut [u8],
    url: &Url,
) -> ResolveReply
    requires free { HoldsNoClaim (K.view desk.old) }
    requires some { 0 < length buffer.old }
    requires few { length buffer.old ≤ PIECE_LIMIT }
    ensures run { Resolves url.now.path url.now.pin result (K.view desk.old) (K.view desk.new)
        (R.listing repo.old) (R.files repo.old) (R.faults repo.old) (R.faults repo.new)
        (R.fetches repo.old) (R.fetches repo.new) }
    ensures images { KeepsImages (K.kept desk.old) (K.kept desk.new) }
    ensures firm { K.firm desk.old ↔ K.firm desk.new }
    ensures listing { R.listing repo.new ≡ R.listing repo.old }
    ensures files { R.files repo.new ≡ R.files repo.old }
{
    let choice = choose(repo, url);
    match ask(desk, &url.path, choice) {
        Ok(ticket) => arrive(rt, alloc, desk, repo, buffer, ticket),
        Err(reply) => reply,
    }
}

// The pin, or what the repository says of the path.
fn choose<R: Repo>(repo: &mut R, url: &Url) -> Choice
    ensures chosen { IsChoiceFor url.now.pin result }
    ensures listed { IfSome (R.listing repo.old) (λ all. IsListed all url.now.path result) }
    ensures faults { FailedBy (failures_of result) (R.faults repo.old) (R.faults repo.new) }
    ensures fetches { R.fetches repo.new ≡ R.fetches repo.old }
    ensures listing { R.listing repo.new ≡ R.listing repo.old }
    ensures files { R.files repo.new ≡ R.files repo.old }
{
    if let Some(root) = url.pin {
        return Choice::Pinned(root);
    }
    match repo.find(&url.path) {
        FindReply::Found(root) => Choice::Listed(root),
        FindReply::Absent => Choice::Absent,
        FindReply::Failed => Choice::Failed,
    }
}

// Asks the store for the package.
fn ask<K: Desk>(desk: &mut K, path: &PackagePath, choice: Choice) -> Result<Ticket, ResolveReply>
    ensures goes { (pin : Option Root) (listing : Option (List Pinned)) (files : Option (List RepoFile))
        (before after : ℕ) → IsChoiceFor pin choice
        → ((all : List Pinned) → listing ≡ Some all → IsListed all path.now choice)
        → FailedBy (failures_of choice) before after
        → Goes 0 (Asking path.now pin) (after_asking path.now pin result) (K.view desk.old) (K.view desk.new)
        listing files before (told_by result before after) }
    ensures made { IfOk result (λ ticket.
        Begins path.now choice (begin.Made ticket) (K.view desk.old) (K.view desk.new)) }
    ensures held { IfErr result (λ reply.
        IsHeldAfter (K.view desk.old).lane reply (held_by (K.view desk.old)) (held_by (K.view desk.new))) }
    ensures images { KeepsImages (K.kept desk.old) (K.kept desk.new) }
    ensures firm { K.firm desk.old ↔ K.firm desk.new }
{
    match desk.begin(path, choice) {
        BeginReply::Made(ticket) => Ok(ticket),
        BeginReply::InRecovery => Err(ResolveReply::InRecovery),
        BeginReply::NotFound => Err(ResolveReply::NotFound),
        BeginReply::ListingFault => Err(ResolveReply::ListingFault),
        BeginReply::DiskRead => Err(ResolveReply::DiskRead),
        BeginReply::Rotten { root, got } => Err(ResolveReply::Rotten { root, got }),
        BeginReply::Broken { number } => Err(ResolveReply::Broken { number }),
        BeginReply::NoMemory => Err(ResolveReply::NoMemory),
    }
}
