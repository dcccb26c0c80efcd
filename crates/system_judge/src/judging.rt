//! The judgement of a system: its package, its two lists and the packages of its base.

ghost use Rattle.std.specs.Prelude.{◌≡◌, ◌∷◌, ◌++◌, [], map, not, find, is_some, option_copied, List, Result, Some, None, IfOk, OnOk, Ok, Err};
ghost use Rattle.std.specs.Option.{option_map};
ghost use Rattle.system_lists.specs.Judging.{AtHand, Verdict, judged, absent, no_book, missing_name, long_len, unread, unread_named, static_list, cached_list, base_faults, judged_lists, judged_files, first_of, system_path, text_of};
ghost use Rattle.system_lists.specs.declared.fault.SystemFault.{SystemFault as SystemFaultOf};
ghost use Rattle.pkg_names.specs.declared.pinned.Pinned.{Pinned as PinnedOf};
ghost use Rattle.system_judge.specs.Judgement.{verdict_of, or_verdict, IsList};
ghost use Rattle.system_judge.specs.Listed.{pairs_in, base_pairs, listed};

use pkg_names::{FilePath, Items, PackagePath, Pinned, Root, Roots, read_file, read_path};
use std::alloc::{AllocError, Global};
use system_lists::{
    CachedFault, LIST_LIMIT, PinnedList, StaticFault, SystemFault, read_cached, read_static,
};

/// What is at hand when a system is judged.
pub trait Evidence {
    /// All of it.
    ghost at_hand: { Self → AtHand };

    /// The length of a stored blob.
    fn len(&self, root: &Root) -> Option<u64>
        ensures { result ≡ (at_hand self.now).len root.now };

    /// The package may be counted on.
    fn is_kept(&self, root: &Root) -> bool
        ensures { result ≡ (at_hand self.now).is_kept root.now };

    /// The package's meta blob is a book.
    fn is_book(&self, root: &Root) -> bool
        ensures { result ≡ (at_hand self.now).is_book root.now };

    /// The first blob that the package names and that isn't stored.
    fn first_missing(&self, root: &Root) -> Option<Root>
        ensures { let at = at_hand self.now in
            result ≡ find (λ name. not (is_some (at.len name))) (at.names root.now) };

    /// The root of the package's outer file of this path.
    fn outer(&self, root: &Root, file: &FilePath) -> Option<Root>
        ensures { result ≡ (at_hand self.now).outer root.now file.now };

    /// The bytes of a list that was read.
    fn bytes(&self, root: &Root) -> Option<&[u8]>
        ensures { option_copied result ≡ (at_hand self.now).bytes root.now };
}

/// What a judgement comes to.
#[derive(Debug, Drop)]
pub enum Judgement {
    /// This package or blob isn't there.
    Missing(Root),
    Faulty(SystemFault),
    /// This list has to be read.
    Unread(Root),
    /// The base, with the system package first, and the cached set.
    Whole {
        base: PinnedList,
        cached: PinnedList,
    },
}

/// Judges the system with this package. The first thing that is wrong counts.
pub fn judge<E: Evidence>(
    alloc: Global,
    evidence: &E,
    system: &Root,
) -> Result<Judgement, AllocError>
    ensures { IfOk result (λ found. verdict_of found ≡ judged (E.at_hand evidence.now) system.now) }
{
    if let Some(wrong) = absent(evidence, system) {
        return Ok(wrong);
    }
    if let Some(wrong) = no_book(evidence, SystemFault::NoBook, system) {
        return Ok(wrong);
    }
    let list = list_of(alloc, evidence, system, b"data/static_packages")?;
    let cached = list_of(alloc, evidence, system, b"data/cache_packages.json")?;
    match list {
        Some(list) => judge_files(alloc, evidence, system, list, cached),
        None => Ok(Judgement::Faulty(SystemFault::NoStatic)),
    }
}

/// The packages that the two lists of the system name, first those of its base. A list that can't be read
/// names none.
pub fn listed<E: Evidence>(alloc: Global, evidence: &E, system: &Root) -> Result<Roots, AllocError>
    ensures { IfOk result (λ roots. roots ≡ listed (E.at_hand evidence.now) system.now) }
{
    let list = list_of(alloc, evidence, system, b"data/static_packages")?;
    let base = base_pairs(alloc, evidence, &list)?;
    let list = list_of(alloc, evidence, system, b"data/cache_packages.json")?;
    let cached = cached_pairs(alloc, evidence, &list)?;
    let mut roots = Vec::new(alloc);
    add_roots(&mut roots, base.as_slice())?;
    add_roots(&mut roots, cached.as_slice())?;
    Ok(Items::make(roots))
}

fn base_pairs<E: Evidence>(
    alloc: Global,
    evidence: &E,
    root: &Option<Root>,
) -> Result<PinnedList, AllocError>
    ensures { IfOk result (λ pairs. pairs ≡ base_pairs (E.at_hand evidence.now) root.now) }
{
    let Some(root) = root else {
        return Ok(Items::make(Vec::new(alloc)));
    };
    pairs_in(alloc, static_list(alloc, evidence, root))
}

fn cached_pairs<E: Evidence>(
    alloc: Global,
    evidence: &E,
    root: &Option<Root>,
) -> Result<PinnedList, AllocError>
    ensures { IfOk result (λ pairs. pairs ≡ pairs_in (cached_list (E.at_hand evidence.now) root.now)) }
{
    pairs_in(alloc, cached_list(alloc, evidence, root))
}

// The pairs of a list, and none of one with a fault.
fn pairs_in(
    alloc: Global,
    list: Result<PinnedList, Option<SystemFault>>,
) -> Result<PinnedList, AllocError>
    ensures { IfOk result (λ pairs. (read : Result (List PinnedOf) SystemFaultOf)
        → IsList read list → pairs ≡ pairs_in read) }
{
    match list {
        Ok(pairs) => Ok(pairs),
        Err(Some(_)) => Ok(Items::make(Vec::new(alloc))),
        Err(None) => Err(AllocError),
    }
}

fn add_roots(roots: &mut Vec<Root>, pairs: &[Pinned]) -> Result<(), AllocError>
    ensures { OnOk result (roots.new.items ≡ roots.old.items ++ map (λ (pair : PinnedOf). pair.root) pairs.now) }
{
    for pair in pairs {
        roots.push(pair.root)?;
    }
    Ok(())
}

// The root of the system package's file of this path.
fn list_of<E: Evidence>(
    alloc: Global,
    evidence: &E,
    system: &Root,
    path: &[u8],
) -> Result<Option<Root>, AllocError>
    ensures { IfOk result (λ root. root ≡ (E.at_hand evidence.now).outer system.now path.now) }
{
    match read_file(alloc, path) {
        Ok(file) => Ok(evidence.outer(system, &file)),
        Err(_) => Err(AllocError),
    }
}

// The system's package is a book, with these two lists.
fn judge_files<E: Evidence>(
    alloc: Global,
    evidence: &E,
    system: &Root,
    list: Root,
    cached: Option<Root>,
) -> Result<Judgement, AllocError>
    ensures { IfOk result (λ found.
        verdict_of found ≡ judged_files (E.at_hand evidence.now) system.now (Some list) cached) }
{
    if let Some(wrong) = missing_name(evidence, system) {
        return Ok(wrong);
    }
    if let Some(wrong) = unread(evidence, &list) {
        return Ok(wrong);
    }
    if let Some(wrong) = unread_named(evidence, &cached) {
        return Ok(wrong);
    }
    let base = match static_list(alloc, evidence, &list) {
        Ok(base) => base,
        Err(Some(fault)) => return Ok(Judgement::Faulty(fault)),
        Err(None) => return Err(AllocError),
    };
    match cached_list(alloc, evidence, &cached) {
        Ok(cached) => judge_base(alloc, evidence, system, base, cached),
        Err(Some(fault)) => Ok(Judgement::Faulty(fault)),
        Err(None) => Err(AllocError),
    }
}

// The system has these two lists.
fn judge_base<E: Evidence>(
    alloc: Global,
    evidence: &E,
    system: &Root,
    base: PinnedList,
    cached: PinnedList,
) -> Result<Judgement, AllocError>
    ensures { IfOk result (λ found.
        verdict_of found ≡ judged_lists (E.at_hand evidence.now) system.now (Ok base) (Ok cached)) }
{
    if let Some(wrong) = base_fault(evidence, base.as_slice()) {
        return Ok(wrong);
    }
    let base = with_system(alloc, system, base)?;
    Ok(Judgement::Whole { base, cached })
}

// The system package comes first in the base.
fn with_system(alloc: Global, system: &Root, base: PinnedList) -> Result<PinnedList, AllocError>
    ensures { IfOk result (λ all. all ≡ record { path = system_path; root = system.now } ∷ base) }
{
    let path = path_of_system(alloc)?;
    let mut all = base.into_vec();
    all.insert(
        0,
        Pinned {
            path,
            root: *system,
        },
    )?;
    Ok(Items::make(all))
}

fn path_of_system(alloc: Global) -> Result<PackagePath, AllocError>
    ensures { IfOk result (λ path. path ≡ system_path) }
{
    match read_path(alloc, b"system_image/0") {
        Ok(path) => Ok(path),
        Err(_) => Err(AllocError),
    }
}

// ---- a package

fn absent<E: Evidence>(evidence: &E, root: &Root) -> Option<Judgement>
    ensures { option_map verdict_of result ≡ absent (E.at_hand evidence.now) root.now }
{
    if evidence.len(root).is_some() && evidence.is_kept(root) {
        None
    } else {
        Some(Judgement::Missing(*root))
    }
}

fn no_book<E: Evidence>(evidence: &E, fault: SystemFault, root: &Root) -> Option<Judgement>
    ensures { option_map verdict_of result ≡ no_book (E.at_hand evidence.now) fault root.now }
{
    if evidence.is_book(root) {
        None
    } else {
        Some(Judgement::Faulty(fault))
    }
}

fn missing_name<E: Evidence>(evidence: &E, root: &Root) -> Option<Judgement>
    ensures { option_map verdict_of result ≡ missing_name (E.at_hand evidence.now) root.now }
{
    match evidence.first_missing(root) {
        Some(name) => Some(Judgement::Missing(name)),
        None => None,
    }
}

// What is wrong with a package of the base.
fn package_fault<E: Evidence>(evidence: &E, root: &Root) -> Option<Judgement>
    ensures { (rest : Verdict) → or_verdict (option_map verdict_of result) rest
        ≡ first_of (absent (E.at_hand evidence.now) root.now
        ∷ no_book (E.at_hand evidence.now) (SystemFaultOf.BadBase root.now) root.now
        ∷ missing_name (E.at_hand evidence.now) root.now ∷ []) rest }
{
    if let Some(wrong) = absent(evidence, root) {
        return Some(wrong);
    }
    if let Some(wrong) = no_book(evidence, SystemFault::BadBase { root: *root }, root) {
        return Some(wrong);
    }
    missing_name(evidence, root)
}

// The first thing that is wrong with the packages of the base.
fn base_fault<E: Evidence>(evidence: &E, base: &[Pinned]) -> Option<Judgement>
    ensures { (rest : Verdict) → or_verdict (option_map verdict_of result) rest
        ≡ first_of (base_faults (E.at_hand evidence.now) base.now) rest }
{
    for pair in base {
        if let Some(wrong) = package_fault(evidence, &pair.root) {
            return Some(wrong);
        }
    }
    None
}

// ---- the lists

// The length of a list that is too long to be read.
fn long_len<E: Evidence>(evidence: &E, root: &Root) -> Option<u64>
    ensures { result ≡ long_len ((E.at_hand evidence.now).len root.now) }
{
    match evidence.len(root) {
        Some(len) if len > LIST_LIMIT as u64 => Some(len),
        _ => None,
    }
}

fn unread<E: Evidence>(evidence: &E, root: &Root) -> Option<Judgement>
    ensures { option_map verdict_of result ≡ unread (E.at_hand evidence.now) root.now }
{
    if long_len(evidence, root).is_some() || evidence.bytes(root).is_some() {
        None
    } else {
        Some(Judgement::Unread(*root))
    }
}

fn unread_named<E: Evidence>(evidence: &E, root: &Option<Root>) -> Option<Judgement>
    ensures { option_map verdict_of result ≡ unread_named (E.at_hand evidence.now) root.now }
{
    match root {
        Some(root) => unread(evidence, root),
        None => None,
    }
}

// The bytes of a list; none where it wasn't read.
fn text_of<'a, E: Evidence>(evidence: &'a E, root: &Root) -> &'a [u8]
    ensures { result.now ≡ text_of ((E.at_hand evidence.now).bytes root.now) }
{
    match evidence.bytes(root) {
        Some(text) => text,
        None => &[],
    }
}

fn static_list<E: Evidence>(
    alloc: Global,
    evidence: &E,
    root: &Root,
) -> Result<PinnedList, Option<SystemFault>>
    ensures { IsList (static_list (E.at_hand evidence.now) root.now) result }
{
    if let Some(len) = long_len(evidence, root) {
        return Err(Some(SystemFault::LongList { len }));
    }
    match read_static(alloc, text_of(evidence, root)) {
        Ok(list) => Ok(list),
        Err(StaticFault::NoMemory) => Err(None),
        Err(fault) => Err(Some(SystemFault::BadStatic(fault))),
    }
}

// Without a cached list nothing is cached.
fn cached_list<E: Evidence>(
    alloc: Global,
    evidence: &E,
    root: &Option<Root>,
) -> Result<PinnedList, Option<SystemFault>>
    ensures { IsList (cached_list (E.at_hand evidence.now) root.now) result }
{
    match root {
        Some(root) => named_list(alloc, evidence, root),
        None => Ok(Items::make(Vec::new(alloc))),
    }
}

fn named_list<E: Evidence>(
    alloc: Global,
    evidence: &E,
    root: &Root,
) -> Result<PinnedList, Option<SystemFault>>
    ensures { IsList (cached_list (E.at_hand evidence.now) (Some root.now)) result }
{
    if let Some(len) = long_len(evidence, root) {
        return Err(Some(SystemFault::LongList { len }));
    }
    match read_cached(alloc, text_of(evidence, root)) {
        Ok(list) => Ok(list),
        Err(CachedFault::NoMemory) => Err(None),
        Err(fault) => Err(Some(SystemFault::BadCached(fault))),
    }
}
