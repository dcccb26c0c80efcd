ghost use Rattle.std.specs.Prelude.{◌≡◌, ◌⊎◌, ◌==◌, Err};
ghost use Rattle.pkg_names.specs.NameAndVariant.{path_eq};
ghost use Rattle.system_lists.specs.Lists.{is_among};
ghost use Rattle.system_lists.specs.Judging.{system_path};
ghost use Rattle.update_manifest.specs.Packages.{with_system, packages_fault, packages_in};

use pkg_names::{PackagePath, Pinned};
use std::alloc::Global;
use system_lists::{CachedFault, ManifestFault, PinnedList, read_cached};

/// Reads `packages.json`: the grammar of `docs/update_manifests.md`.
pub fn read_packages(alloc: Global, bytes: &[u8]) -> Result<PinnedList, ManifestFault>
    ensures exact { (result ≡ packages_in bytes.now) ⊎ (result ≡ Err ManifestFault.NoMemory) }
{
    match read_cached(alloc, bytes) {
        Ok(list) => with_system(list),
        Err(fault) => Err(packages_fault(fault)),
    }
}

fn packages_fault(fault: CachedFault) -> ManifestFault
    ensures { result ≡ packages_fault fault }
{
    match fault {
        CachedFault::Json => ManifestFault::Json,
        CachedFault::Version => ManifestFault::Version,
        CachedFault::Entry { n } => ManifestFault::Entry { n },
        CachedFault::NoMemory => ManifestFault::NoMemory,
    }
}

// The list, if it has the system package.
fn with_system(list: PinnedList) -> Result<PinnedList, ManifestFault>
    ensures { result ≡ with_system list }
{
    if has_system(list.as_slice()) {
        Ok(list)
    } else {
        Err(ManifestFault::NoSystem)
    }
}

fn has_system(list: &[Pinned]) -> bool
    ensures { result ≡ is_among system_path list.now }
{
    list.iter().any(|other| is_system(&other.path))
}

fn is_system(path: &PackagePath) -> bool
    ensures { result ≡ path_eq path.now system_path }
{
    path.name() == b"system_image".as_slice() && path.variant() == b"0".as_slice()
}
