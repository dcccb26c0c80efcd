//! The repositories of the lanes.

ghost use Rattle.std.specs.Prelude.{◌≡◌, IfOk, vec_len};

use folder_repo::{DirFault, DirRepo, HostFiles};
use std::alloc::Global;
use std::rt::Files;

/// The most lanes of a script.
pub(crate) const LANES: usize = 16;

/// A repository for each lane, all in this folder.
pub(crate) fn repos_in<'a, R: Files>(
    files: &'a R,
    alloc: Global,
    folder: &str,
) -> Result<Vec<DirRepo<HostFiles<'a, R>>>, DirFault>
    ensures each { IfOk result (λ repos. vec_len repos ≡ LANES) }
{
    let mut repos = Vec::new(alloc);
    for _ in 0..LANES {
        let repo = match DirRepo::make(HostFiles::attach(files), alloc, folder) {
            Ok(repo) => repo,
            Err(fault) => return Err(fault),
        };
        if repos.push(repo).is_err() {
            return Err(DirFault::NoMemory);
        }
    }
    Ok(repos)
}
