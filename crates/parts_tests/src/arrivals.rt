ghost use Rattle.std.specs.Prelude.{◌≡◌, ◌==◌, not, IfOk};
ghost use Rattle.std.specs.List.{list_any};
ghost use Rattle.package_indexes.specs.declared.Arriving.{Arriving as ArrivingOf};

use package_indexes::Indexes;
use pkg_names::{PackagePath, Root};
use std::alloc::AllocError;

/// A package arrives, where its ticket is new, and whether that was so.
pub fn arrive(
    indexes: &mut Indexes,
    ticket: u64,
    lane: u32,
    path: &PackagePath,
    root: Root,
) -> Result<bool, AllocError>
    ensures { IfOk result (λ is_new. is_new ≡ not (list_any
        (λ (arrival : ArrivingOf). arrival.ticket == ticket) indexes.old.arriving)) }
{
    if indexes
        .arriving()
        .iter()
        .any(|arrival| arrival.ticket == ticket)
    {
        return Ok(false);
    }
    indexes.arrive(ticket, lane, path, root)?;
    Ok(true)
}
