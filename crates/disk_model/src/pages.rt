//! Vectors of pages.

ghost use Rattle.std.specs.Prelude.{◌≡◌, IfOk};
ghost use Rattle.disk_model.specs.Past.{zero_page, zero_pages};

use std::alloc::{AllocError, Global};

/// A page of zeros.
pub(crate) fn zero_page() -> [u8; 4096]
    ensures { result ≡ zero_page }
{
    [0; 4096]
}

/// This number of pages, all zero.
pub(crate) fn zero_pages(alloc: Global, count: u32) -> Result<Vec<[u8; 4096]>, AllocError>
    ensures { IfOk result (λ pages. pages.items ≡ zero_pages count) }
{
    let mut pages = Vec::with_capacity(alloc, count as usize)?;
    for page in 0..count {
        pages.push(zero_page())?;
    }
    Ok(pages)
}
