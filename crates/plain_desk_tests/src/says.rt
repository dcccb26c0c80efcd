//! What the tests share.

use crate::hall::Hall;
use lane_steps::Step;
use package_shop::{Shop, with_roots};
use pkg_names::Root;
use std::alloc::Global;
use std::test::Fail;

/// The history in lines is this one, after these calls of the lanes. Digits of roots stand for `$0`, and so on.
pub(crate) fn says(
    alloc: Global,
    hall: Hall,
    steps: &[(u32, Step)],
    want: &[u8],
    roots: &[Root],
) -> Result<bool, Fail> {
    let mut hall = hall;
    hall.run(steps)?;
    let text = hall.into_text()?;
    Ok(text.as_slice() == with_roots(alloc, want, roots)?.as_slice())
}

/// Adds the system package of this static list.
pub(crate) fn add_system(shop: &mut Shop, list: &[u8]) -> Result<Root, Fail> {
    shop.package_of(b"system_image", b"data/static_packages", list)
}
