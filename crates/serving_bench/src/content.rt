//! The repositories that are served.

use package_shop::{Shop, write_folder};
use std::alloc::{AllocError, Global};
use std::rt::Files;
use std::test::Fail;

/// The packages of the large repository: with four files each it has 400 blobs.
pub(crate) const LARGE: u32 = 80;

const FILES: u32 = 4;

/// The bytes of each file: all of them have 64 MiB but for 64 bytes.
const BYTES: usize = 209_715;

/// The packages of the small repository, which have no files.
pub(crate) const SMALL: u32 = 500;

/// Writes both repositories into a folder.
pub(crate) fn make<F: Files>(files: &F, alloc: Global, folder: &str) -> Result<(), Fail> {
    let large = large_shop(alloc)?;
    let place = format!(in alloc; "{folder}/large")?;
    write_folder(files, alloc, &large, place.as_str())?;
    let small = small_shop(alloc)?;
    let place = format!(in alloc; "{folder}/small")?;
    write_folder(files, alloc, &small, place.as_str())
}

fn large_shop(alloc: Global) -> Result<Shop, Fail> {
    let mut shop = Shop::new(alloc);
    for number in 0..LARGE {
        let mut lines = Vec::new(alloc);
        for file in 0..FILES {
            let path = format!(in alloc; "data/{file}")?;
            let bytes = filled(alloc, number.wrapping_mul(FILES).wrapping_add(file))?;
            shop.line(&mut lines, path.as_bytes(), &bytes)?;
        }
        let name = format!(in alloc; "large{number}")?;
        shop.package(name.as_bytes(), lines)?;
    }
    Ok(shop)
}

fn small_shop(alloc: Global) -> Result<Shop, Fail> {
    let mut shop = Shop::new(alloc);
    for number in 0..SMALL {
        let name = format!(in alloc; "small{number}")?;
        shop.package(name.as_bytes(), Vec::new(alloc))?;
    }
    Ok(shop)
}

// The bytes of the file of this number. No other file has them.
fn filled(alloc: Global, number: u32) -> Result<Vec<u8>, AllocError> {
    let mut bytes = vec![in alloc; 0; BYTES]?;
    let mut state = number.wrapping_mul(2_654_435_769).wrapping_add(1);
    for place in bytes.iter_mut() {
        state = state.wrapping_mul(1_664_525).wrapping_add(1_013_904_223);
        *place = state.to_le_bytes()[3];
    }
    for (place, byte) in bytes.iter_mut().zip(number.to_le_bytes()) {
        *place = byte;
    }
    Ok(bytes)
}
