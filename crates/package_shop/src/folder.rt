//! The repository of a folder.

use crate::shop::{Shop, push_line};
use pkg_names::write_path;
use repo_source::RepoFile;
use std::alloc::{AllocError, Global};
use std::fs;
use std::rt::Files;
use std::test::Fail;

/// Writes the listing and the files of a shop into a folder, which is made where it isn't there.
pub fn write_folder<F: Files>(
    files: &F,
    alloc: Global,
    shop: &Shop,
    folder: &str,
) -> Result<(), Fail> {
    fs::create_dir_all(files, format!(in alloc; "{folder}/blobs")?.as_str())?;
    let listing = listing_of(alloc, shop)?;
    fs::write(
        files,
        format!(in alloc; "{folder}/listing")?.as_str(),
        &listing,
    )?;
    for file in shop.files() {
        write_blob(files, alloc, folder, file)?;
    }
    Ok(())
}

/// The text of a shop's listing: a line for each package that is listed.
pub fn listing_of(alloc: Global, shop: &Shop) -> Result<Vec<u8>, AllocError> {
    let mut listing = Vec::new(alloc);
    for entry in shop.listing() {
        let path = write_path(alloc, &entry.path)?;
        push_line(&mut listing, path.as_slice(), &entry.root)?;
    }
    Ok(listing)
}

fn write_blob<F: Files>(
    files: &F,
    alloc: Global,
    folder: &str,
    file: &RepoFile,
) -> Result<(), Fail> {
    let digits = hex::encode(alloc, file.root.0)?;
    let name = format!(in alloc; "{folder}/blobs/{digits}")?;
    Ok(fs::write(files, name.as_str(), file.bytes.as_slice())?)
}
