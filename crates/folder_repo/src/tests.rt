use crate::{DirFault, DirRepo, HostFiles};
use pkg_names::{Root, read_path};
use repo_source::{FetchReply, FindReply, NextReply, Repo};
use std::alloc::Global;
use std::rt::Files;
use std::test::Fail;
use std::{env, fs, process};

// A blob `hi`, and a folder in the place of another one.
fn make_blobs<F: Files>(files: &F, alloc: Global, place: &str) -> Result<(), Fail> {
    let digits = "ab".repeat(alloc, 32)?;
    let other = "cd".repeat(alloc, 32)?;
    fs::create_dir_all(files, format!(in alloc; "{place}/blobs/{other}")?.as_str())?;
    fs::write(
        files,
        format!(in alloc; "{place}/blobs/{digits}")?.as_str(),
        "hi",
    )?;
    Ok(())
}

// The listing has the package of the blob, and what follows it.
fn list<F: Files>(files: &F, alloc: Global, place: &str, rest: &str) -> Result<(), Fail> {
    let digits = "ab".repeat(alloc, 32)?;
    let text = format!(in alloc; "example/0={digits}\n{rest}")?;
    fs::write(
        files,
        format!(in alloc; "{place}/listing")?.as_str(),
        text.as_str(),
    )?;
    Ok(())
}

// Why the folder is no repository.
fn fault_of<F: Files>(files: &F, alloc: Global, place: &str) -> Option<DirFault> {
    DirRepo::make(HostFiles::attach(files), alloc, place).err()
}

fn finds<R: Repo>(repo: &mut R, alloc: Global) -> Result<bool, Fail> {
    let found = repo.find(&read_path(alloc, b"example")?);
    let other = repo.find(&read_path(alloc, b"other")?);
    Ok(found == FindReply::Found(Root([0xab; 32])) && other == FindReply::Absent)
}

fn fetches<R: Repo>(repo: &mut R, alloc: Global) -> bool {
    let absent = repo.fetch(alloc, &Root([0; 32]));
    let failed = repo.fetch(alloc, &Root([0xcd; 32]));
    absent == FetchReply::Absent && failed == FetchReply::Failed
}

fn reads<R: Repo>(repo: &mut R, alloc: Global) -> bool {
    let mut out = [0u8; 4];
    match repo.fetch(alloc, &Root([0xab; 32])) {
        FetchReply::Found { len: 2 } => {
            let given = repo.next(&mut out);
            let ended = repo.next(&mut out);
            given == NextReply::Given { count: 2 } && ended == NextReply::End
        }
        _ => false,
    }
}

fn serves<F: Files>(files: &F, alloc: Global, place: &str) -> Result<bool, Fail> {
    let mut repo = DirRepo::make(HostFiles::attach(files), alloc, place)?;
    Ok(finds(&mut repo, alloc)? && fetches(&mut repo, alloc) && reads(&mut repo, alloc))
}

#[test]
fn reads_a_folder(rt: HostRuntime) -> Result<(), Fail> {
    let alloc = rt.alloc();
    let id = process::id(rt.process());
    let place = env::temp_dir(&rt)?.join(alloc, format!(in alloc; "folder_repo_{id}")?.as_str())?;
    make_blobs(&rt, alloc, place.as_str())?;
    let none = fault_of(&rt, alloc, place.as_str());
    list(&rt, alloc, place.as_str(), "")?;
    let good = serves(&rt, alloc, place.as_str())?;
    list(&rt, alloc, place.as_str(), "x\n")?;
    let bad = fault_of(&rt, alloc, place.as_str());
    fs::remove_dir_all(&rt, place.as_str())?;
    assert!(rt; none == Some(DirFault::Unreadable) && good);
    assert!(rt; bad == Some(DirFault::BadListing { line: 2 }));
    Ok(())
}
