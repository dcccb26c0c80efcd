use crate::{FolderPost, FolderTree, HostFolders, PostTrouble};
use folder_repo::{DirRepo, HostFiles};
use pkg_merkle::{BYTES_LIMIT, root_of};
use pkg_names::streams::MemSink;
use pkg_names::{Root, read_path};
use repo_publish::{PublishEnd, Tree, TreeReply, publish};
use repo_source::{FetchReply, FindReply, NextReply, Repo};
use std::alloc::Global;
use std::os::unix::fs::symlink;
use std::rt::Files;
use std::test::Fail;
use std::{env, fs, process};

// A folder of this test alone.
fn place(rt: &HostRuntime, name: &str) -> Result<String, Fail> {
    let alloc = rt.alloc();
    let id = process::id(rt.process());
    let place = env::temp_dir(rt)?.join(
        alloc,
        format!(in alloc; "folder_publish_{name}_{id}")?.as_str(),
    )?;
    Ok(place.into_string())
}

fn put<F: Files>(
    files: &F,
    alloc: Global,
    place: &str,
    name: &str,
    text: &str,
) -> Result<(), Fail> {
    fs::write(files, format!(in alloc; "{place}/{name}")?.as_str(), text)?;
    Ok(())
}

fn dir<F: Files>(files: &F, alloc: Global, place: &str, name: &str) -> Result<(), Fail> {
    fs::create_dir_all(files, format!(in alloc; "{place}/{name}")?.as_str())?;
    Ok(())
}

// The files that a tree gives, as `<path>=<text> ` one after another, and how it ends.
fn told<T: Tree>(tree: &mut T, alloc: Global) -> Result<String, Fail> {
    let mut text = String::new(alloc);
    for _ in 0..9 {
        match tree.next(alloc) {
            TreeReply::File(file) => {
                text.push_str(str::from_utf8(file.name.as_slice())?)?;
                text.push('=')?;
                text.push_str(str::from_utf8(file.bytes.as_slice())?)?;
                text.push(' ')?;
            }
            TreeReply::End => {
                text.push_str("end")?;
                return Ok(text);
            }
            TreeReply::Failed => {
                text.push_str("failed")?;
                return Ok(text);
            }
            TreeReply::NoMemory => return Err(Fail::new("no memory")),
        }
    }
    Ok(text)
}

fn tree_told(rt: &HostRuntime, folder: &str) -> Result<(String, String, u64), Fail> {
    let mut tree = FolderTree::attach(HostFolders::attach(rt), folder);
    let text = told(&mut tree, rt.alloc())?;
    let at = String::from_str(rt.alloc(), tree.place().unwrap_or("none"))?;
    Ok((text, at, tree.faults()))
}

// Two files, of which one stands behind a link, `a` beside `a-b`, and a folder without files.
fn make_tree(rt: &HostRuntime, place: &str) -> Result<(), Fail> {
    let alloc = rt.alloc();
    dir(rt, alloc, place, "tree/a")?;
    dir(rt, alloc, place, "tree/empty/inner")?;
    dir(rt, alloc, place, "elsewhere")?;
    put(rt, alloc, place, "tree/a/b", "1")?;
    put(rt, alloc, place, "tree/a-b", "2")?;
    put(rt, alloc, place, "elsewhere/c", "3")?;
    let linked = format!(in alloc; "{place}/elsewhere")?;
    symlink(
        rt,
        linked.as_str(),
        format!(in alloc; "{place}/tree/link")?.as_str(),
    )?;
    Ok(())
}

#[test]
fn gives_the_files_in_order(rt: HostRuntime) -> Result<(), Fail> {
    let alloc = rt.alloc();
    let place = place(&rt, "tree")?;
    make_tree(&rt, place.as_str())?;
    let folder = format!(in alloc; "{place}/tree")?;
    let fine = tree_told(&rt, folder.as_str())?;
    put(&rt, alloc, place.as_str(), "tree/a/x\ny", "4")?;
    let named = tree_told(&rt, folder.as_str())?;
    symlink(
        &rt,
        "nothing",
        format!(in alloc; "{place}/tree/b")?.as_str(),
    )?;
    let broken = tree_told(&rt, folder.as_str())?;
    let missing = tree_told(&rt, format!(in alloc; "{place}/none")?.as_str())?;
    fs::remove_dir_all(&rt, place.as_str())?;
    assert_eq!(rt; fine.0.as_str(), "a-b=2 a/b=1 link/c=3 end");
    assert!(rt; fine.1.as_str() == "link/c" && fine.2 == 0);
    assert!(rt;
        named.0.as_str() == "a-b=2 a/b=1 failed" && named.1.as_str() == "a/x\ny" && named.2 == 1
    );
    assert!(rt; broken.0.as_str() == "failed" && broken.1.as_str() == "b");
    assert!(rt; missing.0.as_str() == "failed" && missing.1.as_str() == "" && missing.2 == 1);
    Ok(())
}

// How the folder `tree` of a place is published at `example/0` of the folder `repo`, with what was written.
fn published(
    rt: &HostRuntime,
    place: &str,
) -> Result<(PublishEnd, Option<PostTrouble>, MemSink), Fail> {
    let alloc = rt.alloc();
    let folder = format!(in alloc; "{place}/tree")?;
    let repo = format!(in alloc; "{place}/repo")?;
    let mut tree = FolderTree::attach(HostFolders::attach(rt), folder.as_str());
    let mut post = FolderPost::attach(HostFolders::attach(rt), repo.as_str());
    let mut sink = MemSink::make(alloc, 256, Vec::new(alloc))?;
    let path = read_path(alloc, b"example")?;
    let end = publish(alloc, &path, &mut tree, &mut post, &mut sink);
    Ok((end, post.trouble(), sink))
}

// The repository has the package at this root, and these blobs.
fn serves(rt: &HostRuntime, place: &str, root: Root, blobs: &[&[u8]]) -> Result<bool, Fail> {
    let alloc = rt.alloc();
    let folder = format!(in alloc; "{place}/repo")?;
    let mut repo = DirRepo::make(HostFiles::attach(rt), alloc, folder.as_str())?;
    let found = repo.find(&read_path(alloc, b"example")?);
    let mut fine = found == FindReply::Found(root);
    for blob in blobs {
        fine &= has_blob(&mut repo, alloc, blob);
    }
    let meta = matches!(repo.fetch(alloc, &root), FetchReply::Found { len: 12_288 });
    Ok(fine && meta)
}

// The repository gives these bytes for their root.
fn has_blob<R: Repo>(repo: &mut R, alloc: Global, bytes: &[u8]) -> bool {
    let mut out = [0u8; 16];
    if bytes.len() > BYTES_LIMIT {
        return false;
    }
    match repo.fetch(alloc, &root_of(bytes)) {
        FetchReply::Found { len } => {
            let given = repo.next(&mut out);
            len == bytes.len() as u64
                && given == NextReply::Given { count: bytes.len() }
                && out.starts_with(bytes)
        }
        _ => false,
    }
}

// How a publication of a place ends, and the trouble of its post.
fn ends(rt: &HostRuntime, place: &str) -> Result<(PublishEnd, Option<PostTrouble>), Fail> {
    let (end, trouble, _) = published(rt, place)?;
    Ok((end, trouble))
}

#[test]
fn publishes_into_a_folder(rt: HostRuntime) -> Result<(), Fail> {
    let alloc = rt.alloc();
    let place = place(&rt, "post")?;
    dir(&rt, alloc, place.as_str(), "tree/data")?;
    dir(&rt, alloc, place.as_str(), "repo/blobs")?;
    put(&rt, alloc, place.as_str(), "tree/data/a", "hi")?;
    put(&rt, alloc, place.as_str(), "tree/data/b", "b")?;
    put(&rt, alloc, place.as_str(), "repo/old", "")?;
    // The listing is a link: it is replaced, and the file behind it stays.
    symlink(
        &rt,
        "old",
        format!(in alloc; "{place}/repo/listing")?.as_str(),
    )?;
    let (end, trouble, sink) = published(&rt, place.as_str())?;
    let PublishEnd::Published { root } = end else {
        panic!(rt; "not published");
    };
    let serving = serves(&rt, place.as_str(), root, &[b"hi", b"b"])?;
    put(&rt, alloc, place.as_str(), "tree/data/b", "c")?;
    let (second, _) = ends(&rt, place.as_str())?;
    let PublishEnd::Published { root: other } = second else {
        panic!(rt; "not published again");
    };
    let again = serves(&rt, place.as_str(), other, &[b"hi", b"b", b"c"])?;
    let listing = fs::read_to_string(&rt, format!(in alloc; "{place}/repo/listing")?.as_str())?;
    let old = fs::read_to_string(&rt, format!(in alloc; "{place}/repo/old")?.as_str())?;
    let beside = fs::metadata(&rt, format!(in alloc; "{place}/repo/listing.new")?.as_str());
    fs::remove_dir_all(&rt, place.as_str())?;
    assert!(rt;
        sink.written()
            == b"example/0=040206a9758ff398241ac69f4a0956f054c6087d5d71e694a7f1daa170ac9577\n".as_slice()
    );
    assert!(rt; trouble.is_none() && serving && again && root != other);
    assert!(rt; listing.len() == 75 && old.is_empty() && beside.is_err());
    Ok(())
}

#[test]
fn tells_what_fails(rt: HostRuntime) -> Result<(), Fail> {
    let alloc = rt.alloc();
    let place = place(&rt, "faults")?;
    dir(&rt, alloc, place.as_str(), "repo")?;
    let (no_tree, nothing) = ends(&rt, place.as_str())?;
    dir(&rt, alloc, place.as_str(), "tree")?;
    let (no_listing, unlisted) = ends(&rt, place.as_str())?;
    put(&rt, alloc, place.as_str(), "repo/listing", "x\n")?;
    let (bad_listing, bad_line) = ends(&rt, place.as_str())?;
    put(&rt, alloc, place.as_str(), "repo/listing", "")?;
    put(&rt, alloc, place.as_str(), "tree/a", "hi")?;
    let (no_blobs, blob) = ends(&rt, place.as_str())?;
    dir(&rt, alloc, place.as_str(), "repo/blobs")?;
    dir(&rt, alloc, place.as_str(), "repo/listing.new")?;
    let (no_list, list) = ends(&rt, place.as_str())?;
    fs::remove_dir_all(&rt, place.as_str())?;
    assert!(rt; no_tree == PublishEnd::TreeFault && nothing.is_none());
    assert!(rt; no_listing == PublishEnd::PostFault && unlisted == Some(PostTrouble::NoListing));
    assert!(rt; bad_listing == PublishEnd::PostFault);
    assert!(rt; bad_line == Some(PostTrouble::BadListing { line: 1 }));
    assert!(rt; no_blobs == PublishEnd::PostFault);
    assert!(rt;
        blob == Some(PostTrouble::Blob {
            root: root_of(b"hi")
        })
    );
    assert!(rt; no_list == PublishEnd::PostFault && list == Some(PostTrouble::List));
    Ok(())
}
