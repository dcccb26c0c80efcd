use crate::{FetchReply, FindReply, MemRepo, NextReply, Repo, RepoFile};
use pkg_names::{Bytes, Pinned, Root, read_path};
use std::alloc::Global;
use std::test::Fail;

const ABSENT: Root = Root([9; 32]);

// Of each two entries of one path or root, the first one counts.
fn repo_of(alloc: Global, failing: &[u64]) -> Result<MemRepo, Fail> {
    let mut listing = Vec::new(alloc);
    for (path, root) in [(b"a".as_slice(), 1), (b"b/2", 2), (b"a/0", 3)] {
        listing.push(Pinned {
            path: read_path(alloc, path)?,
            root: Root([root; 32]),
        })?;
    }
    let mut files = Vec::new(alloc);
    for (root, len, bytes) in [
        (1, 5, b"abcde".as_slice()),
        (2, 0, b""),
        (1, 3, b"xyz"),
        (3, 7, b"ab"),
    ] {
        files.push(RepoFile {
            root: Root([root; 32]),
            len,
            bytes: Bytes::make(Vec::from_slice(alloc, bytes)?),
        })?;
    }
    Ok(MemRepo::make(listing, files, Vec::from_slice(alloc, failing)?))
}

#[test]
fn first_entries_count(rt: HostRuntime) -> Result<(), Fail> {
    let mut repo = repo_of(rt.alloc(), &[])?;
    for (path, found) in [
        (b"a/0".as_slice(), FindReply::Found(Root([1; 32]))),
        (b"b/2", FindReply::Found(Root([2; 32]))),
        (b"b", FindReply::Absent),
        (b"c", FindReply::Absent),
    ] {
        assert_eq!(rt; repo.find(&read_path(rt.alloc(), path)?), found, "{path:?}");
    }
    // The declared length is told, also where it is wrong.
    for (root, found) in [
        (Root([1; 32]), FetchReply::Found { len: 5 }),
        (Root([2; 32]), FetchReply::Found { len: 0 }),
        (Root([3; 32]), FetchReply::Found { len: 7 }),
        (ABSENT, FetchReply::Absent),
    ] {
        assert_eq!(rt; repo.fetch(rt.alloc(), &root), found, "{root:?}");
    }
    assert_eq!(rt; repo.fetches(), 4);
    assert_eq!(rt; repo.faults(), 0);
    Ok(())
}

#[test]
fn pieces(rt: HostRuntime) -> Result<(), Fail> {
    let mut repo = repo_of(rt.alloc(), &[])?;
    let FetchReply::Found { len: _ } = repo.fetch(rt.alloc(), &Root([3; 32])) else {
        return Err(Fail::from("absent"));
    };
    let mut cell = [0u8; 1];
    assert_eq!(rt; repo.next(&mut cell), NextReply::Given { count: 1 });
    assert_eq!(rt; &cell, b"a");
    assert_eq!(rt; repo.next(&mut cell), NextReply::Given { count: 1 });
    assert_eq!(rt; &cell, b"b");
    assert_eq!(rt; repo.next(&mut cell), NextReply::End);
    assert_eq!(rt; repo.next(&mut cell), NextReply::End);

    let mut room = vec![in rt.alloc(); 7u8; 65_536]?;
    let FetchReply::Found { len: _ } = repo.fetch(rt.alloc(), &Root([1; 32])) else {
        return Err(Fail::from("absent"));
    };
    assert_eq!(rt; repo.next(&mut room), NextReply::Given { count: 5 });
    assert!(rt; room.starts_with(b"abcde\x07\x07"));
    assert_eq!(rt; repo.next(&mut room), NextReply::End);
    assert_eq!(rt; repo.fetches(), 2);
    Ok(())
}

// The calls 1, 3 and 5 are to fail: one of each kind.
#[test]
fn failing_calls(rt: HostRuntime) -> Result<(), Fail> {
    let mut repo = repo_of(rt.alloc(), &[5, 1, 3])?;
    let path = read_path(rt.alloc(), b"a")?;
    let root = Root([1; 32]);
    assert_eq!(rt; repo.find(&path), FindReply::Failed);
    assert_eq!(rt; repo.find(&path), FindReply::Found(root));
    assert_eq!(rt; repo.fetch(rt.alloc(), &root), FetchReply::Failed);
    let FetchReply::Found { len: _ } = repo.fetch(rt.alloc(), &root) else {
        return Err(Fail::from("absent"));
    };
    let mut out = [0u8; 2];
    assert_eq!(rt; repo.next(&mut out), NextReply::Failed);
    assert_eq!(rt; repo.next(&mut out), NextReply::Given { count: 2 });
    assert_eq!(rt; repo.faults(), 3);

    // A copy has the counts, and goes on where this one stands.
    let mut copy = repo.try_copy(rt.alloc())?;
    assert_eq!(rt; copy.faults(), 3);
    assert_eq!(rt; copy.fetches(), 2);
    assert_eq!(rt; copy.next(&mut out), NextReply::Given { count: 2 });
    assert_eq!(rt; &out, b"cd");
    Ok(())
}
