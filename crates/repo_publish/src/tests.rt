ghost use Rattle.std.specs.Prelude.{IfOk};
ghost use Rattle.repo_publish.specs.Post.{NamesOnce};

use crate::{MemPost, MemTree, PublishEnd, publish};
use far_archive::{FarEntry, write_far};
use pkg_merkle::root_of;
use pkg_names::streams::MemSink;
use pkg_names::{Bytes, Pinned, Root, read_file, read_path, write_root};
use repo_source::{FetchReply, FindReply, MemRepo, NextReply, Repo};
use std::alloc::Global;
use std::test::Fail;

fn entry(alloc: Global, name: &[u8], bytes: &[u8]) -> Result<FarEntry, Fail> {
    Ok(FarEntry {
        name: read_file(alloc, name)?,
        bytes: Bytes::make(Vec::from_slice(alloc, bytes)?),
    })
}

fn entries(alloc: Global, files: &[(&[u8], &[u8])]) -> Result<Vec<FarEntry>, Fail> {
    let mut list = Vec::new(alloc);
    for (name, bytes) in files {
        list.push(entry(alloc, name, bytes)?)?;
    }
    Ok(list)
}

// Two files outside `meta/`.
fn two_files(alloc: Global) -> Result<Vec<FarEntry>, Fail> {
    entries(
        alloc,
        &[(b"data/a".as_slice(), b"hi".as_slice()), (b"data/b", b"b")],
    )
}

// The listing `other/0`.
fn other_listing(alloc: Global) -> Result<Vec<Pinned>, Fail>
    ensures { IfOk result (λ listing. NamesOnce listing.items) }
{
    let mut listing = Vec::new(alloc);
    listing.push(Pinned {
        path: read_path(alloc, b"other")?,
        root: Root([7; 32]),
    })?;
    Ok(listing)
}

fn post_of(alloc: Global, failing: &[u64]) -> Result<MemPost, Fail> {
    Ok(MemPost::make(
        other_listing(alloc)?,
        Vec::new(alloc),
        Vec::from_slice(alloc, failing)?,
    ))
}

// How the files are published at `example/0`, and the post after that with what was written.
fn published(
    alloc: Global,
    files: Vec<FarEntry>,
    failing: &[u64],
) -> Result<(PublishEnd, MemPost, MemSink), Fail> {
    let mut tree = MemTree::make(files, Vec::new(alloc));
    let mut post = post_of(alloc, failing)?;
    let mut sink = MemSink::make(alloc, 256, Vec::new(alloc))?;
    let path = read_path(alloc, b"example")?;
    let end = publish(alloc, &path, &mut tree, &mut post, &mut sink);
    Ok((end, post, sink))
}

// `<file>=<root>` with a line feed.
fn line(alloc: Global, name: &[u8], root: &Root) -> Result<Vec<u8>, Fail> {
    let mut digits = [0u8; 64];
    write_root(root, &mut digits);
    let mut line = Vec::from_slice(alloc, name)?;
    line.push(b'=')?;
    line.extend_from_slice(&digits)?;
    line.push(b'\n')?;
    Ok(line)
}

// The meta blob of the two files.
fn meta_blob(alloc: Global) -> Result<Vec<u8>, Fail> {
    let mut contents = line(alloc, b"data/a", &root_of(b"hi"))?;
    let second = line(alloc, b"data/b", &root_of(b"b"))?;
    contents.extend_from_slice(&second)?;
    let inner = entries(
        alloc,
        &[
            (b"meta/contents".as_slice(), contents.as_slice()),
            (b"meta/package", b"{\"name\":\"example\",\"version\":\"0\"}"),
        ],
    )?;
    if inner.len() > 2 {
        return Err(Fail::new("more than two files"));
    }
    Ok(write_far(alloc, &inner)?)
}

// The repository gives these bytes for their root.
fn has_blob(repo: &mut MemRepo, alloc: Global, bytes: &[u8]) -> bool {
    let mut out = [0u8; 16_384];
    if bytes.len() > out.len() {
        return false;
    }
    match repo.fetch(alloc, &root_of(bytes)) {
        FetchReply::Found { len } => {
            let given = repo.next(&mut out);
            len == bytes.len() as u64
                && given == NextReply::Given { count: bytes.len() }
                && out.starts_with(bytes)
        }
        _ => false,
    }
}

fn finds(repo: &mut MemRepo, alloc: Global, path: &[u8]) -> Result<FindReply, Fail> {
    Ok(repo.find(&read_path(alloc, path)?))
}

#[test]
fn two_files_are_a_package(rt: HostRuntime) -> Result<(), Fail> {
    let alloc = rt.alloc();
    let meta = meta_blob(alloc)?;
    assert_eq!(rt; meta.len(), 12_288);
    let root = root_of(&meta);
    let (end, post, sink) = published(alloc, two_files(alloc)?, &[])?;
    assert_eq!(rt; end, PublishEnd::Published { root });
    assert!(rt;
        sink.written()
            == b"example/0=040206a9758ff398241ac69f4a0956f054c6087d5d71e694a7f1daa170ac9577\n".as_slice()
    );
    let mut repo = post.into_repo(Vec::new(alloc));
    assert!(rt; has_blob(&mut repo, alloc, b"hi") && has_blob(&mut repo, alloc, b"b"));
    assert!(rt; has_blob(&mut repo, alloc, &meta));
    assert_eq!(rt;
        finds(&mut repo, alloc, b"example")?,
        FindReply::Found(root)
    );
    assert_eq!(rt;
        finds(&mut repo, alloc, b"other")?,
        FindReply::Found(Root([7; 32]))
    );
    Ok(())
}

#[test]
fn a_path_that_is_listed(rt: HostRuntime) -> Result<(), Fail> {
    let alloc = rt.alloc();
    let mut tree = MemTree::make(two_files(alloc)?, Vec::new(alloc));
    let mut post = post_of(alloc, &[])?;
    let mut sink = MemSink::make(alloc, 256, Vec::new(alloc))?;
    let path = read_path(alloc, b"other")?;
    let end = publish(alloc, &path, &mut tree, &mut post, &mut sink);
    let mut repo = post.into_repo(Vec::new(alloc));
    let PublishEnd::Published { root } = end else {
        panic!(rt; "not published");
    };
    assert!(rt; root != Root([7; 32]));
    assert_eq!(rt; finds(&mut repo, alloc, b"other")?, FindReply::Found(root));
    Ok(())
}

#[test]
fn a_tree_or_a_sink_that_fails(rt: HostRuntime) -> Result<(), Fail> {
    let alloc = rt.alloc();
    let path = read_path(alloc, b"example")?;
    let mut tree = MemTree::make(two_files(alloc)?, Vec::from_slice(alloc, &[2])?);
    let mut post = post_of(alloc, &[])?;
    let mut sink = MemSink::make(alloc, 256, Vec::from_slice(alloc, &[1])?)?;
    let end = publish(alloc, &path, &mut tree, &mut post, &mut sink);
    assert_eq!(rt; end, PublishEnd::TreeFault);
    assert_eq!(rt; tree.faults(), 1);
    let mut tree = MemTree::make(two_files(alloc)?, Vec::new(alloc));
    let end = publish(alloc, &path, &mut tree, &mut post, &mut sink);
    assert_eq!(rt; end, PublishEnd::SinkFault);
    let mut repo = post.into_repo(Vec::new(alloc));
    assert!(rt; finds(&mut repo, alloc, b"example")? != FindReply::Absent);
    Ok(())
}

#[test]
fn refusals(rt: HostRuntime) -> Result<(), Fail> {
    let alloc = rt.alloc();
    let contents = entries(alloc, &[(b"meta/contents".as_slice(), b"".as_slice())])?;
    let (end, _, _) = published(alloc, contents, &[])?;
    assert_eq!(rt; end, PublishEnd::Reserved { file: 1 });
    let again = entries(alloc, &[(b"a".as_slice(), b"".as_slice()), (b"a", b"")])?;
    let (end, _, _) = published(alloc, again, &[])?;
    assert_eq!(rt; end, PublishEnd::Order { file: 2 });
    Ok(())
}

// The second blob fails, and then each call of a post in turn.
#[test]
fn failing_posts(rt: HostRuntime) -> Result<(), Fail> {
    let alloc = rt.alloc();
    for call in [1, 2, 3, 4, 5] {
        let (end, post, sink) = published(alloc, two_files(alloc)?, &[call])?;
        assert_eq!(rt; end, PublishEnd::PostFault);
        assert_eq!(rt; post.faults(), 1);
        assert!(rt; sink.written().is_empty());
        let mut repo = post.into_repo(Vec::new(alloc));
        assert_eq!(rt; finds(&mut repo, alloc, b"example")?, FindReply::Absent);
        assert_eq!(rt;
            finds(&mut repo, alloc, b"other")?,
            FindReply::Found(Root([7; 32]))
        );
    }
    Ok(())
}
