ghost use Rattle.repo_publish.specs.Post.{NamesOnce};

use crate::numbered_files;
use far_archive::FarEntry;
use package_book::PackageFault;
use pkg_merkle::BYTES_LIMIT;
use pkg_names::streams::MemSink;
use pkg_names::{Bytes, Pinned, read_file, read_path};
use repo_publish::{MemPost, MemTree, PublishEnd, publish};
use repo_source::{FetchReply, Repo};
use std::alloc::Global;
use std::test::Fail;

fn no_listing(alloc: Global) -> Vec<Pinned>
    ensures { NamesOnce result.items }
{
    Vec::new(alloc)
}

// How the files are published at `example/0` into an empty repository, and the post after that.
fn published(alloc: Global, files: Vec<FarEntry>) -> Result<(PublishEnd, MemPost), Fail> {
    published_where(alloc, files, &[])
}

// The same where the calls of the post with these numbers fail.
fn published_where(
    alloc: Global,
    files: Vec<FarEntry>,
    failing: &[u64],
) -> Result<(PublishEnd, MemPost), Fail> {
    let mut tree = MemTree::make(files, Vec::new(alloc));
    let failing = Vec::from_slice(alloc, failing)?;
    let mut post = MemPost::make(no_listing(alloc), Vec::new(alloc), failing);
    let mut sink = MemSink::make(alloc, 256, Vec::new(alloc))?;
    let path = read_path(alloc, b"example")?;
    let end = publish(alloc, &path, &mut tree, &mut post, &mut sink);
    Ok((end, post))
}

// The list of the outer files has 4096 lines of 75 bytes each, which fill 75 pages. Before it stands a page that
// says where the files lie, and behind it one with the name of the package.
#[test]
fn as_many_outer_files_as_there_may_be(rt: HostRuntime) -> Result<(), Fail> {
    let alloc = rt.alloc();
    let (end, post) = published(alloc, numbered_files(alloc, b"data", 4096)?)?;
    let PublishEnd::Published { root } = end else {
        panic!(rt; "not published");
    };
    let mut repo = post.into_repo(Vec::new(alloc));
    assert_eq!(rt;
        repo.fetch(alloc, &root),
        FetchReply::Found { len: 77 * 4096 }
    );
    Ok(())
}

#[test]
fn one_outer_file_more(rt: HostRuntime) -> Result<(), Fail> {
    let alloc = rt.alloc();
    let (end, _) = published(alloc, numbered_files(alloc, b"data", 4097)?)?;
    assert_eq!(rt; end, PublishEnd::TooMany);
    Ok(())
}

// Each inner file fills a page. So do the name of the package and 42 pages that say where the files lie; the list
// of the outer files is empty.
#[test]
fn more_inner_files_than_fit(rt: HostRuntime) -> Result<(), Fail> {
    let alloc = rt.alloc();
    let (end, _) = published(alloc, numbered_files(alloc, b"meta", 4096)?)?;
    let len = (4096 + 1 + 42) * 4096;
    assert_eq!(rt;
        end,
        PublishEnd::NotAPackage {
            why: PackageFault::Long { len }
        }
    );
    let (end, _) = published(alloc, numbered_files(alloc, b"meta", 4097)?)?;
    assert_eq!(rt; end, PublishEnd::TooMany);
    Ok(())
}

#[test]
fn a_file_that_is_too_long(rt: HostRuntime) -> Result<(), Fail> {
    let alloc = rt.alloc();
    let mut files = Vec::new(alloc);
    files.push(FarEntry {
        name: read_file(alloc, b"data/a")?,
        bytes: Bytes::make(vec![in alloc; 0; BYTES_LIMIT + 1]?),
    })?;
    let (end, _) = published(alloc, files)?;
    assert_eq!(rt;
        end,
        PublishEnd::TooLarge {
            file: 1,
            len: 33_554_433
        }
    );
    Ok(())
}

// A file is judged before anything is posted of it. Of two outer files the post has five calls: a blob each, one for
// its listing, one for the meta blob and one for the new listing.
#[test]
fn no_call_too_many(rt: HostRuntime) -> Result<(), Fail> {
    let alloc = rt.alloc();
    let (end, post) = published_where(alloc, numbered_files(alloc, b"data", 2)?, &[6])?;
    assert!(rt; matches!(end, PublishEnd::Published { .. }));
    assert_eq!(rt; post.faults(), 0);
    let mut files = Vec::new(alloc);
    files.push(FarEntry {
        name: read_file(alloc, b"meta/contents")?,
        bytes: Bytes::make(Vec::new(alloc)),
    })?;
    let (end, post) = published_where(alloc, files, &[1])?;
    assert_eq!(rt; end, PublishEnd::Reserved { file: 1 });
    assert_eq!(rt; post.faults(), 0);
    Ok(())
}
