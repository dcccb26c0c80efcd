ghost use Rattle.repo_publish.specs.Post.{NamesOnce};

use crate::hashing::hash;
use crate::late_file::{FileOpener, Late, LateFile, Opener};
use crate::publishing::{PlacedTree, TroubledPost, publish_tree};
use crate::repos::repos_in;
use crate::serving::serve;
use far_archive::FarEntry;
use folder_publish::PostTrouble;
use folder_repo::DirFault;
use pkg_names::streams::{MemSink, MemSource, Source};
use pkg_names::{Bytes, Pinned, Root, read_file, read_path};
use pkg_report::{MemReport, Opening};
use pkg_tool::Status;
use repo_publish::{MemPost, MemTree};
use repo_source::{FetchReply, FindReply, MemRepo, Repo, RepoFile};
use std::alloc::{AllocError, Global};
use std::cell::Cell;
use std::rt::Files;
use std::test::Fail;
use std::{env, fs, process};

/// The root of the blob `hi`.
const HI: [u8; 32] = [
    0xdf, 0x6d, 0x2b, 0xb7, 0xda, 0xc8, 0xa2, 0x7c, 0x99, 0xa0, 0xac, 0x49, 0x8f, 0xab, 0xc1, 0x06,
    0xe9, 0x4e, 0xab, 0x93, 0xdc, 0x88, 0xd4, 0x0b, 0x2e, 0x31, 0x3a, 0xea, 0xe3, 0x3c, 0xb5, 0xa6,
];

const SCRIPT: &[u8] = b"2 resolve a fuchsia-pkg://fuchsia.com/example?hash=\
    df6d2bb7dac8a27c99a0ac498fabc106e94eab93dc88d40b2e313aeae33cb5a6\n";

const HISTORY: &[u8] = b"\
1 0 boot A\n\
2 2 begin example/0 ticket df6d2bb7dac8a27c99a0ac498fabc106e94eab93dc88d40b2e313aeae33cb5a6\n\
3 2 want 2 fetch df6d2bb7dac8a27c99a0ac498fabc106e94eab93dc88d40b2e313aeae33cb5a6\n\
4 2 room df6d2bb7dac8a27c99a0ac498fabc106e94eab93dc88d40b2e313aeae33cb5a6 made 2\n\
5 2 land df6d2bb7dac8a27c99a0ac498fabc106e94eab93dc88d40b2e313aeae33cb5a6 landed 2\n\
6 2 want 2 failed not-a-package\n";

// A listing of one package, and the blob `hi`.
fn make_folder<F: Files>(files: &F, alloc: Global, place: &str, listing: &str) -> Result<(), Fail> {
    let digits = "ab".repeat(alloc, 32)?;
    fs::create_dir_all(files, format!(in alloc; "{place}/blobs")?.as_str())?;
    fs::write(
        files,
        format!(in alloc; "{place}/blobs/{digits}")?.as_str(),
        "hi",
    )?;
    fs::write(
        files,
        format!(in alloc; "{place}/listing")?.as_str(),
        listing,
    )?;
    Ok(())
}

// Each lane's repository has the package and its blob.
fn finds<F: Files>(files: &F, alloc: Global, place: &str) -> Result<usize, Fail> {
    let mut repos = repos_in(files, alloc, place)?;
    let path = read_path(alloc, b"example")?;
    let mut count = 0usize;
    for repo in repos.iter_mut() {
        let found = repo.find(&path) == FindReply::Found(Root([0xab; 32]));
        let fetched = repo.fetch(alloc, &Root([0xab; 32])) == FetchReply::Found { len: 2 };
        if found && fetched {
            count = count.saturating_add(1);
        }
    }
    Ok(count)
}

// A folder for each of sixteen lanes, and one with a bad line.
#[test]
fn repositories_of_a_folder(rt: HostRuntime) -> Result<(), Fail> {
    let alloc = rt.alloc();
    let id = process::id(rt.process());
    let place = env::temp_dir(&rt)?.join(alloc, format!(in alloc; "pkg_main_{id}")?.as_str())?;
    let digits = "ab".repeat(alloc, 32)?;
    let line = format!(in alloc; "example/0={digits}\n")?;
    make_folder(&rt, alloc, place.as_str(), line.as_str())?;
    let count = finds(&rt, alloc, place.as_str())?;
    let twice = format!(in alloc; "{line}{line}")?;
    make_folder(&rt, alloc, place.as_str(), twice.as_str())?;
    let fault = repos_in(&rt, alloc, place.as_str()).err();
    fs::remove_dir_all(&rt, place.as_str())?;
    let none = repos_in(&rt, alloc, place.as_str()).err();
    assert_eq!(rt; count, 16);
    assert!(rt; fault == Some(DirFault::BadListing { line: 2 }));
    assert!(rt; none == Some(DirFault::Unreadable));
    Ok(())
}

// A file that is there, and one that isn't.
#[test]
fn opens_files_of_the_host(rt: HostRuntime) -> Result<(), Fail> {
    let alloc = rt.alloc();
    let id = process::id(rt.process());
    let name = env::temp_dir(&rt)?.join(alloc, format!(in alloc; "pkg_main_file_{id}")?.as_str())?;
    fs::write(&rt, name.as_str(), "hi")?;
    let mut text = [0u8; 4];
    let mut file = LateFile::attach(FileOpener::of(&rt, name.as_str()));
    let count = file.take(&mut text);
    fs::remove_file(&rt, name.as_str())?;
    let mut none = LateFile::attach(FileOpener::of(&rt, name.as_str()));
    let missing = none.take(&mut text);
    assert_eq!(rt; count, Ok(2));
    assert_eq!(rt; file.opening(), Opening::Fine);
    assert!(rt; missing.is_err());
    assert_eq!(rt; none.opening(), Opening::Missing);
    Ok(())
}

// An opener that counts. Without a source there is no file.
#[derive(Drop)]
struct CountingOpener<'a> {
    count: &'a Cell<u32>,
    source: Option<MemSource>,
    tried: Option<Opening>,
}

impl Opener for CountingOpener<'_> {
    type Opened = MemSource;

    ghost tried = { λ o. o.tried };

    fn open(&mut self) -> Result<MemSource, Opening> {
        self.count.set(self.count.get().saturating_add(1));
        match self.source.take() {
            Some(source) => {
                self.tried = Some(Opening::Fine);
                Ok(source)
            }
            None => {
                self.tried = Some(Opening::Missing);
                Err(Opening::Missing)
            }
        }
    }
}

fn source_of(alloc: Global, text: &[u8]) -> Result<MemSource, AllocError> {
    Ok(MemSource::make(Bytes::make(text.to_vec(alloc)?), Vec::new(alloc)))
}

// A file is opened at its first read, and not again; one that is not there is not looked for again.
#[test]
fn opens_a_file_once(rt: HostRuntime) -> Result<(), Fail> {
    let count = Cell::new(0);
    let mut text = [0u8; 2];
    let mut file = LateFile::attach(CountingOpener {
        count: &count,
        source: Some(source_of(rt.alloc(), b"abc")?),
        tried: None,
    });
    assert_eq!(rt; count.get(), 0);
    assert_eq!(rt; file.take(&mut text), Ok(2));
    assert_eq!(rt; file.take(&mut text), Ok(1));
    assert_eq!(rt; file.opening(), Opening::Fine);
    assert_eq!(rt; count.get(), 1);
    let mut missing = LateFile::attach(CountingOpener {
        count: &count,
        source: None,
        tried: None,
    });
    assert!(rt; missing.take(&mut text).is_err());
    assert!(rt; missing.take(&mut text).is_err());
    assert_eq!(rt; missing.opening(), Opening::Missing);
    assert_eq!(rt; count.get(), 2);
    Ok(())
}

// The repository of a lane, with the blob `hi`.
fn repo_of(alloc: Global) -> Result<MemRepo, AllocError> {
    let mut files = Vec::new(alloc);
    files.push(RepoFile {
        root: Root(HI),
        len: 2,
        bytes: Bytes::make(b"hi".to_vec(alloc)?),
    })?;
    Ok(MemRepo::make(Vec::new(alloc), files, Vec::new(alloc)))
}

// A whole run, of lane 2: one blob, which is there and no package.
#[test]
fn serves_a_script(rt: HostRuntime) -> Result<(), Fail> {
    let alloc = rt.alloc();
    let mut words = Vec::new(alloc);
    for word in ["run", "image", "repo", "script"] {
        words.push(String::from_str(alloc, word)?)?;
    }
    let repos = vec![in alloc; repo_of(alloc)?, repo_of(alloc)?]?;
    let count = Cell::new(0);
    let mut script = LateFile::attach(CountingOpener {
        count: &count,
        source: Some(source_of(alloc, SCRIPT)?),
        tried: None,
    });
    let mut out = MemSink::make(alloc, 4096, Vec::new(alloc))?;
    let mut report = MemReport::make(alloc, false);
    let served = serve(
        &rt,
        alloc,
        &words,
        repos,
        &mut script,
        &mut out,
        &mut report,
    );
    assert_eq!(rt; served.ended.status, Status::Done);
    assert_eq!(rt; out.written(), HISTORY);
    assert!(rt; report.said().is_empty());
    assert_eq!(rt; count.get(), 1);
    Ok(())
}

// The root of `hi`, and a file that can't be opened.
#[test]
fn hashes_a_file(rt: HostRuntime) -> Result<(), Fail> {
    let alloc = rt.alloc();
    let count = Cell::new(0);
    for (text, printed, said) in [
        (
            Some(b"hi".as_slice()),
            b"df6d2bb7dac8a27c99a0ac498fabc106e94eab93dc88d40b2e313aeae33cb5a6\n".as_slice(),
            b"".as_slice(),
        ),
        (None, b"", b"cannot open f\n"),
    ] {
        let source = match text {
            Some(text) => Some(source_of(alloc, text)?),
            None => None,
        };
        let mut file = LateFile::attach(CountingOpener {
            count: &count,
            source,
            tried: None,
        });
        let mut out = MemSink::make(alloc, 65, Vec::new(alloc))?;
        let mut report = MemReport::make(alloc, false);
        let _hashed = hash(alloc, &mut file, "f", &mut out, &mut report);
        assert_eq!(rt; out.written(), printed);
        assert_eq!(rt; report.said(), said);
    }
    Ok(())
}

impl PlacedTree for MemTree {
    ghost use Rattle.std.specs.Prelude.{None};

    ghost place = { λ _. None };

    fn place(&self) -> Option<&str> {
        None
    }
}

impl TroubledPost for MemPost {
    ghost use Rattle.std.specs.Prelude.{None};

    ghost trouble = { λ _. None };

    fn trouble(&self) -> Option<PostTrouble> {
        None
    }
}

fn no_listing(alloc: Global) -> Vec<Pinned>
    ensures { NamesOnce result.items }
{
    Vec::new(alloc)
}

// A file that is published, and a post whose first call fails.
#[test]
fn publishes_a_tree(rt: HostRuntime) -> Result<(), Fail> {
    let alloc = rt.alloc();
    let path = read_path(alloc, b"notes")?;
    for (failing, printed, said) in [
        (
            9,
            b"notes/0=6f10af103b268f9b6f884d5aa95a7537dc8cd8501f5b1b6234fa7605cb8b9067\n".as_slice(),
            b"".as_slice(),
        ),
        (1, b"", b"r failed\n"),
    ] {
        let file = FarEntry {
            name: read_file(alloc, b"data/text")?,
            bytes: Bytes::make(b"the new text\n".to_vec(alloc)?),
        };
        let mut tree = MemTree::make(vec![in alloc; file]?, Vec::new(alloc));
        let mut post = MemPost::make(no_listing(alloc), Vec::new(alloc), vec![in alloc; failing]?);
        let mut out = MemSink::make(alloc, 80, Vec::new(alloc))?;
        let mut report = MemReport::make(alloc, false);
        let _ended = publish_tree(
            alloc,
            &path,
            &mut tree,
            &mut post,
            "f",
            "r",
            &mut out,
            &mut report,
        );
        assert_eq!(rt; out.written(), printed);
        assert_eq!(rt; report.said(), said);
    }
    Ok(())
}
