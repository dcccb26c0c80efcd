//! Runs of two lanes, which are served one after the other.

use crate::set_up::{copies, printed, run_text};
use package_shop::{Shop, with_roots};
use pkg_merkle::root_of;
use pkg_names::streams::MemSink;
use pkg_names::{PackagePath, Root};
use pkg_tool::Status;
use repo_source::{FetchReply, FindReply, MemRepo, NextReply, Repo};
use std::alloc::Global;
use std::test::Fail;

// Two packages, each with the file `hi`. Their roots, and the file's.
fn one_and_two(alloc: Global) -> Result<(Shop, [Root; 3]), Fail> {
    let mut shop = Shop::new(alloc);
    let one = shop.package_of(b"one", b"data/a", b"hi")?;
    let two = shop.package_of(b"two", b"data/a", b"hi")?;
    Ok((shop, [one, two, root_of(b"hi")]))
}

const BOTH: &[u8] = b"2 resolve x fuchsia-pkg://fuchsia.com/two
1 resolve x fuchsia-pkg://fuchsia.com/one
2 cat x data/a
1 close x
";

// The file that both packages have is fetched once. Names and directories are the lane's own.
#[test]
fn two_lanes(rt: HostRuntime) -> Result<(), Fail> {
    let alloc = rt.alloc();
    let (shop, roots) = one_and_two(alloc)?;
    let want = b"1 0 boot A
2 1 begin one/0 ticket $0
3 1 want 2 fetch $0
4 1 room $0 made 12288
5 1 land $0 landed 12288
6 1 want 2 fetch $2
7 1 room $2 made 2
8 1 land $2 landed 2
9 1 want 2 opened
10 1 close 9 closed
11 2 begin two/0 ticket $1
12 2 want 11 fetch $1
13 2 room $1 made 12288
14 2 land $1 landed 12288
15 2 want 11 opened
16 2 read 15 data/a bytes 2 6869
";
    let text = printed(&rt, alloc, shop, BOTH)?;
    let want = with_roots(alloc, want, &roots)?;
    assert_eq!(rt; text.as_slice(), want.as_slice());
    Ok(())
}

// Each lane asks the repository at its own place, and the one behind them isn't asked.
#[test]
fn each_lane_has_a_repository(rt: HostRuntime) -> Result<(), Fail> {
    let alloc = rt.alloc();
    let (shop, _) = one_and_two(alloc)?;
    let repos = copies(alloc, shop.into_repo(Vec::new(alloc)), 3)?;
    let mut sink = MemSink::make(alloc, 4096, Vec::new(alloc))?;
    let ended = run_text(&rt, alloc, BOTH, repos, &mut sink)?;
    assert_eq!(rt; ended.status, Status::Done);
    let fetches: Vec<u64> = ended
        .repos
        .iter()
        .map(|repo| repo.fetches())
        .collect(alloc)?;
    assert_eq!(rt; fetches.as_slice(), [2u64, 1, 0].as_slice());
    Ok(())
}

// The listing of lane 1 fails once, and of lane 2 the second of its blobs.
#[test]
fn repositories_that_fail(rt: HostRuntime) -> Result<(), Fail> {
    let alloc = rt.alloc();
    let (shop, roots) = one_and_two(alloc)?;
    let (other, _) = one_and_two(alloc)?;
    let repos: Vec<MemRepo> = vec![in alloc;
        shop.into_repo(vec![in alloc; 1u64]?),
        other.into_repo(vec![in alloc; 5u64]?),
    ]?;
    let mut sink = MemSink::make(alloc, 4096, Vec::new(alloc))?;
    let ended = run_text(&rt, alloc, BOTH, repos, &mut sink)?;
    let want = b"1 0 boot A
2 1 begin one/0 listing-fault
3 1 close 0 bad-dir
4 2 begin two/0 ticket $1
5 2 want 4 fetch $1
6 2 room $1 made 12288
7 2 land $1 landed 12288
8 2 want 4 fetch $2
9 2 miss $2 read
10 2 want 4 failed read
11 2 read 0 data/a bad-dir
";
    assert_eq!(rt; ended.status, Status::Done);
    assert_eq!(rt; sink.written(), with_roots(alloc, want, &roots)?.as_slice());
    Ok(())
}

// A repository that wants memory for each file.
#[derive(Drop)]
struct ShortRepo {
    fetches: u64,
    is_open: bool,
}

impl ShortRepo {
    fn new() -> ShortRepo {
        ShortRepo {
            fetches: 0,
            is_open: false,
        }
    }
}

impl Repo for ShortRepo {
    ghost use Rattle.std.specs.Prelude.{[], None};

    ghost listing = { λ _. None };

    ghost files = { λ _. None };

    ghost fetches = { λ r. r.fetches };

    ghost faults = { λ _. 0 };

    ghost is_open = { λ r. r.is_open };

    ghost reading = { λ _. record { root = record { 0 = [] }; given = 0 } };

    fn find(&mut self, _path: &PackagePath) -> FindReply {
        FindReply::Found(Root([7; 32]))
    }

    fn fetch(&mut self, _alloc: Global, _root: &Root) -> FetchReply {
        self.fetches = self.fetches.saturating_add(1);
        self.is_open = false;
        FetchReply::NoMemory
    }

    fn next(&mut self, _out: &mut [u8]) -> NextReply {
        NextReply::End
    }
}

// The lane for which memory is short is served no further. The one behind it is served.
#[test]
fn want_of_memory(rt: HostRuntime) -> Result<(), Fail> {
    let alloc = rt.alloc();
    let script = b"1 resolve x fuchsia-pkg://fuchsia.com/a\n2 collect\n1 collect\n";
    let repos = vec![in alloc; ShortRepo::new(), ShortRepo::new()]?;
    let mut sink = MemSink::make(alloc, 4096, Vec::new(alloc))?;
    let ended = run_text(&rt, alloc, script, repos, &mut sink)?;
    let want = b"1 0 boot A
2 1 begin a/0 ticket $0
3 1 want 2 fetch $0
4 1 miss $0 memory
5 1 give-up 2
6 2 collect removed 0
";
    assert_eq!(rt; ended.status, Status::NoMemory);
    assert!(rt; ended.starved);
    assert_eq!(rt;
        sink.written(),
        with_roots(alloc, want, &[Root([7; 32])])?.as_slice()
    );
    Ok(())
}
