//! Runs that are refused, and the exit statuses.

use crate::set_up::{GOOD, copies, run_text, words};
use package_shop::Shop;
use package_url::UrlFault;
use pkg_names::Bytes;
use pkg_names::streams::{MemSink, MemSource};
use pkg_tool::{Status, run};
use script_lang::{LineFault, ScriptRefusal};
use std::alloc::Global;
use std::sync::Wait;
use std::test::Fail;

#[test]
fn bad_scripts(rt: HostRuntime) -> Result<(), Fail> {
    let alloc = rt.alloc();
    for (script, number, why) in [
        (b"1 fly".as_slice(), 1u32, LineFault::Form),
        (b"17 collect", 1, LineFault::Lane),
        (b"\n# \xff\n", 2, LineFault::Encoding),
        (b"1 commit\n1 close X\n", 2, LineFault::Name),
        (b"1 update https://x/y", 1, LineFault::Url(UrlFault::Scheme)),
        (
            b"1 update fuchsia-pkg://a",
            1,
            LineFault::Url(UrlFault::Path),
        ),
        (b"1 resolve x fuchsia-pkg://a/b#c", 1, LineFault::FileInUrl),
        (b"1 open x ..", 1, LineFault::Path),
        (b"1 cat x /a", 1, LineFault::File),
        (b"1 retain a", 1, LineFault::Root(1)),
    ] {
        let repos = copies(alloc, Shop::new(alloc).into_repo(Vec::new(alloc)), 16)?;
        let mut sink = MemSink::make(alloc, 64, Vec::new(alloc))?;
        let ended = run_text(&rt, alloc, script, repos, &mut sink)?;
        assert_eq!(rt; ended.status, Status::BadScript { line: number });
        assert_eq!(rt; ended.why, Some(ScriptRefusal::Line { number, why }));
        assert_eq!(rt; ended.history.len(), 0);
        assert_eq!(rt; ended.repos.len(), 16);
        assert_eq!(rt; sink.written(), b"".as_slice());
    }
    Ok(())
}

// How a run of this script ends, and how many events it has.
fn ends_so<T: Wait>(
    rt: &T,
    alloc: Global,
    script: &[u8],
) -> Result<(Status, Option<ScriptRefusal>, usize), Fail> {
    let repos = copies(alloc, Shop::new(alloc).into_repo(Vec::new(alloc)), 1)?;
    let mut sink = MemSink::make(alloc, 200_000, Vec::new(alloc))?;
    let ended = run_text(rt, alloc, script, repos, &mut sink)?;
    Ok((ended.status, ended.why, ended.history.len()))
}

#[test]
fn most_requests(rt: HostRuntime) -> Result<(), Fail> {
    let script = b"1 commit\n".as_slice().repeat(rt.alloc(), 4096)?;
    let ended = ends_so(&rt, rt.alloc(), &script)?;
    assert!(rt; ended == (Status::Done, None, 4097));
    Ok(())
}

#[test]
fn one_request_more(rt: HostRuntime) -> Result<(), Fail> {
    let script = b"1 commit\n".as_slice().repeat(rt.alloc(), 4097)?;
    let ended = ends_so(&rt, rt.alloc(), &script)?;
    let status = Status::BadScript { line: 4097 };
    let why = ScriptRefusal::TooMany { number: 4097 };
    assert!(rt; ended == (status, Some(why), 0));
    Ok(())
}

#[test]
fn most_bytes(rt: HostRuntime) -> Result<(), Fail> {
    let script = vec![in rt.alloc(); b'#'; 1_048_576]?;
    let ended = ends_so(&rt, rt.alloc(), &script)?;
    assert!(rt; ended == (Status::Done, None, 1));
    Ok(())
}

#[test]
fn one_byte_more(rt: HostRuntime) -> Result<(), Fail> {
    let script = vec![in rt.alloc(); b'#'; 1_048_577]?;
    let ended = ends_so(&rt, rt.alloc(), &script)?;
    let status = Status::BadScript { line: 0 };
    assert!(rt; ended == (status, Some(ScriptRefusal::TooLong), 0));
    Ok(())
}

// A script for lane 2, or for lane 16, where there are fewer repositories.
#[test]
fn few_repositories(rt: HostRuntime) -> Result<(), Fail> {
    let alloc = rt.alloc();
    for (script, count, status, printed) in [
        (
            b"2 collect\n1 collect\n".as_slice(),
            1u32,
            Status::FewRepos { have: 1, need: 2 },
            b"".as_slice(),
        ),
        (
            b"16 commit",
            15,
            Status::FewRepos { have: 15, need: 16 },
            b"",
        ),
        (
            b"16 commit",
            16,
            Status::Done,
            b"1 0 boot A\n2 16 commit not-pending\n",
        ),
        (b"# nothing\n", 0, Status::Done, b"1 0 boot A\n"),
    ] {
        let shop = Shop::new(alloc);
        let repos = copies(alloc, shop.into_repo(Vec::new(alloc)), count as usize)?;
        let mut sink = MemSink::make(alloc, 64, Vec::new(alloc))?;
        let ended = run_text(&rt, alloc, script, repos, &mut sink)?;
        assert_eq!(rt; ended.status, status);
        assert_eq!(rt; sink.written(), printed);
    }
    Ok(())
}

// Words out of form, and a script that can't be read to its end: nothing is asked, and nothing written.
#[test]
fn words_and_sources(rt: HostRuntime) -> Result<(), Fail> {
    let alloc = rt.alloc();
    for (texts, failing, status) in [
        (
            ["run", "-i", "repo", "script"].as_slice(),
            0u64,
            Status::BadWords,
        ),
        (&["run", "a", "b"], 0, Status::BadWords),
        (&["run", "a", "b", ""], 1, Status::BadWords),
        (&["merkle", "a"], 1, Status::BadWords),
        (&GOOD, 1, Status::ScriptFault),
        (&GOOD, 2, Status::ScriptFault),
    ] {
        let asked = words(alloc, texts)?;
        let text = Bytes::make(b"1 resolve x fuchsia-pkg://fuchsia.com/example".to_vec(alloc)?);
        let mut script = MemSource::make(text, vec![in alloc; failing]?);
        let mut sink = MemSink::make(alloc, 999, Vec::new(alloc))?;
        let repos = copies(alloc, Shop::new(alloc).into_repo(Vec::new(alloc)), 1)?;
        let ended = run(&rt, alloc, &asked, repos, &mut script, &mut sink);
        assert_eq!(rt; ended.status, status);
        assert!(rt; !ended.starved);
        assert!(rt; ended.repos.iter().all(|repo| repo.fetches() == 0));
        assert_eq!(rt; sink.written(), b"".as_slice());
    }
    Ok(())
}

#[test]
fn numbers(rt: HostRuntime) -> Result<(), Fail> {
    for (status, number) in [
        (Status::Done, 0u8),
        (Status::BadWords, 2),
        (Status::BadScript { line: 9 }, 3),
        (Status::ScriptFault, 6),
        (Status::SinkFault, 7),
        (Status::NoMemory, 8),
        (Status::FewRepos { have: 1, need: 2 }, 9),
    ] {
        assert_eq!(rt; status.number(), number);
    }
    Ok(())
}
