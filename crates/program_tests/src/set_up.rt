//! Repositories, words and runs that the tests share.

use package_shop::Shop;
use pkg_names::Bytes;
use pkg_names::streams::{MemSink, MemSource};
use pkg_tool::{Ended, Status, run};
use repo_source::{MemRepo, Repo};
use std::alloc::{AllocError, Global};
use std::sync::Wait;
use std::test::Fail;

/// The words of a run.
pub const GOOD: [&str; 4] = ["run", "image", "repo", "script"];

pub fn words(alloc: Global, texts: &[&str]) -> Result<Vec<String>, AllocError> {
    let mut words = Vec::new(alloc);
    for text in texts {
        words.push(String::from_str(alloc, text)?)?;
    }
    Ok(words)
}

/// The source of a text.
pub fn source_of(alloc: Global, text: &[u8]) -> Result<MemSource, AllocError> {
    Ok(MemSource::make(Bytes::make(text.to_vec(alloc)?), Vec::new(alloc)))
}

/// So many equal repositories.
pub fn copies(alloc: Global, repo: MemRepo, count: usize) -> Result<Vec<MemRepo>, AllocError> {
    let mut repos = Vec::new(alloc);
    for _ in 0..count {
        repos.push(repo.try_copy(alloc)?)?;
    }
    Ok(repos)
}

/// A run of the script, whose history goes to the sink.
pub fn run_text<T: Wait, R: Repo + Drop>(
    rt: &T,
    alloc: Global,
    script: &[u8],
    repos: Vec<R>,
    sink: &mut MemSink,
) -> Result<Ended<R>, AllocError> {
    let asked = words(alloc, &GOOD)?;
    let mut source = source_of(alloc, script)?;
    Ok(run(rt, alloc, &asked, repos, &mut source, sink))
}

/// What a run of the script prints to its end, where two lanes have a repository of this shop each.
pub fn printed<T: Wait>(rt: &T, alloc: Global, shop: Shop, script: &[u8]) -> Result<Vec<u8>, Fail> {
    let repos = copies(alloc, shop.into_repo(Vec::new(alloc)), 2)?;
    let mut sink = MemSink::make(alloc, 1_000_000, Vec::new(alloc))?;
    let ended = run_text(rt, alloc, script, repos, &mut sink)?;
    if ended.status != Status::Done || ended.starved {
        return Err(Fail::new("not done"));
    }
    Ok(sink.written().to_vec(alloc)?)
}

/// These bytes stand in the text.
pub fn has(text: &[u8], part: &[u8]) -> bool {
    part.is_empty() || text.windows(part.len()).any(|window| window == part)
}
