//! The work that is timed.

ghost use Rattle.std.specs.Prelude.{All, IfOk};
ghost use Rattle.script_lang.specs.Servable.{IsServable};
ghost use Rattle.script_lang.specs.declared.request.Request.{Request as RequestOf};

use crate::store::store;
use folder_repo::{DirRepo, HostFiles};
use script_lang::{Script, read_script, scripts_can_be_served, text_of};
use script_server::serve_lanes;
use sha2::{Digest, Sha256};
use std::alloc::Global;
use std::fs;
use std::io::Read;
use std::rt::Files;
use std::sync::Wait;
use std::test::Fail;
use std::time::{CpuClock, Duration};

const PIECE: usize = 65_536;

/// Serves a script of one lane from a folder, and gives the time that the serving took. Each package has to open.
pub(crate) fn serve<R: Files + CpuClock + Wait>(
    rt: &R,
    alloc: Global,
    folder: &str,
    script: &str,
    packages: u32,
) -> Result<Duration, Fail> {
    let script = script_of(alloc, script)?;
    let Ok(repo) = DirRepo::make(HostFiles::attach(rt), alloc, folder) else {
        return Err(Fail::new("no repository"));
    };
    let mut repos = Vec::new(alloc);
    if repos.push(repo).is_err() || repos.is_empty() {
        return Err(Fail::new("no repository"));
    }
    let mut store = store(alloc)?;
    let start = rt.thread_cpu_time()?;
    let starved = serve_lanes(rt, alloc, &mut store, &mut repos, script.requests(), 1);
    let end = rt.thread_cpu_time()?;
    let text = text_of(alloc, &store.into_history())?;
    if starved || opened(text.as_slice()) < packages {
        return Err(Fail::new("a package was not opened"));
    }
    Ok(end.saturating_sub(start))
}

// The script of a text.
fn script_of(alloc: Global, text: &str) -> Result<Script, Fail>
    ensures { IfOk result (All (λ (r : RequestOf). IsServable r.ask)) }
{
    scripts_can_be_served();
    match read_script(alloc, text.as_bytes()) {
        Ok(script) => Ok(script),
        Err(_) => Err(Fail::new("no script")),
    }
}

// The lines of a history that end with an opened package.
fn opened(text: &[u8]) -> u32 {
    let mut count = 0u32;
    for line in text.split(|byte| *byte == b'\n') {
        if line.ends_with(b" opened") {
            count = count.saturating_add(1);
        }
    }
    count
}

/// Reads all blobs of a folder once, and hashes each: the time it took.
pub(crate) fn hash_all<R: Files + CpuClock + AllocGlobal + Clone + Drop>(
    rt: &R,
    alloc: Global,
    folder: &str,
) -> Result<Duration, Fail> {
    let mut piece = vec![in alloc; 0; PIECE]?;
    let blobs = format!(in alloc; "{folder}/blobs")?;
    let mut seen = 0u8;
    let start = rt.thread_cpu_time()?;
    for entry in fs::read_dir(rt, blobs.as_str())? {
        let mut file = fs::open(rt, entry?.path())?;
        seen ^= digest_byte(&mut file, &mut piece)?;
    }
    let end = rt.thread_cpu_time()?;
    // What was hashed is used.
    let spent = end.saturating_sub(start);
    Ok(spent.saturating_add(Duration::from_nanos(u64::from(seen & 1))))
}

// One byte of the digest of a file.
fn digest_byte<F: Read>(file: &mut F, piece: &mut [u8]) -> Result<u8, Fail> {
    let mut hasher = Sha256::new();
    for _ in 0..u32::MAX {
        let count = file.read(piece)?;
        if count == 0 {
            break;
        }
        hasher.update(&piece[..count]);
    }
    Ok(hasher.finalize()[0])
}
