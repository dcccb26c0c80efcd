//! Times the publication of a folder against hashing and copying its files. `make FOLDER` makes 400 files that have
//! 64 MiB together, in 20 folders. `time FOLDER REPO` publishes them into the folder REPO, in turn with the bare
//! work, and prints the least processor time of each, and their ratio. What REPO has as `blobs`, `copies` and
//! `listing` is made anew.
#![tactic(auto)]

ghost use Rattle.std.specs.Prelude.{◌≡◌, IfOk, vec_len};

use folder_publish::{FolderPost, FolderTree, HostFolders};
use pkg_merkle::{BYTES_LIMIT, root_of};
use pkg_names::read_path;
use pkg_names::streams::MemSink;
use repo_publish::{PublishEnd, publish};
use std::alloc::{AllocError, Global};
use std::io::Read;
use std::rt::{Clock, Env, Files};
use std::test::Fail;
use std::time::{CpuClock, Duration};
use std::{env, fs};

const FOLDERS: u32 = 20;

const FILES: u32 = 20;

/// The bytes of each file: 400 of them have 64 MiB but for 64 bytes.
const BYTES: usize = 167_772;

const TURNS: usize = 7;

// So many bytes, of which none stands next to an equal one.
fn filled(alloc: Global, count: usize) -> Result<Vec<u8>, AllocError>
    ensures { IfOk result (λ bytes. vec_len bytes ≡ count) }
{
    let mut bytes = vec![in alloc; 0; count]?;
    let mut byte = 7_u8;
    for place in bytes.iter_mut() {
        byte = byte.wrapping_mul(5).wrapping_add(3);
        *place = byte;
    }
    Ok(bytes)
}

// Gives a file a number, so that no other has its bytes.
fn number_file(bytes: &mut [u8], number: u32) {
    for (place, byte) in bytes.iter_mut().zip(number.to_le_bytes()) {
        *place = byte;
    }
}

fn make_folder<F: Files>(files: &F, alloc: Global, folder: &str) -> Result<(), Fail> {
    let mut bytes = filled(alloc, BYTES)?;
    for outer in 0..FOLDERS {
        fs::create_dir_all(files, format!(in alloc; "{folder}/{outer}")?.as_str())?;
        for inner in 0..FILES {
            number_file(&mut bytes, outer * FILES + inner);
            let name = format!(in alloc; "{folder}/{outer}/{inner}")?;
            fs::write(files, name.as_str(), &bytes)?;
        }
    }
    Ok(())
}

/// The processor time of each kind of work.
#[derive(Clone, Copy)]
struct Times {
    publication: Duration,
    hashing: Duration,
    copying: Duration,
}

impl Times {
    fn all(time: Duration) -> Times {
        Times {
            publication: time,
            hashing: time,
            copying: time,
        }
    }

    // The lesser of each.
    fn least(self, other: Times) -> Times {
        Times {
            publication: self.publication.min(other.publication),
            hashing: self.hashing.min(other.hashing),
            copying: self.copying.min(other.copying),
        }
    }
}

// What was spent, and what was spent since a time.
fn since<R: CpuClock>(rt: &R, start: Duration, spent: Duration) -> Result<Duration, Fail> {
    let now = rt.thread_cpu_time()?;
    Ok(spent.saturating_add(now.saturating_sub(start)))
}

// A repository without packages, and a folder for copies.
fn make_repo<F: Files>(files: &F, alloc: Global, repo: &str) -> Result<(), Fail> {
    for name in ["blobs", "copies"] {
        let folder = format!(in alloc; "{repo}/{name}")?;
        let _ = fs::remove_dir_all(&(files, alloc), folder.as_str());
        fs::create_dir_all(files, folder.as_str())?;
    }
    Ok(fs::write(files, format!(in alloc; "{repo}/listing")?.as_str(), "")?)
}

/// Publishes the folder: `None` where that failed.
fn time_publication<R: AllocGlobal + CpuClock + Files>(
    rt: &R,
    folder: &str,
    repo: &str,
) -> Result<Option<Duration>, Fail> {
    let alloc = rt.alloc();
    let path = read_path(alloc, b"example")?;
    let mut sink = MemSink::make(alloc, 256, Vec::new(alloc))?;
    let start = rt.thread_cpu_time()?;
    let mut tree = FolderTree::attach(HostFolders::attach(rt), folder);
    let mut post = FolderPost::attach(HostFolders::attach(rt), repo);
    let end = publish(alloc, &path, &mut tree, &mut post, &mut sink);
    let spent = since(rt, start, Duration::ZERO)?;
    Ok(match end {
        PublishEnd::Published { .. } => Some(spent),
        _ => None,
    })
}

/// Copies a file, and hashes it.
fn time_file<R: AllocGlobal + CpuClock + Files>(
    rt: &R,
    from: &str,
    to: &str,
    bytes: &mut Vec<u8>,
    spent: &mut Times,
) -> Result<u8, Fail> {
    let start = rt.thread_cpu_time()?;
    bytes.clear();
    fs::open(rt, from)?.read_to_end(bytes)?;
    fs::write(rt, to, bytes.as_slice())?;
    spent.copying = since(rt, start, spent.copying)?;
    if bytes.len() > BYTES_LIMIT {
        return Err(Fail::new("a file is too large"));
    }
    let start = rt.thread_cpu_time()?;
    let root = root_of(bytes);
    spent.hashing = since(rt, start, spent.hashing)?;
    Ok(root.0[0])
}

/// The same with all files.
fn time_files<R: AllocGlobal + CpuClock + Files>(
    rt: &R,
    folder: &str,
    repo: &str,
    spent: &mut Times,
) -> Result<u8, Fail> {
    let alloc = rt.alloc();
    let mut bytes = Vec::with_capacity(alloc, BYTES + 1)?;
    let mut seen = 0;
    for outer in 0..FOLDERS {
        for inner in 0..FILES {
            let from = format!(in alloc; "{folder}/{outer}/{inner}")?;
            let to = format!(in alloc; "{repo}/copies/{outer}-{inner}")?;
            seen ^= time_file(rt, from.as_str(), to.as_str(), &mut bytes, spent)?;
        }
    }
    Ok(seen)
}

fn per_mille(part: Duration, whole: Duration) -> u128 {
    let part = part.as_micros().saturating_mul(1000);
    part.checked_div(whole.as_micros()).unwrap_or(0)
}

fn time<R: AllocGlobal + CpuClock + Files + Print>(
    rt: &R,
    folder: &str,
    repo: &str,
) -> Result<(), Fail> {
    let mut least = Times::all(Duration::MAX);
    let mut seen = 0;
    for _ in 0..TURNS {
        make_repo(rt, rt.alloc(), repo)?;
        let mut spent = Times::all(Duration::ZERO);
        let Some(publication) = time_publication(rt, folder, repo)? else {
            return Ok(println!(rt; "the folder was not published")?);
        };
        spent.publication = publication;
        seen ^= time_files(rt, folder, repo, &mut spent)?;
        least = least.least(spent);
    }
    let bare = least.hashing.saturating_add(least.copying);
    let ratio = per_mille(least.publication, bare);
    let (hashing, copying) = (least.hashing.as_micros(), least.copying.as_micros());
    let publication = least.publication.as_micros();
    println!(rt; "hashing {hashing} us, copying {copying} us, byte {seen}")?;
    println!(rt; "publication {publication} us, {ratio} per mille of both")?;
    Ok(())
}

fn main(rt: HostRuntime) -> Result<(), Fail> {
    let words = env::args(&rt)?.skip(1).collect::<Vec<String>>(rt.alloc())?;
    match words.as_slice() {
        [word, folder] if word.as_str() == "make" => make_folder(&rt, rt.alloc(), folder.as_str()),
        [word, folder, repo] if word.as_str() == "time" => time(
            &rt,
            folder.as_str(),
            repo.as_str(),
        ),
        _ => Ok(println!(rt; "make FOLDER, or time FOLDER REPO: times a publication")?),
    }
}
