//! Times the blobs of a disk against SHA-256 alone. Under the argument `time` it lands 400 blobs that have
//! 64 MiB together on a disk in memory, in pieces of 65,536 bytes, and attaches the result, in turn with
//! the bare work. It prints the least processor time of each, and the ratios.
#![tactic(auto)]

ghost use Rattle.std.specs.Prelude.{◌≡◌, ◌*◌, ◌<◌, length, IfOk, vec_len};
ghost use Rattle.image_layout.specs.Geometry.{IsWithinLimits};

use blob_disk::{Blobs, LandEnd, PutEnd};
use blob_disk_tests::blobs::{attach, format, land, put, room};
use disk_model::QuietDisk;
use image_layout::{Geometry, total_pages};
use pkg_merkle::Hasher;
use pkg_names::Root;
use sha2::{Digest, Sha256};
use std::alloc::{AllocError, Global};
use std::time::{CpuClock, Duration};
use std::{env, io};

const PIECE: usize = 65_536;

const BLOBS: u32 = 400;

/// The bytes of each blob: 400 of them have 64 MiB but for 64 bytes.
const BYTES: usize = 167_772;

const TURNS: usize = 9;

fn geometry() -> Geometry
    ensures { IsWithinLimits result }
{
    Geometry {
        blobs: 448,
        data_pages: 17_408,
        slot_pages: 1,
    }
}

// So many bytes, of which none stands next to an equal one.
fn filled(alloc: Global, count: usize) -> Result<Vec<u8>, AllocError>
    ensures { IfOk result (λ bytes. vec_len bytes ≡ count) }
{
    let mut bytes = vec![in alloc; 0; count]?;
    let mut byte = 7_u8;
    for place in bytes.iter_mut() {
        byte = byte.wrapping_mul(5).wrapping_add(3);
        *place = byte;
    }
    Ok(bytes)
}

// Gives a blob a number, so that no other has its bytes.
fn number_blob(bytes: &mut [u8], number: u32) {
    for (place, byte) in bytes.iter_mut().zip(number.to_le_bytes()) {
        *place = byte;
    }
}

fn root_of(bytes: &[u8]) -> Root {
    let mut hasher = Hasher::new();
    for piece in bytes.chunks(PIECE) {
        let _ = hasher.update(piece);
    }
    hasher.finish()
}

/// Lands one blob, in pieces.
fn land_blob(
    alloc: Global,
    blobs: &mut Blobs,
    disk: &mut QuietDisk,
    root: Root,
    bytes: &[u8],
) -> bool {
    let Some(Ok(mut draft)) = room(alloc, blobs, root, bytes.len() as u64) else {
        return false;
    };
    for piece in bytes.chunks(PIECE) {
        if put(blobs, disk, &mut draft, piece) != Some(PutEnd::Taken) {
            return false;
        }
    }
    matches!(land(blobs, disk, draft), Some(LandEnd::Landed(_)))
}

/// One byte of the digest of a blob.
fn digest_byte(bytes: &[u8]) -> u8 {
    let mut hasher = Sha256::new();
    for piece in bytes.chunks(PIECE) {
        hasher.update(piece);
    }
    hasher.finalize()[0]
}

// Copies a blob to its place among all blobs.
fn copy_blob(bytes: &[u8], number: u32, copies: &mut [u8])
    requires bytes { length bytes.now ≡ BYTES }
    requires number { number < BLOBS }
    requires copies { length copies.old ≡ BYTES * BLOBS }
{
    let at = BYTES * number as usize;
    copies[at..at + BYTES].copy_from_slice(bytes);
}

/// The processor time of each kind of work.
#[derive(Clone, Copy)]
struct Times {
    landing: Duration,
    attaching: Duration,
    digest: Duration,
    copy: Duration,
    root: Duration,
}

impl Times {
    fn all(time: Duration) -> Times {
        Times {
            landing: time,
            attaching: time,
            digest: time,
            copy: time,
            root: time,
        }
    }

    // The lesser of each.
    fn least(self, other: Times) -> Times {
        Times {
            landing: self.landing.min(other.landing),
            attaching: self.attaching.min(other.attaching),
            digest: self.digest.min(other.digest),
            copy: self.copy.min(other.copy),
            root: self.root.min(other.root),
        }
    }
}

// What was spent, and what was spent since a time.
fn since<R: CpuClock>(rt: &R, start: Duration, spent: Duration) -> io::Result<Duration> {
    let now = rt.thread_cpu_time()?;
    Ok(spent.saturating_add(now.saturating_sub(start)))
}

/// Lands a blob, and does the bare work on its bytes. Whether it landed.
fn time_blob<R: AllocGlobal + CpuClock>(
    rt: &R,
    blobs: &mut Blobs,
    disk: &mut QuietDisk,
    bytes: &[u8],
    spent: &mut Times,
) -> io::Result<Option<u8>> {
    let start = rt.thread_cpu_time()?;
    let root = root_of(bytes);
    spent.root = since(rt, start, spent.root)?;
    let start = rt.thread_cpu_time()?;
    let landed = land_blob(rt.alloc(), blobs, disk, root, bytes);
    spent.landing = since(rt, start, spent.landing)?;
    let start = rt.thread_cpu_time()?;
    let seen = digest_byte(bytes);
    spent.digest = since(rt, start, spent.digest)?;
    Ok(if landed { Some(seen) } else { None })
}

/// The same with all blobs, and a copy of each: `None` where one didn't land.
fn time_blobs<R: AllocGlobal + CpuClock>(
    rt: &R,
    blobs: &mut Blobs,
    disk: &mut QuietDisk,
    bytes: &mut [u8],
    copies: &mut [u8],
) -> io::Result<Option<Times>>
    requires bytes { length bytes.old ≡ BYTES }
    requires copies { length copies.old ≡ BYTES * BLOBS }
{
    let mut spent = Times::all(Duration::ZERO);
    for number in 0..BLOBS {
        number_blob(bytes, number);
        let Some(seen) = time_blob(rt, blobs, disk, bytes, &mut spent)? else {
            return Ok(None);
        };
        let start = rt.thread_cpu_time()?;
        copy_blob(bytes, number, copies);
        spent.copy = since(rt, start, spent.copy)?;
        number_blob(bytes, u32::from(seen));
    }
    Ok(Some(spent))
}

/// The time of an `attach`: `None` where it didn't answer all blobs.
fn time_attach<R: AllocGlobal + CpuClock>(
    rt: &R,
    disk: &mut QuietDisk,
    geometry: &Geometry,
) -> io::Result<Option<Duration>> {
    let start = rt.thread_cpu_time()?;
    let attached = attach(rt.alloc(), disk, geometry);
    let spent = since(rt, start, Duration::ZERO)?;
    match attached {
        Some(Ok(blobs)) if blobs.entries().len() == BLOBS as usize => Ok(Some(spent)),
        _ => Ok(None),
    }
}

/// One turn: a new disk, all blobs, and the stock that stands on it attached again.
fn turn<R: AllocGlobal + CpuClock>(rt: &R) -> io::Result<Option<Times>> {
    let mut bytes = filled(rt.alloc(), BYTES)?;
    let mut copies = filled(rt.alloc(), BYTES * BLOBS as usize)?;
    let geometry = geometry();
    let mut disk = QuietDisk::make(rt.alloc(), total_pages(&geometry))?;
    if !format(&mut disk, &geometry) {
        return Ok(None);
    }
    let Some(Ok(mut blobs)) = attach(rt.alloc(), &mut disk, &geometry) else {
        return Ok(None);
    };
    let Some(mut spent) = time_blobs(rt, &mut blobs, &mut disk, &mut bytes, &mut copies)? else {
        return Ok(None);
    };
    let Some(attaching) = time_attach(rt, &mut disk, &geometry)? else {
        return Ok(None);
    };
    spent.attaching = attaching;
    Ok(Some(spent))
}

fn per_mille(part: Duration, whole: Duration) -> u128 {
    let part = part.as_micros().saturating_mul(1000);
    part.checked_div(whole.as_micros()).unwrap_or(0)
}

fn print<R: Print>(rt: &R, least: &Times) -> io::Result<()> {
    let bare = least.digest.saturating_add(least.copy);
    let landing = per_mille(least.landing, bare);
    let attaching = per_mille(least.attaching, least.root);
    let against = per_mille(least.attaching, least.digest);
    let digest = least.digest.as_micros();
    let copy = least.copy.as_micros();
    let root = least.root.as_micros();
    println!(rt; "sha2 {digest} us, copy {copy} us, roots {root} us")?;
    let spent = least.landing.as_micros();
    println!(rt; "landing {spent} us, {landing} per mille of sha2 and a copy")?;
    let spent = least.attaching.as_micros();
    println!(rt; "attaching {spent} us, {attaching} per mille of the roots, {against} of sha2")
}

fn time<R: AllocGlobal + CpuClock + Print>(rt: &R) -> io::Result<()> {
    let mut least = Times::all(Duration::MAX);
    for _ in 0..TURNS {
        let Some(spent) = turn(rt)? else {
            return println!(rt; "a blob did not land");
        };
        least = least.least(spent);
    }
    print(rt, &least)
}

fn main(rt: HostRuntime) -> io::Result<()> {
    for word in env::args(&rt)?.skip(1) {
        if word.as_str() == "time" {
            return time(&rt);
        }
    }
    println!(rt; "with the argument time: times the blobs of a disk against SHA-256 alone")
}
