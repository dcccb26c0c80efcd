//! The pages of a blob are read.

ghost use Rattle.std.specs.Prelude.{◌≡◌, ◌+◌, ◌-◌, ◌*◌, ◌^◌, ◌<◌, ◌≤◌, min, ℕ, List, [], length, IfOk, OnOk, OnErr, vec_len, vec_capacity};
ghost use Rattle.std.specs.List.{All};
ghost use Rattle.disk_model.specs.Past.{page_at, Rose, RoseBy};
ghost use Rattle.pkg_merkle.specs.declared.hasher.TheConstants.{BYTES_LIMIT};
ghost use Rattle.pkg_merkle.specs.Merkle.{merkle_root};
ghost use Rattle.blob_pages.specs.Pages.{page_count};
ghost use Rattle.blob_pages.specs.Written.{place};
ghost use Rattle.blob_pages.specs.Chains.{IsReadAt, AreRead};

use disk_model::{Disk, DiskFailed};
use pkg_merkle::Hasher;
use pkg_names::Root;

/// The root of a blob's bytes, which are read page by page, in order.
pub fn root_of_blob<D: Disk>(
    disk: &mut D,
    start: u32,
    chain: &[u32],
    len: u64,
) -> Result<Root, DiskFailed>
    requires limit { len ≤ BYTES_LIMIT }
    requires whole { len ≤ 4096 * length chain.now }
    requires range { All (λ page. start + page < D.pages disk.old) chain.now }
    ensures read { IfOk result (λ root. (bytes : List ℕ)
        × AreRead (D.past disk.old) start chain.now len (page_count len) bytes
        × (root ≡ merkle_root bytes)) }
    ensures reads { OnOk result (RoseBy (page_count len) (D.reads disk.old) (D.reads disk.new)) }
    ensures few { D.reads disk.new ≤ D.reads disk.old + page_count len }
    ensures past_stays { D.past disk.new ≡ D.past disk.old }
    ensures pages_stay { D.pages disk.new ≡ D.pages disk.old }
    ensures tie_stays { D.tie disk.new ≡ D.tie disk.old }
    ensures faults_never_fall { D.faults disk.old ≤ D.faults disk.new }
    ensures cause { OnErr result (Rose (D.faults disk.old) (D.faults disk.new)) }
{
    // so the numbers of its pages fit their type
    let _count = disk.pages();
    let count = (len as usize).div_ceil(4096);
    let mut hasher = Hasher::new();
    let mut block = [[0; 4096]; 2];
    let mut rest = len as usize;
    for k in 0..count.div_ceil(2) {
        read_two(disk, start, &chain[..count], 2 * k, &mut block)?;
        let part = rest.min(8192);
        let _ = hasher.update(&block.as_flattened()[..part]);
        rest -= part;
    }
    Ok(hasher.finish())
}

// Reads page i of a chain, and the one behind it where there is one. They are a block of the tree, which is
// hashed where it lies: a hasher that gets a part of a block keeps a copy of it.
fn read_two<D: Disk>(
    disk: &mut D,
    start: u32,
    chain: &[u32],
    i: usize,
    out: &mut [[u8; 4096]; 2],
) -> Result<(), DiskFailed>
    requires within { i < length chain.now }
    requires range { All (λ page. start + page < D.pages disk.old) chain.now }
    ensures first { OnOk result (IsReadAt (D.past disk.old) (place start chain.now i) (page_at out.new 0)) }
    ensures second { OnOk result (i + 1 < length chain.now
        → IsReadAt (D.past disk.old) (place start chain.now (i + 1)) (page_at out.new 1)) }
    ensures reads { OnOk result
        (RoseBy (min 2 (length chain.now - i)) (D.reads disk.old) (D.reads disk.new)) }
    ensures few { D.reads disk.new ≤ D.reads disk.old + min 2 (length chain.now - i) }
    ensures past_stays { D.past disk.new ≡ D.past disk.old }
    ensures pages_stay { D.pages disk.new ≡ D.pages disk.old }
    ensures tie_stays { D.tie disk.new ≡ D.tie disk.old }
    ensures faults_never_fall { D.faults disk.old ≤ D.faults disk.new }
    ensures cause { OnErr result (Rose (D.faults disk.old) (D.faults disk.new)) }
{
    let _count = disk.pages();
    read_page(disk, start + chain[i], &mut out[0])?;
    if i + 1 < chain.len() {
        read_page(disk, start + chain[i + 1], &mut out[1])?;
    }
    Ok(())
}

fn read_page<D: Disk>(disk: &mut D, number: u32, out: &mut [u8; 4096]) -> Result<(), DiskFailed>
    requires { number < D.pages disk.old }
    ensures read { OnOk result (IsReadAt (D.past disk.old) number out.new) }
    ensures past_stays { D.past disk.new ≡ D.past disk.old }
    ensures pages_stay { D.pages disk.new ≡ D.pages disk.old }
    ensures tie_stays { D.tie disk.new ≡ D.tie disk.old }
    ensures counted { D.reads disk.new ≡ min (D.reads disk.old + 1) (2 ^ 64 - 1) }
    ensures faults_never_fall { D.faults disk.old ≤ D.faults disk.new }
    ensures cause { OnErr result (Rose (D.faults disk.old) (D.faults disk.new)) }
{
    disk.read(number, out)
}

/// Reads a blob's bytes into `out`, which has room for them.
pub fn read_blob<D: Disk>(
    disk: &mut D,
    start: u32,
    chain: &[u32],
    len: u64,
    out: &mut Vec<u8>,
) -> Result<(), DiskFailed>
    requires limit { len ≤ BYTES_LIMIT }
    requires whole { len ≤ 4096 * length chain.now }
    requires range { All (λ page. start + page < D.pages disk.old) chain.now }
    requires empty { out.old.items ≡ [] }
    requires room { len ≤ vec_capacity out.old }
    ensures read { OnOk result
        (AreRead (D.past disk.old) start chain.now len (page_count len) out.new.items) }
    ensures count { OnOk result (vec_len out.new ≡ len) }
    ensures reads { OnOk result (RoseBy (page_count len) (D.reads disk.old) (D.reads disk.new)) }
    ensures few { D.reads disk.new ≤ D.reads disk.old + page_count len }
    ensures past_stays { D.past disk.new ≡ D.past disk.old }
    ensures pages_stay { D.pages disk.new ≡ D.pages disk.old }
    ensures tie_stays { D.tie disk.new ≡ D.tie disk.old }
    ensures faults_never_fall { D.faults disk.old ≤ D.faults disk.new }
    ensures cause { OnErr result (Rose (D.faults disk.old) (D.faults disk.new)) }
{
    let _count = disk.pages();
    let mut page = [0; 4096];
    let mut rest = len as usize;
    for number in &chain[..rest.div_ceil(4096)] {
        disk.read(start + *number, &mut page)?;
        let part = rest.min(4096);
        let _ = out.extend_from_slice(&page[..part]);
        rest -= part;
    }
    Ok(())
}
