//! A part of a blob is read.

ghost use Rattle.std.specs.Prelude.{◌≡◌, ◌+◌, ◌-◌, ◌*◌, ◌<◌, ◌≤◌, ℕ, List, ◌++◌, length, take, drop, min, IfOk, IfSome, OnErr};
ghost use Rattle.std.specs.List.{All};
ghost use Rattle.disk_model.specs.Past.{Page, Rose, state_of, MayRead};
ghost use Rattle.disk_model.specs.Images.{EachImage};
ghost use Rattle.pkg_merkle.specs.declared.hasher.TheConstants.{BYTES_LIMIT};
ghost use Rattle.blob_pages.specs.Chains.{bytes_in};

use disk_model::{Disk, DiskFailed};

/// Reads a part of a blob, from the place `from` on: as many bytes as there are and fit into `out`.
pub fn read_part<D: Disk>(
    disk: &mut D,
    start: u32,
    chain: &[u32],
    len: u64,
    from: u64,
    out: &mut [u8],
) -> Result<usize, DiskFailed>
    requires limit { len ≤ BYTES_LIMIT }
    requires whole { len ≤ 4096 * length chain.now }
    requires range { All (λ page. start + page < D.pages disk.old) chain.now }
    ensures count { IfOk result (λ count. count ≡ min (length out.old) (len - from)) }
    ensures part { (blob : List ℕ)
        → EachImage (D.past disk.old) (λ image. bytes_in start chain.now len image ≡ blob)
        → IfOk result (λ count. IfSome (D.past disk.old)
        (λ _. out.new ≡ take count (drop from blob) ++ drop count out.old)) }
    ensures past_stays { D.past disk.new ≡ D.past disk.old }
    ensures pages_stay { D.pages disk.new ≡ D.pages disk.old }
    ensures tie_stays { D.tie disk.new ≡ D.tie disk.old }
    ensures faults_never_fall { D.faults disk.old ≤ D.faults disk.new }
    ensures cause { OnErr result (Rose (D.faults disk.old) (D.faults disk.new)) }
{
    let _count = disk.pages();
    let count = out.len().min(len.saturating_sub(from) as usize);
    let mut done = 0;
    while done < count {
        let at = from as usize + done;
        done += read_piece(
            disk,
            start + chain[at / 4096],
            at % 4096,
            &mut out[done..count],
        )?;
    }
    Ok(count)
}

// Reads a page, and puts its bytes from a place on into the front of out, as many as there are and fit.
fn read_piece<D: Disk>(
    disk: &mut D,
    number: u32,
    from: usize,
    out: &mut [u8],
) -> Result<usize, DiskFailed>
    requires range { number < D.pages disk.old }
    requires within { from < 4096 }
    ensures count { IfOk result (λ count. count ≡ min (length out.old) (4096 - from)) }
    ensures page { IfOk result (λ count. (page : Page) × (length page ≡ 4096)
        × IfSome (D.past disk.old) (λ past. MayRead (state_of past number) page)
        × (out.new ≡ take count (drop from page) ++ drop count out.old)) }
    ensures past_stays { D.past disk.new ≡ D.past disk.old }
    ensures pages_stay { D.pages disk.new ≡ D.pages disk.old }
    ensures tie_stays { D.tie disk.new ≡ D.tie disk.old }
    ensures faults_never_fall { D.faults disk.old ≤ D.faults disk.new }
    ensures cause { OnErr result (Rose (D.faults disk.old) (D.faults disk.new)) }
{
    let mut page = [0; 4096];
    disk.read(number, &mut page)?;
    Ok(copy_front(&page[from..], out))
}

// Copies the front of these bytes, as many as there are and fit.
fn copy_front(bytes: &[u8], out: &mut [u8]) -> usize
    ensures count { result ≡ min (length bytes.now) (length out.old) }
    ensures copied { out.new ≡ take result bytes.now ++ drop result out.old }
{
    let count = bytes.len().min(out.len());
    out[..count].copy_from_slice(&bytes[..count]);
    count
}
