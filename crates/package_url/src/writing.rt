ghost use Rattle.std.specs.Prelude.{◌≡◌, ◌++◌, Ok, Some, IfOk, OnOk, IfSome};
ghost use Rattle.pkg_names.specs.Root.{IsRoot};
ghost use Rattle.pkg_names.specs.FileText.{IsFile};
ghost use Rattle.package_url.specs.Url.{IsWritable, Spells, query_text, fragment_text, url_text};
ghost use Rattle.package_url.specs.Reading.{url_in};

use crate::laws::texts_spell_a_url_or_have_a_fault;
use crate::url::Url;
use pkg_names::{Bytes, FilePath, Root, write_path, write_root};
use std::alloc::{AllocError, Global};

/// Writes a URL, always with its variant.
pub fn write_url(alloc: Global, url: &Url) -> Result<Bytes, AllocError>
    requires { IsWritable url.now }
    ensures text { IfOk result (λ bytes. bytes ≡ url_text url.now) }
    ensures spells { IfOk result (λ bytes. Spells bytes url.now) }
    ensures read { IfOk result (λ bytes. url_in bytes ≡ Ok url.now) }
{
    texts_spell_a_url_or_have_a_fault();
    let path = write_path(alloc, &url.path)?;
    let mut out = Vec::new(alloc);
    out.extend_from_slice(b"fuchsia-pkg://")?;
    out.extend_from_slice(url.host.as_slice())?;
    out.push(b'/')?;
    out.extend_from_slice(path.as_slice())?;
    put_query(&mut out, &url.pin)?;
    put_fragment(&mut out, &url.file)?;
    Ok(Bytes::make(out))
}

fn put_query(out: &mut Vec<u8>, pin: &Option<Root>) -> Result<(), AllocError>
    ensures text { OnOk result (out.new.items ≡ out.old.items ++ query_text pin.now) }
    ensures valid { IfSome pin.now IsRoot }
{
    match *pin {
        Some(root) => put_root(out, root),
        None => Ok(()),
    }
}

fn put_root(out: &mut Vec<u8>, root: Root) -> Result<(), AllocError>
    ensures text { OnOk result (out.new.items ≡ out.old.items ++ query_text (Some root)) }
    ensures valid { IsRoot root }
{
    let mut digits = [0u8; 64];
    write_root(&root, &mut digits);
    out.extend_from_slice(b"?hash=")?;
    out.extend_from_slice(&digits)?;
    Ok(())
}

fn put_fragment(out: &mut Vec<u8>, file: &Option<FilePath>) -> Result<(), AllocError>
    ensures text { OnOk result (out.new.items ≡ out.old.items ++ fragment_text file.now) }
    ensures valid { OnOk result (IfSome file.now IsFile) }
{
    let Some(file) = file else {
        return Ok(());
    };
    out.push(b'#')?;
    out.extend_from_slice(file.as_slice())?;
    Ok(())
}
