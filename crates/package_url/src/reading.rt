ghost use Rattle.std.specs.Prelude.{◌≡◌, ◌⊎◌, Err, IfOk, IfErr, option_and_then};
ghost use Rattle.package_url.specs.Url.{IsWritable, Spells};
ghost use Rattle.package_url.specs.Reading.{lent, host_in, path_in, pin_in, file_in, url_of, url_in, IsFirstFault};

use crate::fault::UrlFault;
use crate::laws::texts_spell_a_url_or_have_a_fault;
use crate::parts::{behind, file_of, first_cut, host_of, path_of, pin_of};
use crate::url::Url;
use std::alloc::Global;

/// Reads a package URL: the grammar of `docs/package_urls.md`.
pub fn read_url(alloc: Global, text: &[u8]) -> Result<Url, UrlFault>
    ensures exact { (result ≡ url_in text.now) ⊎ (result ≡ Err UrlFault.NoMemory) }
    ensures spells { IfOk result (λ url. Spells text.now url) }
    ensures fault { IfErr result (λ fault. (fault ≡ UrlFault.NoMemory) ⊎ IsFirstFault text.now fault) }
    ensures writable { IfOk result IsWritable }
{
    texts_spell_a_url_or_have_a_fault();
    read_whole(alloc, text)
}

fn read_whole(alloc: Global, text: &[u8]) -> Result<Url, UrlFault>
    ensures { (result ≡ url_in text.now) ⊎ (result ≡ Err UrlFault.NoMemory) }
{
    let Some(rest) = behind(text, b"fuchsia-pkg://") else {
        return Err(UrlFault::Scheme);
    };
    let (body, fragment) = first_cut(rest, b'#');
    let (front, query) = first_cut(body, b'?');
    let (host, path) = first_cut(front, b'/');
    read_parts(alloc, host, path, query, fragment)
}

fn read_parts(
    alloc: Global,
    host: &[u8],
    path: Option<&[u8]>,
    query: Option<&[u8]>,
    fragment: Option<&[u8]>,
) -> Result<Url, UrlFault>
    ensures { (result ≡ url_of (host_in host.now) (option_and_then path_in (lent path.entry))
        (pin_in (lent query.entry)) (file_in (lent fragment.entry)))
        ⊎ (result ≡ Err UrlFault.NoMemory) }
{
    let host = host_of(alloc, host)?;
    let path = path_of(alloc, path)?;
    let pin = pin_of(query)?;
    let file = file_of(alloc, fragment)?;
    Ok(Url {
        host,
        path,
        pin,
        file,
    })
}
