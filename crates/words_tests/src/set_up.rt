ghost use Rattle.std.specs.Prelude.{◌≡◌, IfOk};

use pkg_names::Bytes;
use std::alloc::{AllocError, Global};

/// These bytes as a list.
pub fn bytes_of(alloc: Global, bytes: &[u8]) -> Result<Bytes, AllocError>
    ensures same { IfOk result (λ list. list ≡ bytes.now) }
{
    Ok(Bytes::make(bytes.to_vec(alloc)?))
}
