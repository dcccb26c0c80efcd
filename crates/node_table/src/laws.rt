//! Laws of the crate. The function has an empty body: its contract is the law.

ghost use Rattle.std.specs.Prelude.{◌≡◌};

use crate::entry::{BLOB_LIMIT, CHAIN_END};

/// The numbers of the limits.
pub fn limits()
    ensures blob { BLOB_LIMIT ≡ 33_554_432 }
    ensures end { CHAIN_END ≡ 0xffff_ffff }
{}
