ghost use Rattle.std.specs.Prelude.{◌≡◌};

use crate::contents::LINE_LIMIT;

/// The number that definitions cite by name.
pub fn limits()
    ensures lines { LINE_LIMIT ≡ 4096 }
{}
