ghost use Rattle.std.specs.Prelude.{◌≡◌};

use crate::file::{FILE_PATH_LIMIT, SEGMENT_LIMIT};
use crate::path::NAME_LIMIT;

/// The numbers that definitions cite by name.
pub fn limits()
    ensures name { NAME_LIMIT ≡ 255 }
    ensures segment { SEGMENT_LIMIT ≡ 255 }
    ensures file_path { FILE_PATH_LIMIT ≡ 4095 }
{}
