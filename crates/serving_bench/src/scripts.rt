//! The scripts that are served.

use std::alloc::{AllocError, Global};

/// The requests of [`rounds`].
pub(crate) const REQUESTS: u32 = 4096;

/// Resolves so many packages, whose names begin so.
pub(crate) fn resolves(alloc: Global, name: &str, count: u32) -> Result<String, AllocError> {
    let mut script = String::new(alloc);
    for number in 0..count {
        let line = request(alloc, name, number, 0)?;
        script.push_str(line.as_str())?;
    }
    Ok(script)
}

/// Resolves, reads, checks and closes so many packages, a round each over all of them, up to the greatest number of
/// requests.
pub(crate) fn rounds(alloc: Global, name: &str, count: u32) -> Result<String, AllocError> {
    let mut script = String::new(alloc);
    for place in 0..REQUESTS {
        let number = place.checked_rem(count).unwrap_or(0);
        let round = place.checked_div(count).unwrap_or(0);
        let line = request(alloc, name, number, round)?;
        script.push_str(line.as_str())?;
    }
    Ok(script)
}

// The line of a round for the package of this number.
fn request(alloc: Global, name: &str, number: u32, round: u32) -> Result<String, AllocError> {
    match round % 4 {
        0 => format!(in alloc; "1 resolve p{number} fuchsia-pkg://fuchsia.com/{name}{number}\n"),
        1 => format!(in alloc; "1 cat p{number} meta/package\n"),
        2 => format!(in alloc; "1 check p{number} meta/package\n"),
        _ => format!(in alloc; "1 close p{number}\n"),
    }
}
