ghost use Rattle.std.specs.Prelude.{◌≡◌, ◌<◌, ◌≤◌, ◌^◌, length, vec_len, IfSome, IfOk, IsErrOf};
ghost use Rattle.pkg_names.specs.Streams.{Rose};
ghost use Rattle.pkg_tool.specs.declared.input.InputFault.TheVariants.{NoMemory};

use pkg_names::streams::Source;
use std::alloc::{AllocError, Global};

/// Why an input is not there whole.
#[derive(Clone, Copy, Debug, PartialEq, Eq)]
pub(crate) enum InputFault {
    /// It has more bytes than the limit.
    TooLong,
    /// The source failed.
    Failed,
    NoMemory,
}

impl From<AllocError> for InputFault {
    ghost from_gives = { λ _ e. e ≡ NoMemory };

    fn from(_e: AllocError) -> InputFault {
        InputFault::NoMemory
    }
}

const CHUNK: usize = 4096;

/// Reads a source to its end, or until more than `limit` bytes have come.
pub(crate) fn read_all<S: Source>(
    alloc: Global,
    source: &mut S,
    limit: usize,
) -> Result<Vec<u8>, InputFault>
    requires { limit < 2 ^ 32 }
    ensures whole { IfOk result (λ bytes. IfSome (S.left source.old) (λ left. bytes.items ≡ left)) }
    ensures within { IfOk result (λ bytes. vec_len bytes ≤ limit) }
    ensures too_long { IsErrOf result InputFault.TooLong → IfSome (S.left source.old) (λ left. limit < length left) }
    ensures failed { IsErrOf result InputFault.Failed → Rose (S.faults source.old) (S.faults source.new) }
    ensures faults { S.faults source.old ≤ S.faults source.new }
{
    let mut bytes = Vec::new(alloc);
    let mut chunk = [0u8; CHUNK];
    for _ in 0..limit + 2 {
        let Ok(count) = source.take(&mut chunk) else {
            return Err(InputFault::Failed);
        };
        if count == 0 {
            return Ok(bytes);
        }
        bytes.extend_from_slice(&chunk[..count])?;
        if bytes.len() > limit {
            return Err(InputFault::TooLong);
        }
    }
    unreachable!()
}
