ghost use Rattle.std.specs.Prelude.{◌≡◌};
ghost use Rattle.package_url.specs.declared.fault.UrlFault.TheVariants.{NoMemory};

use std::alloc::AllocError;

/// Why a text is no package URL. They are judged in this order.
#[derive(Clone, Copy, Debug, PartialEq, Eq)]
pub enum UrlFault {
    /// The text doesn't begin with `fuchsia-pkg://`.
    Scheme,
    /// The host isn't 1 to 255 bytes of `a` to `z`, `0` to `9`, `-` and `.`.
    Host,
    /// No slash follows the host, or no package path follows the slash.
    Path,
    /// The query isn't `hash=` with a root.
    Hash,
    /// The fragment isn't a path of a file, or it has a `%`.
    Fragment,
    NoMemory,
}

impl From<AllocError> for UrlFault {
    ghost from_gives = { λ _ e. e ≡ NoMemory };

    fn from(_e: AllocError) -> UrlFault {
        UrlFault::NoMemory
    }
}
