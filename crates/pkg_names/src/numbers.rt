//! Numbers within texts, the low byte first.

ghost use Rattle.std.specs.Prelude.{◌≡◌, ◌+◌, ◌≤◌, length};
ghost use Rattle.std.specs.Int.{w16, w32, w64};
ghost use Rattle.pkg_names.specs.Numbers.{number_at};

/// The two bytes at this place.
pub fn u16_at(bytes: &[u8], at: usize) -> u16
    requires { at + 2 ≤ length bytes.now }
    ensures { result ≡ number_at w16 bytes.now at }
{
    let cells = &bytes[at..at + 2];
    u16::from_le_bytes([cells[0], cells[1]])
}

/// The four bytes at this place.
pub fn u32_at(bytes: &[u8], at: usize) -> u32
    requires { at + 4 ≤ length bytes.now }
    ensures { result ≡ number_at w32 bytes.now at }
{
    let cells = &bytes[at..at + 4];
    u32::from_le_bytes([cells[0], cells[1], cells[2], cells[3]])
}

/// The eight bytes at this place.
pub fn u64_at(bytes: &[u8], at: usize) -> u64
    requires { at + 8 ≤ length bytes.now }
    ensures { result ≡ number_at w64 bytes.now at }
{
    let cells = &bytes[at..at + 8];
    u64::from_le_bytes([
        cells[0], cells[1], cells[2], cells[3], cells[4], cells[5], cells[6], cells[7],
    ])
}
