//! The CRC-32 of the record's bytes.

ghost use Rattle.std.specs.Prelude.{◌≡◌};
ghost use Rattle.abr_record.specs.Crc.{shifted, after_byte, crc32};

const POLYNOMIAL: u32 = 0xedb8_8320;

fn shifted(register: u32) -> u32
    ensures { result ≡ shifted register }
{
    if register % 2 == 1 {
        (register >> 1) ^ POLYNOMIAL
    } else {
        register >> 1
    }
}

fn after_byte(before: u32, byte: u8) -> u32
    ensures { result ≡ after_byte before byte }
{
    let mut register = before ^ u32::from(byte);
    for _ in 0..8u32 {
        register = shifted(register);
    }
    register
}

pub(crate) fn crc32(bytes: &[u8]) -> u32
    ensures { result ≡ crc32 bytes.now }
{
    let mut register = 0xffff_ffff;
    for &byte in bytes {
        register = after_byte(register, byte);
    }
    register ^ 0xffff_ffff
}
