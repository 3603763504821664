//! Numbers as big-endian bytes.

ghost use Rattle.std.specs.Prelude.{◌≡◌, ◌<◌, ◌^◌};
ghost use Rattle.std.specs.Int.{w16, w32, w64, to_be_bytes};

use byteorder::{BigEndian, ByteOrder};

/// The two bytes of a number.
pub fn two_bytes(number: u16) -> [u8; 2]
    ensures bytes { result ≡ to_be_bytes w16 number }
    ensures range { number < 2 ^ 16 }
{
    let mut bytes = [0; 2];
    BigEndian::write_u16(&mut bytes, number);
    bytes
}

/// The eight bytes of a number.
pub(crate) fn eight_bytes(number: u64) -> [u8; 8]
    ensures bytes { result ≡ to_be_bytes w64 number }
    ensures range { number < 2 ^ 64 }
{
    let mut bytes = [0; 8];
    BigEndian::write_u64(&mut bytes, number);
    bytes
}

/// The four bytes of a number.
pub(crate) fn four_bytes(number: u32) -> [u8; 4]
    ensures bytes { result ≡ to_be_bytes w32 number }
    ensures range { number < 2 ^ 32 }
{
    let mut bytes = [0; 4];
    BigEndian::write_u32(&mut bytes, number);
    bytes
}

// A law: a number of the type `u16` is below 2^16. The call does nothing.
pub(crate) fn fits_two_bytes(number: u16)
    ensures { number < 2 ^ 16 }
{
    let _ = number;
}

// A law: a number of the type `u64` is below 2^64. The call does nothing.
pub(crate) fn fits_eight_bytes(number: u64)
    ensures { number < 2 ^ 64 }
{
    let _ = number;
}
