//! The two halves in which instructions hold a number of 32 bits.

ghost use Rattle.std.specs.Prelude.{◌≡◌, ◌<◌, ◌^◌};
ghost use Rattle.tomex_asm_numbers.specs.Numbers.{wrapped, high, low};

/// The number modulo 2^32.
pub fn wrapped(value: i64) -> u32
    ensures { result ≡ wrapped value }
{
    (value.cast_unsigned() % (1 << 32)) as u32
}

/// The upper 20 bits, so that these and the low half make the number.
pub fn high(value: u32) -> u32
    ensures value { result ≡ high value }
    ensures small { result < 2 ^ 20 }
{
    value.wrapping_add(2048) / 4096
}

/// The low 12 bits with their sign, modulo 2^32.
pub fn low(value: u32) -> u32
    ensures { result ≡ low value }
{
    (value.wrapping_add(2048) % 4096).wrapping_sub(2048)
}
