//! The digits of numbers, without a formatter: the longest reports have millions of them.

ghost use Rattle.std.specs.Prelude.{◌≡◌, ◌<◌, ◌++◌, drop, OnOk};
ghost use Rattle.std.specs.Fmt.{decimal};

use std::alloc::{AllocError, Allocator};

/// Puts the digits of a number at the end of an array. Returns the place where they begin.
fn put_digits(digits: &mut [u8; 20], number: u64) -> usize
    ensures inside { result < 20 }
    ensures digits { drop result digits.new ≡ decimal number }
{
    let (mut from, mut rest) = (19usize, number);
    while rest >= 10 {
        digits[from] = b'0' + (rest % 10) as u8;
        rest /= 10;
        from -= 1;
    }
    digits[from] = b'0' + rest as u8;
    from
}

/// Adds the digits of a number.
pub fn push_digits<A: Allocator>(text: &mut Vec<u8, A>, number: u64) -> Result<(), AllocError>
    ensures { OnOk result (text.new.items ≡ text.old.items ++ decimal number) }
{
    let mut digits = [0; 20];
    let from = put_digits(&mut digits, number);
    text.extend_from_slice(&digits[from..])
}
