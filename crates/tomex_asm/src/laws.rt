//! Laws of the assembler. These functions do nothing: their contracts are the laws.

ghost use Rattle.std.specs.Prelude.{◌≡◌, ℕ, ◌<◌, ◌+◌, ◌*◌, ◌%◌, ◌^◌};
ghost use Rattle.tomex_rvdec.specs.Fits.{IsSigned};
ghost use Rattle.tomex_asm_numbers.specs.Numbers.{high, low};

/// The two halves of a number make the number, modulo 2^32, and the low one fits 12 bits with a sign. So a pair of
/// instructions that adds them reaches the number.
pub fn halves_make_the_number()
    ensures sum { (v : ℕ) → v < 2 ^ 32 → (high v * 4096 + low v) % 2 ^ 32 ≡ v }
    ensures high { (v : ℕ) → high v < 2 ^ 20 }
    ensures low { (v : ℕ) → IsSigned 12 (low v) }
{}
