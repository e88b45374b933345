//! The bit fields of an instruction word, and its immediates.

ghost use Rattle.std.specs.Prelude.{◌≡◌, ◌<◌, ◌^◌, ◌+◌, ◌-◌, ◌*◌, cond, nat_lt};
ghost use Rattle.tomex_rvdec.specs.Fields.{opcode, rd_field, funct3, rs1_field, rs2_field};
ghost use Rattle.tomex_rvdec.specs.Fields.{funct7, imm_i, imm_s, imm_b, imm_u, imm_j};

pub fn opcode_of(word: u32) -> u32
    ensures { result ≡ opcode word }
{
    word & 0x7f
}

pub fn funct3_of(word: u32) -> u32
    ensures { result ≡ funct3 word }
{
    (word >> 12) & 0x7
}

pub fn funct7_of(word: u32) -> u32
    ensures { result ≡ funct7 word }
{
    word >> 25
}

pub fn rd_of(word: u32) -> u8
    ensures { result ≡ rd_field word }
{
    ((word >> 7) & 0x1f) as u8
}

pub fn rs1_of(word: u32) -> u8
    ensures { result ≡ rs1_field word }
{
    ((word >> 15) & 0x1f) as u8
}

pub fn rs2_of(word: u32) -> u8
    ensures { result ≡ rs2_field word }
{
    ((word >> 20) & 0x1f) as u8
}

pub fn imm_i_of(word: u32) -> u32
    ensures { result ≡ imm_i word }
{
    (word.cast_signed() >> 20).cast_unsigned()
}

pub fn imm_u_of(word: u32) -> u32
    ensures { result ≡ imm_u word }
{
    word & 0xffff_f000
}

/// A number below `2 * half`, its sign extended to 32 bits.
fn sign_extend(n: u32, half: u32) -> u32
    requires twice { 2 * half < 2 ^ 32 }
    requires below { n < 2 * half }
    ensures { result ≡ cond (nat_lt n half) n (n + (2 ^ 32 - 2 * half)) }
{
    if n < half {
        n
    } else {
        n.wrapping_sub(2 * half)
    }
}

pub fn imm_s_of(word: u32) -> u32
    ensures { result ≡ imm_s word }
{
    sign_extend((word >> 25 << 5) | (word >> 7) & 0x1f, 0x800)
}

pub fn imm_b_of(word: u32) -> u32
    ensures { result ≡ imm_b word }
{
    let low = ((word >> 25) & 0x3f) << 5 | ((word >> 8) & 0xf) << 1;
    let middle = ((word >> 7) & 0x1) << 11 | low;
    sign_extend(word >> 31 << 12 | middle, 0x1000)
}

pub fn imm_j_of(word: u32) -> u32
    ensures { result ≡ imm_j word }
{
    let low = ((word >> 20) & 0x1) << 11 | ((word >> 21) & 0x3ff) << 1;
    let middle = ((word >> 12) & 0xff) << 12 | low;
    sign_extend(word >> 31 << 20 | middle, 0x10_0000)
}
