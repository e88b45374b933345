//! The words of the prologue's instructions.

ghost use Rattle.std.specs.Prelude.{◌≡◌, ◌+◌, ◌*◌, ◌%◌, ◌^◌, ◌<◌, ◌≤◌};
ghost use Rattle.tomex_cut.specs.Prologue.{branch, ebreak, jump, lower, upper};
ghost use Rattle.tomex_rvdec.specs.Meaning.{Means};

/// `lui` of a value less its low half.
pub(crate) fn upper_word(register: u32, value: u32) -> u32
    requires { register < 32 }
    ensures { Means result (upper register value) }
{
    let low = register << 7 | 0b0110111;
    let high = value.wrapping_add(0x800) >> 12;
    high << 12 | low
}

/// `addi` of a value's low half.
pub(crate) fn lower_word(register: u32, value: u32) -> u32
    requires { register < 32 }
    ensures { Means result (lower register value) }
{
    let low = register << 7 | 0b0010011;
    let middle = register << 15 | low;
    let high = value & 0xfff;
    high << 20 | middle
}

/// `jal x0` at an address of a window, to another one.
pub(crate) fn jump_word(at: u32, target: u32) -> u32
    requires words { (at % 4 ≡ 0) × (target % 4 ≡ 0) }
    requires near { (at < target + 2 ^ 20) × (target < at + 2 ^ 20) }
    ensures { Means result (jump at target) }
{
    let offset = target.wrapping_sub(at);
    let low = (offset >> 12 & 0xff) << 12 | 0b1101111;
    let middle = (offset >> 11 & 0x1) << 20 | low;
    let high = (offset >> 1 & 0x3ff) << 21 | middle;
    (offset >> 20 & 0x1) << 31 | high
}

/// `beq x31,x31` at an address, to a near one.
pub(crate) fn branch_word(at: u32, target: u32) -> u32
    requires words { (at % 4 ≡ 0) × (target % 4 ≡ 0) }
    requires near { (at ≤ target + 4096) × (target ≤ at + 4094) }
    ensures { Means result (branch at target) }
{
    let offset = target.wrapping_sub(at);
    let low = (offset >> 11 & 0x1) << 7 | 0b1100011;
    let target_low = (offset >> 1 & 0xf) << 8 | low;
    let registers = 31 << 20 | (31 << 15 | target_low);
    let high = (offset >> 5 & 0x3f) << 25 | registers;
    (offset >> 12 & 0x1) << 31 | high
}

/// The word of EBREAK.
pub(crate) fn ebreak_word() -> u32
    ensures { Means result ebreak }
{
    0x0010_0073
}
