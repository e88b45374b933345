//! The programs of these tests.

use tomex_tests_fixtures::programs::{LOOP_WORDS, PRODUCT_WORDS};
use tomex_tests_fixtures::runs::Program;

/// Four steps.
pub const PRODUCT: Program = Program {
    base: 0,
    size: 4096,
    words: &PRODUCT_WORDS,
};

/// 1,000 steps: one, 499 rounds of two, and a last one.
pub const LOOP: Program = Program {
    base: 0,
    size: 4096,
    words: &LOOP_WORDS,
};

/// `addi x1,x0,400; andi x2,x1,1; beq x2,x0,8; addi x3,x3,1; addi x1,x1,-1; bne x1,x0,-16; ebreak`: 400 rounds, in
/// every other one of which the third step of the loop is left out.
pub const IN_TURN: Program = Program {
    base: 0,
    size: 4096,
    words: &[
        0x19000093, 0x0010f113, 0x00010463, 0x00118193, 0xfff08093, 0xfe0098e3, 0x00100073,
    ],
};

/// `addi x8,x0,256; addi x1,x0,768; mul x3,x1,x1; sw x1,0(x8); lb x2,1(x8); add x4,x3,x2; ebreak`
pub const FOLLOWED: Program = Program {
    base: 0,
    size: 4096,
    words: &[
        0x10000413, 0x30000093, 0x021081b3, 0x00142023, 0x00140103, 0x00218233, 0x00100073,
    ],
};

/// Loads and stores of all sizes to the same bytes, some of them across words.
pub const ACCESSES: Program = Program {
    base: 4074479616,
    size: 65536,
    words: &[
        0xf2dc7437, 0x8cc40413, 0x00040493, 0x4c8177b7, 0x2e7d0337, 0x00844003, 0x00448683,
        0x00049383, 0x00140223, 0x00541023, 0x00848703, 0x00f42023, 0x00042003, 0x01101693,
        0x00a4a023, 0x00c4d783, 0x00040703, 0x00740623, 0x00541423, 0x00c45283, 0x00341023,
        0x0004c383, 0x00408533, 0xfeb41fa3, 0x00100073,
    ],
};

/// Products whose loads and stores take long.
pub const SLOW_MEMORY: Program = Program {
    base: 65536,
    size: 172,
    words: &[
        0x00010437, 0x05c40413, 0x00d40493, 0x4c4165b7, 0x7ec00693, 0x00140783, 0x02470233,
        0x007420a3, 0x02742ca3, 0x00d40023, 0x00521693, 0x00244683, 0x0014a783, 0x00000073,
    ],
};

/// Multiplications and divisions that depend on one another, with slow branches.
pub const QUOTIENTS: Program = Program {
    base: 4294901760,
    size: 65536,
    words: &[
        0xffff0437, 0x06040413, 0x00a40493, 0xf5c495b7, 0x363706b7, 0x08500093, 0x028035b3,
        0x0251b1b3, 0x02b29533, 0x02e58633, 0x02e20533, 0x02a586b3, 0x02136733, 0x02b2b6b3,
        0x00240503, 0x00100073,
    ],
};

/// A jump to a register, and accesses between sums.
pub const JUMP: Program = Program {
    base: 0,
    size: 4096,
    words: &[
        0x84010413, 0x00d40493, 0xc4100393, 0x0c400613, 0x9f4982b7, 0x00351313, 0x00600533,
        0x40f5d693, 0x00c481a3, 0x00c29633, 0x00102793, 0x00d52233, 0x00000f17, 0x014f0f13,
        0x000f0fe7, 0x0087d693, 0x00100073, 0xfff2f293, 0x000f8067,
    ],
};
