//! The results of the operations, by vectors from other programs.

use std::process::Abort;
use tomex_rvdec::Op;
use tomex_rvexec::{alu, muldiv, taken};

mod vectors;

use vectors::{PRODUCTS, SHIFTED, SHIFTS};

/// The operations of M, in the order of the vectors' columns.
static M: [Op; 8] = [
    Op::Mul,
    Op::Mulh,
    Op::Mulhsu,
    Op::Mulhu,
    Op::Div,
    Op::Divu,
    Op::Rem,
    Op::Remu,
];

/// Stops at the first operation of M that gives another value for these operands.
fn check_m(rt: &impl Abort, a: u32, b: u32, wanted: &[u32; 8]) {
    for (op, value) in M.iter().zip(wanted) {
        assert!(rt; muldiv(*op, a, b) == *value, "{a:08x} and {b:08x}");
    }
}

#[test]
fn products_and_quotients(rt: HostRuntime) {
    for (a, b, wanted) in &PRODUCTS {
        check_m(&rt, *a, *b, wanted);
    }
}

#[test]
fn every_shift(rt: HostRuntime) {
    let mut amount = 0u32;
    for [left, right, signed] in &SHIFTS {
        assert!(rt; alu(Op::Sll, SHIFTED, amount) == *left);
        assert!(rt; alu(Op::Srl, SHIFTED, amount) == *right);
        assert!(rt; alu(Op::Sra, SHIFTED, amount) == *signed);
        // Only the low five bits of a register's amount count.
        assert!(rt; alu(Op::Sra, SHIFTED, amount | 0xffff_ffe0) == *signed);
        amount = amount.wrapping_add(1) % 32;
    }
}

const LOW: u32 = 1;

const HIGH: u32 = 0xffff_ffff;

/// Branches, each with its operands, and true if it is taken.
static BRANCHES: [(Op, u32, u32, bool); 6] = [
    (Op::Blt, HIGH, LOW, true),
    (Op::Bltu, HIGH, LOW, false),
    (Op::Bge, LOW, HIGH, true),
    (Op::Bgeu, LOW, HIGH, false),
    (Op::Beq, HIGH, HIGH, true),
    (Op::Bne, HIGH, HIGH, false),
];

#[test]
fn comparisons(rt: HostRuntime) {
    assert!(rt; alu(Op::Slt, HIGH, LOW) == 1);
    assert!(rt; alu(Op::Sltu, HIGH, LOW) == 0);
    for (op, left, right, wanted) in &BRANCHES {
        assert!(rt;
            taken(*op, *left, *right) == *wanted,
            "{left:08x} and {right:08x}"
        );
    }
}
