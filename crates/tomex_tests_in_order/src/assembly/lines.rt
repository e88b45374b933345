//! Lines with comments, read with ample memory, and with each growth refused in turn.

use super::read_line;
use std::alloc::AllocError;
use std::test::Fail;
use tomex_asm_text::{Immediate, Statement, Template};
use tomex_asm_tokens::{Mark, ReadError, Sort, Token, without_comments};
use tomex_rvdec::Op;
use tomex_tests_fixtures::{Attempt, Heap, Try, refusals};

/// A token: a letter for its sort, its number, and where it begins and ends.
type ShownToken = (u8, u32, usize, usize);

/// An operation, its registers rd, rs1 and rs2, and its immediate: a letter for what is made of its value, and the
/// number of tokens of the value. If the immediate is known, `=` and the number.
type Instruction = (Op, [u8; 3], u8, i64);

fn token_shown(token: Token) -> ShownToken {
    let (letter, number) = match token.sort {
        Sort::Word => (b'w', 0),
        Sort::Decimal(number) => (b'd', number),
        Sort::Number(number) => (b'n', number),
        Sort::Above => (b'b', 0),
        Sort::Below => (b'f', 0),
        Sort::Text => (b't', 0),
        Sort::Mark(Mark::Comma) => (b',', 0),
        Sort::Mark(Mark::Open) => (b'(', 0),
        Sort::Mark(Mark::Close) => (b')', 0),
        Sort::Mark(Mark::Colon) => (b':', 0),
        Sort::Mark(Mark::Plus) => (b'+', 0),
        Sort::Mark(Mark::Minus) => (b'-', 0),
        Sort::Mark(Mark::Star) => (b'*', 0),
        Sort::Mark(Mark::Percent) => (b'%', 0),
        Sort::Mark(Mark::At) => (b'@', 0),
    };
    (letter, number, token.from, token.to)
}

fn immediate_shown(immediate: Immediate) -> (u8, i64) {
    let (letter, value) = match immediate {
        Immediate::Fixed(number) => return (b'=', i64::from(number)),
        Immediate::Plain(value) => (b'p', value),
        Immediate::Low(value) => (b'l', value),
        Immediate::High(value) => (b'h', value),
        Immediate::Target(value) => (b't', value),
        Immediate::PcHigh(value) => (b'H', value),
        Immediate::PcLow(value) => (b'L', value),
    };
    (letter, i64::try_from(value.len()).unwrap_or(-1))
}

fn instruction_shown(template: Template) -> Instruction {
    let (letter, number) = immediate_shown(template.immediate);
    (
        template.op,
        [template.rd, template.rs1, template.rs2],
        letter,
        number,
    )
}

/// True if a statement is these instructions.
fn is_of(statement: Statement, wanted: &[Instruction]) -> bool {
    match statement {
        Statement::One(one) => wanted == [instruction_shown(one)].as_slice(),
        Statement::Two(first, second) => {
            wanted == [instruction_shown(first), instruction_shown(second)].as_slice()
        }
        _ => wanted.is_empty(),
    }
}

/// A line, and what has to be read from it.
struct Row {
    text: &'static [u8],
    bare: &'static [u8],
    tokens: &'static [ShownToken],
    /// The number of tokens of the labels and their colons.
    labels: usize,
    /// The place of the statement.
    at: usize,
    instructions: &'static [Instruction],
}

/// Worked out by hand from the rules of tokens, and from the manual's tables of forms and of pseudoinstructions.
static ROWS: [Row; 9] = [
    Row {
        text: b"1:\tblez a1, 2f # a \"",
        bare: b"1:\tblez a1, 2f      ",
        tokens: &[
            (b'd', 1, 0, 1),
            (b':', 0, 1, 2),
            (b'w', 0, 3, 7),
            (b'w', 0, 8, 10),
            (b',', 0, 10, 11),
            (b'f', 0, 12, 14),
        ],
        labels: 2,
        at: 3,
        instructions: &[(Op::Bge, [0, 0, 11], b't', 1)],
    },
    Row {
        text: b"$_.L:/**/f:/*/*///a",
        bare: b"$_.L:    f:        ",
        tokens: &[
            (b'w', 0, 0, 4),
            (b':', 0, 4, 5),
            (b'w', 0, 9, 10),
            (b':', 0, 10, 11),
        ],
        labels: 4,
        at: 11,
        instructions: &[],
    },
    Row {
        text: b"li a0,'\\n'+'\\''-'\\\\'*'\"'//'#'",
        bare: b"li a0,'\\n'+'\\''-'\\\\'*'\"'     ",
        tokens: &[
            (b'w', 0, 0, 2),
            (b'w', 0, 3, 5),
            (b',', 0, 5, 6),
            (b'n', 10, 6, 10),
            (b'+', 0, 10, 11),
            (b'n', 39, 11, 15),
            (b'-', 0, 15, 16),
            (b'n', 92, 16, 20),
            (b'*', 0, 20, 21),
            (b'n', 34, 21, 24),
        ],
        labels: 0,
        at: 0,
        instructions: &[],
    },
    Row {
        text: b".ascii \"a\\\"#\\101\" # \"",
        bare: b".ascii \"a\\\"#\\101\"    ",
        tokens: &[(b'w', 0, 0, 6), (b't', 0, 7, 17)],
        labels: 0,
        at: 0,
        instructions: &[],
    },
    Row {
        text: b" lw t6 , -0x1fF+0b101 (s0)\r",
        bare: b" lw t6 , -0x1fF+0b101 (s0)\r",
        tokens: &[
            (b'w', 0, 1, 3),
            (b'w', 0, 4, 6),
            (b',', 0, 7, 8),
            (b'-', 0, 9, 10),
            (b'n', 511, 10, 15),
            (b'+', 0, 15, 16),
            (b'n', 5, 16, 21),
            (b'(', 0, 22, 23),
            (b'w', 0, 23, 25),
            (b')', 0, 25, 26),
        ],
        labels: 0,
        at: 1,
        instructions: &[(Op::Lw, [31, 8, 0], b'p', 4)],
    },
    Row {
        text: b"sw x11,%lo(10b)(sp)",
        bare: b"sw x11,%lo(10b)(sp)",
        tokens: &[
            (b'w', 0, 0, 2),
            (b'w', 0, 3, 6),
            (b',', 0, 6, 7),
            (b'%', 0, 7, 8),
            (b'w', 0, 8, 10),
            (b'(', 0, 10, 11),
            (b'b', 0, 11, 14),
            (b')', 0, 14, 15),
            (b'(', 0, 15, 16),
            (b'w', 0, 16, 18),
            (b')', 0, 18, 19),
        ],
        labels: 0,
        at: 0,
        instructions: &[(Op::Sw, [0, 2, 11], b'l', 1)],
    },
    Row {
        text: b"sgt sp,gp,s9",
        bare: b"sgt sp,gp,s9",
        tokens: &[
            (b'w', 0, 0, 3),
            (b'w', 0, 4, 6),
            (b',', 0, 6, 7),
            (b'w', 0, 7, 9),
            (b',', 0, 9, 10),
            (b'w', 0, 10, 12),
        ],
        labels: 0,
        at: 0,
        instructions: &[(Op::Slt, [2, 25, 3], b'=', 0)],
    },
    Row {
        text: b"tail f@plt",
        bare: b"tail f@plt",
        tokens: &[
            (b'w', 0, 0, 4),
            (b'w', 0, 5, 6),
            (b'@', 0, 6, 7),
            (b'w', 0, 7, 10),
        ],
        labels: 0,
        at: 0,
        instructions: &[
            (Op::Auipc, [6, 0, 0], b'H', 1),
            (Op::Jalr, [0, 6, 0], b'L', 1),
        ],
    },
    Row {
        text: b"fence iw, orw",
        bare: b"fence iw, orw",
        tokens: &[
            (b'w', 0, 0, 5),
            (b'w', 0, 6, 8),
            (b',', 0, 8, 9),
            (b'w', 0, 10, 13),
        ],
        labels: 0,
        at: 0,
        instructions: &[(Op::Fence, [0, 0, 0], b'=', 0x97)],
    },
];

/// Reads a line.
#[derive(Clone, Copy)]
struct Reading<'a>(&'a Row);

impl<'a> Attempt for Reading<'a> {
    fn attempt(&self, heap: Heap) -> Result<Try, AllocError> {
        let row = self.0;
        let mut tokens = Vec::new(heap.clone()?);
        let Ok(bare) = without_comments(heap, row.text) else {
            return Ok(Try::Refused);
        };
        let is_right = match read_line(&mut tokens, bare.as_slice()) {
            Ok(line) => line.labels.len() == row.labels
                && line.at == row.at
                && is_of(line.statement, row.instructions),
            Err(ReadError::Memory) => return Ok(Try::Refused),
            Err(ReadError::Refused(_)) => false,
        };
        let found = tokens.iter().map(|token| token_shown(*token));
        let are_alike = found.eq(row.tokens.iter().copied());
        Ok(Try::right_if(is_right && are_alike && bare.as_slice() == row.bare))
    }
}

#[test]
fn lines_are_read(rt: HostRuntime) -> Result<(), Fail> {
    for (place, row) in ROWS.iter().enumerate() {
        // The text, and the list of tokens, which grows to 4, 8 and 16.
        let growths = match row.tokens.len() {
            0..=4 => 2,
            5..=8 => 3,
            _ => 4,
        };
        assert!(rt;
            refusals(rt.alloc(), &Reading(row))? == Some(growths),
            "line {place}"
        );
    }
    Ok(())
}
