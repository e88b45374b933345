//! The first refusal of a text by its tokens and its statements, and texts that have none.

use super::read_line;
use std::alloc::Global;
use std::test::Fail;
use tomex_asm_tokens::{Cause, Fault, ReadError, Thing, without_comments};

/// A line of a text and a column, both from 1, and what the program prints of a refusal there.
type Place = (usize, usize, &'static str);

fn expected(thing: Thing) -> &'static str {
    match thing {
        Thing::EndOfLine => "end of line expected",
        Thing::Name => "name expected",
        Thing::Instruction => "instruction expected",
        Thing::Register => "register expected",
        Thing::Value => "value expected",
        Thing::Open => "( expected",
        Thing::Close => ") expected",
        Thing::Comma => "comma expected",
        Thing::FenceSet => "fence set expected",
        Thing::Type => "type expected",
        Thing::Text => "string expected",
        Thing::Constant | Thing::Address => "",
    }
}

fn words(cause: Cause) -> &'static str {
    match cause {
        Cause::UnclosedComment => "unclosed comment",
        Cause::UnclosedString => "unclosed string",
        Cause::BadNumber => "bad number",
        Cause::BadCharacter => "bad character",
        Cause::BadEscape => "bad escape",
        Cause::Expected(thing) => expected(thing),
        Cause::RegisterName => "name of a register",
        Cause::NoSection => "no such section",
        Cause::NoInstruction => "no such instruction",
        Cause::NoDirective => "no such directive",
        Cause::OutOfRange(-2147483648, 4294967295) => "not from -2147483648 to 4294967295",
        _ => "",
    }
}

/// The first refusal of a text.
fn first_refusal(alloc: Global, text: &[u8]) -> Result<Option<Place>, Fail> {
    let bare = without_comments(alloc, text)?;
    let mut tokens = Vec::new(alloc);
    let mut number = 0usize;
    for line in bare.split(|byte| *byte == b'\n') {
        number = number.saturating_add(1);
        match read_line(&mut tokens, line) {
            Ok(_) => {}
            Err(ReadError::Refused(Fault { at, cause })) => {
                return Ok(Some((number, at.saturating_add(1), words(cause))));
            }
            Err(ReadError::Memory) => return Err("out of memory")?,
        }
    }
    Ok(None)
}

/// Texts of golden cases, each with its refusal there.
static REFUSED: [(&[u8], Place); 29] = [
    (b"\x7fELF\x01\x01\x01", (1, 1, "bad character")),
    (b"\xef\xbb\xbfnop", (1, 1, "bad character")),
    (
        b"li a0, 'a'\nli a0, '\\n'\nli a0, '''\n",
        (3, 8, "bad character"),
    ),
    (b"nop # a /* b\nnop */\n", (2, 6, "bad character")),
    (b"li a0, 5\n;comment\n", (2, 1, "bad character")),
    (b"/*/\nnop\n", (1, 1, "unclosed comment")),
    (b"nop\n.asciz \"abc\n", (2, 8, "unclosed string")),
    (b".asciz \"a\\x41\"\n", (1, 10, "bad escape")),
    (b".file 09\nnop\n", (1, 7, "bad number")),
    (b"g:  .word 2\nn10:\n\tli x9, 0x\n", (3, 9, "bad number")),
    (b"nop /* a */ nop\n", (1, 13, "end of line expected")),
    (
        b"lw a0,4 ( a1 )\njalr ra, 0(a0)\njalr (a0)\n",
        (3, 6, "register expected"),
    ),
    (b".word 1, 2,\n", (1, 12, "value expected")),
    (b"nop\n    li a0, 1 +\n", (2, 15, "value expected")),
    (b"nop\nj f\nj g\nfoo\n", (4, 1, "no such instruction")),
    (b"ADDI a0, a0, 1\n", (1, 1, "no such instruction")),
    (b".quad 5\n", (1, 1, "no such directive")),
    (b".section foo, \"ax\"\n", (1, 10, "no such section")),
    (b".section \"\"\n", (1, 10, "no such section")),
    (b"x0: nop\n", (1, 1, "name of a register")),
    (b"beqz a0\n", (1, 8, "comma expected")),
    (b".ascii a\n", (1, 8, "string expected")),
    (b"f: nop\n.type f, function\n", (2, 10, "type expected")),
    (b"f: 5\n", (1, 4, "instruction expected")),
    (b"buf:\n\tsw a0, f\n", (2, 10, "( expected")),
    (b"lw a3,4(x9\n", (1, 11, ") expected")),
    (b"    .size _t, 8\n\n\t.comm 4,4,4", (3, 8, "name expected")),
    (b"_start:\n    fence 0, rw\n", (2, 11, "fence set expected")),
    (
        b".word 4294967296",
        (1, 7, "not from -2147483648 to 4294967295"),
    ),
];

/// Texts of golden cases that are read.
static READ: [&[u8]; 12] = [
    b"",
    b"# nothing\n",
    b"/**/nop/*/ nop */\n",
    b".string \"/* no */ # no // no\"\n.align 2\n nop /* yes\n.word 5\n*/ nop\n",
    b".ascii \"a\\tb\\n\\\"\\\\\\101\\7\\0018\"\n.align 2\nnop\n",
    b".word 2*3+4, 2+3*4, -2*3, 2*-3, 10-2-3, 0-5, -5+5, 7*0\n",
    b"1: nop\n2: nop\n.equ len, 2b-1b\nli a0, len\n",
    b"foo : nop\nj foo\nadd: add a0,a0,a0\nmul: j add\n",
    b".file \"a.c\"\n.attribute 4, 16\n.cfi_startproc\nnop\n.cfi_def_cfa_offset 16\n",
    b"lui a0, %hi(f-8)\naddi a0, a0, %lo(f-8)\nf: nop\n",
    b"nop # \xef\xbb\xbf\n.ascii \"\xc3\xa4\"\n.align 2\n    .section .text.startup,\"ax\",@progbits,1\n",
    b"    .globl n10, msg\nf:\tbleu  a6 , x24 , .-8\r\n.word -2147483648 , g // \"quoted\" // more\n",
];

#[test]
fn first_refusals(rt: HostRuntime) -> Result<(), Fail> {
    for (place, (text, wanted)) in REFUSED.iter().enumerate() {
        assert!(rt;
            first_refusal(rt.alloc(), text)? == Some(*wanted),
            "text {place}"
        );
    }
    for (place, text) in READ.iter().enumerate() {
        assert!(rt; first_refusal(rt.alloc(), text)? == None, "text {place}");
    }
    Ok(())
}
