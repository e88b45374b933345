//! Programs: their files, and the first refusals of the two passes. Another assembler made the files and the refusals.

use std::alloc::{AllocError, Global};
use std::test::Fail;
use tomex_asm::{AsmError, Refusal, assemble};
use tomex_asm_tokens::{Cause, Thing};
use tomex_tests_fixtures::{Attempt, Heap, Try, refusals};

/// A text, the place of its first byte, and the file of its program.
type Program = (&'static [u8], u32, &'static [u8]);

static PROGRAMS: [Program; 7] = [
    (
        b"f: nop\n.size f, .-f\n.type f, @function\n.data\nx: .word 1\n.size x, 4\n.type x, @object\n",
        0,
        b"\x7fELF\x01\x01\x01\0\0\0\0\0\0\0\0\0\x02\0\xf3\0\x01\0\0\0\0\0\0\04\0\0\0h\0\0\0\0\0\0\04\0 \0\x01\
\0(\0\x05\0\x04\0\x01\0\0\0T\0\0\0\0\0\0\0\0\0\0\0\x14\0\0\0\x14\0\0\0\x07\0\0\0\x04\0\0\0\x13\0\0\0\
\0\0\0\0\0\0\0\0\0\0\0\0\x01\0\0\0\0\0\0\0\0\0\0\0\0\0\0\0\0\0\0\0\0\0\0\0\0\0\0\0\0\0\0\0\0\0\0\0\0\
\0\0\0\0\0\0\0\x05\0\0\0\x01\0\0\0\x06\0\0\0\0\0\0\0T\0\0\0\x04\0\0\0\0\0\0\0\0\0\0\0\x04\0\0\0\0\0\
\0\0\x0b\0\0\0\x01\0\0\0\x03\0\0\0\x10\0\0\0d\0\0\0\x04\0\0\0\0\0\0\0\0\0\0\0\x10\0\0\0\0\0\0\0\x11\
\0\0\0\x02\0\0\0\0\0\0\0\0\0\0\00\x01\0\00\0\0\0\x04\0\0\0\x03\0\0\0\x04\0\0\0\x10\0\0\0\x19\0\0\0\
\x03\0\0\0\0\0\0\0\0\0\0\0`\x01\0\0!\0\0\0\0\0\0\0\0\0\0\0\x01\0\0\0\0\0\0\0\0\0\0\0\0\0\0\0\0\0\0\0\
\0\0\0\0\x01\0\0\0\0\0\0\0\x04\0\0\0\x02\0\x01\0\x03\0\0\0\x10\0\0\0\x04\0\0\0\x01\0\x02\0\0f\0x\0.t\
ext\0.data\0.symtab\0.strtab\0",
    ),
    (
        b"    .globl _start\n_start:\n    call f\n    ebreak\n    .globl f\n    .type f, @function\nf:  addi a\
0, a0, 1\n    ret\n    .size f, . - f\n",
        65536,
        b"\x7fELF\x01\x01\x01\0\0\0\0\0\0\0\0\0\x02\0\xf3\0\x01\0\0\0\0\0\x01\04\0\0\0t\0\0\0\0\0\0\04\0 \0\
\x01\0(\0\x05\0\x04\0\x01\0\0\0T\0\0\0\0\0\x01\0\0\0\x01\0 \0\0\0 \0\0\0\x07\0\0\0\x04\0\0\0\x97\0\0\
\0\xe7\x80\xc0\0s\0\x10\0\x13\x05\x15\0g\x80\0\0\0\0\0\0\0\0\0\0\0\0\0\0\0\0\0\0\0\0\0\0\0\0\0\0\0\0\
\0\0\0\0\0\0\0\0\0\0\0\0\0\0\0\0\0\0\0\0\0\0\0\0\0\0\n\0\0\0\x01\0\0\0\x06\0\0\0\0\0\x01\0T\0\0\0\
\x14\0\0\0\0\0\0\0\0\0\0\0\x04\0\0\0\0\0\0\0\x10\0\0\0\x01\0\0\0\x03\0\0\0 \0\x01\0t\0\0\0\0\0\0\0\0\
\0\0\0\0\0\0\0\x10\0\0\0\0\0\0\0\x16\0\0\0\x02\0\0\0\0\0\0\0\0\0\0\0<\x01\0\00\0\0\0\x04\0\0\0\x01\0\
\0\0\x04\0\0\0\x10\0\0\0\x1e\0\0\0\x03\0\0\0\0\0\0\0\0\0\0\0l\x01\0\0&\0\0\0\0\0\0\0\0\0\0\0\x01\0\0\
\0\0\0\0\0\0\0\0\0\0\0\0\0\0\0\0\0\0\0\0\0\x01\0\0\0\0\0\x01\0\0\0\0\0\x10\0\x01\0\x08\0\0\0\x0c\0\
\x01\0\x08\0\0\0\x12\0\x01\0\0_start\0f\0.text\0.data\0.symtab\0.strtab\0",
    ),
    (
        b"nop\nmain: nop\n.balign 16\nf: nop\n.byte 1\n.align 3\ng: nop\n.byte 1,2,3\n.align 4\n nop\n.byte -1\
28, 255\n.align 4\n.half -32768, 65535, -1\n.asciz \"a\"\n.ascii \"\\0123\"\n.string \"b\", \"c\"\n.\
align 2\nmv fp, s0\n",
        0,
        b"\x7fELF\x01\x01\x01\0\0\0\0\0\0\0\0\0\x02\0\xf3\0\x01\0\0\0\0\0\0\04\0\0\0\xa4\0\0\0\0\0\0\04\0 \0\
\x01\0(\0\x05\0\x04\0\x01\0\0\0T\0\0\0\0\0\0\0\0\0\0\0P\0\0\0P\0\0\0\x07\0\0\0\x04\0\0\0\x13\0\0\0\
\x13\0\0\0\x13\0\0\0\x13\0\0\0\x13\0\0\0\x01\0\0\0\x13\0\0\0\x01\x02\x03\0\x13\0\0\0\x80\xff\0\0\x13\
\0\0\0\x13\0\0\0\0\x80\xff\xff\xff\xffa\0\n3b\0c\0\0\0\x13\x04\x04\0\0\0\0\0\0\0\0\0\0\0\0\0\0\0\0\0\
\0\0\0\0\0\0\0\0\0\0\0\0\0\0\0\0\0\0\0\0\0\0\0\0\0\0\0\0\0\0\0\0\0\0\0\0\n\0\0\0\x01\0\0\0\x06\0\0\0\
\0\0\0\0T\0\0\0D\0\0\0\0\0\0\0\0\0\0\0\x04\0\0\0\0\0\0\0\x10\0\0\0\x01\0\0\0\x03\0\0\0P\0\0\0\xa4\0\
\0\0\0\0\0\0\0\0\0\0\0\0\0\0\x10\0\0\0\0\0\0\0\x16\0\0\0\x02\0\0\0\0\0\0\0\0\0\0\0l\x01\0\0@\0\0\0\
\x04\0\0\0\x04\0\0\0\x04\0\0\0\x10\0\0\0\x1e\0\0\0\x03\0\0\0\0\0\0\0\0\0\0\0\xac\x01\0\0&\0\0\0\0\0\
\0\0\0\0\0\0\x01\0\0\0\0\0\0\0\0\0\0\0\0\0\0\0\0\0\0\0\0\0\0\0\x01\0\0\0\x04\0\0\0\0\0\0\0\0\0\x01\0\
\x06\0\0\0\x10\0\0\0\0\0\0\0\0\0\x01\0\x08\0\0\0\x18\0\0\0\0\0\0\0\0\0\x01\0\0main\0f\0g\0.text\0.da\
ta\0.symtab\0.strtab\0",
    ),
    (
        b"nop\n.comm buf, 100, 16\n.data\n.byte 1\n.comm c, 4, 4\n.text\nla a0, c\n",
        0,
        b"\x7fELF\x01\x01\x01\0\0\0\0\0\0\0\0\0\x02\0\xf3\0\x01\0\0\0\0\0\0\04\0\0\0\xd0\0\0\0\0\0\0\04\0 \0\
\x01\0(\0\x05\0\x04\0\x01\0\0\0T\0\0\0\0\0\0\0\0\0\0\0|\0\0\0|\0\0\0\x07\0\0\0\x04\0\0\0\x13\0\0\0\
\x17\x05\0\0\x13\x05E\x07\0\0\0\0\0\0\0\0\0\0\0\0\0\0\0\0\0\0\0\0\0\0\0\0\0\0\0\0\0\0\0\0\0\0\0\0\0\
\0\0\0\0\0\0\0\0\0\0\0\0\0\0\0\0\0\0\0\0\0\0\0\0\0\0\0\0\0\0\0\0\0\0\0\0\0\0\0\0\0\0\0\0\0\0\0\0\0\0\
\0\0\0\0\0\0\0\0\0\0\0\0\0\0\0\0\0\x01\0\0\0\0\0\0\0\0\0\0\0\0\0\0\0\0\0\0\0\0\0\0\0\0\0\0\0\0\0\0\0\
\0\0\0\0\0\0\0\0\0\0\0\0\0\0\0\0\x07\0\0\0\x01\0\0\0\x06\0\0\0\0\0\0\0T\0\0\0\x0c\0\0\0\0\0\0\0\0\0\
\0\0\x04\0\0\0\0\0\0\0\x0d\0\0\0\x01\0\0\0\x03\0\0\0\x10\0\0\0d\0\0\0l\0\0\0\0\0\0\0\0\0\0\0\x10\0\0\
\0\0\0\0\0\x13\0\0\0\x02\0\0\0\0\0\0\0\0\0\0\0\x98\x01\0\00\0\0\0\x04\0\0\0\x03\0\0\0\x04\0\0\0\x10\
\0\0\0\x1b\0\0\0\x03\0\0\0\0\0\0\0\0\0\0\0\xc8\x01\0\0#\0\0\0\0\0\0\0\0\0\0\0\x01\0\0\0\0\0\0\0\0\0\
\0\0\0\0\0\0\0\0\0\0\0\0\0\0\x01\0\0\0\x10\0\0\0\0\0\0\0\0\0\x02\0\x05\0\0\0x\0\0\0\0\0\0\0\0\0\x02\
\0\0buf\0c\0.text\0.data\0.symtab\0.strtab\0",
    ),
    (
        b"li x0, 0x800\nli a0, -2049\nli a0, 0xfffff800\nli a0, 4294967295\nli a0, 0x80000000\nli a0, -2147483\
648\nli a0, 0x7ffff800\n",
        0,
        b"\x7fELF\x01\x01\x01\0\0\0\0\0\0\0\0\0\x02\0\xf3\0\x01\0\0\0\0\0\0\04\0\0\0\x84\0\0\0\0\0\0\04\0 \0\
\x01\0(\0\x05\0\x04\0\x01\0\0\0T\0\0\0\0\0\0\0\0\0\0\00\0\0\00\0\0\0\x07\0\0\0\x04\0\0\07\x10\0\0\
\x13\0\0\x807\xf5\xff\xff\x13\x05\xf5\x7f\x13\x05\0\x80\x13\x05\xf0\xff7\x05\0\x807\x05\0\x807\x05\0\
\x80\x13\x05\x05\x80\0\0\0\0\0\0\0\0\0\0\0\0\0\0\0\0\0\0\0\0\0\0\0\0\0\0\0\0\0\0\0\0\0\0\0\0\0\0\0\0\
\0\0\0\0\0\0\0\0\x01\0\0\0\x01\0\0\0\x06\0\0\0\0\0\0\0T\0\0\0(\0\0\0\0\0\0\0\0\0\0\0\x04\0\0\0\0\0\0\
\0\x07\0\0\0\x01\0\0\0\x03\0\0\00\0\0\0\x84\0\0\0\0\0\0\0\0\0\0\0\0\0\0\0\x10\0\0\0\0\0\0\0\x0d\0\0\
\0\x02\0\0\0\0\0\0\0\0\0\0\0L\x01\0\0\x10\0\0\0\x04\0\0\0\x01\0\0\0\x04\0\0\0\x10\0\0\0\x15\0\0\0\
\x03\0\0\0\0\0\0\0\0\0\0\0\\\x01\0\0\x1d\0\0\0\0\0\0\0\0\0\0\0\x01\0\0\0\0\0\0\0\0\0\0\0\0\0\0\0\0\0\
\0\0\0\0\0\0\0.text\0.data\0.symtab\0.strtab\0",
    ),
    (
        b"_start:\ndone:\n\tlui\ts7,\t751781+34\n    ecall\n    .bss\n.ascii  \"%d\\0#\"\n    .byte\t255\x0d\n\
\x20 .half  0x17 , -0x8000\nbuf:\n.ascii \"B%d/*\\\"\\n\"\n\n  .word  -2147483648,4294967295,0,a_b\x0d\
\n.word -2147483648\n    .text\n    .align 2\n.Lend:     ebreak\n    .data\na_b:\n .word 8\n",
        0,
        b"\x7fELF\x01\x01\x01\0\0\0\0\0\0\0\0\0\x02\0\xf3\0\x01\0\0\0\0\0\0\04\0\0\0\x8c\0\0\0\0\0\0\04\0 \0\
\x01\0(\0\x05\0\x04\0\x01\0\0\0T\0\0\0\0\0\0\0\0\0\0\08\0\0\08\0\0\0\x07\0\0\0\x04\0\0\0\xb7{\x8c\
\xb7s\0\0\0s\0\x10\0\0\0\0\0%d\0#\xff\x17\0\0\x80B%d/*\"\n\0\0\0\x80\xff\xff\xff\xff\0\0\0\04\0\0\0\
\0\0\0\x80\x08\0\0\0\0\0\0\0\0\0\0\0\0\0\0\0\0\0\0\0\0\0\0\0\0\0\0\0\0\0\0\0\0\0\0\0\0\0\0\0\0\0\0\0\
\x15\0\0\0\x01\0\0\0\x06\0\0\0\0\0\0\0T\0\0\0\x0c\0\0\0\0\0\0\0\0\0\0\0\x04\0\0\0\0\0\0\0\x1b\0\0\0\
\x01\0\0\0\x03\0\0\0\x10\0\0\0d\0\0\0(\0\0\0\0\0\0\0\0\0\0\0\x10\0\0\0\0\0\0\0!\0\0\0\x02\0\0\0\0\0\
\0\0\0\0\0\0T\x01\0\0P\0\0\0\x04\0\0\0\x05\0\0\0\x04\0\0\0\x10\0\0\0)\0\0\0\x03\0\0\0\0\0\0\0\0\0\0\
\0\xa4\x01\0\01\0\0\0\0\0\0\0\0\0\0\0\x01\0\0\0\0\0\0\0\0\0\0\0\0\0\0\0\0\0\0\0\0\0\0\0\x01\0\0\0\0\
\0\0\0\0\0\0\0\0\0\x01\0\x08\0\0\0\0\0\0\0\0\0\0\0\0\0\x01\0\x0d\0\0\0\x19\0\0\0\0\0\0\0\0\0\x02\0\
\x11\0\0\04\0\0\0\0\0\0\0\0\0\x02\0\0_start\0done\0buf\0a_b\0.text\0.data\0.symtab\0.strtab\0",
    ),
    (
        b"# The product of 5 and 7.\n    li   a0, 5\n    li   a1, 7\n    mul  a0, a0, a1\n    ebreak\n",
        4294967280,
        b"\x7fELF\x01\x01\x01\0\0\0\0\0\0\0\0\0\x02\0\xf3\0\x01\0\0\0\xf0\xff\xff\xff4\0\0\0d\0\0\0\0\0\0\04\0\
\x20\0\x01\0(\0\x05\0\x04\0\x01\0\0\0T\0\0\0\xf0\xff\xff\xff\xf0\xff\xff\xff\x10\0\0\0\x10\0\0\0\x07\0\
\0\0\x04\0\0\0\x13\x05P\0\x93\x05p\03\x05\xb5\x02s\0\x10\0\0\0\0\0\0\0\0\0\0\0\0\0\0\0\0\0\0\0\0\0\0\
\0\0\0\0\0\0\0\0\0\0\0\0\0\0\0\0\0\0\0\x01\0\0\0\x01\0\0\0\x06\0\0\0\xf0\xff\xff\xffT\0\0\0\x10\0\0\
\0\0\0\0\0\0\0\0\0\x04\0\0\0\0\0\0\0\x07\0\0\0\x01\0\0\0\x03\0\0\0\0\0\0\0d\0\0\0\0\0\0\0\0\0\0\0\0\
\0\0\0\x10\0\0\0\0\0\0\0\x0d\0\0\0\x02\0\0\0\0\0\0\0\0\0\0\0,\x01\0\0\x10\0\0\0\x04\0\0\0\x01\0\0\0\
\x04\0\0\0\x10\0\0\0\x15\0\0\0\x03\0\0\0\0\0\0\0\0\0\0\0<\x01\0\0\x1d\0\0\0\0\0\0\0\0\0\0\0\x01\0\0\
\0\0\0\0\0\0\0\0\0\0\0\0\0\0\0\0\0\0\0\0\0\0.text\0.data\0.symtab\0.strtab\0",
    ),
];

#[test]
fn files_are_those_of_another_assembler(rt: HostRuntime) -> Result<(), Fail> {
    for (text, base, file) in &PROGRAMS {
        match assemble(rt.alloc(), *text, *base) {
            Ok(made) => assert!(rt; made.as_slice() == *file),
            Err(_) => return Err("refused")?,
        }
    }
    Ok(())
}

/// Assembles the program at a place.
#[derive(Drop)]
struct Assembled {
    place: usize,
}

impl Attempt for Assembled {
    fn attempt(&self, heap: Heap) -> Result<Try, AllocError> {
        let Some((text, base, file)) = PROGRAMS.get(self.place) else {
            return Ok(Try::Wrong);
        };
        match assemble(heap, *text, *base) {
            Ok(made) => Ok(Try::right_if(made.as_slice() == *file)),
            Err(AsmError::Memory) => Ok(Try::Refused),
            Err(AsmError::Refused(_)) => Ok(Try::Wrong),
        }
    }
}

#[test]
fn programs_without_memory(rt: HostRuntime) -> Result<(), Fail> {
    for place in 0..PROGRAMS.len() {
        assert!(rt; refusals(rt.alloc(), &Assembled { place })? >= Some(8));
    }
    Ok(())
}

/// A text, the place of its first byte, a line and a column, both from 1, and what the program prints of a refusal
/// there.
type Refused = (&'static [u8], u32, usize, usize, &'static str);

static REFUSED: [Refused; 30] = [
    (
        b"# The product of 5 and 7.\n    li   a0, 5\n    li   a1, 7\n    mul  a0, a0, a1\n\
\x20   ebreak\n",
        4294967284,
        5,
        5,
        "program too large",
    ),
    (
        b"# The product of 5 and 7.\n    li   a0, 5\n    li   a1, 7\n    mul  a0, a0, a1\n\
\x20   ebreak\n",
        4294967292,
        3,
        5,
        "program too large",
    ),
    (b"", 0, 1, 1, "no code"),
    (
        b".data\n_start: .word 5\n.text\nnop\n",
        0,
        2,
        1,
        "bad entry",
    ),
    (b".byte 1\n_start: .byte 2\n nop\n", 0, 2, 1, "bad entry"),
    (
        b".equ len, 2f-1f\n1: nop\n2: nop\n",
        0,
        1,
        11,
        "not defined above",
    ),
    (b"j f\naddi a0, a0, 5000\n", 0, 1, 3, "undefined"),
    (
        b"addi a0, a0, 5000\nj f\n",
        0,
        1,
        14,
        "not from -2048 to 2047",
    ),
    (
        b"beq a0, a1, f\n.space 4090\n.align 2\nf: nop\n",
        0,
        1,
        13,
        "not from -4096 to 4094",
    ),
    (
        b".space 1048560\nnop\n.data\n.byte 1\n",
        0,
        4,
        1,
        "program too large",
    ),
    (
        b".data\n.space 1048560\n.text\nnop\nnop\nnop\nnop\nnop\n",
        0,
        8,
        1,
        "program too large",
    ),
    (
        b".word f-8, -4, f*0\nf: nop\n",
        0,
        1,
        16,
        "bad sum of addresses",
    ),
    (
        b"call f\n.text\nf: ret\n.equ g, 4\ntail g\n",
        0,
        5,
        6,
        "address expected",
    ),
    (b"nop\nbeq a0, a1, 3\n", 0, 2, 13, "odd offset"),
    (b"slli a0, a0, 32\n", 0, 1, 14, "not from 0 to 31"),
    (b"lui a0, -1\n", 0, 1, 9, "not from 0 to 1048575"),
    (
        b"addi a0, a0, 0xffffffff\n",
        0,
        1,
        14,
        "not from -2048 to 2047",
    ),
    (
        b".byte 1\naddi a0, a0, 1\n",
        0,
        2,
        1,
        "instruction misaligned",
    ),
    (b"nop\n.byte 0, 256\n", 0, 2, 10, "not from -128 to 255"),
    (
        b".word 0xffffffff+1\n",
        0,
        1,
        7,
        "not from -2147483648 to 4294967295",
    ),
    (b"f: .word f-4, f+f\n", 0, 1, 15, "bad sum of addresses"),
    (
        b"f: nop\n.data\n.word . - f\n",
        0,
        3,
        7,
        "bad sum of addresses",
    ),
    (b"f:\n\n", 0, 3, 1, "no code"),
    (b"la a0, 4\n", 0, 1, 8, "address expected"),
    (b".balign 3\n", 0, 1, 9, "bad alignment"),
    (b"nop\n.comm _start, 4, 4\n", 0, 2, 7, "bad entry"),
    (b"a: nop\na: nop\n", 0, 2, 1, "defined twice"),
    (b"nop\n.data\nnop\n", 0, 3, 1, "instruction in data"),
    (b"\tlw a0, x(a1)\nx: nop\n", 0, 1, 9, "constant expected"),
    (b"# nothing\n", 0, 2, 1, "no code"),
];

fn words(cause: Cause) -> &'static str {
    match cause {
        Cause::Expected(Thing::Constant) => "constant expected",
        Cause::Expected(Thing::Address) => "address expected",
        Cause::DefinedTwice => "defined twice",
        Cause::BadEntry => "bad entry",
        Cause::InstructionInData => "instruction in data",
        Cause::InstructionMisaligned => "instruction misaligned",
        Cause::NotDefinedAbove => "not defined above",
        Cause::Undefined => "undefined",
        Cause::BadSum => "bad sum of addresses",
        Cause::OddOffset => "odd offset",
        Cause::BadAlignment => "bad alignment",
        Cause::TooLarge => "program too large",
        Cause::NoCode => "no code",
        _ => range(cause),
    }
}

fn range(cause: Cause) -> &'static str {
    match cause {
        Cause::OutOfRange(-2147483648, 4294967295) => "not from -2147483648 to 4294967295",
        Cause::OutOfRange(-4096, 4094) => "not from -4096 to 4094",
        Cause::OutOfRange(-2048, 2047) => "not from -2048 to 2047",
        Cause::OutOfRange(-128, 255) => "not from -128 to 255",
        Cause::OutOfRange(0, 31) => "not from 0 to 31",
        Cause::OutOfRange(0, 1048575) => "not from 0 to 1048575",
        _ => "",
    }
}

/// True if this is the first refusal of a text.
fn is_refused(alloc: Global, refused: Refused) -> bool {
    let (text, base, wanted_line, wanted_column, wanted) = refused;
    match assemble(alloc, text, base) {
        Err(AsmError::Refused(Refusal { line, at, cause })) => {
            line == wanted_line
                && at.checked_add(1) == Some(wanted_column)
                && words(cause).as_bytes() == wanted.as_bytes()
        }
        _ => false,
    }
}

#[test]
fn first_refusals_of_the_passes(rt: HostRuntime) -> Result<(), Fail> {
    for refused in &REFUSED {
        assert!(rt; is_refused(rt.alloc(), *refused));
    }
    Ok(())
}
