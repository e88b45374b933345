//! Known words: their texts, and the words that their instructions encode to.

use std::alloc::Global;
use std::test::Fail;
use tomex_rvdec::{decode, encode};

/// Words, with the texts of their instructions.
static WORDS: [(u32, &str); 18] = [
    (0x00500093, "addi x1,x0,5"),
    (0x022081b3, "mul x3,x1,x2"),
    (0x02528333, "mul x6,x5,x5"),
    (0x0080006f, "jal x0,8"),
    (0xffdff06f, "jal x0,-4"),
    (0x00030067, "jalr x0,0(x6)"),
    (0x00142023, "sw x1,0(x8)"),
    (0x00002423, "sw x0,8(x0)"),
    (0x00140103, "lb x2,1(x8)"),
    (0xffe02083, "lw x1,-2(x0)"),
    (0xfe009ee3, "bne x1,x0,-4"),
    (0x123452b7, "lui x5,74565"),
    (0xfffff297, "auipc x5,1048575"),
    (0x003100b3, "add x1,x2,x3"),
    (0x41f15093, "srai x1,x2,31"),
    (0x0ff0000f, "fence"),
    (0x00000073, "ecall"),
    (0x00100073, "ebreak"),
];

/// The text of a word's instruction, and the word that it encodes to.
fn text_and_word(alloc: Global, word: u32) -> Result<(String, u32), Fail> {
    let instr = decode(word).ok_or("no instruction")?;
    Ok((format!(in alloc; "{instr}")?, encode(&instr)))
}

#[test]
fn words_and_their_texts(rt: HostRuntime) -> Result<(), Fail> {
    for (word, text) in &WORDS {
        let (shown, back) = text_and_word(rt.alloc(), *word)?;
        assert!(rt; shown.as_str() == *text);
        assert!(rt; back == *word);
    }
    Ok(())
}

#[test]
fn words_that_mean_nothing(rt: HostRuntime) {
    // SLLI with the funct7 of SRAI, the first word of an ELF file, all zeros, all ones,
    // MRET, CSRRW, and FENCE.I.
    for word in [
        0x40001013, 0x464c457f, 0, 0xffffffff, 0x30200073, 0x00001073, 0x0000100f,
    ] {
        assert!(rt; decode(word) == None);
    }
}
