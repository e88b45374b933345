//! A line of a megabyte, which is 100,000 labels.

use super::read_line;
use std::test::Fail;
use tomex_asm_text::Statement;
use tomex_asm_tokens::without_comments;

const LABELS: usize = 100_000;

#[test]
fn a_line_of_a_megabyte(rt: HostRuntime) -> Result<(), Fail> {
    let mut text = Vec::with_capacity(rt.alloc(), 10 * LABELS)?;
    for _ in 0..LABELS {
        text.extend_from_slice(b"a_label_1:")?;
    }
    let bare = without_comments(rt.alloc(), text.as_slice())?;
    assert!(rt; bare.as_slice() == text.as_slice());
    let mut tokens = Vec::new(rt.alloc());
    match read_line(&mut tokens, bare.as_slice()) {
        Ok(line) => {
            assert!(rt; line.labels.len() == 2 * LABELS && line.at == 10 * LABELS);
            assert!(rt; matches!(line.statement, Statement::Nothing));
        }
        Err(_) => return Err("refused")?,
    }
    Ok(())
}
