//! The table of a worked study, and what it is made of, with each allocation refused in turn.

use crate::{Asked, ask, outcome_of};
use std::alloc::{AllocError, Global};
use std::test::Fail;
use tomex_pareto::FrontRow;
use tomex_study::Surveyed;
use tomex_tests_fixtures::{Heap, Try, refusals_of};
use tomex_weights::{
    listed_rows, relevant_programs, rows_by_weight, weight_columns, weights_table,
};

/// Six products, and ten sums, of which the first counts twice.
const TWO: &str = "[[program]]\nname = \"p\"\nfile = \"p\"\nweight = 2\n\
[[program]]\nname = \"s\"\nfile = \"s\"\n\
[prices]\nalu = 2\nmul = 3\n[axes]\nalu = [1, 2, 3]\nmul = [1, 2]\n[[unit.mul]]\nlatency = 4\n";

/// `mul x3,x1,x2` and the same to `x4` .. `x8`; `ebreak`
const PRODUCTS: &[u8; 28] =
    b"\xb3\x81\x20\x02\x33\x82\x20\x02\xb3\x82\x20\x02\x33\x83\x20\x02\xb3\x83\x20\x02\x33\x84\x20\x02\
\x73\x00\x10\x00";

/// `addi x3,x0,0`, `addi x4,x0,1` .. `addi x11,x0,8`; `ebreak`
const SUMS: &[u8; 40] = b"\x93\x01\x00\x00\x13\x02\x10\x00\x93\x02\x20\x00\x13\x03\x30\x00\
\x93\x03\x40\x00\x13\x04\x50\x00\x93\x04\x60\x00\x13\x05\x70\x00\x93\x05\x80\x00\x73\x00\x10\x00";

/// The output of an independent implementation.
const TABLE: &str = "row  cost  cycles  all       p       s\n\
now     -       -    -       2       1\n\
\x20 0     5      99  any     any     any\n\
\x20 2     7      87  99%     any     any\n\
\x20 1     8      65  47%  0.71..  ..2.83\n\
\x20 4     9      83    -  ..0.94  2.13..\n\
\x20 3    10      53  78%  0.24..  ..8.49\n\
\x20 5    12      49  99%     any     any\n";

/// The rows that are listed.
fn listed(
    heap: Heap,
    other: Global,
    surveyed: &Surveyed<'_, Heap>,
) -> Result<Vec<FrontRow, Heap>, AllocError> {
    let columns = weight_columns(other, surveyed)?;
    listed_rows(heap, surveyed, columns.as_slice())
}

/// The outcome of a call that makes a list of this length.
fn outcome_of_list<T: Copy>(list: Result<Vec<T, Heap>, AllocError>, length: usize) -> Try {
    match list {
        Ok(list) => Try::right_if(list.len() == length),
        Err(AllocError) => Try::Refused,
    }
}

/// What is made of a survey for the table of weights.
#[derive(Clone, Copy)]
enum Part {
    Table,
    /// The rows that are listed.
    Listed,
    /// The programs with a column.
    Relevant,
    /// The rows by the first program's weight.
    ByWeight,
}

const PARTS: [Part; 4] = [Part::Table, Part::Listed, Part::Relevant, Part::ByWeight];

/// The outcome of a part in this memory.
fn outcome(part: Part, heap: Heap, other: Global, surveyed: &Surveyed<'_, Heap>) -> Try {
    surveyed.keeps_limits();
    match part {
        Part::Table => outcome_of(weights_table(heap, other, surveyed), TABLE),
        Part::Listed => outcome_of_list(listed(heap, other, surveyed), 6),
        Part::Relevant => outcome_of_list(relevant_programs(heap, surveyed), 2),
        Part::ByWeight => outcome_of_list(rows_by_weight(heap, surveyed, 0), 6),
    }
}

/// The number of blocks that it takes.
fn blocks(
    part: Part,
    other: Global,
    surveyed: &Surveyed<'_, Heap>,
) -> Result<Option<u64>, AllocError> {
    Ok(refusals_of!(other, heap => outcome(part, heap, other, surveyed)))
}

/// The fewest blocks that a part takes, if each is right.
pub fn fewest_blocks(
    other: Global,
    surveyed: &Surveyed<'_, Heap>,
) -> Result<Option<u64>, AllocError> {
    let mut fewest = Some(1000);
    for part in PARTS {
        let blocks = blocks(part, other, surveyed)?;
        if blocks < fewest {
            fewest = blocks;
        }
    }
    Ok(fewest)
}

/// The files of the study.
static FILES: [&[u8]; 2] = [PRODUCTS, SUMS];

#[test]
fn a_worked_table(rt: HostRuntime) -> Result<(), Fail> {
    assert!(rt; ask(&rt, rt.alloc(), Asked::Weights, TWO, &FILES)? > Some(0));
    Ok(())
}
