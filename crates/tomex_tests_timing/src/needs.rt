//! The needs and waits of a small run, compared with tables that were made by hand from the rules.

use std::alloc::{AllocError, Global};
use std::test::Fail;
use tomex_config::{Config, Part};
use tomex_rvexec::{Step, trace};
use tomex_tests_fixtures::machines::one_unit_each;
use tomex_tests_fixtures::programs::PRODUCT_WORDS;
use tomex_tests_fixtures::{Attempt, Heap, Try, image_of, refusals};
use tomex_timing::evaluate::{needs, waits};
use tomex_timing::{Needs, Waits};

/// The trace of a program at address 0.
fn trace_of(alloc: Global, words: &[u32]) -> Result<Vec<Step>, Fail> {
    let image = image_of(alloc, 0, 4096, words)?;
    Ok(trace(alloc, &image, 1000)?)
}

/// The needs of a program's run on a configuration.
fn needs_of(alloc: Global, words: &[u32], config: &Config) -> Result<Needs, Fail> {
    let steps = trace_of(alloc, words)?;
    if steps.len() > 1000 {
        return Err("a long trace".into());
    }
    Ok(needs(alloc, steps.as_slice(), config)?)
}

/// The waits of each of its steps.
fn waits_of(alloc: Global, words: &[u32], config: &Config) -> Result<Vec<Waits>, Fail> {
    let steps = trace_of(alloc, words)?;
    if steps.len() > 1000 {
        return Err("a long trace".into());
    }
    Ok(waits(alloc, steps.as_slice(), config)?)
}

/// The count, peak and stalls of each part, in the order of reports.
type Table = [(u64, u64, u64); 13];

/// The count, peak and stalls of a part.
fn row_of(needs: &Needs, config: &Config, part: Part) -> (u64, u64, u64) {
    let need = needs.need(part);
    (part.count(config), need.peak, need.stalls)
}

/// Branch, operand, address, memory, drain and total.
fn rest_of(needs: &Needs) -> [u64; 6] {
    [
        needs.branch,
        needs.operand,
        needs.address,
        needs.memory,
        needs.drain(),
        needs.total,
    ]
}

/// True if the needs on a configuration are those of a table, with this rest.
fn are_needs(needs: &Needs, config: &Config, table: &Table, rest: &[u64; 6]) -> bool {
    let mut same = rest_of(needs) == *rest;
    for (part, row) in Part::ALL.iter().zip(table) {
        same = same && row_of(needs, config, *part) == *row;
    }
    same
}

/// Waits, in the order of the report by address.
fn waits_from(numbers: &[u64; 8]) -> Waits {
    let [branch, width, station, operand, address, memory, unit, bus] = *numbers;
    Waits {
        branch,
        width,
        station,
        operand,
        address,
        memory,
        unit,
        bus,
    }
}

fn are_waits(waits: &[Waits], table: &[[u64; 8]]) -> bool {
    waits.len() == table.len()
        && waits
            .iter()
            .zip(table.iter())
            .all(|(step, numbers)| *step == waits_from(numbers))
}

/// True if the needs of a program's run on a configuration are those of its tables.
fn lacks(
    alloc: Global,
    words: &[u32],
    config: &Config,
    table: &Table,
    rest: &[u64; 6],
    waited: &[[u64; 8]],
) -> Result<bool, Fail> {
    let needs = needs_of(alloc, words, config)?;
    let waits = waits_of(alloc, words, config)?;
    Ok(are_needs(&needs, config, table, rest) && are_waits(waits.as_slice(), waited))
}

/// `addi x8,x0,256; mul x3,x8,x8; mul x5,x8,x8; sw x8,0(x8); lb x2,1(x8); addi x1,x2,0; addi x6,x0,0;`
/// `bne x0,x0,8; mul x9,x0,x0; addi x10,x0,0; ebreak`
static EACH_CAUSE: [u32; 11] = [
    0x10000413, 0x028401b3, 0x028402b3, 0x00842023, 0x00140103, 0x00010093, 0x00000313, 0x00001463,
    0x020004b3, 0x00000513, 0x00100073,
];

static EACH_CAUSE_NEEDS: Table = [
    (1, 1, 6),
    (2, 2, 0),
    (1, 0, 0),
    (1, 1, 0),
    (1, 1, 0),
    (1, 1, 0),
    (1, 1, 0),
    (1, 1, 1),
    (1, 0, 0),
    (1, 1, 0),
    (1, 1, 0),
    (1, 1, 1),
    (1, 1, 9),
];

static EACH_CAUSE_WAITS: [[u64; 8]; 11] = [
    [0, 0, 0, 0, 0, 0, 0, 0],
    [0, 1, 0, 1, 0, 0, 0, 0],
    [0, 1, 0, 0, 0, 0, 1, 0],
    [0, 1, 0, 0, 1, 0, 0, 0],
    [0, 1, 0, 0, 1, 1, 0, 0],
    [0, 1, 0, 4, 0, 0, 0, 0],
    [0, 1, 6, 0, 0, 0, 0, 0],
    [0, 1, 0, 0, 0, 0, 0, 0],
    [2, 0, 0, 0, 0, 0, 0, 0],
    [0, 1, 0, 0, 0, 0, 0, 1],
    [0, 1, 0, 0, 0, 0, 0, 0],
];

#[test]
fn each_cause_is_charged(rt: HostRuntime) -> Result<(), Fail> {
    let config = one_unit_each([1, 2, 1, 1, 1, 1], [1, 2, 1, 2, 1], 1)?;
    let (needs, waits) = (&EACH_CAUSE_NEEDS, &EACH_CAUSE_WAITS);
    assert!(rt;
        lacks(
            rt.alloc(),
            &EACH_CAUSE,
            &config,
            needs,
            &[2, 5, 2, 1, 2, 20],
            waits
        )?
    );
    Ok(())
}

/// Evaluates the product's run on a configuration: its needs, or the waits of its steps.
#[derive(Clone, Copy)]
struct Evaluation<'a> {
    steps: &'a [Step],
    config: Config,
    by_step: bool,
}

impl<'a> Attempt for Evaluation<'a> {
    fn attempt(&self, heap: Heap) -> Result<Try, AllocError> {
        if self.steps.len() > 1000 {
            return Ok(Try::Wrong);
        }
        let is_right = if self.by_step {
            waits(heap, self.steps, &self.config).map(|waits| waits.len() == 4)
        } else {
            needs(heap, self.steps, &self.config).map(|needs| needs.total == 8)
        };
        Ok(is_right.map_or(Try::Refused, Try::right_if))
    }
}

#[test]
fn memory_is_refused(rt: HostRuntime) -> Result<(), Fail> {
    let config = one_unit_each([2, 1, 1, 1, 1, 1], [1, 3, 1, 1, 1], 1)?;
    let trace = trace_of(rt.alloc(), &PRODUCT_WORDS)?;
    for by_step in [false, true] {
        let evaluation = Evaluation {
            steps: trace.as_slice(),
            config,
            by_step,
        };
        assert!(rt; refusals(rt.alloc(), &evaluation)? > Some(0));
    }
    Ok(())
}
