//! The path of a small run, compared with that of another implementation of the rules.

use std::alloc::AllocError;
use std::test::Fail;
use tomex_config::{Config, UnitOption};
use tomex_path::{Link, Reason, path};
use tomex_tests_fixtures::machines::config_of;
use tomex_tests_fixtures::runs::{Program, run_of};
use tomex_tests_fixtures::{Attempt, Heap, Try, refusals};
use tomex_timing::Run;

/// `addi x8,x0,256; lh x1,2(x8); sh x2,0(x8); lbu x3,6(x8); beq x1,x0,4; lb x2,0(x8); lb x2,0(x8); ebreak`
const ACCESSES: Program = Program {
    base: 0,
    size: 1024,
    words: &[
        0x10000413, 0x00241083, 0x00241023, 0x00644183, 0x00008263, 0x00040103, 0x00040103,
        0x00100073,
    ],
};

/// One or two units of this latency.
const fn units(units: u8, latency: u8) -> UnitOption {
    UnitOption {
        units,
        latency,
        price: 0,
    }
}

/// Finds the path of a run.
#[derive(Clone, Copy)]
struct Finding<'a> {
    run: &'a Run,
    config: Config,
}

/// True if a path has six links, of which the last waits for a station.
fn is_right(links: &[Link]) -> bool {
    match links {
        [.., last] => links.len() == 6 && last.waits == 4 && last.from == 15 && last.to == 18,
        [] => false,
    }
}

impl<'a> Attempt for Finding<'a> {
    fn attempt(&self, heap: Heap) -> Result<Try, AllocError> {
        if self.run.steps().len() > 2000 {
            return Ok(Try::Wrong);
        }
        match path(heap, self.run, &self.config) {
            Ok(path) => Ok(Try::right_if(is_right(&path.links))),
            Err(_) => Ok(Try::Refused),
        }
    }
}

#[test]
fn a_path_is_found(rt: HostRuntime) -> Result<(), Fail> {
    let run = run_of(rt.alloc(), &ACCESSES)?;
    let kinds = [
        units(2, 1),
        units(2, 2),
        units(2, 1),
        units(2, 1),
        units(1, 3),
    ];
    let config = config_of([4, 1, 2, 1, 8, 8], kinds, 2, 4)?;
    assert!(rt; refusals(rt.alloc(), &Finding { run: &run, config })? > Some(0));
    Ok(())
}
