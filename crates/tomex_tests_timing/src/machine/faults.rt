//! Machines of programs that fault.

use super::{cycle_of, holds, image_at_0, machine_config, machine_of, tick};
use std::alloc::Allocator;
use std::test::Fail;
use tomex_config::Config;
use tomex_cycle::{Machine, Progress};
use tomex_image::Image;
use tomex_rvexec::{Fault, FaultKind, RunError, run};

/// Programs, each with the kind and the place of its fault.
static FAULTY: [(&[u32], FaultKind, u32); 3] = [
    // addi x1,x0,5, and a word that isn't an instruction
    (&[0x00500093, 0], FaultKind::Illegal, 4),
    // lui x1,16; jalr x0,0(x1)
    (&[0x000100b7, 0x00008067], FaultKind::Fetch, 65536),
    // lw x1,-4(x0)
    (&[0xffc02083, 0x00100073], FaultKind::Access, 0),
];

/// True if the next tick reports this fault.
fn faults<A: Allocator>(machine: &mut Machine<A>, wanted: Fault) -> bool {
    matches!(tick(machine), Progress::Faulted(fault) if fault == wanted)
}

/// Fails unless the machine runs up to this fault, and then stays there.
fn comes_to<A: Allocator>(machine: &mut Machine<A>, wanted: Fault) -> Result<(), Fail> {
    for _ in 0..10 {
        if faults(machine, wanted) {
            let cycle = cycle_of(machine);
            holds(faults(machine, wanted), "another answer after a fault")?;
            return holds(cycle_of(machine) == cycle, "another cycle after a fault");
        }
    }
    Err("no such fault".into())
}

/// True if the in-order run has this fault.
fn is_faulty(rt: &HostRuntime, image: &Image, wanted: Fault) -> bool {
    matches!(run(rt.alloc(), image, 10), Err(RunError::Fault(fault)) if fault == wanted)
}

/// Fails unless the in-order run of a program and its machine have this fault.
fn is_said(rt: &HostRuntime, config: &Config, words: &[u32], wanted: Fault) -> Result<(), Fail> {
    let image = image_at_0(rt, words)?;
    holds(is_faulty(rt, &image, wanted), "another fault of the run")?;
    comes_to(&mut machine_of(rt, &image, config)?, wanted)
}

/// Fails unless the machine of this configuration reports the faults of the in-order runs.
fn are_reported(rt: &HostRuntime, config: &Config) -> Result<(), Fail> {
    for (words, kind, pc) in &FAULTY {
        let wanted = Fault {
            kind: *kind,
            pc: *pc,
        };
        is_said(rt, config, words, wanted)?;
    }
    Ok(())
}

/// On a wide machine, a fault of a cycle's second instruction is reported too.
#[test]
fn of_each_kind(rt: HostRuntime) -> Result<(), Fail> {
    are_reported(&rt, &machine_config([1; 6], [1; 4], 1)?)?;
    are_reported(&rt, &machine_config([2; 6], [2, 1, 1, 1], 4)?)
}
