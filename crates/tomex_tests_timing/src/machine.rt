//! Runs of the machine, compared with worked examples.

use std::alloc::{AllocError, Allocator, Global};
use std::test::Fail;
use tomex_config::{Config, UnitOption};
use tomex_cycle::{Machine, Progress, Tables};
use tomex_image::Image;
use tomex_rvdec::{Op, PoolId};
use tomex_rvexec::End;
use tomex_tests_fixtures::image_of;
use tomex_tests_fixtures::machines::{PLAIN, config_of, unit};
use tomex_tests_fixtures::programs::{LOOP_WORDS, PRODUCT_WORDS};
use tomex_timing::Tag;

mod faults;

/// The image of a program at address 0.
fn image_at_0(rt: &HostRuntime, words: &[u32]) -> Result<Image, Fail> {
    image_of(rt.alloc(), 0, 65536, words)
}

fn holds(ok: bool, what: &'static str) -> Result<(), Fail> {
    if ok { Ok(()) } else { Err(what.into()) }
}

/// A configuration of these stations, alu units, latencies of mul and mem, buses and issue width, with
/// one unit of latency 1 of each other kind.
fn machine_config(stations: [u8; 6], parts: [u8; 4], width: u8) -> Result<Config, Fail> {
    let [alu, mul, mem, buses] = parts;
    let alus = UnitOption {
        units: alu,
        ..PLAIN
    };
    let units = [alus, unit(mul), PLAIN, unit(mem), PLAIN];
    config_of(stations, units, buses, width)
}

/// A machine before its first cycle.
fn machine_of<'a>(
    rt: &HostRuntime,
    image: &'a Image,
    config: &Config,
) -> Result<Machine<'a>, AllocError> {
    Machine::new(rt.alloc(), image, config)
}

fn tick<A: Allocator>(machine: &mut Machine<A>) -> Progress {
    if machine.cycle() < 1000000000 {
        machine.tick()
    } else {
        Progress::Running
    }
}

fn cycle_of<A: Allocator>(machine: &Machine<A>) -> u64 {
    machine.cycle()
}

fn worked<A: Allocator>(machine: &Machine<A>) -> u64 {
    machine.worked()
}

/// True if the run ends by this cycle.
fn ends_by<A: Allocator>(machine: &mut Machine<A>, to: u32) -> bool {
    matches!(machine.advance(u64::from(to)), Progress::Ended)
}

/// True if the next tick says that the run continues, and brings the machine to this cycle.
fn runs_on<A: Allocator>(machine: &mut Machine<A>, cycle: u32) -> bool {
    matches!(tick(machine), Progress::Running) && cycle_of(machine) == u64::from(cycle)
}

/// True if the next tick says that the run has ended, and leaves the machine at this cycle.
fn ends_at<A: Allocator>(machine: &mut Machine<A>, cycle: u32) -> bool {
    matches!(tick(machine), Progress::Ended) && cycle_of(machine) == u64::from(cycle)
}

/// Makes cycle after cycle up to `total`, the first whose tick says that the run has ended.
fn run_to<A: Allocator>(machine: &mut Machine<A>, total: u32) -> Result<(), Fail> {
    for cycle in 1..total {
        holds(runs_on(machine, cycle), "not running, or at another cycle")?;
    }
    let first = ends_at(machine, total);
    holds(first && ends_at(machine, total), "not ended at the total")
}

fn end_of<A: Allocator>(machine: Machine<A>) -> Result<End<A>, Fail> {
    if machine.ended() {
        Ok(machine.finish())
    } else {
        Err("not ended".into())
    }
}

/// `mul x3,x0,x0; addi x4,x0,1; ebreak`
const ONE_BUS: [u32; 3] = [0x020001b3, 0x00100213, 0x00100073];

/// `mul x3,x0,x0; addi x4,x3,0; addi x5,x3,0; ebreak`
const ONE_UNIT: [u32; 4] = [0x020001b3, 0x00018213, 0x00018293, 0x00100073];

/// `mul x5,x1,x2; addi x5,x0,1; ebreak`
const WRITTEN_TWICE: [u32; 3] = [0x022082b3, 0x00100293, 0x00100073];

/// `addi x8,x0,256; addi x1,x0,768; sw x1,0(x8); lb x2,1(x8); ebreak`
const STORED: [u32; 5] = [0x10000413, 0x30000093, 0x00142023, 0x00140103, 0x00100073];

/// The same with `lb x2,4(x8)`.
const ASIDE: [u32; 5] = [0x10000413, 0x30000093, 0x00142023, 0x00440103, 0x00100073];

/// `addi x5,x0,4; mul x6,x5,x5; jalr x0,0(x6); ebreak; ebreak`
const INDIRECT: [u32; 5] = [0x00400293, 0x02528333, 0x00030067, 0x00100073, 0x00100073];

/// The same with `jal x0,8`.
const DIRECT: [u32; 5] = [0x00400293, 0x02528333, 0x0080006f, 0x00100073, 0x00100073];

/// `addi x8,x0,256; lb x1,0(x8); lb x2,0(x8); ebreak`
const TWO_LOADS: [u32; 4] = [0x10000413, 0x00040083, 0x00040103, 0x00100073];

/// `addi x0,x0,0; ebreak`
const NOTHING: [u32; 2] = [0x00000013, 0x00100073];

const EBREAK: [u32; 1] = [0x00100073];

/// `mul x3,x0,x0; addi x4,x3,0; ebreak`
const WAITED_FOR: [u32; 3] = [0x020001b3, 0x00018213, 0x00100073];

/// One station in each pool, except two of alu.
const TWO_ALU: [u8; 6] = [2, 1, 1, 1, 1, 1];

/// One station in each pool, except two of load.
const TWO_LOAD: [u8; 6] = [1, 1, 1, 2, 1, 1];

/// A program with its stations, its alu units, the latencies of mul and mem, and its buses; its issue width; the
/// total; and the last pc and a register's value at its end.
type Worked = (&'static [u32], [u8; 6], [u8; 4], u8, u32, (u32, usize, u32));

/// True if one leap ends at the total.
fn leaps_to(rt: &HostRuntime, image: &Image, config: &Config, total: u32) -> Result<bool, Fail> {
    let mut machine = machine_of(rt, image, config)?;
    let ends = ends_by(&mut machine, total.saturating_add(9));
    Ok(ends && cycle_of(&machine) == u64::from(total))
}

/// The end of a run by ticks, at the total.
fn ticked(
    rt: &HostRuntime,
    image: &Image,
    config: &Config,
    total: u32,
) -> Result<End<Global>, Fail> {
    let mut machine = machine_of(rt, image, config)?;
    run_to(&mut machine, total)?;
    end_of(machine)
}

/// Fails unless ticks and one leap reach the total, and the run ends with this pc and register.
fn comes_to(rt: &HostRuntime, row: &Worked) -> Result<(), Fail> {
    let (words, stations, parts, width, total, (pc, register, value)) = *row;
    let image = image_at_0(rt, words)?;
    let config = machine_config(stations, parts, width)?;
    let leaps = leaps_to(rt, &image, &config, total)?;
    holds(leaps, "a leap to another cycle, or to no end")?;
    let end = ticked(rt, &image, &config, total)?;
    let is_same = end.pc == pc && end.regs.get(register).copied() == Some(value);
    holds(is_same, "another pc, or another value")
}

static WORKED: [Worked; 24] = [
    (&PRODUCT_WORDS, TWO_ALU, [1, 3, 1, 1], 1, 8, (12, 3, 0x23)),
    (&PRODUCT_WORDS, [1; 6], [1, 3, 1, 1], 1, 10, (12, 3, 0x23)),
    (&ONE_BUS, [1; 6], [1, 2, 1, 1], 1, 5, (8, 4, 1)),
    (&ONE_BUS, [1; 6], [1, 2, 1, 2], 1, 4, (8, 4, 1)),
    (&ONE_UNIT, TWO_ALU, [1, 3, 1, 2], 1, 8, (12, 5, 0)),
    (&ONE_UNIT, TWO_ALU, [2, 3, 1, 2], 1, 7, (12, 5, 0)),
    (&WRITTEN_TWICE, [1; 6], [1, 10, 1, 1], 1, 12, (8, 5, 1)),
    (&STORED, TWO_ALU, [1, 1, 2, 1], 1, 9, (16, 2, 3)),
    (&ASIDE, TWO_ALU, [1, 1, 2, 1], 1, 8, (16, 2, 0)),
    (&INDIRECT, TWO_ALU, [1, 3, 1, 1], 1, 9, (16, 6, 16)),
    (&DIRECT, TWO_ALU, [1, 3, 1, 1], 1, 7, (16, 6, 16)),
    (&TWO_LOADS, TWO_LOAD, [1, 1, 2, 1], 1, 8, (12, 8, 256)),
    (&TWO_LOADS, [1; 6], [1, 1, 2, 1], 1, 12, (12, 8, 256)),
    (&NOTHING, [1; 6], [1, 1, 1, 1], 1, 2, (4, 0, 0)),
    (&EBREAK, [1; 6], [1, 1, 1, 1], 1, 1, (0, 2, 65536)),
    (&LOOP_WORDS, [1; 6], [1, 1, 1, 1], 1, 2000, (12, 1, 0)),
    (&WAITED_FOR, [1; 6], [1, 64, 1, 1], 1, 68, (8, 4, 0)),
    // A product issues in its producers' cycle, and nothing in a JALR's cycle after it.
    (&PRODUCT_WORDS, TWO_ALU, [2, 3, 1, 2], 1, 8, (12, 3, 0x23)),
    (&PRODUCT_WORDS, TWO_ALU, [2, 3, 1, 2], 2, 7, (12, 3, 0x23)),
    (&PRODUCT_WORDS, TWO_ALU, [2, 3, 1, 2], 4, 7, (12, 3, 0x23)),
    (&PRODUCT_WORDS, [1; 6], [1, 3, 1, 1], 2, 10, (12, 3, 0x23)),
    (&INDIRECT, TWO_ALU, [1, 3, 1, 1], 4, 9, (16, 6, 16)),
    (&NOTHING, [1; 6], [1, 1, 1, 1], 2, 2, (4, 0, 0)),
    (&EBREAK, [1; 6], [1, 1, 1, 1], 4, 1, (0, 2, 65536)),
];

#[test]
fn worked_runs(rt: HostRuntime) -> Result<(), Fail> {
    for row in &WORKED {
        comes_to(&rt, row)?;
    }
    Ok(())
}

/// True if a run of 68 cycles makes few of them.
fn is_skipped<A: Allocator>(machine: &mut Machine<A>) -> bool {
    let is_new = worked(machine) == 0;
    let ends = ends_by(machine, 1000) && cycle_of(machine) == 68;
    is_new && ends && 7 <= worked(machine) && worked(machine) <= 25
}

/// Few of the 68 cycles of a run with a long multiplication are made.
#[test]
fn a_long_wait_is_skipped(rt: HostRuntime) -> Result<(), Fail> {
    let config = machine_config([1; 6], [1, 64, 1, 1], 1)?;
    let image = image_at_0(&rt, WAITED_FOR.as_slice())?;
    let mut machine = machine_of(&rt, &image, &config)?;
    assert!(rt; is_skipped(&mut machine));
    Ok(())
}

/// True if the run continues through a million ticks and one.
fn continues<A: Allocator>(machine: &mut Machine<A>) -> bool {
    for _ in 0..1000001 {
        if !matches!(tick(machine), Progress::Running) {
            return false;
        }
    }
    true
}

/// The first station of the alu.
const ALU0: Tag = Tag {
    pool: PoolId::Alu,
    number: 0,
};

/// True if the tables are those of this cycle, and one station is busy: that one, with a JAL.
fn hold_a_jal(tables: &Tables, cycle: u64) -> bool {
    let mut busy = 0u32;
    let mut is_right = tables.cycle() == cycle;
    for station in tables.busy() {
        if let Some(station) = station {
            busy = busy.wrapping_add(1);
            is_right = is_right && station.tag == ALU0 && station.instr.op() == Op::Jal;
        }
    }
    is_right && busy == 1
}

/// No machine can know this run in advance: `jal x0,0` has no end.
#[test]
fn a_jump_to_itself_runs_on(rt: HostRuntime) -> Result<(), Fail> {
    let config = machine_config([1; 6], [1; 4], 1)?;
    let image = image_at_0(&rt, &[0x0000006f])?;
    let mut machine = machine_of(&rt, &image, &config)?;
    assert!(rt; continues(&mut machine));
    assert!(rt; hold_a_jal(&machine.tables(), 1000001));
    Ok(())
}
