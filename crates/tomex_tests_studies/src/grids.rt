//! The largest grids: they are made if there is memory, and no larger one is.

use std::alloc::{AllocError, Global};
use std::test::Fail;
use tomex_config::{Axes, Config, GridError, grid};
use tomex_tests_fixtures::machines::PLAIN;

/// No value for any part.
fn empty(alloc: Global) -> Axes {
    Axes {
        alu: Vec::new(alloc),
        mul: Vec::new(alloc),
        div: Vec::new(alloc),
        load: Vec::new(alloc),
        store: Vec::new(alloc),
        bru: Vec::new(alloc),
        alu_units: Vec::new(alloc),
        mul_units: Vec::new(alloc),
        div_units: Vec::new(alloc),
        mem_units: Vec::new(alloc),
        bru_units: Vec::new(alloc),
        buses: Vec::new(alloc),
        width: Vec::new(alloc),
    }
}

/// Adds one station to each pool's list.
fn add_stations(axes: &mut Axes) -> Result<(), AllocError> {
    axes.alu.push(1)?;
    axes.mul.push(1)?;
    axes.div.push(1)?;
    axes.load.push(1)?;
    axes.store.push(1)?;
    axes.bru.push(1)?;
    Ok(())
}

/// Adds a plain option to each list of units, one bus, and the width of 1.
fn add_units(axes: &mut Axes) -> Result<(), AllocError> {
    axes.alu_units.push(PLAIN)?;
    axes.mul_units.push(PLAIN)?;
    axes.div_units.push(PLAIN)?;
    axes.mem_units.push(PLAIN)?;
    axes.bru_units.push(PLAIN)?;
    axes.buses.push(1)?;
    axes.width.push(1)?;
    Ok(())
}

/// One value for each part: a single plain configuration.
fn single(alloc: Global) -> Result<Axes, AllocError> {
    let mut axes = empty(alloc);
    add_stations(&mut axes)?;
    add_units(&mut axes)?;
    Ok(axes)
}

/// Adds the values 2 to `last`.
fn add_to(list: &mut Vec<u8>, last: u8) -> Result<(), AllocError> {
    for value in 2..=last {
        list.push(value)?;
    }
    Ok(())
}

/// Makes the values of a single configuration those of the most rows.
fn add_most(axes: &mut Axes) -> Result<(), AllocError> {
    add_to(&mut axes.alu, 16)?;
    add_to(&mut axes.mul, 16)?;
    add_to(&mut axes.div, 16)?;
    add_to(&mut axes.buses, 4)
}

/// Makes a list as long as possible.
fn lengthen<T: Copy>(list: &mut Vec<T>, value: T) -> Result<(), AllocError> {
    list.resize(16_384, value)
}

/// Lengthens one of the lists of counts.
fn lengthen_counts(axes: &mut Axes, list: u32) -> Result<(), AllocError> {
    match list {
        0 => lengthen(&mut axes.alu, 1),
        1 => lengthen(&mut axes.mul, 1),
        2 => lengthen(&mut axes.div, 1),
        3 => lengthen(&mut axes.load, 1),
        4 => lengthen(&mut axes.store, 1),
        5 => lengthen(&mut axes.bru, 1),
        _ => lengthen(&mut axes.buses, 1),
    }
}

/// Lengthens one of the lists of options.
fn lengthen_options(axes: &mut Axes, list: u32) -> Result<(), AllocError> {
    match list {
        0 => lengthen(&mut axes.alu_units, PLAIN),
        1 => lengthen(&mut axes.mul_units, PLAIN),
        2 => lengthen(&mut axes.div_units, PLAIN),
        3 => lengthen(&mut axes.mem_units, PLAIN),
        _ => lengthen(&mut axes.bru_units, PLAIN),
    }
}

/// One value for each part, except for one of the twelve lists of counts and options.
fn longest(alloc: Global, list: u32) -> Result<Axes, AllocError> {
    let mut axes = single(alloc)?;
    if list < 7 {
        lengthen_counts(&mut axes, list)?;
    } else {
        lengthen_options(&mut axes, list - 7)?;
    }
    Ok(axes)
}

/// A plain configuration, except for these stations of alu, mul and div, and buses.
fn config(parts: [u8; 4]) -> Option<Config> {
    let [alu, mul, div, buses] = parts;
    Config::new([alu, mul, div, 1, 1, 1], [PLAIN; 5], buses, 1)
}

/// True if the axes are refused for this reason.
fn is_refused(alloc: Global, axes: &Axes, error: GridError) -> bool {
    grid(alloc, axes).err() == Some(error)
}

fn rows_of(alloc: Global, axes: &Axes) -> Result<Vec<Config>, GridError> {
    grid(alloc, axes)
}

/// Rows of the largest grid, each with its place and its parts.
static PLACES: [(usize, [u8; 4]); 6] = [
    (0, [1, 1, 1, 1]),
    (3, [1, 1, 1, 4]),
    (4, [1, 1, 2, 1]),
    (64, [1, 2, 1, 1]),
    (1_024, [2, 1, 1, 1]),
    (16_383, [16, 16, 16, 4]),
];

/// True if those rows are in their places.
fn are_in_place(rows: &[Config]) -> bool {
    let mut same = rows.len() == 16_384;
    for (place, parts) in &PLACES {
        same = same && rows.get(*place).copied() == config(*parts);
    }
    same
}

#[test]
fn most_rows_and_one_bus_more(rt: HostRuntime) -> Result<(), Fail> {
    let mut axes = single(rt.alloc())?;
    add_most(&mut axes)?;
    assert!(rt; are_in_place(rows_of(rt.alloc(), &axes)?.as_slice()));
    axes.buses.push(5)?;
    assert!(rt; is_refused(rt.alloc(), &axes, GridError::TooMany));
    Ok(())
}

/// True if the axes have `count` rows, each with these parts.
fn gives(alloc: Global, axes: &Axes, count: usize, parts: [u8; 4]) -> Result<bool, GridError> {
    let rows = rows_of(alloc, axes)?;
    let mut same = rows.len() == count;
    for made in &rows {
        same = same && Some(*made) == config(parts);
    }
    Ok(same)
}

#[test]
fn each_list_at_its_longest(rt: HostRuntime) -> Result<(), Fail> {
    for list in 0..12 {
        let axes = longest(rt.alloc(), list)?;
        assert!(rt; gives(rt.alloc(), &axes, 16_384, [1; 4])?);
    }
    Ok(())
}
