//! The order in which a worker takes rows: its own first, then those of the others, from the next
//! worker on.

use std::alloc::Global;
use std::test::Fail;
use tomex_lanes::{Lane, deal};

/// The row that a worker takes from its lane.
fn taken(lanes: &mut [Lane<Global>], worker: usize) -> Option<usize> {
    lanes.get_mut(worker)?.take()
}

/// Workers' turns, each with the row that is taken, out of seven rows of three workers.
static TURNS: [[(usize, usize); 7]; 4] = [
    // One worker takes its own rows, then those of the next one, and so on around all.
    [(1, 1), (1, 4), (1, 2), (1, 5), (1, 0), (1, 3), (1, 6)],
    [(2, 2), (2, 5), (2, 0), (2, 3), (2, 6), (2, 1), (2, 4)],
    // If the next one has none left, the worker steals from the one after it.
    [(2, 2), (2, 5), (1, 1), (1, 4), (1, 0), (1, 3), (1, 6)],
    [(0, 0), (1, 1), (2, 2), (0, 3), (1, 4), (2, 5), (2, 6)],
];

/// True if three workers take these seven rows in these turns, and then none.
fn take_these(lanes: &mut [Lane<Global>], turns: &[(usize, usize); 7]) -> bool {
    let mut same = lanes.len() == 3;
    for (worker, row) in turns {
        same = same && taken(lanes, *worker) == Some(*row);
    }
    for worker in 0..3 {
        same = same && taken(lanes, worker) == None;
    }
    same
}

/// Out of seven rows, worker 0 has 0, 3 and 6, worker 1 has 1 and 4, and worker 2 has 2 and 5.
#[test]
fn rows_are_taken_and_stolen_in_turn(rt: HostRuntime) -> Result<(), Fail> {
    for turns in &TURNS {
        let mut lanes = deal(rt.alloc(), 3, 7)?;
        assert!(rt; take_these(lanes.as_mut_slice(), turns));
    }
    Ok(())
}
