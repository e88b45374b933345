//! Tests of explorations, of what no contract and no golden case says: rows that are dropped, runs that rows share, the
//! boards and the lanes of workers, workers that are held, a worker without a runtime, threads and memory that are
//! refused, and memory that is used again.
#![tactic(auto)]

#[cfg(test)]
mod alone;
#[cfg(test)]
mod answers;
#[cfg(test)]
mod boards;
#[cfg(test)]
mod explorations;
#[cfg(test)]
mod lanes;
#[cfg(test)]
mod once;
#[cfg(test)]
mod plateaus;
#[cfg(test)]
mod refused_memory;
#[cfg(test)]
mod restarts;
#[cfg(test)]
mod sweeps;
