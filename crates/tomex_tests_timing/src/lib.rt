//! Tests of the recurrence and of the machine, by small programs: floors, paths, loops, blocks and what steps reserve,
//! with each allocation refused in turn; needs and waits, by hand; the machine's cycles and faults.
#![tactic(auto)]

#[cfg(test)]
mod blocks;
#[cfg(test)]
mod evaluations;
#[cfg(test)]
mod floors;
#[cfg(test)]
mod loops;
#[cfg(test)]
mod machine;
#[cfg(test)]
mod needs;
#[cfg(test)]
mod paths;
#[cfg(test)]
mod programs;
#[cfg(test)]
mod refusing;
#[cfg(test)]
mod reservations;
