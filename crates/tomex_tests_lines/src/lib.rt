//! Tests of the command line, of explanations of refusals, and of the system's files and terminal.
#![tactic(auto)]

#[cfg(test)]
mod lines;
#[cfg(test)]
mod refusals;
#[cfg(test)]
mod system;
