//! Tests of instructions, images, symbols of files, texts in assembly, the in-order machine and parts of runs. They test
//! what no contract says, compare with results from other programs or from a slow search, and refuse each growth of each
//! call in turn.
#![tactic(auto)]

#[cfg(test)]
mod arithmetic;
#[cfg(test)]
mod assembly;
#[cfg(test)]
mod broken_images;
#[cfg(test)]
mod cut;
#[cfg(test)]
mod images;
#[cfg(test)]
mod instructions;
#[cfg(test)]
mod machines;
#[cfg(test)]
mod parts;
#[cfg(test)]
mod refused_memory;
#[cfg(test)]
mod symbols;
