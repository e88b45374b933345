//! Explanations: each refusal that the crates below can give has its entry.

mod explained;
mod memory;
