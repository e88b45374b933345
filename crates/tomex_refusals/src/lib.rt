//! The program's refusals: what each means, the usual causes, and what to do; and what its exit statuses say.
//! Tests: tomex_tests_lines.
#![tactic(auto)]

mod commands;
mod explaining;
mod faults;
mod images;
mod longest_words;
mod looking;
mod refusal;
mod statuses;
mod studies;

pub use commands::CommandRefusal;
pub use explaining::{ExplainError, explain, list_refusals};
pub use faults::FaultRefusal;
pub use images::ImageRefusal;
pub use refusal::{Refusal, refusal_in};
pub use statuses::ExitStatus;
pub use studies::StudyRefusal;
