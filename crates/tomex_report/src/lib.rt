//! The claim: a study is read from its bytes, explored by workers, and its front run again and reported. And the same
//! report, with each configuration run to its end on one thread.
//! Tests: tomex_tests_sweeps.
#![tactic(auto)]

mod answer_error;
mod answering;
mod front_text;
mod program_ends;
mod replaying;

pub use answer_error::AnswerError;
pub use answering::{answer, answer_all, answer_all_under};
pub use front_text::front_report;
pub use replaying::replay;
