//! What people look at to understand one run of a program on a machine: which parts hold it back, where in the
//! program its instructions wait, and what they do cycle by cycle.
//! Tests: tomex_cases.
#![tactic(auto)]

mod by_place;
mod columns;
mod counted;
mod drain;
mod excerpt;
mod excerpt_error;
mod laws;
mod lines;
mod picture_error;
mod pipeline;
mod places;
mod stage;
mod stalls;
mod step_columns;
mod sum_columns;
mod tally;

pub use by_place::{addresses_of, stalls_by_pc, text_by_place};
pub use columns::push_decimals;
pub use counted::{Counted, count_run};
pub use excerpt::Excerpt;
pub use excerpt_error::ExcerptError;
pub use laws::{cycles_are_accounted_for, places_add_up};
pub use picture_error::PictureError;
pub use pipeline::{first_issue, picture_of, pipeline_text, push_picture, signs_of};
pub use places::{push_dashes, put_header, put_last, put_places};
pub use stage::{Stage, sign_in, stage_in};
pub use stalls::{push_name_of_part, stalls_report};
pub use step_columns::{NoColumns, StepColumns};
pub use sum_columns::{SumColumns, WaitColumns, put_columns, put_sum};
pub use tally::{Group, Sum, Tally};
