//! A run cycle by cycle as one HTML page: a view for each cycle, with Tomasulo's tables as they are after it, or to be
//! filled in.
//! Tests: tomex_cases, tomex_tests_commands.
#![tactic(auto)]

mod animation_error;
mod cells;
mod constants;
mod laws;
mod machine;
mod page;
mod stretch;
mod view;

pub use animation_error::AnimationError;
pub use cells::Cells;
pub use laws::{links_lead_to_views, views_are_tables};
pub use page::animation;
