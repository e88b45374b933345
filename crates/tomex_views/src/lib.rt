//! The views of a study that aren't the claim's report: tables, pictures, pages and CSV of its front and of all its
//! rows, and of what its lists lack. From the bytes of a study to the text of a view.
//! Tests: tomex_cases, tomex_tests_sweeps, tomex_tests_commands.
#![tactic(auto)]

mod answering;
mod crew;
pub mod laws;
mod needs;
mod numbered;
mod study_view;
mod texts;
mod view_error;

pub use answering::answer_view;
pub use crew::Crew;
pub use study_view::{ChoicesView, Form, StudyView, SurveyView};
pub use view_error::ViewError;
