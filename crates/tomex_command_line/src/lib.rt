//! The command line: what it may ask for, and the report of what is wrong with it. No other part of the program knows
//! of `clap`.
//! Tests: tomex_tests_lines.
#![tactic(auto)]

mod line;

pub use line::all::AllLine;
pub use line::animate::AnimateLine;
pub use line::builds::Builds;
pub use line::compare::CompareLine;
pub use line::config::ConfigName;
pub use line::cut::CutLine;
pub use line::explain::ExplainLine;
pub use line::explore::ExploreLine;
pub use line::find::FindLine;
pub use line::front::FrontLine;
pub use line::functions::FunctionsLine;
pub use line::image::ImageLine;
pub use line::one_run::OneRun;
pub use line::page::PageLine;
pub use line::parts::PartsLine;
pub use line::path::PathLine;
pub use line::pipeline::PipelineLine;
pub use line::plot::PlotLine;
pub use line::run::RunLine;
pub use line::stalls::StallsLine;
pub use line::table_or_csv::TableLine;
pub use line::tables::TablesLine;
pub use line::worth::WorthLine;
pub use line::{Line, read_line};
