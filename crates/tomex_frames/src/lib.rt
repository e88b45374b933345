//! The pieces of a view: what happens in a cycle, whose it is on the critical path, the instruction status, the
//! reservation stations and the register status after it, as HTML, each with what has changed, or with its cells empty.
//! Tests: tomex_cases.
#![tactic(auto)]

mod blank;
mod cells;
mod constants;
mod doing;
mod events;
mod laws;
mod on_path;
mod path_line;
mod registers;
mod stations;
mod status;
mod values;

pub use blank::{push_blank_events, push_blank_registers, push_blank_stations, push_blank_status};
pub use events::push_events;
pub use laws::{
    frames_are_cycles, line_is_the_wait_before, no_step_is_lost, steps_show_their_waits,
    values_are_results, views_show_stalls,
};
pub use on_path::{OnPath, link_at, place_of};
pub use path_line::push_path_line;
pub use registers::push_register_status;
pub use stations::{Scratch, push_station_table};
pub use status::push_status_table;
pub use values::Values;
