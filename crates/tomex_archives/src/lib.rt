//! Text archives, and the golden cases in them: their files, how a run differs from what a case wants, and archives in
//! which cases have what the program prints now.
#![tactic(auto)]

mod archive;
mod case;
mod comparing;
mod naming;
mod renewal;

pub use case::{Case, File, cases_of};
pub use comparing::case_difference;
pub use naming::{
    Archive, COMMANDS, archive_of, check_commands, check_names, is_asked, is_read, is_word,
};
pub use renewal::{Renewal, is_small, renewed_text};
