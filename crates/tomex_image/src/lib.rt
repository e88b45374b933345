//! Windows of memory, and the images that are loaded into them: flat files of raw bytes, and ELF
//! files of 32 bits.
//! Tests: tomex_tests_in_order.
#![tactic(auto)]

mod elf;
mod error;
mod flat;
mod image;
mod loading;
mod window;

pub use elf::bytes::{read_half, read_word};
pub use elf::laws::segments_stand_at_their_addresses;
pub use error::ImageError;
pub use image::Image;
pub use loading::load;
pub use window::Window;
