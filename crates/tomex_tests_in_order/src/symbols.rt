//! The symbols of files, and the functions of addresses: with a file made by another program, damaged byte by byte,
//! and without memory.

mod files;
mod refused_memory;
mod shown_names;
