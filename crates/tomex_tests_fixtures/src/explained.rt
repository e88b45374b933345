//! The program's refusals.

/// All refusals of the program, each on a line, in the order in which they are looked for.
pub const ALL_REFUSALS: &str = "cannot read NAME
no such choice: CHOICE
bad window
too long
no such row
several rows: N
no such program
no symbols
no such step
no end
code overwritten
no room
picture too large
table too large
cycle past the end
cannot write
output is a terminal
thread refused
out of memory
no such refusal
image: empty
image: too large
image: truncated
image: not RISC-V
image: not executable
image: header size
image: dynamic
image: too many segments
image: segment
image: overlap
image: entry
fault: fetch at PC
fault: illegal at PC
fault: misaligned target at PC
fault: access at PC
study: not TOML
study: PLACE: unknown key
study: PLACE: KEY missing
study: PLACE: KEY of wrong kind
study: PLACE: KEY out of range
study: too many configurations
study: wrong number of files
";

/// The explanation of one of them.
pub const OVERLAP: &str = "image: overlap
Two segments share a byte. `readelf -l FILE` lists them (LOAD). Mend the linker
script.
";
