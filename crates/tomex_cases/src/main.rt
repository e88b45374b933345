//! The program `tomex_cases`: golden cases, run through the whole program over files in memory. With `--renew` it
//! writes what the program prints into the archives.
#![tactic(auto)]

mod renewing;
mod running;

use anyhow::Result;
use renewing::renew_cases;
use running::run_cases;
use std::env;
use std::process::ExitCode;

/// Runs the cases or commands that the words name, or all cases. After the word `--renew` it renews those that the
/// other words name.
fn main(rt: HostRuntime) -> Result<ExitCode> {
    let words: Vec<String> = env::args(&rt)?.skip(1).collect(rt.alloc())?;
    match words.as_slice() {
        [first, names @ ..] if first.as_str() == "--renew" => {
            let renewed = renew_cases(&rt, names)?;
            let (changed, same) = (renewed.changed, renewed.same);
            println!(rt; "{changed} renewed, {same} as they were")?;
            Ok(ExitCode::SUCCESS)
        }
        words => {
            let tally = run_cases(&rt, words)?;
            let (passed, failed) = (tally.passed, tally.failed);
            println!(rt; "{passed} passed, {failed} failed")?;
            Ok(ExitCode::from(u8::from(failed > 0)))
        }
    }
}
