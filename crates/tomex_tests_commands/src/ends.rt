//! How a process ends.

use std::process::ExitCode;
use std::test::Fail;
use tomex_command::run_of;

#[test]
fn a_process_ends_with_the_status(rt: HostRuntime) -> Result<(), Fail> {
    // The words of this process name no command.
    assert!(rt; run_of(&rt, rt.stdout(), rt.stderr()) == ExitCode::from(2));
    Ok(())
}
