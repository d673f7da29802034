//! Replays the script on standard input as `modemctl replay` does, with N1 31. It stands on fewer crates, so the script `modemctl`
//! runs this one where nothing is proved yet.
#![tactic(auto)]

use ctl_run::replay_run;
use std::process::ExitCode;

fn main(rt: HostRuntime) -> ExitCode {
    let status = replay_run(
        rt.alloc(),
        &mut rt.stdin(),
        &mut rt.stdout(),
        &mut rt.stderr(),
        31,
    );
    ExitCode::from(status)
}
