// The plan checker. Its arguments and what it does with them: crates/plan_command.

#![tactic(auto)]

use plan_command::run;
use std::process::ExitCode;

fn main(rt: HostRuntime) -> ExitCode {
    run(&rt)
}
