// The listing program (01, "One log by hand"): it ends with the status that the proved function answers.
#![tactic(auto)]

use std::process::ExitCode;

fn main(rt: HostRuntime) -> ExitCode {
    ExitCode::from(printout::yk_list(&rt))
}
