//! Reads a script from standard input, carries out its commands on a small set, and prints the
//! answers. `bittle_run` and `bittle_run_refused` have this same file. The folder of the first has
//! a script that is answered, and the folder of the second has a script that is refused.
#![tactic(auto)]

use bittle_script::{RunStatus, run};

fn main(rt: HostRuntime) -> RunStatus {
    run(&mut rt.stdin(), &mut rt.stdout())
}
