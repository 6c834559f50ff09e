// The program `send`: turns a message into the QAM cells of its frame, and prints them.
#![tactic(auto)]

mod options;
mod output;

use options::Task;
use output::print_cells;
use std::process::ExitCode;

fn run(rt: &HostRuntime) -> anyhow::Result<()> {
    match options::read(rt)? {
        Task::Help => rt.print(options::HELP)?,
        Task::Version => rt.println("send 0.1.0")?,
        Task::Send(options) => print_cells(rt, &options)?,
    }
    Ok(())
}

// The program `nearest` has its main alike: eight lines of two programs are no crate.
fn main(rt: HostRuntime) -> ExitCode {
    match run(&rt) {
        Ok(()) => ExitCode::SUCCESS,
        Err(error) => {
            let _ = eprintln!(rt; "send: {error}");
            ExitCode::FAILURE
        }
    }
}
