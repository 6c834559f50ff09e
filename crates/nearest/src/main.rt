// Finds the nearest message of soft numbers, and lists the totals of all messages of a few bits.
#![tactic(auto)]

mod answer;
mod options;

use answer::answer;
use options::{Asked, OrderKind, read_command};
use orders::{CountFirst, Sum};
use std::process::ExitCode;

const HELP: &str =
    "usage: nearest [--code=L|R] [--end=C|O] [--rate=1/2|2/3|3/4] [--bits=K] [--order=S|C] [--list] [SOFT...]

Prints the nearest message of K bits and its total. SOFT are the soft numbers by position; without any they are read from
standard input. L is the long code and R the recursive, C a closed end and O an open one; S orders totals by the sum of their
penalties, and C by the count of those above 0 first. The defaults are L, C, 1/2, 1 and S. --list also prints every message
with its total, for at most 10 bits.";

fn run(rt: &HostRuntime) -> anyhow::Result<()> {
    match read_command(rt)? {
        Asked::Help => println!(rt; "{HELP}")?,
        Asked::Version => println!(rt; "nearest 1")?,
        Asked::Search(options) => match options.order {
            OrderKind::Sum => answer(rt, &options, &Sum, &mut [0; 64], &mut [0; 64])?,
            OrderKind::CountFirst => answer(
                rt,
                &options,
                &CountFirst,
                &mut [(0, 0); 64],
                &mut [(0, 0); 64],
            )?,
        },
    }
    Ok(())
}

// The program `send` has its main alike: eight lines of two programs are no crate.
fn main(rt: HostRuntime) -> ExitCode {
    match run(&rt) {
        Ok(()) => ExitCode::SUCCESS,
        Err(problem) => {
            let _ = eprintln!(rt; "nearest: {problem}");
            ExitCode::FAILURE
        }
    }
}
