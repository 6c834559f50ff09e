// Prints soft bits: exact, short and hard, with their gaps, as a table that gnuplot can draw.
#![tactic(auto)]

mod request;
mod row;
mod span;

use request::Request;
use row::Row;
use span::Span;
use std::process::ExitCode;
use std::{env, io};

const HELP: &str = "usage: softtable M FROM [TO [STEP]]
Prints the soft bits of an axis with M bits (1 to 4) for the reading FROM,
or for the readings FROM to TO, each STEP apart; -2047 to 2047, 64 to a level.
  --help     print this
  --version  print the version
";

/// The lines of each bit of each reading that is asked for.
fn table(rt: &impl Print, span: Span) -> io::Result<()> {
    rt.println("# reading\tbit\texact\tshort\thard\tshort gap\thard gap")?;
    for reading in (-2047..=2047).filter(|&reading| span.has(reading)) {
        for row in (0..span.bits).filter_map(|place| Row::at(span.bits, place, reading)) {
            rt.println(row)?;
        }
    }
    Ok(())
}

fn main(rt: HostRuntime) -> io::Result<ExitCode> {
    let words: Vec<String> = env::args(&rt)?.skip(1).collect(rt.alloc())?;
    match Request::of(words.as_slice()) {
        Ok(Request::Help) => rt.print(HELP)?,
        Ok(Request::Version) => rt.println("softtable 0.1.0")?,
        Ok(Request::Table(span)) => table(&rt, span)?,
        Err(fault) => {
            eprintln!(rt; "softtable: {fault}")?;
            return Ok(ExitCode::FAILURE);
        }
    }
    Ok(ExitCode::SUCCESS)
}
