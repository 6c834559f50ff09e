// What the command line asks for.
ghost use Rattle.nearest.specs.Names.{order_name};
ghost use Rattle.refusals.specs.Names.{ReadsName};

use anyhow::{Context, bail};
use coding::{CodeKind, Coding, End, Rate};
use refusals::UnknownName;
use std::env;
use std::str::FromStr;

/// An order of totals that the command line names.
// Its own `FromStr`, as at `CodeKind`: std's traits want an impl for each type.
#[derive(Clone, Copy)]
pub enum OrderKind {
    Sum,
    CountFirst,
}

impl FromStr for OrderKind {
    type Err = UnknownName;

    ghost from_str_gives = { ReadsName order_name };

    fn from_str(name: &str) -> Result<OrderKind, UnknownName> {
        match name {
            "S" => Ok(OrderKind::Sum),
            "C" => Ok(OrderKind::CountFirst),
            _ => Err(UnknownName),
        }
    }
}

/// A search that is asked for.
#[derive(Drop)]
pub struct Options {
    pub coding: Coding<CodeKind, End>,
    pub bits: u16,
    pub order: OrderKind,
    pub list: bool,
    pub soft: Vec<i32>,
}

/// What is asked for.
#[derive(Drop)]
pub enum Asked {
    Help,
    Version,
    Search(Options),
}

/// A number of an argument or of standard input.
fn soft_number(text: &str) -> anyhow::Result<i32> {
    text.parse()
        .context("a soft number is a whole number of 32 bits")
}

/// Takes an option with a value into the options.
fn set(options: &mut Options, name: &str, value: &str) -> anyhow::Result<()> {
    match name {
        "--code" => options.coding.code = value.parse().context("the code is L or R")?,
        "--end" => options.coding.end = value.parse().context("the end is C or O")?,
        "--rate" => options.coding.rate = value.parse().context("the rate is 1/2, 2/3 or 3/4")?,
        "--order" => options.order = value.parse().context("the order is S or C")?,
        "--bits" => options.bits = value.parse().context("the bits are a number")?,
        _ => bail!("unknown option; --help shows them"),
    }
    Ok(())
}

/// Reads the soft numbers of standard input, divided by white space.
fn read_soft(rt: &HostRuntime, soft: &mut Vec<i32>) -> anyhow::Result<()> {
    for line in rt.lines(rt.alloc()) {
        let line = line?;
        for word in line.split_whitespace() {
            soft.push(soft_number(word)?)?;
        }
    }
    Ok(())
}

/// Reads the command line, and standard input where it has no soft number.
pub fn read_command(rt: &HostRuntime) -> anyhow::Result<Asked> {
    let mut options = Options {
        coding: Coding {
            code: CodeKind::Long,
            end: End::Closed,
            rate: Rate::Half,
        },
        bits: 1,
        order: OrderKind::Sum,
        list: false,
        soft: Vec::new(rt.alloc()),
    };
    for word in env::args(rt)?.skip(1) {
        match word.as_str() {
            "--help" => return Ok(Asked::Help),
            "--version" => return Ok(Asked::Version),
            "--list" => options.list = true,
            text if text.starts_with("--") => {
                let (name, value) = text
                    .split_once('=')
                    .context("unknown option; --help shows them")?;
                set(&mut options, name, value)?;
            }
            text => options.soft.push(soft_number(text)?)?,
        }
    }
    if options.soft.is_empty() {
        read_soft(rt, &mut options.soft)?;
    }
    Ok(Asked::Search(options))
}
