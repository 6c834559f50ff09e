// The options of `send`, and the message from the arguments or standard input.
use anyhow::{Context, anyhow};
use coding::{CodeKind, End, Rate};
use interleaving::InterleaverKind;
use refusals::UnknownName;
use std::env;
use std::str::FromStr;

pub const HELP: &str = "\
send: turn a message into the QAM cells of its frame

usage: send [OPTION VALUE]... [MESSAGE]

MESSAGE is the message as binary digits; without it they are read from standard
input. Blanks and line ends between digits are passed over. A cell is printed as a
line with its in-phase reading, its quadrature reading and its weight; a unit of
level is 64 steps.

  -m, --bits N         bits per axis, 1 to 4: 4-, 16-, 64- or 256-QAM (1)
  -b, --block N        cells a block, 1 to 64 (8)
  -r, --rate R         1/2, 2/3 or 3/4 (1/2)
  -c, --code L         L, the 64-state code of IEEE 802.11a, or R, recursive (L)
  -e, --end L          C, closed, or O, open (C)
  -i, --interleaver L  S, straight, or T, two-step as in IEEE 802.11a (S)
  -h, --help           print this
      --version        print the version

A refused message ends it with one line on standard error and status 1.
";

/// What the program is asked to do.
#[derive(Drop)]
pub enum Task {
    Help,
    Version,
    Send(Options),
}

/// A plan but for the message's length, and the message, a byte a bit.
#[derive(Drop)]
pub struct Options {
    pub bits: u8,
    pub block: u8,
    pub rate: Rate,
    pub end: End,
    pub code: CodeKind,
    pub interleaver: InterleaverKind,
    pub message: Vec<u8>,
}

/// An option that wants a value.
#[derive(Clone, Copy)]
enum Flag {
    Bits,
    Block,
    Rate,
    Code,
    End,
    Interleaver,
}

impl FromStr for Flag {
    type Err = UnknownName;

    fn from_str(text: &str) -> Result<Flag, UnknownName> {
        match text {
            "-m" | "--bits" => Ok(Flag::Bits),
            "-b" | "--block" => Ok(Flag::Block),
            "-r" | "--rate" => Ok(Flag::Rate),
            "-c" | "--code" => Ok(Flag::Code),
            "-e" | "--end" => Ok(Flag::End),
            "-i" | "--interleaver" => Ok(Flag::Interleaver),
            _ => Err(UnknownName),
        }
    }
}

/// Adds the digits of a text to a message, a byte a bit.
fn add_digits(message: &mut Vec<u8>, text: &str) -> anyhow::Result<()> {
    for byte in text.bytes() {
        match byte {
            b'0'..=b'9' => message.push(byte - b'0')?,
            b' ' | b'\t' | b'\r' | b'\n' => {}
            _ => return Err(anyhow!("the message has a character that is no digit")),
        }
    }
    Ok(())
}

/// The message that stands on standard input.
fn read_message(rt: &HostRuntime) -> anyhow::Result<Vec<u8>> {
    let mut message = Vec::new(rt.alloc());
    for line in rt.lines(rt.alloc()) {
        add_digits(&mut message, line?.as_str())?;
    }
    Ok(message)
}

impl Options {
    fn set(&mut self, flag: Flag, value: &str) -> anyhow::Result<()> {
        match flag {
            Flag::Bits => self.bits = value
                .parse()
                .context("--bits wants a number from 0 to 255")?,
            Flag::Block => {
                self.block = value
                    .parse()
                    .context("--block wants a number from 0 to 255")?;
            }
            Flag::Rate => self.rate = value.parse().context("--rate wants 1/2, 2/3 or 3/4")?,
            Flag::Code => self.code = value.parse().context("--code wants L or R")?,
            Flag::End => self.end = value.parse().context("--end wants C or O")?,
            Flag::Interleaver => {
                self.interleaver = value.parse().context("--interleaver wants S or T")?;
            }
        }
        Ok(())
    }
}

/// What the arguments ask for.
pub fn read(rt: &HostRuntime) -> anyhow::Result<Task> {
    let mut options = Options {
        bits: 1,
        block: 8,
        rate: Rate::Half,
        end: End::Closed,
        code: CodeKind::Long,
        interleaver: InterleaverKind::Straight,
        message: Vec::new(rt.alloc()),
    };
    let mut wanting = None;
    let mut message = None;
    for word in env::args(rt)?.skip(1) {
        let text = word.as_str();
        match wanting {
            Some(flag) => {
                options.set(flag, text)?;
                wanting = None;
            }
            None => match text {
                "-h" | "--help" => return Ok(Task::Help),
                "--version" => return Ok(Task::Version),
                _ => match text.parse::<Flag>() {
                    Ok(flag) => wanting = Some(flag),
                    Err(UnknownName) => {
                        let given = message.get_or_insert(Vec::new(rt.alloc()));
                        add_digits(given, text)?;
                    }
                },
            },
        }
    }
    if wanting.is_some() {
        return Err(anyhow!("the last option has no value"));
    }
    options.message = match message {
        Some(given) => given,
        None => read_message(rt)?,
    };
    Ok(Task::Send(options))
}
