//! Reads a case from standard input and writes what is asked about its plan.
#![tactic(auto)]

mod checking;
mod input;
mod ranking;
mod sentences;

use std::str::FromStr;
use std::{env, io};

/// What is asked about the plan.
#[derive(Clone, Copy)]
enum Command {
    Check,
    Rank,
}

/// A word that names no command.
#[derive(Clone, Copy)]
struct UnknownCommand;

impl FromStr for Command {
    type Err = UnknownCommand;

    fn from_str(word: &str) -> Result<Command, UnknownCommand> {
        match word {
            "check" => Ok(Command::Check),
            "rank" => Ok(Command::Rank),
            _ => Err(UnknownCommand),
        }
    }
}

/// What the first argument asks, where no argument asks for the check.
fn asked(rt: &HostRuntime) -> io::Result<Result<Command, UnknownCommand>> {
    let word = env::args(rt)?.nth(1);
    Ok(match word {
        Some(word) => word.as_str().parse(),
        None => Ok(Command::Check),
    })
}

fn usage(rt: &HostRuntime) -> io::Result<()> {
    eprintln!(rt; "usage: plancheck [check|rank] < CASE")?;
    eprintln!(rt;
        "  check   whether the plan wins with the ranks of the case (this is also done without a word)"
    )?;
    eprintln!(rt; "  rank    the smallest ranks with which the plan wins, or a losing loop")?;
    Err(io::Error::from(io::ErrorKind::InvalidInput))
}

fn main(rt: HostRuntime) -> io::Result<()> {
    match asked(&rt)? {
        Ok(Command::Check) => checking::check_input(&rt),
        Ok(Command::Rank) => ranking::rank_input(&rt),
        Err(UnknownCommand) => usage(&rt),
    }
}
