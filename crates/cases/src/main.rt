//! Judges each case that the file `names` lists, and writes its name and the verdict.
#![tactic(auto)]

use casefile::room::Room;
use std::{fs, io};
use verdict::judge::judge;

fn judge_case(rt: &HostRuntime, name: &str) -> io::Result<()> {
    let path = format!(in rt.alloc(); "{name}.case")?;
    let text = fs::read(rt, path.as_str())?;
    let room = Room::take(rt.alloc())?;
    let verdict = judge(room, text.as_slice());
    println!(rt; "{name}\t{verdict}")
}

fn main(rt: HostRuntime) -> io::Result<()> {
    let names = fs::read_to_string(&rt, "names")?;
    for name in names.as_str().lines() {
        judge_case(&rt, name)?;
    }
    Ok(())
}
