//! Walks along the plan of a case, and closes the walk last: it writes what each step answers and
//! what the walk has counted.
#![tactic(auto)]

use casefile::case::Case;
use casefile::reader::read_into;
use casefile::room::Room;
use game::parts::TimedPosition;
use refusals::refusal::Refuses;
use runs::state::Tally;
use std::{fs, io};
use walk::walk::Walk;

/// Steps the walk, and writes whether the step was taken.
fn step(
    rt: &HostRuntime,
    walk: &mut Walk<TimedPosition>,
    case: &Case,
    number: u16,
) -> io::Result<()> {
    match walk.step(&case.game, case.rows.as_slice(), number) {
        Ok(()) => println!(rt; "step {number}: taken"),
        Err(fault) => println!(rt; "step {number}: refused {}", fault.number()),
    }
}

fn write_tally(rt: &HostRuntime, tally: Tally) -> io::Result<()> {
    let counts = tally.counts;
    println!(rt;
        "rounds {}, tallies {} {} {} {}",
        tally.rounds, counts.one, counts.three, counts.five, counts.seven
    )
}

fn main(rt: HostRuntime) -> io::Result<()> {
    let text = fs::read(&rt, "worked.case")?;
    let room = Room::take(rt.alloc())?;
    let Ok(case) = read_into(room, text.as_slice()) else {
        return println!(rt; "not a case");
    };
    let mut walk = Walk::new(&case.game);
    for number in [1, 2, 0] {
        step(&rt, &mut walk, &case, number)?;
    }
    write_tally(&rt, walk.tally())?;
    step(&rt, &mut walk, &case, 0)?;
    write_tally(&rt, walk.close())
}
