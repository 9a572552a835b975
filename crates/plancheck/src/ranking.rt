//! The ranker: the verdict, and then the ranks row by row or a losing loop pair by pair.
use crate::checking::tell;
use crate::input::read_text;
use casefile::reader::read_into;
use casefile::room::Room;
use loops::pair::Pair;
use ranker::ranker::rank_with;
use ranker::scratch::Scratch;
use std::io;
use table::fault::Fault;

/// One line for each of n rows, with its ranks for colours 1, 3, 5 and 7.
fn write_ranks(rt: &HostRuntime, ranks: &[u16], n: usize) -> io::Result<()> {
    let mut stretches = ranks.chunks(n.max(1));
    let (Some(one), Some(three), Some(five), Some(seven)) = (
        stretches.next(),
        stretches.next(),
        stretches.next(),
        stretches.next(),
    ) else {
        return Ok(());
    };
    let colours = one.iter().zip(three).zip(five).zip(seven);
    for (row, (((one, three), five), seven)) in colours.enumerate() {
        println!(rt; "rank\t{row}\t{one}\t{three}\t{five}\t{seven}")?;
    }
    Ok(())
}

/// One line for each row and outcome of a losing loop, which stands at the front of the list.
fn write_loop(rt: &HostRuntime, losing: &[Pair], length: u16) -> io::Result<()> {
    for Pair { row, outcome } in losing.iter().take(usize::from(length)) {
        println!(rt; "loop\t{row}\t{outcome}")?;
    }
    Ok(())
}

pub(crate) fn rank_input(rt: &HostRuntime) -> io::Result<()> {
    let heap = rt.alloc();
    let text = read_text(rt)?;
    let room = Room::take(heap)?;
    let scratch = Scratch::take(heap)?;
    let mut case = match read_into(room, text.as_slice()) {
        Ok(case) => case,
        Err(fault) => return tell(rt, fault.into(), text.as_slice()),
    };
    let n = case.rows.len();
    let mut losing = vec![in heap; Pair { row: 0, outcome: 0 }; n]?;
    let ranked = rank_with(
        scratch,
        &case.game,
        case.rows.as_slice(),
        case.ranks.as_mut_slice(),
        losing.as_mut_slice(),
    );
    tell(rt, ranked.into(), text.as_slice())?;
    match ranked {
        Ok(_) => write_ranks(rt, case.ranks.as_slice(), n),
        Err(Fault::LosingLoop { length, .. }) => write_loop(rt, losing.as_slice(), length),
        Err(_) => Ok(()),
    }
}
