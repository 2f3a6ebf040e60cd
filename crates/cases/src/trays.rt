// Replays of tray logs. Each number of the lent list is 7777 before the call.
use crate::say;
use std::io;
use std::io::Print;

pub(crate) fn replay<R: Print>(rt: &R, log: &[u8], room: u64) -> io::Result<()> {
    let mut list = [7777u64; 128];
    if 128 < room {
        return say::text(rt, b"no such question");
    }
    let lent = room as usize;
    ask(rt, log, &mut list[0..lent])
}

// The answer, and all numbers of the list.
fn ask<R: Print>(rt: &R, log: &[u8], list: &mut [u64]) -> io::Result<()> {
    match tray::replay(log, list) {
        Ok(faulty) => {
            say::text(rt, b"faulty ")?;
            say::number(rt, faulty as u64)
        }
        Err(refusal) => say::refused(rt, refusal),
    }?;
    say::text(rt, b", list")?;
    numbers(rt, list)
}

fn numbers<R: Print>(rt: &R, list: &[u64]) -> io::Result<()> {
    for one in list {
        say::text(rt, b" ")?;
        say::number(rt, *one)?;
    }
    Ok(())
}
