// "At the edges": each edge at its exact numbers, as joining leaves it. A row's word says which edge it is.
use crate::row::Row;
use crate::session::Session;
use rules::{Change, Created, Hold};
use std::io;

// A change of one byte, with no numbers.
fn one(rt: &impl Print, session: &mut Session, block: u32, offset: u32) -> io::Result<()> {
    session.create(rt, block, offset, &[5], &[])
}

// Offset and length.
pub fn ranges(rt: &impl Print, session: &mut Session) -> io::Result<()> {
    println!(rt; "\nAt the edges: offset, length, and how many numbers are named")?;
    session.open(rt, Row::Range, 1)?;
    session.create(rt, 0, 192, &[5; 64], &[])?;
    session.create(rt, 0, 193, &[5; 64], &[])?;
    one(rt, session, 0, 256)?;
    one(rt, session, 0, u32::MAX)?;
    session.create(rt, 0, 0, &[5; 65], &[])
}

// The numbers named, where the ranges end: 1 has been issued; 2 to 8 are issued here, each on a block of its
// own, so that none joins another and 8 and 9 different numbers can be named.
pub fn names(rt: &impl Print, session: &mut Session) -> io::Result<()> {
    session.row = Row::Named;
    for block in 3..10 {
        one(rt, session, block, 0)?;
    }
    session.create(rt, 10, 0, &[5], &[1, 2, 3, 4, 5, 6, 7, 8])?;
    session.create(rt, 10, 1, &[5], &[1, 2, 3, 4, 5, 6, 7, 8, 9])?;
    session.create(rt, 10, 1, &[5], &[10])
}

// Opened at the last number, one create is granted it. The next is granted where it joins, though next
// is 1,000,000,001, and refused where it would need a number. Above the last number nothing opens.
pub fn last_number(rt: &impl Print, session: &mut Session) -> io::Result<()> {
    println!(rt; "\nAt the edges: the last number")?;
    session.open(rt, Row::Last, 1000000000)?;
    one(rt, session, 0, 0)?;
    one(rt, session, 0, 1)?;
    one(rt, session, 1, 0)?;
    session.open(rt, Row::Last, 1000000001)?;
    session.open(rt, Row::Last, 0)
}

// A thousand more on block 0, of which only how many are answered 1 and hard is said.
fn a_thousand(rt: &impl Print, session: &mut Session) -> io::Result<()> {
    let joined = Ok(Created {
        number: 1,
        hold: Hold::Hard,
    });
    let hard = (0..1000)
        .map(|i| {
            session.make(&Change {
                block: 0,
                offset: i % 256,
                bytes: &[5],
                named: &[],
            })
        })
        .filter(|answer| *answer == joined)
        .count();
    println!(rt;
        "{} 1000 more on block 0, number 1 hard: {hard}",
        session.row
    )
}

// Sixty-four on one block use one slot, and so do the next thousand.
pub fn slots(rt: &impl Print, session: &mut Session) -> io::Result<()> {
    println!(rt; "\nAt the edges: sixty-four changes on one block use one slot")?;
    session.open(rt, Row::Slots, 1)?;
    for offset in 0..64 {
        one(rt, session, 0, offset)?;
    }
    a_thousand(rt, session)?;
    session.count(rt, 0)?;
    session.slot(rt, 0)?;
    session.slot(rt, 1)
}

// A patch on each of the 64 blocks, and one of them in flight: a change on that one's block has nothing to
// join and finds no slot. One on another block joins.
pub fn no_slot(rt: &impl Print, session: &mut Session) -> io::Result<()> {
    println!(rt; "\nAt the edges: sixty-four slots")?;
    session.open(rt, Row::Full, 1)?;
    for block in 0..64 {
        one(rt, session, block, 0)?;
    }
    session.write(rt, 5)?;
    one(rt, session, 5, 1)?;
    one(rt, session, 6, 1)
}

// One waits on block 1 and one on block 2 names it. Sixteen more on block 1 are soft, and the
// seventeenth finds no room.
pub fn rooms(rt: &impl Print, session: &mut Session) -> io::Result<()> {
    println!(rt; "\nAt the edges: sixteen rooms")?;
    session.open(rt, Row::Rooms, 1)?;
    one(rt, session, 1, 0)?;
    session.create(rt, 2, 0, &[5], &[1])?;
    for offset in 0..17 {
        one(rt, session, 1, offset)?;
    }
    Ok(())
}
