// Examples of the joint call (document 02, request d): each of its refusals, one block for both, and writes that
// are granted only because of the completion.
use crate::row::Row;
use crate::session::Session;
use std::io;

// Patch 1 of block 50 is in flight; 2 of block 51 follows it, and the soft 3 of block 50 follows 2.
fn to_flight(rt: &impl Print, session: &mut Session) -> io::Result<()> {
    session.open(rt, Row::Joint, 1)?;
    session.create(rt, 50, 0, &[65], &[])?;
    session.create(rt, 51, 0, &[66], &[1])?;
    session.create(rt, 50, 1, &[67], &[2])?;
    session.write(rt, 50)
}

// Completing is refused: nothing is written, whatever the write would have answered. The last lends an image of
// one byte.
fn first_refused(rt: &impl Print, session: &Session) -> io::Result<()> {
    session.completed_written(rt, &session.image, 51, 50)?;
    session.completed_written(rt, &session.image, 64, 51)?;
    session.completed_written(rt, &[0], 51, 51)?;
    Ok(())
}

// Only the write is refused, in the end by its image: the completion stands. Each goes on from the same table.
fn second_refused(rt: &impl Print, session: &Session) -> io::Result<()> {
    session.completed_written(rt, &session.image, 50, 64)?;
    session.completed_written(rt, &session.image, 50, 53)?;
    session.completed_written(rt, &session.image, 50, 50)?;
    let table = session.completed_written(rt, &[0], 50, 51)?;
    let stands = Session { table, ..*session };
    session.ask(rt, 1)?;
    stands.ask(rt, 1)?;
    stands.ask(rt, 2)
}

// Block 51 may go only once 1 has landed; block 52 is in flight itself, and then has more to send.
fn both(rt: &impl Print, session: &mut Session) -> io::Result<()> {
    session.write(rt, 51)?;
    session.complete_write(rt, 50, 51)?;
    session.create(rt, 52, 0, &[68], &[])?;
    session.write(rt, 52)?;
    session.complete_write(rt, 51, 52)?;
    session.create(rt, 52, 1, &[69], &[])?;
    session.complete_write(rt, 52, 52)?;
    session.complete_write(rt, 52, 50)?;
    session.ask(rt, 3)
}

pub fn examples(rt: &impl Print, session: &mut Session) -> io::Result<()> {
    println!(rt; "\nComplete and go on")?;
    to_flight(rt, session)?;
    first_refused(rt, session)?;
    second_refused(rt, session)?;
    both(rt, session)
}
