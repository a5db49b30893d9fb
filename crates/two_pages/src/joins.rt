// Examples of joining (document 02, request a) beyond those of document 01: which befores a change adds, and
// what follows a patch that others have joined.
use crate::row::Row;
use crate::session::Session;
use std::io;

// A change on block 21 joins 2 and names 1, which is on block 20, and 2 itself: only 1 is added. So block
// 21 waits for block 20.
pub fn befores(rt: &impl Print, session: &mut Session) -> io::Result<()> {
    println!(rt; "\nA change that joins adds the befores on other blocks")?;
    session.open(rt, Row::Befores, 1)?;
    session.create(rt, 20, 0, &[5], &[])?;
    session.create(rt, 21, 0, &[5], &[])?;
    session.slot(rt, 1)?;
    session.create(rt, 21, 4, &[6; 2], &[1, 2])?;
    session.slot(rt, 1)?;
    session.write(rt, 21)?;
    session.write(rt, 20)?;
    session.complete(rt, 20)?;
    session.write(rt, 21)
}

// The byte at 10 of block 30 went there with a change that joined 1, whose range is the byte at 0. A later
// patch over that byte is soft and follows 1 all the same; 1 goes without it, and the byte is taken back.
pub fn overlap(rt: &impl Print, session: &mut Session) -> io::Result<()> {
    println!(rt; "\nA later soft patch that overlaps only a joined change")?;
    session.open(rt, Row::Overlap, 1)?;
    session.create(rt, 30, 0, &[5], &[])?;
    session.create(rt, 30, 10, &[6], &[])?;
    session.create(rt, 31, 0, &[5], &[1])?;
    session.create(rt, 30, 10, &[7], &[2])?;
    session.slot(rt, 2)?;
    session.write(rt, 30)?;
    session.complete(rt, 30)?;
    session.write(rt, 31)?;
    session.complete(rt, 31)?;
    session.write(rt, 30)
}
