// Examples of old numbers (document 02, request b): those below first have committed, wherever they are looked up.
use crate::row::Row;
use crate::session::Session;
use std::io;

// Opened at 7, the numbers 1 to 6 are old. 0 and 7 itself were never issued. Opened at 1, none is old.
pub fn asked(rt: &impl Print, session: &mut Session) -> io::Result<()> {
    println!(rt; "\nOld numbers: asked")?;
    session.open(rt, Row::Asked, 7)?;
    for number in [0, 1, 3, 6, 7] {
        session.ask(rt, number)?;
    }
    session.open(rt, Row::Asked, 1)?;
    session.ask(rt, 0)?;
    session.ask(rt, 1)
}

// A change that names 3 follows nothing. One that names 3 and 7 follows 7 alone, and one that names 6
// does not follow the patch in slot 0.
pub fn named(rt: &impl Print, session: &mut Session) -> io::Result<()> {
    println!(rt; "\nOld numbers: named")?;
    session.open(rt, Row::Old, 7)?;
    session.create(rt, 40, 0, &[5], &[7])?;
    session.create(rt, 40, 0, &[5], &[0])?;
    session.create(rt, 40, 0, &[5], &[3])?;
    session.slot(rt, 0)?;
    session.ask(rt, 7)?;
    session.create(rt, 41, 0, &[5], &[3, 7])?;
    session.slot(rt, 1)?;
    session.create(rt, 42, 0, &[5], &[6])?;
    session.slot(rt, 2)?;
    session.ask(rt, 10)
}

// The radio has landed its one change when it goes to sleep. It opens at its next number, and the menus'
// number 1 is as good as before.
pub fn sleep(rt: &impl Print, session: &mut Session) -> io::Result<()> {
    println!(rt; "\nOld numbers: after a sleep")?;
    session.open(rt, Row::Sleep, 1)?;
    session.create(rt, 43, 0, &[5], &[])?;
    session.write(rt, 43)?;
    session.complete(rt, 43)?;
    session.ask(rt, 1)?;
    session.open(rt, Row::Sleep, session.table.next)?;
    session.ask(rt, 1)?;
    session.create(rt, 44, 0, &[5], &[1])?;
    session.slot(rt, 0)?;
    session.write(rt, 44)
}
