// "A session of two pages": rows P1 to P10, each on what the row before left, and the branch
// directly after P6.
use crate::row::Row;
use crate::session::Session;
use std::io;

fn to_p6(rt: &impl Print, session: &mut Session) -> io::Result<()> {
    session.open(rt, Row::Start, 1)?;
    session.at(Row::P(1)).create(rt, 1, 0, &[65; 8], &[])?;
    session.at(Row::P(2)).create(rt, 2, 0, &[1; 2], &[1])?;
    session.at(Row::P(3)).create(rt, 2, 2, &[2; 2], &[])?;
    session.at(Row::P(4)).create(rt, 1, 8, &[66; 8], &[2])?;
    session.at(Row::P(5)).write(rt, 2)?;
    session.at(Row::P(6)).write(rt, 1)?;
    session.slot(rt, 2)
}

fn from_p7(rt: &impl Print, session: &mut Session) -> io::Result<()> {
    session.at(Row::P(7)).write(rt, 1)?;
    session.at(Row::P(8)).complete(rt, 1)?;
    session.write(rt, 2)?;
    session.at(Row::P(9)).write(rt, 1)?;
    session.at(Row::P(10)).complete(rt, 2)?;
    session.write(rt, 1)
}

// Write block 1 answers 13 until 2 commits.
fn branch(rt: &impl Print, session: &mut Session) -> io::Result<()> {
    session.at(Row::Branch).create(rt, 1, 0, &[67], &[])?;
    session.slot(rt, 2)?;
    session.complete(rt, 1)?;
    session.write(rt, 1)?;
    session.write(rt, 2)?;
    session.write(rt, 1)?;
    session.complete(rt, 2)?;
    session.write(rt, 1)
}

// The branch goes on from the table as P6 left it. P7 to P10 make no change, so the working image
// and the undo area are those that P6 left too.
pub fn session(rt: &impl Print, session: &mut Session) -> io::Result<()> {
    println!(rt; "\nA session of two pages: block 1 holds names, block 2 the index")?;
    to_p6(rt, session)?;
    let p6 = session.table;
    from_p7(rt, session)?;
    println!(rt;
        "\nA branch directly after P6: a hard creation turns the waiting soft patch hard, and joins it"
    )?;
    session.table = p6;
    branch(rt, session)
}
