// Document 01's examples, with the answers of document 02, requests a and b, run: the session of two pages, its
// branch and the edges; then examples of joining, of old numbers and of the joint call. Each call's whole answer is a line on
// standard output, to be read beside the papers; `stdout` beside src/ is what it must write.
#![tactic(auto)]

mod edges;
mod joins;
mod joint;
mod old;
mod pages;
mod row;
mod session;
mod words;

use session::Session;
use std::io;

// The examples share the image and the undo area, each as the one before left them.
fn main(rt: HostRuntime) -> io::Result<()> {
    let mut session = Session::new();
    pages::session(&rt, &mut session)?;
    edges::ranges(&rt, &mut session)?;
    edges::names(&rt, &mut session)?;
    edges::last_number(&rt, &mut session)?;
    edges::slots(&rt, &mut session)?;
    edges::no_slot(&rt, &mut session)?;
    edges::rooms(&rt, &mut session)?;
    joins::befores(&rt, &mut session)?;
    joins::overlap(&rt, &mut session)?;
    old::asked(&rt, &mut session)?;
    old::named(&rt, &mut session)?;
    old::sleep(&rt, &mut session)?;
    joint::examples(&rt, &mut session)
}
