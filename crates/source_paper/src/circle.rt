// Figure 2b: before an appended block has committed, another file on the same inode block is
// removed, whose data block the same bitmap block has. b2 follows i2, and i follows b: neither block
// could be written first, if b2 could not be taken back.
use crate::files::{BITMAP, DATA, Files, INODE};
use crate::words::{Under, Written};
use rules::Setting;
use rules::refusals::Refusal;
use rules::sizes::BLOCK_BYTES;
use std::io;

fn close(files: &mut Files) -> Result<(), Refusal> {
    let b = files.change(BITMAP, 0, &[1], &[])?;
    let d = files.change(DATA, 0, &[0; 64], &[b])?;
    files.change(INODE, 16, &[1; 4], &[b, d])?;
    files.change(INODE, 0, &[3; 4], &[d])?;
    let i2 = files.change(INODE, 128, &[9; 4], &[])?;
    files.change(BITMAP, 1, &[2], &[i2])?;
    Ok(())
}

// A write of the block, with its first two bytes as handed out, and its completion.
fn step(rt: &impl Print, files: &mut Files, name: &str, block: u32) -> io::Result<()> {
    let mut handed = [0; BLOCK_BYTES];
    let answer = files.write_out(block, &mut handed);
    println!(rt;
        "  write {name} block: {}; first bytes {} {}",
        Written(answer),
        handed[0],
        handed[1]
    )
}

pub fn run(rt: &impl Print, setting: Setting) -> io::Result<()> {
    let mut files = Files::opened(setting);
    close(&mut files).map_err(|_| io::Error::other("a change was refused"))?;
    println!(rt; "{}:", Under(setting))?;
    step(rt, &mut files, "inode", INODE)?;
    step(rt, &mut files, "bitmap", BITMAP)?;
    step(rt, &mut files, "data", DATA)?;
    step(rt, &mut files, "inode", INODE)?;
    step(rt, &mut files, "bitmap", BITMAP)
}
