// Figure 3: an application appends four blocks to an empty file, a write for each. Four blocks are
// allocated (b), written with zeros (d) and then with the data (d'), and attached to the inode (i),
// whose size and time follow (i', at last i''); group and superblock account for them (g, s).
use crate::counts;
use crate::files::{BITMAP, DATA, Files, GROUP, INODE, SUPER};
use crate::words::Under;
use rules::Setting;
use rules::refusals::Refusal;
use std::io;

// The n-th block: d follows b, i follows b and d, d' lies over d, i' follows d'.
fn append(files: &mut Files, n: u8) -> Result<(), Refusal> {
    let n = u32::from(n);
    let b = files.change(BITMAP, n, &[1], &[])?;
    let d = files.change(DATA + n, 0, &[0; 64], &[b])?;
    files.change(INODE, 16 + 4 * n, &[1; 4], &[b, d])?;
    let d2 = files.change(DATA + n, 0, &[2; 64], &[])?;
    files.change(INODE, 0, &[3; 4], &[d2])?;
    Ok(())
}

fn grow(files: &mut Files) -> Result<(), Refusal> {
    files.change(SUPER, 0, &[4; 4], &[])?;
    files.change(GROUP, 0, &[4; 4], &[])?;
    for n in 0..4 {
        append(files, n)?;
    }
    files.change(INODE, 0, &[5; 4], &[])?;
    Ok(())
}

pub fn run(rt: &impl Print, setting: Setting) -> io::Result<()> {
    let mut files = Files::opened(setting);
    grow(&mut files).map_err(|_| io::Error::other("a change was refused"))?;
    let grown = files.table;
    let writes = counts::drained(&mut files);
    println!(rt;
        "{}: changes {}, hard {}, entries {}, undo bytes {}, writes that drain it {writes}, blocks that wait then {}",
        Under(setting),
        files.accepted,
        files.hard,
        counts::entries(&grown),
        counts::bytes_kept(&grown),
        counts::waiting(&files.table)
    )
}
