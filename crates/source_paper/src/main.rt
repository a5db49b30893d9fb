// The source paper's own examples, run on the proved cache: figure 3, a file that grows by four
// blocks, under each setting; and figure 2b, a circle between two blocks. What is printed stands
// beside the paper's numbers in docs/FIGURES.md; `stdout` beside src/ is what it must be.
#![tactic(auto)]

mod append;
mod circle;
mod counts;
mod files;
mod words;

use rules::Setting;
use std::io;

fn main(rt: HostRuntime) -> io::Result<()> {
    println!(rt; "Figure 3: a file grows by four blocks")?;
    for setting in [Setting::AllSoft, Setting::HardRule, Setting::Board] {
        append::run(&rt, setting)?;
    }
    println!(rt; "\nFigure 2b: a file is removed before that has committed")?;
    circle::run(&rt, Setting::HardRule)?;
    circle::run(&rt, Setting::Board)
}
