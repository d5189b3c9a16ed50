// What the program prints for several files, held to the file stdout.
#![tactic(auto)]

use std::io;
use std::rt::Files;

fn show<R: Files + Print + Eprint>(rt: &R, title: &str, path: &str) -> io::Result<()> {
    println!(rt; "== {title}")?;
    printer::run(rt, path.as_bytes());
    Ok(())
}

fn main(rt: HostRuntime) -> io::Result<()> {
    show(&rt, "chart L", "l.chart")?;
    show(&rt, "chart E", "e.chart")?;
    show(&rt, "chart E with its last triple twice", "e_twice.chart")?;
    show(&rt, "an empty file", "empty.chart")?;
    show(&rt, "no file", "missing.chart")?;
    show(&rt, "a folder", "folder")?;
    show(&rt, "one state", "one_state.chart")?;
    show(&rt, "the longest chart", "longest.chart")?;
    show(&rt, "one byte longer", "longer.chart")?;
    show(&rt, "far longer than is read", "far_longer.chart")
}
