// The first of the worked-case programs: document 000's four tables, and every question about sheet A. Each of them
// runs cases that the documents work out through the outside calls, and prints a line for each: its name, code and
// value, and behind a colon what a lent buffer then holds.
#![tactic(auto)]

use std::io::{self, BufWriter, Write};

mod questions;
mod small_tables;

fn main(rt: HostRuntime) -> io::Result<()> {
    let mut out = BufWriter::new(rt.alloc(), io::writer(&rt))?;
    small_tables::all(&mut out)?;
    questions::all(&mut out)?;
    out.flush()
}
