// The fourth of the worked-case programs: the ponds of sheets, in words and in structs. A line has the nodes' numbers,
// and behind another colon the register.
#![tactic(auto)]

use std::io::{self, BufWriter, Write};

mod in_words;
mod structs;

fn main(rt: HostRuntime) -> io::Result<()> {
    let mut out = BufWriter::new(rt.alloc(), io::writer(&rt))?;
    in_words::all(&mut out)?;
    structs::all(&mut out)?;
    out.flush()
}
