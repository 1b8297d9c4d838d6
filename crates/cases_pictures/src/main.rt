// The second of the worked-case programs: pictures built and decoded, the neighbours that the documents name in them,
// distances and walks.
#![tactic(auto)]

use std::io::{self, BufWriter, Write};

mod built;
mod distances;
mod named_blocks;
mod walks;

fn main(rt: HostRuntime) -> io::Result<()> {
    let mut out = BufWriter::new(rt.alloc(), io::writer(&rt))?;
    built::all(&mut out)?;
    named_blocks::all(&mut out)?;
    distances::all(&mut out)?;
    walks::all(&mut out)?;
    out.flush()
}
