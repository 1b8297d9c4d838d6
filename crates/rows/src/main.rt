// The row program: reads one sheet file from standard input and prints its rows, run by run, as the row walk gives
// them.
#![tactic(auto)]

ghost use Rattle.std.specs.Prelude.{IfOk};
ghost use Rattle.table.specs.Rules.{Accepted};
ghost use Rattle.walk_rows.specs.Whole.{Tallied};

use std::io::{self, BufWriter, Read, Write};
use walk::{Answer, Place};

// So many bytes of the input decide the answer: the longest file that is printed has 4,100.
const FILE_ROOM: u64 = 65536;

// The words of the longest table that is printed, of 1,365 nodes.
const TABLE_ROOM: usize = 8190;

// Prints what one answer adds to the rows: a run, B or W for its colour and then its width, behind the row's number
// where it is the row's first; or the row's end.
fn print_answer(out: &mut impl Write, answer: Answer, from: Place) -> io::Result<()> {
    if let Answer::Run { colour, width } = answer {
        if from.x == 0 {
            write!(out, "{}:", from.y)?;
        }
        let letter = if colour == 0 { 'W' } else { 'B' };
        write!(out, " {letter}{width}")?;
    }
    if let Answer::EndRow = answer {
        writeln!(out)?;
    }
    Ok(())
}

// Walks over the table from the start place to the first Done, prints the rows, and gives the links followed: the Moved
// that its steps told. The one error is that of a write to `out`; the table is only read.
fn print_rows(out: &mut impl Write, level: u32, table: &[u32]) -> io::Result<u32>
    requires { Accepted level table.now }
    ensures { IfOk result (Tallied level table.now) }
{
    let mut place = walk::start(level);
    let mut links: u32 = 0;
    loop {
        let s = place.step(table);
        if let Answer::Done = s.answer {
            return Ok(links);
        }
        print_answer(out, s.answer, place)?;
        links = walk_rows::with_link(links, s.answer);
        place = s.place;
    }
}

// Prints the sheet that a file holds: its level and node count, its rows, and the links followed; or why it is refused.
fn print_sheet(out: &mut impl Write, file: &[u8]) -> io::Result<()> {
    let mut table = [0u32; TABLE_ROOM];
    let loaded = file_load::load(file, &mut table);
    let Ok(value) = loaded else {
        return writeln!(out, "refused {}", loaded.unwrap_err());
    };
    let level = value % answer::LEVEL_ROOM;
    let nodes = value / answer::LEVEL_ROOM;
    writeln!(out, "sheet {level} {nodes}")?;
    let words = 6 * nodes as usize;
    let links = print_rows(out, level, &table[..words])?;
    writeln!(out, "links {links}")
}

fn main(rt: HostRuntime) -> io::Result<()> {
    let mut file = Vec::new(rt.alloc());
    rt.reader().take(FILE_ROOM).read_to_end(&mut file)?;
    let mut out = BufWriter::new(rt.alloc(), io::writer(&rt))?;
    print_sheet(&mut out, &file)?;
    out.flush()
}
