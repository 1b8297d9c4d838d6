// Ponds in a register of words; what a refused call was lent, 7 everywhere, it holds still.
use cases_shared::pictures::{self, Picture};
use cases_shared::tables::NodeTable;
use cases_shared::{parts, say, sheet_a};
use std::io::{self, Write};

// The most nodes of a sheet here, and the words of the longest register.
const NODES: usize = 9;

const WORDS: usize = 15;

// One sheet's ponds, where so many numbers are lent, and a register of so many words.
fn of_sheet(
    out: &mut impl Write,
    name: &str,
    sheet: NodeTable,
    numbers: usize,
    words: usize,
) -> io::Result<()> {
    let mut held = [7u32; NODES];
    let mut reg = [7u32; WORDS];
    let lent = parts::first_mut(&mut held, numbers);
    let room = parts::first_mut(&mut reg, words);
    say::case(out, name, sheet.ponds(lent, room))?;
    say::list(out, lent)?;
    say::ponds(out, room)
}

fn of_picture(
    out: &mut impl Write,
    name: &str,
    picture: Picture,
    numbers: usize,
    words: usize,
) -> io::Result<()> {
    let mut table = [0u32; pictures::WORDS];
    of_sheet(out, name, picture.table(&mut table), numbers, words)
}

fn found(out: &mut impl Write) -> io::Result<()> {
    of_sheet(out, "ponds, sheet A", sheet_a::preorder(), 9, 12)?;
    of_sheet(
        out,
        "ponds, sheet A in other numbers",
        sheet_a::renumbered(),
        9,
        10,
    )?;
    of_picture(out, "ponds, two ponds", pictures::PONDS, 9, 15)?;
    of_picture(out, "ponds, all white", pictures::WHITE, 1, 5)?;
    of_picture(out, "ponds, all black", pictures::BLACK, 1, 5)
}

fn refused(out: &mut impl Write, sheet: NodeTable) -> io::Result<()> {
    of_sheet(out, "ponds, 1, level 8", NodeTable { n: 8, ..sheet }, 9, 10)?;
    let table = parts::first(sheet.table, 53);
    let shorter = NodeTable { table, ..sheet };
    of_sheet(out, "ponds, 2, a table of 53 words", shorter, 9, 10)?;
    of_sheet(out, "ponds, 2, a number too few", sheet, 8, 10)?;
    let lower = NodeTable { n: 1, ..sheet };
    of_sheet(out, "ponds, 4, sheet A at level 1", lower, 9, 10)?;
    of_sheet(out, "ponds, 9, a register of 9 words", sheet, 9, 9)
}

pub fn all(out: &mut impl Write) -> io::Result<()> {
    found(out)?;
    refused(out, sheet_a::preorder())
}
