// Ponds in a register of structs, through the call that C does not have.
use cases_shared::tables::NodeTable;
use cases_shared::{pictures, say, sheet_a};
use ponds::Pond;
use std::io::{self, Write};

// The most nodes of a sheet here; a register has room for three ponds.
const NODES: usize = 9;

// An entry that no pond has.
const SEVENS: Pond = Pond {
    pixels: 7,
    top: 7,
    bottom: 7,
    left: 7,
    right: 7,
};

fn of_sheet(out: &mut impl Write, name: &str, sheet: NodeTable) -> io::Result<()> {
    let mut numbers = [7u32; NODES];
    let mut reg = [SEVENS; 3];
    let given = ponds_find::in_entries(sheet.n, sheet.table, &mut numbers, &mut reg);
    say::case(out, name, answer::number(given))?;
    say::list(out, &numbers)?;
    // The register's words, as C has them.
    let words = reg.map(|pond| [pond.pixels, pond.top, pond.bottom, pond.left, pond.right]);
    say::ponds(out, words.as_flattened())
}

pub fn all(out: &mut impl Write) -> io::Result<()> {
    of_sheet(out, "structs, sheet A", sheet_a::preorder())?;
    let mut words = [0u32; pictures::WORDS];
    of_sheet(
        out,
        "structs, 9, (j) and three structs",
        pictures::J.table(&mut words),
    )
}
