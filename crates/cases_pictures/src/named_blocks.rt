// The neighbours that documents 000 and 003 work out in their texts, by the names that their figures give to blocks.
use cases_shared::pictures::{self, Picture};
use cases_shared::say;
use cases_shared::tables::NodeTable;
use std::io::{self, Write};

// Document 000's blocks A and G: A is its father's NE son, and he his father's, who is the root's NW son. In Fig. 3 G
// is reached from the root by NE, NW and NW, in Fig. 4 by NE, NW and SW.
const A_AND_G: Picture = Picture {
    n: 3,
    bits: 0b00011000_00001000_00000000_00000000_00000000_00000000_00000000_00000000,
};

fn figures_3_and_4(out: &mut impl Write, sheet: NodeTable) -> io::Result<()> {
    say::line(
        out,
        "document 000, Fig. 3, east of A",
        sheet.neighbour(5, 1),
    )?;
    say::line(
        out,
        "document 000, Fig. 4, south-east of A",
        sheet.neighbour(5, 7),
    )
}

// Document 003's blocks have letters in the order in which the rows first cross them: A is node 2, F 6, P 21, T 29.
fn figure_1(out: &mut impl Write, sheet: NodeTable) -> io::Result<()> {
    say::line(
        out,
        "document 003, Figure 1, east of A, grey",
        sheet.neighbour(2, 1),
    )?;
    say::line(
        out,
        "document 003, Figure 1, east of A in the first row, B",
        sheet.corner_leaf(2, 1, 1),
    )?;
    say::line(
        out,
        "document 003, Figure 1, east of A in the second row, F",
        sheet.corner_leaf(2, 1, 3),
    )?;
    say::line(
        out,
        "document 003, Figure 1, south of A, grey",
        sheet.neighbour(2, 2),
    )?;
    say::line(
        out,
        "document 003, Figure 1, south of F, J",
        sheet.neighbour(6, 2),
    )?;
    say::line(
        out,
        "document 003, Figure 1, south of P, V",
        sheet.neighbour(21, 2),
    )?;
    say::line(
        out,
        "document 003, Figure 1, south of T, grey",
        sheet.neighbour(29, 2),
    )?;
    say::line(
        out,
        "document 003, Figure 1, south of T at SW, Z",
        sheet.corner_leaf(29, 2, 2),
    )?;
    say::line(
        out,
        "document 003, Figure 1, south of T at SE, AA",
        sheet.corner_leaf(29, 2, 3),
    )
}

pub fn all(out: &mut impl Write) -> io::Result<()> {
    let mut words = [0u32; pictures::WORDS];
    figures_3_and_4(out, A_AND_G.table(&mut words))?;
    figure_1(out, pictures::FIGURE.table(&mut words))
}
