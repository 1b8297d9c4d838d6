// Distances under the BLACK outside of document 001, node by node: every distance case of this program goes through
// `distances`.
use cases_shared::pictures::{self, Picture};
use cases_shared::tables::NodeTable;
use cases_shared::{parts, say, sheet_a};
use std::io::{self, Write};

// The most nodes of a sheet here.
const NODES: usize = 341;

// One table's distances in the buffer lent.
fn distances(
    out: &mut impl Write,
    name: &str,
    sheet: NodeTable,
    lent: &mut [u32],
) -> io::Result<()> {
    say::case(out, name, sheet.distances(lent))?;
    say::words(out, lent)
}

fn of_sheet(out: &mut impl Write, name: &str, sheet: NodeTable) -> io::Result<()> {
    let mut held = [7u32; NODES];
    let lent = parts::first_mut(&mut held, sheet.table.len() / 6);
    distances(out, name, sheet, lent)
}

fn of_picture(out: &mut impl Write, name: &str, picture: Picture) -> io::Result<()> {
    let mut words = [0u32; pictures::WORDS];
    of_sheet(out, name, picture.table(&mut words))
}

// One white pixel, as far from the black block of half the sheet's side as a nearest white can be: 3w - 2.
const WHITE_CORNER: Picture = Picture {
    n: 3,
    bits: 0b11111111_11111111_11111111_11111111_11111111_11111111_11111111_11111110,
};

const WHITE_RING: Picture = Picture {
    n: 3,
    bits: 0b00000000_01111110_01111110_01111110_01111110_01111110_01111110_00000000,
};

const WHITE_MIDDLE: Picture = Picture {
    n: 3,
    bits: 0b11111111_11111111_11111111_11100111_11100111_11111111_11111111_11111111,
};

const BLACK_WEST: Picture = Picture {
    n: 3,
    bits: 0b11110000_11110000_11110000_11110000_11110000_11110000_11110000_11110000,
};

// From the north-western block the white pixel's centre is nearer than the white block's, and the white block's border
// nearer than the pixel's.
const LARGE_AND_SMALL: Picture = Picture {
    n: 3,
    bits: 0b11111011_11111111_11111111_11111111_11110000_11110000_11110000_11110000,
};

const CHEQUERED: Picture = Picture {
    n: 2,
    bits: 0b1010_0101_1010_0101,
};

// The white pixel in the corner of a sheet of level 4, whose 256 pixels are no such number.
fn far_corner(out: &mut impl Write) -> io::Result<()> {
    let mut raster = [1u8; pictures::PIXELS];
    raster[pictures::PIXELS - 1] = 0;
    let mut words = [0u32; pictures::WORDS];
    let given = sheet::sheet_build(4, &raster, &mut words);
    of_sheet(
        out,
        "distances, a white pixel in a larger sheet's corner",
        pictures::filled(4, given, &words),
    )
}

fn refused(out: &mut impl Write, sheet: NodeTable) -> io::Result<()> {
    let mut held = [7u32; 8];
    let deeper = NodeTable { n: 8, ..sheet };
    distances(out, "distances, 1, level 8", deeper, &mut held)?;
    distances(out, "distances, 2, a word too few", sheet, &mut held)
}

pub fn all(out: &mut impl Write) -> io::Result<()> {
    of_sheet(out, "distances, sheet A", sheet_a::preorder())?;
    of_sheet(
        out,
        "distances, sheet A in other numbers",
        sheet_a::renumbered(),
    )?;
    refused(out, sheet_a::preorder())?;
    of_picture(out, "distances, (j)", pictures::J)?;
    of_picture(
        out,
        "distances, (k), one black pixel",
        pictures::BLACK_PIXEL,
    )?;
    of_picture(out, "distances, one white pixel", pictures::WHITE_PIXEL)?;
    of_picture(out, "distances, all white", pictures::WHITE)?;
    of_picture(out, "distances, all black", pictures::BLACK)?;
    of_picture(out, "distances, chequered", CHEQUERED)?;
    of_picture(out, "distances, a white pixel in the corner", WHITE_CORNER)?;
    far_corner(out)?;
    of_picture(out, "distances, a white ring", WHITE_RING)?;
    of_picture(out, "distances, a white middle", WHITE_MIDDLE)?;
    of_picture(out, "distances, the west black", BLACK_WEST)?;
    of_picture(
        out,
        "distances, a large white block and a small one",
        LARGE_AND_SMALL,
    )?;
    of_picture(out, "distances, document 003's Figure 1", pictures::FIGURE)?;
    of_picture(out, "distances, two ponds", pictures::PONDS)
}
