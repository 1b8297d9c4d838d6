// Pictures of up to 64 pixels, a pixel to a bit of a number, row by row, 1 for black; and building and decoding them.
use crate::tables::NodeTable;
use crate::{parts, say};
use std::io::{self, Write};

// The highest level of a sheet here, its pixels, and the words of a table with room for it.
const TOP: u32 = 4;

pub const PIXELS: usize = 1 << 2 * TOP;

pub const WORDS: usize = 2046;

#[derive(Clone, Copy)]
pub struct Picture {
    pub n: u32,
    pub bits: u64,
}

// Document 01's sheet A, and its case (j).
pub const A: Picture = Picture {
    n: 2,
    bits: 0b1100_1101_0000_0000,
};

pub const J: Picture = Picture {
    n: 2,
    bits: 0b1110_1110_1111_1111,
};

// Document 01's case (k), and its white brother.
pub const BLACK_PIXEL: Picture = Picture { n: 0, bits: 0b1 };

pub const WHITE_PIXEL: Picture = Picture { n: 0, bits: 0b0 };

pub const WHITE: Picture = Picture {
    n: 2,
    bits: 0b0000_0000_0000_0000,
};

pub const BLACK: Picture = Picture {
    n: 2,
    bits: 0b1111_1111_1111_1111,
};

// Document 003's Figure 1: the rows W332, W242, W242, W17, W17, W17, W314, W8.
pub const FIGURE: Picture = Picture {
    n: 3,
    bits: 0b00011100_00111100_00111100_01111111_01111111_01111111_00010000_00000000,
};

// The two ponds of the estate, with a dry bank between them.
pub const PONDS: Picture = Picture {
    n: 3,
    bits: 0b11110011_11110011_11110011_11110011_00000000_00000000_00000000_00000000,
};

impl Picture {
    // Its side, and how many pixels it has; no more than a sheet here can have.
    pub fn side(self) -> usize {
        1 << self.n.min(TOP)
    }

    pub fn pixels(self) -> usize {
        1 << 2 * self.n.min(TOP)
    }

    // Draws it on the raster lent, whose last pixel is bit 0.
    fn draw(self, raster: &mut [u8]) {
        for (k, pixel) in raster.iter_mut().rev().enumerate() {
            *pixel = if k < 64 {
                (self.bits >> k & 1) as u8
            } else {
                0
            };
        }
    }

    // Builds its table in the words lent, and gives back what the call gave.
    pub fn build(self, table: &mut [u32]) -> u64 {
        let mut raster = [0u8; PIXELS];
        let lent = parts::first_mut(&mut raster, self.pixels());
        self.draw(lent);
        sheet::sheet_build(self.n, lent, table)
    }

    // Its table, built in the words lent.
    pub fn table(self, words: &mut [u32]) -> NodeTable<'_> {
        let given = self.build(words);
        filled(self.n, given, words)
    }
}

// The table that building filled, by what the call gave: six words for each node of its value.
pub fn filled(n: u32, given: u64, words: &[u32]) -> NodeTable<'_> {
    NodeTable {
        n,
        table: parts::first(words, 6 * (given / 256) as usize),
    }
}

// A table decoded to a raster of this many pixels, printed with this many to a row.
pub fn decode(
    out: &mut impl Write,
    name: &str,
    sheet: NodeTable,
    count: usize,
    side: usize,
) -> io::Result<()> {
    let mut raster = [7u8; PIXELS];
    let lent = parts::first_mut(&mut raster, count);
    say::case(out, name, sheet.decode(lent))?;
    say::raster(out, lent, side)
}
