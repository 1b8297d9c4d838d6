// The parts of a printed line.
ghost use Rattle.std.specs.Prelude.{◌<◌};

use std::fmt;
use std::io::{self, Write};
use std::num::{nearest_u64_to_f64, saturating_f64_to_u64};

// A word that names no node.
pub const NONE: u32 = quad::NONE as u32;

// The number that a call gave back, as `CODE VALUE`.
#[derive(Clone, Copy)]
pub struct Given(pub u64);

impl fmt::Display for Given {
    fn fmt<W: fmt::Write>(&self, f: &mut fmt::Formatter<W>) -> fmt::Result {
        write!(f, "{} {}", self.0 % 256, self.0 / 256)
    }
}

// `NAME: CODE VALUE`, the start of a case's line.
pub fn case(out: &mut impl Write, name: &str, given: u64) -> io::Result<()> {
    write!(out, "{name}: {}", Given(given))
}

// A case whose call lends no buffer.
pub fn line(out: &mut impl Write, name: &str, given: u64) -> io::Result<()> {
    case(out, name, given)?;
    writeln!(out)
}

// What a buffer of words holds.
pub fn list(out: &mut impl Write, held: &[u32]) -> io::Result<()> {
    write!(out, " :")?;
    for word in held {
        write!(out, " {word}")?;
    }
    Ok(())
}

// What a buffer of words holds, and the line's end.
pub fn words(out: &mut impl Write, held: &[u32]) -> io::Result<()> {
    list(out, held)?;
    writeln!(out)
}

// A table's word, as its number, or as `-` for None.
#[derive(Clone, Copy)]
struct Word(u32);

impl fmt::Display for Word {
    fn fmt<W: fmt::Write>(&self, f: &mut fmt::Formatter<W>) -> fmt::Result {
        if self.0 == NONE {
            write!(f, "-")
        } else {
            write!(f, "{}", self.0)
        }
    }
}

// What a buffer of words holds, to the end of the line, with a comma between groups of this size.
fn groups(out: &mut impl Write, held: &[u32], size: usize) -> io::Result<()>
    requires { 0 < size }
{
    write!(out, " :")?;
    for (i, word) in held.iter().enumerate() {
        if i > 0 && i % size == 0 {
            write!(out, ",")?;
        }
        write!(out, " {}", Word(*word))?;
    }
    writeln!(out)
}

// What a table holds: father, NW, NE, SW, SE and type, node by node.
pub fn nodes(out: &mut impl Write, held: &[u32]) -> io::Result<()> {
    groups(out, held, 6)
}

// What a register holds: pixels, first and last row, first and last column, pond by pond.
pub fn ponds(out: &mut impl Write, held: &[u32]) -> io::Result<()> {
    groups(out, held, 5)
}

// What a buffer of bytes holds, to the end of the line, in hexadecimal: so many digits to a byte, so many bytes to a
// group.
fn bytes(out: &mut impl Write, held: &[u8], digits: usize, group: usize) -> io::Result<()>
    requires { 0 < group }
{
    write!(out, " :")?;
    for (i, byte) in held.iter().enumerate() {
        if i % group == 0 {
            write!(out, " ")?;
        }
        write!(out, "{byte:0digits$x}")?;
    }
    writeln!(out)
}

// What a file holds, as document 01 writes it.
pub fn file(out: &mut impl Write, held: &[u8]) -> io::Result<()> {
    bytes(out, held, 2, 1)
}

// What a raster of this side holds, a digit to a pixel and a group to a row.
pub fn raster(out: &mut impl Write, held: &[u8], side: usize) -> io::Result<()> {
    if 0 < side {
        bytes(out, held, 1, side)?;
    }
    Ok(())
}

// A real number, as its whole part, with `+` behind it where there is more; as `?` where it is -1 or less, above every
// u64, or no number.
#[derive(Clone, Copy)]
struct Real(f64);

impl fmt::Display for Real {
    fn fmt<W: fmt::Write>(&self, f: &mut fmt::Formatter<W>) -> fmt::Result {
        let x = self.0;
        if x > -1.0 && x < 18446744073709551616.0 {
            let whole = saturating_f64_to_u64(x);
            let more = if nearest_u64_to_f64(whole) == x {
                ""
            } else {
                "+"
            };
            write!(f, "{whole}{more}")
        } else {
            write!(f, "?")
        }
    }
}

// What a slice of three numbers holds, to the end of the line.
pub fn reals(out: &mut impl Write, held: [f64; 3]) -> io::Result<()> {
    write!(out, " :")?;
    for x in held {
        write!(out, " {}", Real(x))?;
    }
    writeln!(out)
}
