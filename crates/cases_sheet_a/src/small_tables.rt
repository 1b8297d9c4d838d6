// Document 000's four small tables, as the library holds them: a line for each row, the quadrants NW, NE, SW, SE across
// it.
ghost use Rattle.std.specs.Prelude.{◌<◌};

use std::fmt::{self, Display};
use std::io::{self, Write};

// A quadrant, by its name.
#[derive(Clone, Copy)]
struct Quadrant(usize);

impl Display for Quadrant {
    fn fmt<W: fmt::Write>(&self, f: &mut fmt::Formatter<W>) -> fmt::Result {
        f.write_str(match self.0 {
            0 => "NW",
            1 => "NE",
            2 => "SW",
            _ => "SE",
        })
    }
}

// A side, by its name; as `-` where there is none.
#[derive(Clone, Copy)]
pub struct Side(pub usize);

impl Display for Side {
    fn fmt<W: fmt::Write>(&self, f: &mut fmt::Formatter<W>) -> fmt::Result {
        f.write_str(match self.0 {
            0 => "N",
            1 => "E",
            2 => "S",
            3 => "W",
            _ => "-",
        })
    }
}

// The entries of a row, by quadrant.
fn entries<D: Display + Drop, F: Fn(usize) -> D>(out: &mut impl Write, entry: F) -> io::Result<()>
    requires { (q : _) → q < 4 → F.pre entry q }
{
    for q in 0..4 {
        write!(out, " {}", entry(q))?;
    }
    writeln!(out)
}

pub fn all(out: &mut impl Write) -> io::Result<()> {
    for d in 0..4 {
        write!(out, "ADJ of {}:", Side(d))?;
        entries(out, |q| if quad::adj(d, q) { 'T' } else { 'F' })?;
    }
    for d in 0..4 {
        write!(out, "REFLECT of {}:", Side(d))?;
        entries(out, |q| Quadrant(quad::reflect(d, q)))?;
    }
    write!(out, "OPQUAD:")?;
    entries(out, |q| Quadrant(quad::opquad(q)))?;
    for q in 0..4 {
        write!(out, "COMMONSIDE of {}:", Quadrant(q))?;
        entries(out, |other| Side(quad::common_side(q, other)))?;
    }
    Ok(())
}
