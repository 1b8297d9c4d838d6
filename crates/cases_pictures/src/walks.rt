// The row walk from the start place to the first Done: how many answers of each kind come before it.
ghost use Rattle.std.specs.Prelude.{◌≤◌};

use cases_shared::pictures::{self, Picture};
use cases_shared::sheet_a;
use cases_shared::tables::NodeTable;
use std::fmt;
use std::io::{self, Write};
use walk::Answer;

// More steps than any walk here takes.
const STEPS: u32 = 10000;

// How many answers of each kind a walk gave.
#[derive(Clone, Copy)]
struct Counts {
    moved: u32,
    runs: u32,
    rows: u32,
}

impl fmt::Display for Counts {
    fn fmt<W: fmt::Write>(&self, f: &mut fmt::Formatter<W>) -> fmt::Result {
        let Counts { moved, runs, rows } = *self;
        write!(f, "{moved} Moved, {runs} Run, {rows} EndRow")
    }
}

// The answers before the first Done, or before a refusal.
fn count(sheet: NodeTable) -> Counts {
    let mut place = walk::start(sheet.n);
    let mut counts = Counts {
        moved: 0,
        runs: 0,
        rows: 0,
    };
    for _step in 0..STEPS {
        let s = place.step(sheet.table);
        place = s.place;
        match s.answer {
            Answer::Moved => counts.moved += 1,
            Answer::Run { .. } => counts.runs += 1,
            Answer::EndRow => counts.rows += 1,
            Answer::Done | Answer::Refused { .. } => break,
        }
    }
    counts
}

fn of_sheet(out: &mut impl Write, name: &str, sheet: NodeTable) -> io::Result<()> {
    writeln!(out, "{name}: {}", count(sheet))
}

fn of_picture(out: &mut impl Write, name: &str, picture: Picture) -> io::Result<()> {
    let mut words = [0u32; pictures::WORDS];
    of_sheet(out, name, picture.table(&mut words))
}

pub fn all(out: &mut impl Write) -> io::Result<()> {
    of_sheet(out, "walk, sheet A", sheet_a::preorder())?;
    of_sheet(out, "walk, sheet A in other numbers", sheet_a::renumbered())?;
    of_picture(out, "walk, (j)", pictures::J)?;
    of_picture(out, "walk, (k), one black pixel", pictures::BLACK_PIXEL)?;
    of_picture(out, "walk, all white", pictures::WHITE)?;
    of_picture(out, "walk, document 003's Figure 1", pictures::FIGURE)?;
    of_picture(out, "walk, two ponds", pictures::PONDS)
}
