// Sheet A of document 01, in preorder numbers and in others: every question about a node, its file, and its blocks'
// centres.
use crate::small_tables::Side;
use cases_shared::say::{self, Given};
use cases_shared::tables::NodeTable;
use cases_shared::{pictures, sheet_a};
use ground::Ground;
use std::io::{self, Write};

// As document 02 works it out for node 1.
const GROUND: Ground = Ground {
    east: 1000.0,
    north: 2000.0,
    step: 10.0,
};

// The answers to a question that is asked with each of so many numbers, to the end of the line.
fn answers<F: Fn(u32) -> u64>(out: &mut impl Write, count: u32, ask: F) -> io::Result<()>
    requires { F.IsAlwaysCallable ask }
{
    for k in 0..count {
        if k > 0 {
            write!(out, ",")?;
        }
        write!(out, " {}", Given(ask(k)))?;
    }
    writeln!(out)
}

// Every question about one node.
fn about(out: &mut impl Write, sheet: NodeTable, node: u32) -> io::Result<()> {
    write!(out, "node {node}, neighbours N E S W NW NE SW SE:")?;
    answers(out, 8, |direction| sheet.neighbour(node, direction))?;
    for side in 0..4 {
        write!(
            out,
            "node {node}, side {}, leaves at NW NE SW SE:",
            Side(side as usize)
        )?;
        answers(out, 4, |corner| sheet.corner_leaf(node, side, corner))?;
    }
    write!(out, "node {node}, leaves beyond NW NE SW SE:")?;
    answers(out, 4, |corner| sheet.diagonal_leaf(node, corner))?;
    let mut place = [7.0f64; 3];
    let given = sheet.centre(node, GROUND, &mut place);
    write!(out, "node {node}, centre: {}", Given(given))?;
    say::reals(out, place)
}

// Its file, with two bytes more than it needs.
fn write(out: &mut impl Write, sheet: NodeTable) -> io::Result<()> {
    let mut file = [7u8; 34];
    say::case(out, "write", sheet.write(&mut file))?;
    say::file(out, &file)
}

// The file that document 01 prints, with room for two words more. The marks are Q and S, and Q and N.
fn read(out: &mut impl Write) -> io::Result<()> {
    let file = b"QS\x02\x09\x00QN\x02QN\x01QN\x02QN\x00QN\x00QN\x00QN\x01QN\x00QN\x00";
    let mut table = [7u32; 56];
    say::case(
        out,
        "read, sheet A's file",
        sheet::sheet_read(file, &mut table),
    )?;
    say::nodes(out, &table)
}

fn everything(out: &mut impl Write, sheet: NodeTable) -> io::Result<()> {
    say::line(out, "check", sheet.check())?;
    write(out, sheet)?;
    pictures::decode(out, "decode", sheet, 16, 4)?;
    for node in 0..9 {
        about(out, sheet, node)?;
    }
    Ok(())
}

pub fn all(out: &mut impl Write) -> io::Result<()> {
    read(out)?;
    writeln!(out, "sheet A in preorder numbers")?;
    everything(out, sheet_a::preorder())?;
    writeln!(out, "sheet A in other numbers")?;
    everything(out, sheet_a::renumbered())
}
