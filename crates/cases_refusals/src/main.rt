// The third of the worked-case programs: each code of document 01's table but 0, with its value; what a lent buffer
// held, 7 everywhere, it holds still.
#![tactic(auto)]

use cases_shared::tables::NodeTable;
use cases_shared::{parts, pictures, say, sheet_a};
use ground::Ground;
use std::io::{self, BufWriter, Write};
use walk::{Answer, Place};

// So many words of sheet A's table as a sheet of level n.
fn check(out: &mut impl Write, name: &str, n: u32, words: usize) -> io::Result<()> {
    let table = parts::first(sheet_a::preorder().table, words);
    say::line(out, name, NodeTable { n, table }.check())
}

// Sheet A's table with another word in one place.
fn changed(out: &mut impl Write, name: &str, place: usize, word: u32) -> io::Result<()> {
    let sheet = sheet_a::preorder();
    let mut table = [0u32; 54];
    table.copy_from_slice(sheet.table);
    if let Some(w) = table.get_mut(place) {
        *w = word;
    }
    let table = &table;
    say::line(out, name, NodeTable { table, ..sheet }.check())
}

fn tables(out: &mut impl Write) -> io::Result<()> {
    check(out, "1, level 8", 8, 54)?;
    check(out, "2, a table of 53 words", 2, 53)?;
    check(out, "2, a table of none", 2, 0)?;
    check(out, "4, sheet A at level 1", 1, 54)?;
    changed(out, "3, node 1 of type 3", 11, 3)?;
    changed(out, "3, a son of another father", 18, 0)?;
    changed(out, "5, four white sons", 41, 0)
}

fn questions(out: &mut impl Write, sheet: NodeTable) -> io::Result<()> {
    say::line(out, "6, node 9 of nine", sheet.neighbour(9, 8))?;
    say::line(out, "7, direction 8", sheet.neighbour(1, 8))?;
    say::line(out, "7, side 4", sheet.corner_leaf(1, 4, 5))?;
    say::line(out, "7, corner 5", sheet.corner_leaf(1, 1, 5))?;
    say::line(
        out,
        "7, a corner not on its side",
        sheet.corner_leaf(1, 0, 3),
    )?;
    say::line(out, "7, corner 4 and no side", sheet.diagonal_leaf(1, 4))?;
    say::line(out, "20, north-west of node 1", sheet.neighbour(1, 4))
}

// So many pixels of a raster in which pixel 5 has this colour, as a sheet of level 2.
fn build(out: &mut impl Write, name: &str, count: usize, colour: u8) -> io::Result<()> {
    let mut raster = [0u8; 16];
    raster[5] = colour;
    let mut table = [7u32; 6];
    say::case(
        out,
        name,
        sheet::sheet_build(2, parts::first(&raster, count), &mut table),
    )?;
    say::nodes(out, &table)
}

fn rasters(out: &mut impl Write, sheet: NodeTable) -> io::Result<()> {
    pictures::decode(out, "2, a raster of 15 pixels to write", sheet, 15, 15)?;
    build(out, "2, a raster of 15 pixels to read", 15, 2)?;
    build(out, "8, pixel 5 is 2", 16, 2)?;
    build(out, "9, a table of 6 words", 16, 1)
}

// Node 1's centre, in a slice of one number.
fn centre(out: &mut impl Write, name: &str, sheet: NodeTable, ground: Ground) -> io::Result<()> {
    let mut place = [7.0f64; 3];
    say::case(out, name, sheet.centre(1, ground, &mut place[..1]))?;
    say::reals(out, place)
}

// One number after the other is brought into its range.
fn grounds(out: &mut impl Write, sheet: NodeTable) -> io::Result<()> {
    let first = Ground {
        east: 16777217.0,
        north: -16777217.0,
        step: 0.0,
    };
    centre(out, "11, too far east", sheet, first)?;
    let second = Ground {
        east: 16777216.0,
        ..first
    };
    centre(out, "11, too far south", sheet, second)?;
    let third = Ground {
        north: -16777216.0,
        ..second
    };
    centre(out, "11, step 0", sheet, third)?;
    let last = Ground {
        step: 16384.0,
        ..third
    };
    centre(out, "9, room for one number", sheet, last)
}

// A file that is refused, and what was lent for its table.
fn file(out: &mut impl Write, name: &str, bytes: &[u8]) -> io::Result<()> {
    let mut table = [7u32; 6];
    say::case(out, name, sheet::sheet_read(bytes, &mut table))?;
    say::words(out, &table)
}

// The marks are Q and S, and Q and N.
fn files(out: &mut impl Write) -> io::Result<()> {
    file(out, "13, (l), the empty file", b"")?;
    file(out, "12, a wrong mark", b"QT")?;
    file(out, "1, a file of level 8", b"QS\x08")?;
    file(out, "13, half a count", b"QS\x00\x01")?;
    file(out, "12, type 3", b"QS\x00\x01\x00QN\x03")?;
    file(out, "4, a fork at level 0", b"QS\x00\x05\x00QN\x02")?;
    file(
        out,
        "5, four like leaves",
        b"QS\x01\x05\x00QN\x02QN\x01QN\x01QN\x01QN\x01",
    )?;
    file(out, "14, a wrong count", b"QS\x00\x02\x00QN\x01")?;
    file(out, "14, a byte left over", b"QS\x00\x01\x00QN\x01\x00")?;
    file(
        out,
        "9, five nodes in 6 words",
        b"QS\x01\x05\x00QN\x02QN\x01QN\x01QN\x01QN\x00",
    )
}

fn writing(out: &mut impl Write, sheet: NodeTable) -> io::Result<()> {
    let mut bytes = [7u8; 31];
    say::case(out, "9, a file in 31 bytes", sheet.write(&mut bytes))?;
    say::file(out, &bytes)
}

// The walk's and the programs' own.
fn programs(out: &mut impl Write, sheet: NodeTable) -> io::Result<()> {
    let place = Place {
        node: 9,
        level: 0,
        ..walk::start(sheet.n)
    };
    let answer = place.step(sheet.table).answer;
    if let Answer::Refused { code, value } = answer {
        writeln!(out, "10, a walk at node 9 of nine: {code} {value}")?;
    }
    let mut room = [7u32; 6];
    say::case(
        out,
        "15, a program's file of level 6",
        answer::number(file_load::load(b"QS\x06", &mut room)),
    )?;
    say::words(out, &room)
}

fn main(rt: HostRuntime) -> io::Result<()> {
    let mut out = BufWriter::new(rt.alloc(), io::writer(&rt))?;
    let sheet = sheet_a::preorder();
    tables(&mut out)?;
    questions(&mut out, sheet)?;
    rasters(&mut out, sheet)?;
    grounds(&mut out, sheet)?;
    files(&mut out)?;
    writing(&mut out, sheet)?;
    programs(&mut out, sheet)?;
    out.flush()
}
