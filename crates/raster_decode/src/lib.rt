// Decoding: a table's raster, painted from the root down (`sheet_decode`).
#![tactic(auto)]

ghost use Rattle.std.specs.Prelude.{true, ◌≡◌, length};
ghost use Rattle.table.specs.Table.{is_fork};
ghost use Rattle.raster.specs.Calls.{Decoding};
ghost use Rattle.raster_fill.specs.Painting.{Paintable, Painted, in_block, colours_at};

use answer::Outcome;
use raster_check::raster_length;
use raster_fill::{fill_leaf, fill_pixel};

// Paints the pixel of node p, a leaf since it is at level 0. The four functions here stand apart, as one that calls itself
// for every pixel and leaf is slower (bench/SPEED.md).
fn paint_pixel(table: &[u32], p: usize, n: u32, x: usize, y: usize, raster: &mut [u8])
    requires { Paintable n table.now p 0 x y (length raster.old) }
    ensures { Painted n (in_block 0 x y) (colours_at table.now 0 p) raster.old raster.new }
{
    let kind = table_node::word_at(table, p, 5);
    fill_pixel(raster, n, x, y, kind as u8);
}

// Paints the block of fork p at level 1, whose sons are pixels.
fn paint_four(table: &[u32], p: usize, n: u32, x: usize, y: usize, raster: &mut [u8])
    requires { Paintable n table.now p 1 x y (length raster.old) × (is_fork table.now p ≡ true) }
    ensures { Painted n (in_block 1 x y) (colours_at table.now 1 p) raster.old raster.new }
{
    for q in 0..4 {
        let son = table_node::word_at(table, p, 1 + q);
        let column = 2 * x + q % 2;
        let row = 2 * y + q / 2;
        paint_pixel(table, son, n, column, row, raster);
    }
}

// Paints the block of fork p, each pixel once, quarter by quarter. A son that is a leaf is painted here, without a
// call.
fn paint_fork(table: &[u32], p: usize, n: u32, level: u32, x: usize, y: usize, raster: &mut [u8])
    requires { Paintable n table.now p level x y (length raster.old) × (is_fork table.now p ≡ true) }
    ensures { Painted n (in_block level x y) (colours_at table.now level p) raster.old raster.new }
{
    if level == 1 {
        paint_four(table, p, n, x, y, raster);
        return;
    }
    let half = level - 1;
    for q in 0..4 {
        let son = table_node::word_at(table, p, 1 + q);
        let west = 2 * x + q % 2;
        let north = 2 * y + q / 2;
        let kind = table_node::word_at(table, son, 5);
        if kind == quad::FORK {
            paint_fork(table, son, n, half, west, north, raster);
        } else {
            fill_leaf(raster, n, half, west, north, kind as u8);
        }
    }
}

// Paints the block of node p.
fn paint(table: &[u32], p: usize, n: u32, level: u32, x: usize, y: usize, raster: &mut [u8])
    requires { Paintable n table.now p level x y (length raster.old) }
    ensures { Painted n (in_block level x y) (colours_at table.now level p) raster.old raster.new }
{
    let kind = table_node::word_at(table, p, 5);
    if kind == quad::FORK {
        paint_fork(table, p, n, level, x, y, raster);
    } else {
        fill_leaf(raster, n, level, x, y, kind as u8);
    }
}

// Decoding: for any level and any words, the table's picture in every byte of the raster, or the first refusal and the
// raster as it was.
pub fn decode(n: u32, table: &[u32], raster: &mut [u8]) -> Outcome
    ensures { Decoding n table.now raster.old result raster.new }
{
    table_check::sizes(n, table)?;
    raster_length(n, raster.len())?;
    table_check::faults(n, table)?;
    paint(table, 0, n, n, 0, 0, raster);
    Ok(0)
}
