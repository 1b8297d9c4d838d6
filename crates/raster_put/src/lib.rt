// The second pass of building, for the smallest blocks.
#![tactic(auto)]

ghost use Rattle.std.specs.Prelude.{length, ◌+◌, ◌*◌, ◌≤◌};
ghost use Rattle.quad.specs.Numbers.{max_words};
ghost use Rattle.quad.specs.Tree.{tree_of};
ghost use Rattle.table.specs.Writing.{Ready, Put};
ghost use Rattle.raster.specs.Raster.{picture_of};
ghost use Rattle.raster.specs.Sums.{four_over};
ghost use Rattle.raster.specs.Blocks.{OnSheet};

use raster_count::Raster;
use table_node::{put_leaf, put_node};

// Writes a fork over four pixels, its nodes from p on, and gives the next node. These three stand apart, as a block of
// one size is written at once, without a test and without a call for a son (bench/SPEED.md).
fn put_pixels(
    raster: &Raster<'_>,
    x: usize,
    y: usize,
    table: &mut [u32],
    p: u32,
    father: u32,
) -> u32
    requires { OnSheet raster.now.n 1 x y × (6 * (p + 5) ≤ length table.old) × (p + 5 ≤ max_words) }
    ensures { Put (four_over (picture_of raster.now.n raster.now.pixels.bytes.now) 0 x y) father p table.old table.new result }
{
    let west = 2 * x;
    let north = 2 * y;
    let nw = raster.pixel_at(west, north);
    let ne = raster.pixel_at(west + 1, north);
    let sw = raster.pixel_at(west, north + 1);
    let se = raster.pixel_at(west + 1, north + 1);
    let own = p as usize;
    put_leaf(table, own + 1, p, nw);
    put_leaf(table, own + 2, p, ne);
    put_leaf(table, own + 3, p, sw);
    put_leaf(table, own + 4, p, se);
    put_node(
        table,
        p as usize,
        father,
        p + 1,
        p + 2,
        p + 3,
        p + 4,
        quad::FORK as u32,
    );
    p + 5
}

// Writes a block of level 1, its nodes from p on, and gives the next node.
pub fn put_four(
    raster: &Raster<'_>,
    x: usize,
    y: usize,
    table: &mut [u32],
    p: u32,
    father: u32,
) -> u32
    requires { OnSheet raster.now.n 1 x y
        × Ready (tree_of (picture_of raster.now.n raster.now.pixels.bytes.now) 1 x y) p (length table.old) }
    ensures { Put (tree_of (picture_of raster.now.n raster.now.pixels.bytes.now) 1 x y) father p table.old table.new result }
{
    let sum = raster.sum_four(x, y);
    if sum % 4 == 0 {
        put_leaf(table, p as usize, father, sum / 4);
        return p + 1;
    }
    put_pixels(raster, x, y, table, p, father)
}

// Writes a block of level 2, its nodes from p on, and gives the next node. The raster is copied, so that its parts are
// not read again after each store.
pub fn put_sixteen(
    raster: &Raster<'_>,
    x: usize,
    y: usize,
    table: &mut [u32],
    p: u32,
    father: u32,
) -> u32
    requires { OnSheet raster.now.n 2 x y
        × Ready (tree_of (picture_of raster.now.n raster.now.pixels.bytes.now) 2 x y) p (length table.old) }
    ensures { Put (tree_of (picture_of raster.now.n raster.now.pixels.bytes.now) 2 x y) father p table.old table.new result }
{
    let own = *raster;
    let raster = &own;
    let sum = raster.sum_sixteen(x, y);
    if sum % 16 == 0 {
        put_leaf(table, p as usize, father, sum / 16);
        return p + 1;
    }
    let west = 2 * x;
    let north = 2 * y;
    let a = p + 1;
    let b = put_four(raster, west, north, table, a, p);
    let c = put_four(raster, west + 1, north, table, b, p);
    let d = put_four(raster, west, north + 1, table, c, p);
    let next = put_four(raster, west + 1, north + 1, table, d, p);
    put_node(table, p as usize, father, a, b, c, d, quad::FORK as u32);
    next
}
