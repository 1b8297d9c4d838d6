// A node's centre on the ground: the ranges are tested, then each operation is rounded once (`sheet_centre`).
#![tactic(auto)]

ghost use Rattle.std.specs.Prelude.{◌≡◌, ◌^◌, ◌≤◌, ◌<◌};
ghost use Rattle.quad.specs.Numbers.{top_level};
ghost use Rattle.table.specs.Table.{nodes};
ghost use Rattle.ground_centre.specs.HalfPixels.{half_pixels, middle_of};
ghost use Rattle.ground.specs.Ground.{within, range_of, reach_of, east_of, north_of};
ghost use Rattle.ground.specs.Call.{Centres};

use answer::{Outcome, Refusal};
use ground::{Ground, Middle};
use table::Sheet;

// The middle of a block along one axis, in half pixels: that of the block with this index among those of its level.
fn half_pixels(index: u32, level: u32) -> u32
    requires { (level ≤ top_level) × (index < 2 ^ top_level) }
    ensures { result ≡ half_pixels index level }
{
    (2 * index + 1) << level
}

// The centre of node p's block.
fn middle_of(sheet: &Sheet<'_>, p: usize) -> Middle
    requires { p < nodes sheet.now.table.now }
    ensures { result ≡ middle_of sheet.now.n sheet.now.table.now p }
{
    let b = table_node::block_of(sheet, p);
    let h = half_pixels(b.column, b.level);
    let k = half_pixels(b.row, b.level);
    Middle { h, k }
}

// low ≤ x ≤ high, never of a NaN.
#[tactic(auto, unfolding(ground::specs::Ground::within))]
fn in_range(low: f64, high: f64, x: f64) -> bool
    ensures { result ≡ within low high x }
{
    low <= x && x <= high
}

// The first number of a ground place that is out of range, if any is.
fn range(g: Ground) -> Outcome
    ensures { result ≡ range_of g }
{
    if !in_range(-16777216.0, 16777216.0, g.east) {
        return Err(Refusal::OutOfRange { which: 0 });
    }
    if !in_range(-16777216.0, 16777216.0, g.north) {
        return Err(Refusal::OutOfRange { which: 1 });
    }
    if !in_range(0.0009765625, 16384.0, g.step) {
        return Err(Refusal::OutOfRange { which: 2 });
    }
    Ok(0)
}

// How far from the origin, in ground units, a place h half pixels from the sheet's edge lies: the origin is one half
// pixel from it.
fn reach(g: Ground, h: u32) -> f64
    ensures { result ≡ reach_of g h }
{
    ((f64::from(h) - 1.0) / 2.0) * g.step
}

// How far east the centre h half pixels across lies.
#[tactic(auto, unfolding(ground::specs::Ground::east_of))]
fn east_of(g: Ground, h: u32) -> f64
    ensures { result ≡ east_of g h }
{
    g.east + reach(g, h)
}

// How far north the centre k half pixels down lies.
#[tactic(auto, unfolding(ground::specs::Ground::north_of))]
fn north_of(g: Ground, k: u32) -> f64
    ensures { result ≡ north_of g k }
{
    g.north - reach(g, k)
}

// The centre of a node's block on the ground, east first, in the first two numbers of `place`; the rest of it stays,
// and on a refusal all of it.
pub fn centre(n: u32, table: &[u32], node: u32, g: Ground, place: &mut [f64]) -> Outcome
    ensures { Centres n table.now node g place.old result place.new }
{
    table_check::asked(n, table, node)?;
    range(g)?;
    if place.len() < 2 {
        return Err(Refusal::NoRoom { needed: 2 });
    }
    let sheet = Sheet { n, table };
    let middle = middle_of(&sheet, node as usize);
    place[0] = east_of(g, middle.h);
    place[1] = north_of(g, middle.k);
    Ok(0)
}
