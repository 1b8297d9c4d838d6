// Building: a raster's table, its nodes counted first and then written in preorder (`sheet_build`).
#![tactic(auto)]

ghost use Rattle.std.specs.Prelude.{length, ◌≡◌, ◌-◌, ◌^◌, ◌≤◌};
ghost use Rattle.quad.specs.Numbers.{fork_type, none};
ghost use Rattle.quad.specs.Tree.{colour, tree_of};
ghost use Rattle.table.specs.Writing.{Ready, Put};
ghost use Rattle.raster.specs.Raster.{picture_of};
ghost use Rattle.raster.specs.Blocks.{OnSheet};
ghost use Rattle.raster.specs.Calls.{Building};
ghost use Rattle.raster_notes.specs.Notes.{Noted};
ghost use Rattle.raster_count.specs.Kinds.{Known};

use answer::{Outcome, Refusal};
use raster_check::readable;
use raster_count::Raster;
use raster_lanes::Pixels;
use raster_notes::{Notes, SLOTS};
use raster_put::{put_four, put_sixteen};
use table_node::put_leaf;

// Writes a fork above level 2, its nodes from p on, and gives the next node. Each son's number is written before the
// son's part, and the type last; a son that is a leaf is written here, and so is one of level 2, without a call.
fn put_fork(
    raster: &Raster<'_>,
    level: u32,
    x: usize,
    y: usize,
    slot: usize,
    slots: usize,
    kinds: &Notes,
    table: &mut [u32],
    p: u32,
    father: u32,
) -> u32
    requires { OnSheet raster.now.n level x y × (3 ≤ level)
        × (colour (tree_of (picture_of raster.now.n raster.now.pixels.bytes.now) level x y) ≡ fork_type)
        × Ready (tree_of (picture_of raster.now.n raster.now.pixels.bytes.now) level x y) p (length table.old)
        × Known raster.now.n raster.now.pixels.bytes.now kinds.now level x y slot slots }
    ensures { Put (tree_of (picture_of raster.now.n raster.now.pixels.bytes.now) level x y) father p table.old table.new result }
{
    let half = level - 1;
    let apart = slots / 4;
    let own = 6 * (p as usize);
    table[own] = father;
    let mut next = p + 1;
    for q in 0..4 {
        table[own + 1 + q] = next;
        let u = 2 * x + q % 2;
        let v = 2 * y + q / 2;
        let its = slot + 1 + q * apart;
        if half == 2 {
            next = put_sixteen(raster, u, v, table, next, p);
        } else {
            let kind = kinds[its];
            if kind == quad::FORK as u32 {
                next = put_fork(raster, half, u, v, its, apart, kinds, table, next, p);
            } else {
                put_leaf(table, next as usize, p, kind);
                next += 1;
            }
        }
    }
    table[own + 5] = quad::FORK as u32;
    next
}

// Writes a sheet whose types are noted, and gives its node count.
fn put(raster: &Raster<'_>, kinds: &Notes, table: &mut [u32]) -> u32
    requires { Noted raster.now.pixels.bytes.now (2 ^ raster.now.n) kinds.now (raster.now.n - 3) raster.now.n 0 0
        × Ready (tree_of (picture_of raster.now.n raster.now.pixels.bytes.now) raster.now.n 0 0) 0 (length table.old) }
    ensures { Put (tree_of (picture_of raster.now.n raster.now.pixels.bytes.now) raster.now.n 0 0) none 0 table.old table.new result }
{
    let nobody = quad::NONE as u32;
    let kind = kinds[0];
    if kind != quad::FORK as u32 {
        put_leaf(table, 0, nobody, kind);
        return 1;
    }
    match raster.n {
        1 => put_four(raster, 0, 0, table, 0, nobody),
        2 => put_sixteen(raster, 0, 0, table, 0, nobody),
        _ => {
            let slots = raster_large::slots(raster.n);
            put_fork(raster, raster.n, 0, 0, 0, slots, kinds, table, 0, nobody)
        },
    }
}

// Building: for any level, any bytes and any table, the preorder table of the raster's one tree at the table's start
// and its node count, or the first refusal and the table as it was.
pub fn build(n: u32, raster: &[u8], table: &mut [u32]) -> Outcome
    ensures { Building n raster.now table.old result table.new }
{
    readable(n, raster)?;
    let raster = Raster {
        n,
        pixels: Pixels {
            bytes: raster,
            across: quad::side(n) as usize,
        },
    };
    let mut kinds: Notes = [0; SLOTS];
    let nodes = raster.count(&mut kinds);
    let needed = 6 * nodes;
    if table.len() < needed as usize {
        return Err(Refusal::NoRoom { needed });
    }
    Ok(put(&raster, &kinds, table))
}
