// The types of blocks above level 4 noted, quarter by quarter, and so those of a whole sheet from level 3 up.
#![tactic(auto)]

ghost use Rattle.std.specs.Prelude.{◌≡◌, ◌+◌, ◌-◌, ◌≤◌, ◌<◌, ◌^◌, length};
ghost use Rattle.quad.specs.Numbers.{top_level};
ghost use Rattle.raster_notes.specs.Notes.{slots_of, part_at, NotedSize, joined_of, Lies};

use raster_lanes::Pixels;
use raster_notes::{Notes, SLOTS, eight, sixteen};

// The type of a block by its quarters'.
#[tactic(auto, unfolding(raster_notes::specs::Notes::joined_of))]
fn joined(nw: u32, ne: u32, sw: u32, se: u32) -> u32
    ensures { result ≡ joined_of nw ne sw se }
{
    if nw == ne && nw == sw && nw == se {
        nw
    } else {
        quad::FORK as u32
    }
}

// Where quadrant q begins of a block whose quarters have the side `half`.
fn part_at(across: usize, at: usize, half: usize, q: usize) -> usize
    requires { (q < 4) × (at ≤ 4 ^ top_level) × (half ≤ 2 ^ top_level) × (across ≤ 2 ^ top_level) }
    ensures { result ≡ part_at across at half q }
{
    at + q / 2 * half * across + q % 2 * half
}

// Notes a block above level 4, quarter by quarter, and gives its nodes. Only four quarters of one node each can be like
// leaves.
fn large(
    pixels: &Pixels<'_>,
    at: usize,
    level: u32,
    slot: usize,
    slots: usize,
    kinds: &mut Notes,
) -> u32
    requires { Lies pixels.now.bytes.now pixels.now.across at level × (5 ≤ level) × (level ≤ top_level) × (slots ≡ slots_of (level - 3))
        × (slot + slots ≤ SLOTS) }
    ensures { NotedSize pixels.now.bytes.now pixels.now.across at level slot kinds.old kinds.new result }
{
    let half = level - 1;
    let side = quad::side(half) as usize;
    let apart = slots / 4;
    let first = slot + 1;
    let mut nodes = 1;
    for q in 0..4 {
        let place = part_at(pixels.across, at, side, q);
        let its = first + q * apart;
        if half == 4 {
            nodes += sixteen(pixels, place, its, kinds);
        } else {
            nodes += large(pixels, place, half, its, apart, kinds);
        }
    }
    if nodes != 5 {
        kinds[slot] = quad::FORK as u32;
        return nodes;
    }
    let kind = joined(
        kinds[first],
        kinds[first + apart],
        kinds[first + 2 * apart],
        kinds[first + 3 * apart],
    );
    kinds[slot] = kind;
    if kind != quad::FORK as u32 {
        return 1;
    }
    nodes
}

// The slots of a sheet of level n, from level 3 up.
pub fn slots(n: u32) -> usize
    requires { n ≤ top_level }
    ensures { result ≡ slots_of (n - 3) }
{
    let mut slots = 1;
    for _level in 3..n {
        slots = 4 * slots + 1;
    }
    slots
}

// Notes a block from level 3 up, and counts its nodes.
pub fn block(
    pixels: &Pixels<'_>,
    at: usize,
    level: u32,
    slot: usize,
    slots: usize,
    kinds: &mut Notes,
) -> u32
    requires { Lies pixels.now.bytes.now pixels.now.across at level × (3 ≤ level) × (level ≤ top_level) × (slots ≡ slots_of (level - 3))
        × (slot + slots ≤ SLOTS) }
    ensures { NotedSize pixels.now.bytes.now pixels.now.across at level slot kinds.old kinds.new result }
{
    match level {
        3 => eight(pixels, at, pixels.eight_rows(at), slot, kinds),
        4 => sixteen(pixels, at, slot, kinds),
        _ => large(pixels, at, level, slot, slots, kinds),
    }
}
