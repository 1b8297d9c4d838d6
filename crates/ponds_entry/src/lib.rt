// An entry of the register, by value and in words.
#![tactic(auto)]

ghost use Rattle.std.specs.Prelude.{◌≡◌, length, ◌+◌, ◌*◌, ◌≤◌, ◌<◌};
ghost use Rattle.ponds_entry.specs.Gathered.{empty_pond, grown_of, Fitting};
ghost use Rattle.ponds_entry.specs.Words.{pond_at, put_at};
ghost use Rattle.ponds_entry.specs.Under.{quarter_of, Parted};

use ponds::Pond;
use table::Block;

// The entry of a pond that has no pixel yet.
pub fn empty() -> Pond
    ensures { result ≡ empty_pond }
{
    let none = quad::NONE as u32;
    Pond {
        pixels: 0,
        top: none,
        bottom: 0,
        left: none,
        right: 0,
    }
}

// The entry with one block more.
pub fn grown(e: Pond, b: Block) -> Pond
    requires { Fitting e b }
    ensures { result ≡ grown_of e b }
{
    let side = quad::side(b.level);
    let top = b.row * side;
    let left = b.column * side;
    Pond {
        pixels: e.pixels + side * side,
        top: e.top.min(top),
        bottom: e.bottom.max(top + (side - 1)),
        left: e.left.min(left),
        right: e.right.max(left + (side - 1)),
    }
}

// Entry i of the register.
#[tactic(auto, unfolding(crate::specs::Words::pond_at))]
pub fn entry_at(reg: &[u32], i: usize) -> Pond
    requires { 5 * i + 5 ≤ length reg.now }
    ensures { result ≡ pond_at reg.now i }
{
    let at = 5 * i;
    Pond {
        pixels: reg[at],
        top: reg[at + 1],
        bottom: reg[at + 2],
        left: reg[at + 3],
        right: reg[at + 4],
    }
}

// Writes entry i of the register.
pub fn put_entry(reg: &mut [u32], i: usize, e: Pond)
    requires { 5 * i + 5 ≤ length reg.old }
    ensures { reg.new ≡ put_at reg.old i e }
{
    let at = 5 * i;
    reg[at] = e.pixels;
    reg[at + 1] = e.top;
    reg[at + 2] = e.bottom;
    reg[at + 3] = e.left;
    reg[at + 4] = e.right;
}

// Adds a block to entry i of the register.
pub fn grow_at(reg: &mut [u32], i: usize, b: Block)
    requires { (5 * i + 5 ≤ length reg.old) × Fitting (pond_at reg.old i) b }
    ensures { reg.new ≡ put_at reg.old i (grown_of (pond_at reg.old i) b) }
{
    let e = grown(entry_at(reg, i), b);
    put_entry(reg, i, e);
}

// Quadrant q of a block.
pub fn part(b: Block, q: usize) -> Block
    requires { Parted b × (q < 4) }
    ensures { result ≡ quarter_of b q }
{
    Block {
        column: 2 * b.column + (q % 2) as u32,
        row: 2 * b.row + (q / 2) as u32,
        level: b.level - 1,
    }
}
