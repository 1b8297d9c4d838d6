// The nearest white pixel under a grey neighbour.
#![tactic(auto)]

ghost use Rattle.std.specs.Prelude.{◌≡◌, true, ◌<◌, ◌≤◌, min};
ghost use Rattle.quad.specs.Direction.{east_step, south_step};
ghost use Rattle.table.specs.Table.{is_fork};
ghost use Rattle.neighbour.specs.Search.{stay};
ghost use Rattle.distance_seek.specs.Around.{Beside};
ghost use Rattle.distance_seek.specs.Search.{near_quarter, next_quarter, NextWay, OtherWay, next_edge, offset_from};
ghost use Rattle.distance_seek.specs.Search.{Spot};

use table_node::word_at;

// By the direction in which a block is searched: its quarter at the near edges, and the quarter that is taken next.
const NEAR: [usize; 8] = [2, 0, 0, 1, 3, 2, 1, 0];

const NEXT: [usize; 8] = [3, 2, 1, 3, 1, 0, 3, 2];

// The direction in which that quarter is searched, and the one for the quarter opposite to it: a corner's quarters down
// and across lie beyond a side.
const NEXT_WAY: [usize; 8] = [0, 1, 2, 3, 0, 0, 2, 2];

const OTHER_WAY: [usize; 8] = [0, 1, 2, 3, 3, 1, 3, 1];

// The quarter of a block that lies nearest.
fn near_quarter(direction: usize) -> usize
    requires { direction < stay }
    ensures { result ≡ near_quarter (east_step direction) (south_step direction) }
{
    NEAR[direction]
}

// The quarter that lies nearest but for that one.
fn next_quarter(direction: usize) -> usize
    requires { direction < stay }
    ensures { result ≡ next_quarter (east_step direction) (south_step direction) }
{
    NEXT[direction]
}

// The direction in which the next quarter is searched.
fn next_way(direction: usize) -> usize
    requires { direction < stay }
    ensures { NextWay direction result }
{
    NEXT_WAY[direction]
}

// The direction in which the quarter opposite to the next one is searched.
fn other_way(direction: usize) -> usize
    requires { direction < stay }
    ensures { OtherWay direction result }
{
    OTHER_WAY[direction]
}

// Where the next quarter begins: beside the nearest one along a side, and farther on at a corner.
fn next_edge(direction: usize, at: u32, far: u32) -> u32
    ensures { result ≡ next_edge direction at far }
{
    if direction < 4 { at } else { far }
}

// The least of best and the offsets of the white pixels under node p, whose block begins at an offset: a white leaf's
// nearest pixel is there.
#[cycle(look_seek)]
fn look(table: &[u32], direction: usize, p: usize, level: u32, at: u32, best: u32) -> u32
    requires { Spot table.now level p at × (direction < stay) × (at ≤ best) }
    ensures { result ≡ min best (offset_from table.now direction level p at) }
{
    let kind = word_at(table, p, 5);
    if kind == 0 {
        return at;
    }
    if kind != quad::FORK {
        return best;
    }
    seek(&*table, direction, p, level, at, best)
}

// The least of the best and of the offsets of white under fork p, which begins at an offset: its quarters, the nearest
// first, until none that is left begins below the best.
#[cycle(look_seek)]
fn seek(table: &[u32], direction: usize, p: usize, level: u32, at: u32, best: u32) -> u32
    requires { Spot table.now level p at × (is_fork table.now p ≡ true) × (direction < stay) × (at ≤ best) }
    ensures { result ≡ min best (offset_from table.now direction level p at) }
{
    let m = level - 1;
    let far = at + quad::side(m);
    let near = near_quarter(direction);
    let first = word_at(table, p, 1 + near);
    let best1 = look(table, direction, first, m, at, best);
    let edge = next_edge(direction, at, far);
    if best1 <= edge {
        return best1;
    }
    let next = next_quarter(direction);
    let second = word_at(table, p, 1 + next);
    let best2 = look(table, next_way(direction), second, m, edge, best1);
    if best2 <= far {
        return best2;
    }
    let third = word_at(table, p, 1 + (3 - next));
    let best3 = look(table, other_way(direction), third, m, far, best2);
    if best3 <= far {
        return best3;
    }
    let last = word_at(table, p, 1 + (3 - near));
    look(table, direction, last, m, far, best3)
}

// The least of best and the offsets of the white pixels in a node that lies beside a block of that level. A leaf tells
// at once.
// Not a call of `look`, which would then be what calls itself, for leaves too: a search took twice the instructions.
pub fn beside(table: &[u32], node: u32, level: u32, direction: usize, best: u32) -> u32
    requires { Beside table.now level node × (direction < stay) }
    ensures { result ≡ min best (offset_from table.now direction level node 0) }
{
    let kind = word_at(table, node as usize, 5);
    if kind == 0 {
        return 0;
    }
    if kind != quad::FORK {
        return best;
    }
    seek(&*table, direction, node as usize, level, 0, best)
}
