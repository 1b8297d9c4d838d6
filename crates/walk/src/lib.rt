// The row walk: a place goes in by value, and the next place comes back beside the answer.
#![tactic(auto, using(crate::proofs::StepLaws::tests), unfolding(crate::specs::Walk::bad_place, crate::specs::Walk::inside_of, crate::specs::Walk::outside_of, crate::specs::Walk::step_of))]

ghost use Rattle.std.specs.Prelude.{◌≡◌, true, ◌<◌, ◌≤◌, ◌^◌};
ghost use Rattle.quad.specs.Numbers.{top_level, fork_type};
ghost use Rattle.table.specs.Table.{node_type};
ghost use Rattle.table.specs.Rules.{Sized};
ghost use Rattle.walk.specs.Walk.{start, refuse, bad_place, spans, inside_of, outside_of, step_of, Steps};
ghost use Rattle.walk.specs.Good.{Good};

use answer::Refusal;
use table_check::sizes;
use table_node::{node_count, word_at};

// Where a walk stands: the sheet's level, a node with its level and the left column of its block, and the next pixel.
#[derive(Clone, Copy)]
pub struct Place {
    pub n: u32,
    pub node: u32,
    pub level: u32,
    pub left: u32,
    pub x: u32,
    pub y: u32,
}

// A step's answer is one of five kinds.
#[derive(Clone, Copy)]
pub enum Answer {
    // To the next place's node, along a father or a son link.
    Moved,
    // A leaf's part of the row: its colour and width.
    Run { colour: u32, width: u32 },
    EndRow,
    // Every row was given.
    Done,
    // The place or the table is refused, and the place is handed back.
    Refused { code: u32, value: u32 },
}

#[derive(Clone, Copy)]
pub struct Stepped {
    pub place: Place,
    pub answer: Answer,
}

// The start place of a sheet of level n.
pub fn start(n: u32) -> Place
    ensures { result ≡ start n }
{
    Place {
        n,
        node: 0,
        level: n,
        left: 0,
        x: 0,
        y: 0,
    }
}

// A refused step hands back the place it was given.
fn refused(p: Place, refusal: Refusal) -> Stepped
    ensures { result ≡ refuse p (Err refusal) }
{
    Stepped {
        place: p,
        answer: Answer::Refused {
            code: refusal.code(),
            value: refusal.value(),
        },
    }
}

// Whether the place is none, for a table of count nodes.
fn bad_place(p: Place, count: usize) -> bool
    requires { p.n ≤ top_level }
    ensures { result ≡ bad_place count p }
{
    let whole = quad::side(p.n);
    p.n < p.level
        || count <= p.node as usize
        || whole < p.x
        || whole < p.y
        || p.left % quad::side(p.level) != 0
        || whole - quad::side(p.level) < p.left
}

// Whether the columns of the place's block hold x.
fn spans_x(p: Place) -> bool
    requires { p.level ≤ top_level }
    ensures { result ≡ spans p }
{
    p.left <= p.x && p.x - p.left < quad::side(p.level)
}

// At a fork whose columns hold x: to the son whose quarter holds (x, y).
fn down(p: Place, table: &[u32]) -> Stepped
    requires { Good table.now p × (node_type table.now p.node ≡ fork_type) × (0 < p.level) }
    ensures { result ≡ inside_of table.now p }
{
    let level = p.level - 1;
    let half = quad::side(level);
    let east = p.x / half % 2;
    let south = p.y / half % 2;
    let son = word_at(table, p.node as usize, (1 + (east + 2 * south)) as usize);
    if node_count(table) <= son {
        return refused(p, Refusal::BadPlace);
    }
    Stepped {
        place: Place {
            node: son as u32,
            level,
            left: p.left + east * half,
            ..p
        },
        answer: Answer::Moved,
    }
}

// At a node whose columns hold x: a leaf's run, or down to a son.
fn inside(p: Place, table: &[u32]) -> Stepped
    requires { Good table.now p × (spans p ≡ true) }
    ensures { result ≡ inside_of table.now p }
{
    let kind = word_at(table, p.node as usize, 5);
    if kind <= quad::TOP_COLOUR {
        let end = p.left + quad::side(p.level);
        return Stepped {
            place: Place { x: end, ..p },
            answer: Answer::Run {
                colour: kind as u32,
                width: end - p.x,
            },
        };
    }
    if kind != quad::FORK || p.level == 0 {
        return refused(p, Refusal::BadPlace);
    }
    down(p, table)
}

// Past its columns: the row's end at the root's level, else up to the father.
fn outside(p: Place, table: &[u32]) -> Stepped
    requires { Good table.now p × (p.y < 2 ^ p.n) }
    ensures { result ≡ outside_of table.now p }
{
    let level = p.level;
    if level == p.n {
        return Stepped {
            place: Place {
                x: 0,
                y: p.y + 1,
                ..p
            },
            answer: Answer::EndRow,
        };
    }
    let father = word_at(table, p.node as usize, 0);
    if node_count(table) <= father {
        return refused(p, Refusal::BadPlace);
    }
    let above = quad::side(level + 1);
    Stepped {
        place: Place {
            node: father as u32,
            level: level + 1,
            left: p.left - p.left % above,
            ..p
        },
        answer: Answer::Moved,
    }
}

// A step in a table of good length.
fn step_in(p: Place, table: &[u32]) -> Stepped
    requires { Sized p.n table.now }
    ensures { result ≡ step_of table.now p }
{
    if bad_place(p, node_count(table)) {
        return refused(p, Refusal::BadPlace);
    }
    if p.y == quad::side(p.n) {
        return Stepped {
            place: p,
            answer: Answer::Done,
        };
    }
    if spans_x(p) {
        return inside(p, table);
    }
    outside(p, table)
}

impl Place {
    // One step: it looks at the table's length, the place and the words of the place's node, whatever they are.
    pub fn step(self, table: &[u32]) -> Stepped
        ensures { Steps table.now self result }
    {
        match sizes(self.n, table) {
            Ok(_) => step_in(self, table),
            Err(refusal) => refused(self, refusal),
        }
    }
}
