// Accepting a sound table that stands in preorder, as building and reading write it: a fork's NW son is the next node,
// and each other son the one after all that is below its brother, so each node's number is known before it is read. A
// table in another order, or of level 1, is left to `table_seen`.
#![tactic(auto)]

ghost use Rattle.std.specs.Prelude.{◌≡◌, true, ◌+◌, ◌*◌, ◌<◌, ◌≤◌, length, IfSome, None};
ghost use Rattle.table_order.specs.Order.{two_are, leaf_from, pixels_from, ForkOf, Named, needless_fork, Ordered};

use table_node::{four_sons, word_at};
use table_sound::are_like;

// Two words as one number, the first below what the second counts: one load and one comparison, where two words compared
// as an array or a slice are two, or a call.
fn joined(first: u32, second: u32) -> u64
    ensures { (result ≡ first + 4294967296 * second) × (first < 4294967296) }
{
    u64::from(first) + 4294967296 * u64::from(second)
}

// Whether the two words from i on are these: one comparison for both.
#[tactic(auto, using(crate::proofs::OrderLaws::two_joined))]
fn two_are(table: &[u32], i: usize, first: u32, second: u32) -> bool
    requires { i + 2 ≤ length table.now }
    ensures { result ≡ two_are table.now i first second }
{
    joined(table[i], table[i + 1]) == joined(first, second)
}

// Whether the six words from i on are those of a leaf of that father.
#[tactic(auto, unfolding(crate::specs::Order::leaf_from))]
fn is_leaf_of(table: &[u32], i: usize, father: u32) -> bool
    requires { i + 6 ≤ length table.now }
    ensures { result ≡ leaf_from table.now i father }
{
    let none = quad::NONE as u32;
    table[i + 5] <= quad::TOP_COLOUR as u32
        && two_are(table, i, father, none)
        && two_are(table, i + 2, none, none)
        && table[i + 4] == none
}

// Whether a fork's sons are four pixels that stand in order, the five nodes from p on.
#[tactic(auto, unfolding(crate::specs::Order::pixels_from))]
fn pixels(table: &[u32], count: u32, p: u32) -> bool
    requires { ForkOf table.now count p }
    ensures { result ≡ pixels_from table.now count p }
{
    let fork = p as usize;
    let i = 6 * fork;
    p + 5 <= count
        && two_are(table, i + 1, p + 1, p + 2)
        && two_are(table, i + 3, p + 3, p + 4)
        && is_leaf_of(table, i + 6, p)
        && is_leaf_of(table, i + 12, p)
        && is_leaf_of(table, i + 18, p)
        && is_leaf_of(table, i + 24, p)
        && !are_like(table, [fork + 1, fork + 2, fork + 3, fork + 4])
}

// Whether the sons of fork p are four like leaves, given the node after all that is below it: where that is not the
// fifth, one of them is a fork.
#[tactic(auto, unfolding(crate::specs::Order::needless_fork))]
fn needless(table: &[u32], p: u32, next: u32) -> bool
    requires { Named table.now p }
    ensures { result ≡ needless_fork table.now p next }
{
    next == p + 5 && are_like(table, four_sons(table, p as usize))
}

// No node: what stands beyond a table's end. A call, so that the tests before it have one way out in common: with `None`
// each of them first sets both words of an Option, and the check takes a tenth to a quarter more (bench/SPEED.md).
#[cold]
#[inline(never)]
fn beyond(table: &[u32], at: usize) -> Option<u32>
    requires { length table.now ≤ at }
    ensures { result ≡ None }
{
    table.get(at).copied()
}

// The node after all that is below fork p, which is above level 1, where it stands in order and as the rules want it,
// and there is room for those that are still to come. A son that is a leaf, or a fork of four pixels, is passed here,
// without a call.
pub fn in_order(table: &[u32], count: u32, level: u32, p: u32) -> Option<u32>
    requires { ForkOf table.now count p × (2 ≤ level) }
    ensures { IfSome result (Ordered table.now level p) }
{
    if count - p < 5 {
        return beyond(table, table.len());
    }
    let fork = p as usize;
    let mut next = p + 1;
    for q in 0..4 {
        let son = next as usize;
        if word_at(table, fork, 1 + q) != son {
            return beyond(table, table.len());
        }
        if word_at(table, son, 5) == quad::FORK {
            if word_at(table, son, 0) != fork {
                return beyond(table, table.len());
            }
            if level == 2 {
                if !pixels(table, count, next) {
                    return beyond(table, table.len());
                }
                next += 5;
            } else {
                let Some(after) = in_order(&*table, count, level - 1, next) else {
                    return beyond(table, table.len());
                };
                next = after;
            }
            if count + (q as u32) < next + 3 {
                return beyond(table, table.len());
            }
        } else if is_leaf_of(table, 6 * son, p) {
            next += 1;
        } else {
            return beyond(table, table.len());
        }
    }
    if needless(table, p, next) {
        return beyond(table, table.len());
    }
    Some(next)
}
