// Accepting a sound table, in any numbering, in one pass from the root down: each fork is seen once, its level in hand,
// and its four sons are tested there. A node has one father word, so it is seen at most once; the table is sound if all
// its nodes are seen.
#![tactic(auto)]

ghost use Rattle.std.specs.Prelude.{◌≡◌, true, ◌<◌, ◌≤◌, eqb};
ghost use Rattle.quad.specs.Numbers.{top_level};
ghost use Rattle.table.specs.Table.{nodes, is_fork};
ghost use Rattle.table.specs.Rules.{Sized};
ghost use Rattle.table_sound.specs.Seen.{AllNodes, between, different, father_of, fork_ok, leaf_ok, seen_of, some_seen};
ghost use Rattle.table_sound.specs.Seen.{sound_of};

use table_node::{four_sons, node_count, word_at};
use table_sound::are_like;

// Whether all lie above p and below the count.
#[tactic(auto, unfolding(table_sound::specs::Seen::between))]
fn lie_between(p: usize, count: usize, sons: [usize; 4]) -> bool
    ensures { result ≡ between p count sons }
{
    sons.iter().all(|s| p < *s && *s < count)
}

// Whether no two are the same.
#[tactic(auto, unfolding(table_sound::specs::Seen::different))]
fn all_different(sons: [usize; 4]) -> bool
    ensures { result ≡ different sons }
{
    let [nw, ne, sw, se] = sons;
    nw != ne && nw != sw && nw != se && ne != sw && ne != se && sw != se
}

// Whether p is the father of all.
#[tactic(auto, unfolding(table_sound::specs::Seen::father_of))]
fn is_father(table: &[u32], p: usize, sons: [usize; 4]) -> bool
    requires { AllNodes table.now sons }
    ensures { result ≡ father_of table.now p sons }
{
    sons.iter().all(|s| word_at(table, *s, 0) == p)
}

// Whether a fork's sons are what they must be: different nodes above it whose father it is, and not four like leaves.
#[tactic(auto, using(table_sound::proofs::SeenLaws::between_nodes), unfolding(table_sound::specs::Seen::fork_ok))]
fn fork_ok(table: &[u32], count: usize, p: usize) -> bool
    requires { (p < nodes table.now) × (count ≡ nodes table.now) }
    ensures { result ≡ fork_ok table.now p }
{
    let sons = four_sons(table, p);
    lie_between(p, count, sons)
        && all_different(sons)
        && is_father(table, p, sons)
        && !are_like(table, sons)
}

// Whether a node is a leaf as the rules want it: of a leaf's type, its son words None.
#[tactic(auto, unfolding(table::specs::Links::four_sons, table_sound::specs::Seen::leaf_ok, table_sound::specs::Seen::all_are))]
fn leaf_ok(table: &[u32], p: usize) -> bool
    requires { p < nodes table.now }
    ensures { result ≡ leaf_ok table.now p }
{
    word_at(table, p, 5) <= quad::TOP_COLOUR && four_sons(table, p) == [quad::NONE; 4]
}

// The nodes seen from a fork downwards, itself among them, where nothing is wrong.
#[tactic(auto, using(table_sound::proofs::SeenLaws::nothing_seen))]
fn seen(table: &[u32], count: usize, level: u32, p: usize) -> Option<usize>
    requires { (p < nodes table.now) × (is_fork table.now p ≡ true) × (count ≡ nodes table.now)
        × (level ≤ top_level) }
    ensures { result ≡ some_seen (seen_of table.now level p) }
{
    if level == 0 || !fork_ok(table, count, p) {
        return None;
    }
    let mut all = 1;
    for q in 0..4 {
        let son = word_at(table, p, 1 + q);
        if word_at(table, son, 5) == quad::FORK {
            all += seen(&*table, count, level - 1, son)?;
        } else if leaf_ok(table, son) {
            all += 1;
        } else {
            return None;
        }
    }
    Some(all)
}

// Whether all nodes are seen from a root that is a fork. A table in preorder, above level 1, is gone through in order,
// and any other link by link. It stays a call, and `sound` is taken in: so a sheet of one leaf is accepted without a call.
#[tactic(auto, using(table_sound::proofs::SeenLaws::whole_seen))]
#[inline(never)]
fn all_seen(n: u32, table: &[u32]) -> bool
    requires { Sized n table.now × (is_fork table.now 0 ≡ true) }
    ensures { result ≡ eqb (nodes table.now) (seen_of table.now n 0) }
{
    let count = node_count(table);
    let all = count as u32;
    let in_order = 2 <= n
        && word_at(table, 0, 1) == 1
        && table_order::in_order(&*table, all, n, 0) == Some(all);
    in_order || seen(&*table, count, n, 0) == Some(count)
}

// Whether the table is sound: the root has no father, and all nodes are seen from it.
#[tactic(auto, using(table_sound::proofs::SeenLaws::sound_told))]
#[inline(always)]
pub fn sound(n: u32, table: &[u32]) -> bool
    requires { Sized n table.now }
    ensures { result ≡ sound_of n table.now }
{
    if word_at(table, 0, 0) != quad::NONE {
        return false;
    }
    if word_at(table, 0, 5) == quad::FORK {
        all_seen(n, table)
    } else {
        leaf_ok(table, 0) && node_count(table) == 1
    }
}
