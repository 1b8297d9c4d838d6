// The check's slow way, which names the fault: the six rules of document 01 for each node, nodes in rising number.
#![tactic(auto)]

ghost use Rattle.std.specs.Prelude.{◌≡◌, true, ◌+◌, ◌<◌, ◌≤◌, eqb, length};
ghost use Rattle.quad.specs.Numbers.{max_words};
ghost use Rattle.table.specs.Table.{nodes, father, son};
ghost use Rattle.table.specs.Rules.{all_of, one, type_ok, father_ok, once_ok, son_ok, word_ok, sons_ok, depth_ok, son_alike};
ghost use Rattle.table.specs.Rules.{mixed_ok, fault_at, obeyed, faults_of};
ghost use Rattle.table.specs.Links.{Rising, SonsIn};

use answer::{Outcome, Refusal};
use table_node::{depth_to, node_count, word_at};

// Rule 1.
fn type_ok(table: &[u32], p: usize) -> bool
    requires { p < nodes table.now }
    ensures { result ≡ type_ok table.now p }
{
    quad::is_type(word_at(table, p, 5))
}

// Rule 2.
#[tactic(auto, unfolding(table::specs::Rules::father_ok))]
fn father_ok(table: &[u32], p: usize) -> bool
    requires { p < nodes table.now }
    ensures { result ≡ father_ok table.now p }
{
    let father = word_at(table, p, 0);
    if p == 0 {
        father == quad::NONE
    } else {
        father < p
    }
}

// 1 where son q of father is p, else 0.
fn names(table: &[u32], father: usize, q: usize, p: usize) -> u32
    requires { (father < nodes table.now) × (q < 4) }
    ensures { (result ≡ one (eqb (son table.now father q) p)) × (result ≤ 1) }
{
    (word_at(table, father, 1 + q) == p) as u32
}

// Rule 3.
fn once_ok(table: &[u32], p: usize) -> bool
    requires { (p < nodes table.now) × Rising table.now (p + 1) }
    ensures { result ≡ once_ok table.now p }
{
    if p == 0 {
        return true;
    }
    let father = word_at(table, p, 0);
    let nw = names(table, father, 0, p);
    let ne = names(table, father, 1, p);
    let sw = names(table, father, 2, p);
    let se = names(table, father, 3, p);
    nw + ne + sw + se == 1
}

// Rule 4 for one son of a fork.
#[tactic(auto, unfolding(table::specs::Rules::son_ok))]
fn son_ok(table: &[u32], p: usize, q: usize) -> bool
    requires { (p < nodes table.now) × (q < 4) }
    ensures { result ≡ son_ok table.now p q }
{
    let son = word_at(table, p, 1 + q);
    p < son && son < node_count(table) && word_at(table, son, 0) == p
}

// Rule 4 for one son word.
#[tactic(auto, unfolding(table::specs::Rules::word_ok))]
fn word_ok(table: &[u32], p: usize, q: usize) -> bool
    requires { (p < nodes table.now) × (q < 4) }
    ensures { result ≡ word_ok table.now p q }
{
    if word_at(table, p, 5) == quad::FORK {
        son_ok(table, p, q)
    } else {
        word_at(table, p, 1 + q) == quad::NONE
    }
}

// Rule 4.
fn sons_ok(table: &[u32], p: usize) -> bool
    requires { p < nodes table.now }
    ensures { result ≡ sons_ok table.now p }
{
    for q in 0..4 {
        if !word_ok(table, p, q) {
            return false;
        }
    }
    true
}

// Rule 5.
#[tactic(auto, unfolding(table::specs::Rules::depth_ok))]
fn depth_ok(n: u32, table: &[u32], p: usize) -> bool
    requires { (p < nodes table.now) × Rising table.now (p + 1) }
    ensures { result ≡ depth_ok n table.now p }
{
    word_at(table, p, 5) != quad::FORK || depth_to(table, n, p) < n
}

// Whether the four sons of a fork have the type of the first.
fn sons_alike(table: &[u32], p: usize) -> bool
    requires { (p < nodes table.now) × SonsIn table.now p }
    ensures { result ≡ all_of (son_alike table.now p) 4 0 }
{
    let first = word_at(table, p, 1);
    let kind = word_at(table, first, 5);
    for q in 0..4 {
        let son = word_at(table, p, 1 + q);
        if word_at(table, son, 5) != kind {
            return false;
        }
    }
    true
}

// Rule 6.
fn mixed_ok(table: &[u32], p: usize) -> bool
    requires { (p < nodes table.now) × (sons_ok table.now p ≡ true) }
    ensures { result ≡ mixed_ok table.now p }
{
    if word_at(table, p, 5) != quad::FORK {
        return true;
    }
    if !sons_alike(table, p) {
        return true;
    }
    let first = word_at(table, p, 1);
    quad::TOP_COLOUR < word_at(table, first, 5)
}

// Rules 1 to 6 in their order: node p's first fault, if it has one.
fn obey(n: u32, table: &[u32], p: usize) -> Result<(), Refusal>
    requires { (p < nodes table.now) × Rising table.now p × (length table.now ≤ max_words) }
    ensures { result ≡ obeyed (fault_at n table.now p) p }
{
    let node = p as u32;
    if !type_ok(table, p) {
        return Err(Refusal::BadNode { node });
    }
    if !father_ok(table, p) {
        return Err(Refusal::BadNode { node });
    }
    if !once_ok(table, p) {
        return Err(Refusal::BadNode { node });
    }
    if !sons_ok(table, p) {
        return Err(Refusal::BadNode { node });
    }
    if !depth_ok(n, table, p) {
        return Err(Refusal::TooDeep { at: node });
    }
    if !mixed_ok(table, p) {
        return Err(Refusal::NeedlessFork { at: node });
    }
    Ok(())
}

// The six rules over all nodes in rising number: the first fault, or the node count. Called only where there is a fault.
#[cold]
#[inline(never)]
pub fn first_fault(n: u32, table: &[u32]) -> Outcome
    requires { length table.now ≤ max_words }
    ensures { result ≡ faults_of n table.now }
{
    let count = node_count(table);
    for p in 0..count {
        obey(n, table, p)?;
    }
    Ok(count as u32)
}
