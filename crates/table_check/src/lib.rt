// The check (`sheet_check`), and the tests that every other call begins with. A sound table is accepted by a fast way,
// and only another one is gone through for the name of its fault.
#![tactic(auto)]

ghost use Rattle.std.specs.Prelude.{◌≡◌};
ghost use Rattle.table.specs.Rules.{faults_of, length_ok, sizes_of, check_of, each_node_of, asked_of, Sized};

use answer::{Outcome, Refusal};
use table_node::node_count;
use table_rules::first_fault;

// The first fault, or the node count. A sound table is accepted by a faster way, and only one that is not is gone
// through node by node. Taken in where it is called: an outcome handed back by a call goes through memory.
#[inline(always)]
pub fn faults(n: u32, table: &[u32]) -> Outcome
    requires { Sized n table.now }
    ensures { result ≡ faults_of n table.now }
{
    if table_seen::sound(n, table) {
        return Ok(node_count(table) as u32);
    }
    first_fault(n, table)
}

// Whether the length is a positive multiple of 6, at most the longest table's.
#[tactic(auto, unfolding(table::specs::Rules::length_ok))]
fn length_ok(table: &[u32]) -> bool
    ensures { result ≡ length_ok table.now }
{
    !table.is_empty() && table.len() == 6 * node_count(table) && table.len() <= quad::MAX_WORDS
}

// The tests for 1 and 2.
pub fn sizes(n: u32, table: &[u32]) -> Outcome
    ensures { result ≡ sizes_of n table.now }
{
    if quad::TOP_LEVEL < n {
        return Err(Refusal::BadLevel { place: 0 });
    }
    if !length_ok(table) {
        return Err(Refusal::WrongLength { which: 0 });
    }
    Ok(0)
}

// The check: for any level and any words, the node count or the first refusal. Taken in as `faults` is.
#[inline(always)]
pub fn check(n: u32, table: &[u32]) -> Outcome
    ensures { result ≡ check_of n table.now }
{
    sizes(n, table)?;
    faults(n, table)
}

// The tests of a call that is lent one word for each node: 1, 2 (the table, then the words), the check.
pub fn each_node(n: u32, table: &[u32], words: usize) -> Outcome
    ensures { result ≡ each_node_of n table.now words }
{
    sizes(n, table)?;
    if words != node_count(table) {
        return Err(Refusal::WrongLength { which: 1 });
    }
    faults(n, table)
}

// The tests that every question about a node begins with: the check, and 6 for a node that is none of the table's.
pub fn asked(n: u32, table: &[u32], node: u32) -> Outcome
    ensures { result ≡ asked_of n table.now node }
{
    check(n, table)?;
    if node_count(table) <= node as usize {
        return Err(Refusal::NoNode { node });
    }
    Ok(0)
}
