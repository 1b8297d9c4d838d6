// The ponds' numbers by rows, from their leaders.
#![tactic(auto)]

ghost use Rattle.std.specs.Prelude.{◌≡◌};
ghost use Rattle.ponds_sets.specs.Labelled.{Labelled};
ghost use Rattle.ponds_ranks.specs.Counts.{Row, RowOff, Rows, RowsOff};
ghost use Rattle.ponds_ranks.specs.Ranked.{Ranked};
ghost use Rattle.ponds_queues.specs.Words.{next_of, Tracing, Traced, Ending, Settled, Finishing, Finished};

use ponds_join::LEADING;
use ponds_queues::{ROWS, stand_fork};

// Counts a row's leaders off, from the first of its queue on: each word becomes its leader's number. Gives how many
// there are with those before.
fn count_row(words: &mut [u32], first: u32, before: u32) -> u32
    requires { Row words.old first before }
    ensures { RowOff words.old first before result words.new }
{
    let mut count = before;
    let mut at = first;
    while at != 0 {
        let p = at as usize;
        at = words[p];
        count += 1;
        words[p] = LEADING + count;
    }
    count
}

// Counts off the leaders of every row, row by row. Gives how many there are.
fn count_rows(words: &mut [u32], rows: &[u32; ROWS], side: usize) -> u32
    requires { Rows words.old rows.now side }
    ensures { RowsOff words.old rows.now side result words.new }
{
    let mut count = 0;
    for first in &rows[..side] {
        count = count_row(words, *first, count);
    }
    count
}

// The node to look at first on p's way: that of its word, or p itself where the word is a leader's.
#[tactic(auto, unfolding(ponds_queues::specs::Words::next_of))]
fn next(word: u32, p: usize) -> usize
    ensures { result ≡ next_of word p }
{
    if word < LEADING { word as usize } else { p }
}

// The leader's word that a word leads to.
fn follow(words: &[u32], word: u32) -> u32
    requires { Tracing words.now word }
    ensures { Traced words.now word result }
{
    let mut at = word;
    while at < LEADING {
        at = words[at as usize];
    }
    at
}

// Every word becomes the leader's word that it leads to. Two steps of each way are gone without a test, as few ways are
// longer, and nothing tells beforehand which are shorter.
fn settle(words: &mut [u32])
    requires { Ending words.old }
    ensures { Settled words.old words.new }
{
    for p in 0..words.len() {
        let one = next(words[p], p);
        let two = next(words[one], one);
        let word = words[two];
        words[p] = follow(words, word);
    }
}

// Takes the leaders' mark off every word: what is left is a number.
fn finish(words: &mut [u32])
    requires { Finishing words.old }
    ensures { Finished words.old words.new }
{
    for word in words.iter_mut() {
        *word -= LEADING;
    }
}

// The numbers of the ponds whose leaders the words tell. Gives how many there are.
pub fn number(n: u32, table: &[u32], words: &mut [u32]) -> u32
    requires { Labelled n table.now words.old }
    ensures { Ranked n table.now words.new result }
{
    let mut rows: [u32; ROWS] = [0; ROWS];
    stand_fork(table, words, &mut rows, 0, n, 0);
    let count = count_rows(words, &rows, quad::side(n) as usize);
    words[0] = LEADING;
    settle(words);
    finish(words);
    count
}
