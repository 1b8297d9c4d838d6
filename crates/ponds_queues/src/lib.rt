// The leaders of the ponds' sets stand in queues, one for each row of the sheet.
#![tactic(auto)]

ghost use Rattle.std.specs.Prelude.{◌≡◌};
ghost use Rattle.ponds_queues.specs.Queues.{linked_of, head_of, Room, Stood, Reached, Through};

use ponds_join::LEADING;
use table_node::word_at;

// The widest sheet has so many rows, 2 ^ TOP_LEVEL.
pub const ROWS: usize = 128;

// A leader's word becomes the next leader in its row, any other stays.
#[tactic(auto, unfolding(crate::specs::Queues::linked_of))]
fn linked(word: u32, next: u32) -> u32
    ensures { result ≡ linked_of word next }
{
    if word < LEADING { word } else { next }
}

// The head of a row's queue once p, whose word this is, has gone there if it leads.
#[tactic(auto, unfolding(crate::specs::Queues::head_of))]
fn head(word: u32, p: u32, first: u32) -> u32
    ensures { result ≡ head_of word p first }
{
    if word < LEADING { first } else { p }
}

// Leaf p goes before the first of a row's queue where it leads. Gives the first one then. No branch depends on whether
// it does, which a processor cannot foretell.
fn stand(words: &mut [u32], p: usize, first: u32) -> u32
    requires { Room words.old p }
    ensures { Stood words.old p first words.new result }
{
    let word = words[p];
    words[p] = linked(word, first);
    head(word, p as u32, first)
}

// The four pixels of a fork of level 1, the last first.
fn stand_pixels(table: &[u32], words: &mut [u32], rows: &mut [u32; ROWS], p: usize, y: usize)
    requires { Reached table.now words.old rows.old p 1 y }
    ensures { Through table.now words.old rows.old p 1 y words.new
        rows.new }
{
    let se = stand(words, word_at(table, p, 4), rows[y + 1]);
    rows[y + 1] = stand(words, word_at(table, p, 3), se);
    let ne = stand(words, word_at(table, p, 2), rows[y]);
    rows[y] = stand(words, word_at(table, p, 1), ne);
}

// The leaves under fork p, whose block begins in row y, the last first. A son that is marked has no leader under it; of
// four pixels that is not asked, as going through them costs less than a branch foretold wrongly.
pub fn stand_fork(
    table: &[u32],
    words: &mut [u32],
    rows: &mut [u32; ROWS],
    p: usize,
    level: u32,
    y: usize,
)
    requires { Reached table.now words.old rows.old p level y }
    ensures { Through table.now words.old rows.old p level y
        words.new rows.new }
{
    let half = level - 1;
    for q in (0..4).rev() {
        let son = word_at(table, p, 1 + q);
        let top = y + (q / 2 << half);
        if word_at(table, son, 5) == quad::FORK {
            if half == 1 {
                stand_pixels(&*table, words, rows, son, top);
            } else if words[son] == 0 {
                stand_fork(&*table, words, rows, son, half, top);
            }
        } else {
            rows[top] = stand(words, son, rows[top]);
        }
    }
}
