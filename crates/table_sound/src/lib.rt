// When a table is sound, as the two fast ways find it: all nodes are seen from the root. That these are exactly the
// accepted tables is proved here (`SoundExactly`).
#![tactic(auto)]

ghost use Rattle.std.specs.Prelude.{◌≡◌};
ghost use Rattle.table_sound.specs.Seen.{AllNodes, like_leaves};

use table_node::word_at;

// Whether four nodes are like leaves.
pub fn are_like(table: &[u32], sons: [usize; 4]) -> bool
    requires { AllNodes table.now sons }
    ensures { result ≡ like_leaves table.now sons }
{
    let [nw, ne, sw, se] = sons;
    quad::like_leaves(
        word_at(table, nw, 5),
        word_at(table, ne, 5),
        word_at(table, sw, 5),
        word_at(table, se, 5),
    )
}
