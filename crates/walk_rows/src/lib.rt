// What the whole walk gives: rows, runs and links.
#![tactic(auto)]

ghost use Rattle.std.specs.Prelude.{◌≡◌, ◌+◌, ◌<◌, ◌≤◌};
ghost use Rattle.walk_rows.specs.Rows.{moves};

use walk::Answer;

// The links followed so far, with one more for a Moved.
pub fn with_link(links: u32, answer: Answer) -> u32
    requires { links < 4294967295 }
    ensures { (result ≡ links + moves answer) × (result ≤ links + 1) }
{
    links + matches!(answer, Answer::Moved) as u32
}
