// The words as sets of leaves, and the lines beside which they are joined: definitions and laws.
#![tactic(auto)]
