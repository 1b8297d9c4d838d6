// Tests, choices, lists and numbers that every crate above uses. Definitions and laws only; nothing here is about maps.
#![tactic(auto)]
