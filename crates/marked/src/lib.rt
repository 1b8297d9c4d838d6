// Document 01's marked cases (a) to (l), one table under one theorem. Definitions and proofs only.
#![tactic(auto)]
