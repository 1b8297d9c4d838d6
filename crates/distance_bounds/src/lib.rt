// What bounds a distance: document 001's Theorem 1, and between which numbers a black leaf's distance lies. Theorems
// alone.
#![tactic(auto)]
