// A table and its raster are one picture: what building and decoding give, and that each undoes the other.
#![tactic(auto)]
