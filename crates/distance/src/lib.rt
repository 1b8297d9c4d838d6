// The chessboard distance to the nearest white pixel.
#![tactic(auto)]
