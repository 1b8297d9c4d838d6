// What the worked-case programs share: the parts of a printed line, parts of a slice, pictures, tables with the calls
// that are asked of them, and sheet A.
#![tactic(auto)]

pub mod parts;
pub mod pictures;
pub mod say;
pub mod sheet_a;
pub mod tables;
