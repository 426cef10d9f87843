//! Laws of lists, places, masks and numbers, on which the other crates stand. It has no code.
#![tactic(auto)]
