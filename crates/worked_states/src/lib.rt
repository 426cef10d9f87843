//! Partial states, literals, nogoods and pieces of worked models: what is told of them and what
//! changes them, worked out by hand.
#![tactic(auto)]

#[cfg(test)]
mod changes;
#[cfg(test)]
mod first_state;
#[cfg(test)]
mod generations;
#[cfg(test)]
mod going_back;
#[cfg(test)]
mod literals;
#[cfg(test)]
mod nogoods;
#[cfg(test)]
mod pieces;
#[cfg(test)]
mod removals;
