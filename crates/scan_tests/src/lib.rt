//! Tests of queries over archives that have no index, and of the callers of the library's doors: what
//! no clause states, and values from standards or worked out by hand.
#![tactic(auto)]

#[cfg(test)]
mod doors;
#[cfg(test)]
mod faults;
#[cfg(test)]
mod pages;
#[cfg(test)]
mod runs;
