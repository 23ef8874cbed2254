//! Tests of queries: their texts, the lines that they select, merges, and pages. What no clause
//! states, and values from standards or worked out by hand.
#![tactic(auto)]

#[cfg(test)]
mod calls;
#[cfg(test)]
mod conversations;
#[cfg(test)]
mod faults;
#[cfg(test)]
mod matching;
#[cfg(test)]
mod merges;
#[cfg(test)]
mod options;
#[cfg(test)]
mod pages;
#[cfg(test)]
mod refusals;
#[cfg(test)]
mod small_indexes;
#[cfg(test)]
mod sources;
#[cfg(test)]
mod targets;
