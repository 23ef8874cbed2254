//! Tests of captures, and of the reports on archives and the indexes of them: what no clause
//! states, and values from standards or worked out by hand.
#![tactic(auto)]

#[cfg(test)]
mod blocks;
#[cfg(test)]
mod captures;
#[cfg(test)]
mod fetches;
#[cfg(test)]
mod indexes;
mod lengths;
#[cfg(test)]
mod prefixes;
#[cfg(test)]
mod reports;
