//! Tests of keys, places, and the lines of indexes: what no clause states, and values from
//! standards or worked out by hand.
#![tactic(auto)]

#[cfg(test)]
mod foreign;
#[cfg(test)]
mod keys;
#[cfg(test)]
mod limits;
#[cfg(test)]
mod memory;
#[cfg(test)]
mod order;
#[cfg(test)]
mod places;
#[cfg(test)]
mod reading;
#[cfg(test)]
mod refusals;
#[cfg(test)]
mod spellings;
#[cfg(test)]
mod writing;
