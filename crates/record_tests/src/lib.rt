//! Tests of inputs, outputs, and the records of archives: what no clause states, and values from
//! standards or worked out by hand.
#![tactic(auto)]

#[cfg(test)]
mod device_calls;
#[cfg(test)]
mod heads;
#[cfg(test)]
mod records;
