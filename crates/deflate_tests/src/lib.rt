//! Tests of what reads compressed data: values from RFC 1951 and of the catalogue of CRCs, or worked out by hand.
#![tactic(auto)]

#[cfg(test)]
mod bits;
#[cfg(test)]
mod blocks;
#[cfg(test)]
mod checksums;
#[cfg(test)]
mod codes;
#[cfg(test)]
mod copies;
