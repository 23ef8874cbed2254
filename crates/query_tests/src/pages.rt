//! Pages that answer queries.
mod answers;
mod chains;
mod collapsing;
mod large_indexes;
mod parts;
