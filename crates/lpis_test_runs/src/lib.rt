//! Tests of runs over readers: worked points of `locate`, points beside `Yes::locate`, tables that
//! are refused, inputs that fail, and readers that never end.
//!
//! No crate stands on it: it has tests alone.
//! Begin at `src/worked.rt`.
#![tactic(auto)]

#[cfg(test)]
mod beside;
#[cfg(test)]
mod expecting;
#[cfg(test)]
mod failures;
#[cfg(test)]
mod halting;
#[cfg(test)]
mod reading;
#[cfg(test)]
mod releases;
#[cfg(test)]
mod worked;
