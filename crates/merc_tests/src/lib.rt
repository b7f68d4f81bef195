//! Tests of libraries, each over what the library makes public. They stand in a crate of their own, so that no library is
//! proved a second time for them.
#![tactic(auto)]

#[cfg(test)]
mod beside;
#[cfg(test)]
mod cells;
#[cfg(test)]
mod executing;
#[cfg(test)]
mod joins;
#[cfg(test)]
mod outside;
#[cfg(test)]
mod sparks;
#[cfg(test)]
mod taps;
