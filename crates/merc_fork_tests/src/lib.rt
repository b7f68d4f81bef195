//! Tests of machines that meet others: goals with `&` whose conjuncts are run by machines of their own, over what the libraries
//! make public. They stand in a crate of their own, so that no library is proved a second time for them.
#![tactic(auto)]

#[cfg(test)]
mod asking;
#[cfg(test)]
mod conjuncts;
#[cfg(test)]
mod driving;
#[cfg(test)]
mod rights;
