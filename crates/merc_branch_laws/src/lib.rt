//! Laws of branches of which a board knows their rights by variables: the rights find the cells that scripts have.
#![tactic(auto)]

pub mod laws;
