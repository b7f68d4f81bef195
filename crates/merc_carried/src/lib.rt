//! What branches carry, against their scripts: how what a goal does beside others goes through a script, with the rights
//! that it asks for and the run that it shows.
#![tactic(auto)]
