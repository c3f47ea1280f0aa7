//! Laws that larger limits take no text away and mean the same.
#![tactic(auto)]

pub mod laws;
