//! Why a text is refused: the numbered faults, with the byte where each stands, or that memory ran out. Every layer that reads a text
//! or works on it answers them. It stands on `thiserror` alone.
#![tactic(auto)]

mod code;

pub use code::{SpecCode, SpecFault, fault};
