// The text of the run program: what a line says, and the texts that are printed.
#![tactic(auto)]

pub mod decoding;
pub mod parsing;
pub mod printing;

// The three values of line 2.
#[derive(Clone, Copy, Default, Drop)]
pub struct Values {
    pub code: u32,
    pub bytes: u32,
    pub strips: u32,
}
