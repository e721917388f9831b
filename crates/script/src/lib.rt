// The run program's script: what the bytes of the input do, up to what is printed.
#![tactic(auto)]

pub mod running;

use text::printing::Printed;
pub use turns::Run;

// What bytes of the input do: where the run is then, the text that is printed, and how many of the bytes are taken.
#[derive(Clone, Copy, Drop)]
pub struct Step {
    pub run: Run,
    pub printed: Printed,
    pub taken: usize,
}
