// The generators' digits as taps, and the parity of the taps that meet a window of bits.
ghost use Rattle.std.specs.Prelude.{◌≡◌, ◌<◌, ◌≤◌};
ghost use Rattle.codes.specs.Generators.{g2};
ghost use Rattle.codes.specs.Codes.{generators_of};
ghost use Rattle.codes.specs.Taps.{taps_of, parity_of};

use crate::Code;

// The digits of a generator as taps: digit i, counted from the left, is worth 2 ^ i.
fn taps(memory: u32, generator: u32) -> u32
    requires { memory ≤ 6 }
    ensures { (result ≡ taps_of memory generator) × (result < 128) }
{
    let mut sum = 0;
    for i in 0..=memory {
        sum += ((generator >> (memory - i)) % 2) << i;
    }
    sum
}

// The sum mod 2 of the taps that meet a one of the window.
pub fn parity(taps: u32, window: u32) -> u32
    ensures { (result ≡ parity_of taps window) × (result < 2) }
{
    (taps & window).count_ones() % 2
}

impl Code {
    // The taps of G1, and those of G2: one function for both would have to be told which, by one more type.
    pub fn g1_taps(self) -> u32
        ensures { (result ≡ taps_of (generators_of self).memory (generators_of self).g1) × (result < 128) }
    {
        let row = self.generators();
        taps(row.memory, row.g1)
    }

    pub fn g2_taps(self) -> u32
        ensures { (result ≡ taps_of (generators_of self).memory (g2 (generators_of self))) × (result < 128) }
    {
        let row = self.generators();
        taps(row.memory, row.g2)
    }
}
