// Eight stages at a time: the last eight bits of a sequence are one number, the newest worth 1. What the generators make of it, and the
// labels, which are the data divided by the first generator, forth and back.
ghost use Rattle.std.specs.Prelude.{◌≡◌, ℕ, suc, ◌+◌, ◌-◌, ◌*◌, ◌/◌, ◌%◌, ◌^◌, ◌<◌, ◌≤◌};
ghost use Rattle.codes.specs.Generators.{g2};
ghost use Rattle.codes.specs.Codes.{generators_of};
ghost use Rattle.codes.specs.Taps.{taps_of, parity_of, window_of};
ghost use Rattle.codes.specs.Blocks.{tapped_of, lifted_of, divided_of, divided_back_of, Gives};

use crate::{Code, Name};

// Eight bits of a word, `step` places apart from bit 0 on: the first is worth most.
pub fn window(word: u64, step: u32) -> u32
    requires { step ≤ 8 }
    ensures { result ≡ window_of 8 (λ i. word / 2 ^ (step * i) % 2) 8 }
{
    let mut w = 0;
    for i in 0..8 {
        w = 2 * w + ((word >> (step * i)) % 2) as u32;
    }
    w
}

// What the taps make of a window, the taps `step` places apart: all its stages at once.
fn tapped(taps: u32, step: u32, w: u32) -> u32
    requires { (step ≤ 4) × (w < 65536) }
    ensures { (result ≡ tapped_of taps step w 7) × (result < 65536) }
{
    let mut sum = 0;
    for i in 0..7 {
        sum ^= (w >> (step * i)) * ((taps >> i) % 2);
    }
    sum
}

// What the taps make of a window of eight bits the other way, from the last tap back.
fn lifted(taps: u32, memory: u32, step: u32, w: u32) -> u32
    requires { (memory ≤ 6) × (step ≤ 4) × (w < 256) }
    ensures { (result ≡ lifted_of taps memory step w (suc memory)) × (result < 256) }
{
    let mut sum = 0;
    for i in 0..=memory {
        sum ^= (w << (step * (memory - i))) % 256 * ((taps >> i) % 2);
    }
    sum
}

// Eight stages of data divided by the generator of these taps, after the eight bits of the quotient before them. What those add is taken
// off; and modulo D ^ 8 the inverse of g is g · g² · g⁴.
fn divided(taps: u32, before: u32, data: u32) -> u32
    requires { (before < 256) × («data» < 256) }
    ensures { (result ≡ divided_of taps before «data») × (result < 256) }
{
    let rest = data ^ (tapped(taps, 1, before * 256) % 256);
    tapped(taps, 4, tapped(taps, 2, tapped(taps, 1, rest)))
}

// The eight bits of the quotient before those after, by sixteen stages of data: the last tap is 1, so that the division can be undone.
fn divided_back(taps: u32, memory: u32, after: u32, data: u32) -> u32
    requires { (memory ≤ 6) × (after < 256) × («data» < 65536) }
    ensures { (result ≡ divided_back_of taps memory after «data») × (result < 256) }
{
    let rest = ((data >> (8 - memory)) % 256) ^ (tapped(taps, 1, after) >> (8 - memory));
    lifted(
        taps,
        memory,
        4,
        lifted(taps, memory, 2, lifted(taps, memory, 1, rest)),
    )
}

// Each code has an arm of its own where taps are used, so that they are constants, of which the compiler makes a few shifts: with taps
// that were chosen before, a call of `divide` took 10.7 ns in place of 6.2 (code 3) and 9.4 (code 7), measured in C.
impl Code {
    // The number of states: one for each sequence of the last digits.
    pub fn states(self) -> usize
        ensures { (result ≡ 2 ^ (generators_of self).memory) × (result ≤ 64) }
    {
        1usize << self.memory()
    }

    // The first code bits of eight stages, and of as many before them as the window has.
    pub fn first_bits(self, window: u32) -> u32
        requires { window < 65536 }
        ensures upper_bound { result < 65536 }
        ensures by_index { (p : ℕ)
            → result / 2 ^ p % 2 ≡ parity_of (taps_of (generators_of self).memory (generators_of self).g1) (window / 2 ^ p) }
    {
        match self.name {
            Name::Short => tapped(0o7, 1, window),
            Name::Long => tapped(0o117, 1, window),
        }
    }

    // The second code bits, before the label is added.
    pub fn second_bits(self, window: u32) -> u32
        requires { window < 65536 }
        ensures upper_bound { result < 65536 }
        ensures by_index { (p : ℕ)
            → result / 2 ^ p % 2 ≡ parity_of (taps_of (generators_of self).memory (g2 (generators_of self))) (window / 2 ^ p) }
    {
        match self.name {
            Name::Short => tapped(0o5, 1, window),
            Name::Long => tapped(0o155, 1, window),
        }
    }

    // Divides eight stages of data by the first generator, after the eight bits of the quotient before them: whatever eight bits give the
    // data are these.
    pub fn divide(self, before: u32, data: u32) -> u32
        requires { (before < 256) × («data» < 256) }
        ensures upper_bound { result < 256 }
        ensures by_index { (y : ℕ) → y < 256
            → Gives (taps_of (generators_of self).memory (generators_of self).g1) (before * 256 + y) «data» 0 → y ≡ result }
    {
        match self.name {
            Name::Short => divided(0o7, before, data),
            Name::Long => divided(0o117, before, data),
        }
    }

    // The eight bits of the quotient before those after, by the data of all sixteen stages.
    pub fn divide_back(self, after: u32, data: u32) -> u32
        requires { (after < 256) × («data» < 65536) }
        ensures upper_bound { result < 256 }
        ensures by_index { (y : ℕ) → y < 256
            → Gives (taps_of (generators_of self).memory (generators_of self).g1) (y * 256 + after) «data» (8 - (generators_of self).memory)
            → y ≡ result }
    {
        match self.name {
            Name::Short => divided_back(0o7, 2, after, data),
            Name::Long => divided_back(0o117, 6, after, data),
        }
    }
}
