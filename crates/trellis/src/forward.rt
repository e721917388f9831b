// From the first block to the last: the digits of the cheapest way, from what the states keep of it.
ghost use Rattle.std.specs.Prelude.{◌≡◌, List, ℕ, ◌+◌, ◌*◌, ◌<◌, ◌≤◌, length, get_or};
ghost use Rattle.cells.specs.Places.{Free};
ghost use Rattle.cells.specs.Marks.{marks_in};
ghost use Rattle.codes.specs.Codes.{generators_of};
ghost use Rattle.codes.specs.Taps.{window_of};
ghost use Rattle.prices.specs.Prices.{Priced};
ghost use Rattle.trellis.specs.Ways.{Shaped, Followed};
ghost use Rattle.trellis.specs.Outcomes.{solution_outcome};
ghost use Rattle.trellis.specs.Plans.{write_of, Plans};

use crate::backward::decide;
use codes::Code;

// Follows the way that the states keep, from state 0: the trail of eight stages and the bits that the first cells show give the first code
// bits, and these, divided by the first generator, the digits. Where no digits are followed, what is put there is free.
fn follow(code: Code, lows: &[u8; 64], history: &[u8; 4096], digits: &mut [u8])
    requires { length digits.old ≤ 64 }
    ensures free { Free digits.old digits.new }
    ensures by_index { (u : ℕ → ℕ) → Followed (generators_of code) lows.now history.now (length digits.old) u
        → (q : ℕ) → q < length digits.old → get_or digits.new q 0 ≡ window_of 8 u (8 * (q + 1)) }
{
    let states = code.states();
    let mut before: u32 = 0;
    for (q, digit) in digits.iter_mut().enumerate() {
        let trail = history[64 * q + before as usize % states];
        before = code.divide(before, u32::from(trail ^ lows[q]));
        *digit = before as u8;
    }
}

// What the data of a strip costs, or None where no pattern takes them, and the digits of the cheapest way, one bit a stage. Where there is
// none, what is put there is free.
pub fn plan_strip(
    code: Code,
    rows: &[u32; 256],
    strip: &[u8],
    map: &[u8],
    data: &[u8],
    digits: &mut [u8],
) -> Option<u32>
    requires shaped { Shaped rows.now strip.now «data».now }
    requires digits_len { length digits.old ≡ length «data».now }
    ensures by_index { (W : List ℕ) → Priced W rows.now
        → result ≡ solution_outcome (write_of (generators_of code) W strip.now (marks_in map.now) «data».now) }
    ensures free { Free digits.old digits.new }
    ensures by_index_2 { (W : List ℕ) → Priced W rows.now
        → Plans (generators_of code) W strip.now (marks_in map.now) «data».now digits.new }
{
    let mut history = [0u8; 4096];
    let mut lows = [0u8; 64];
    let r = decide(code, rows, strip, map, data, &mut history, &mut lows);
    follow(code, &lows, &history, digits);
    r
}
