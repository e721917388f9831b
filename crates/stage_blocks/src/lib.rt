// Eight stages at a time. The choice of each stage stands in the low byte of the costs, so that a stage is a sum and a minimum, and a
// price and a write share it.
#![tactic(auto)]

ghost use Rattle.std.specs.Prelude.{◌≡◌, ℕ, ◌+◌, ◌-◌, ◌*◌, ◌^◌, ◌<◌, ◌≤◌, length, get_or};
ghost use Rattle.codes.specs.Generators.{short, long};
ghost use Rattle.codes.specs.Codes.{generators_of};
ghost use Rattle.stages.specs.Stage.{closed, ceiling, most_cost, words_of};
ghost use Rattle.stage_blocks.specs.Blocks.{marked_of, RunRequires, Ran, Settled, Kept};

use codes::Code;
use stages::CLOSED;
use stages::stage::{least, stage};

// The word of each state of the long code for the digit 0.
const LONG: [u8; 64] = [
    0, 1, 3, 2, 3, 2, 0, 1, 0, 1, 3, 2, 3, 2, 0, 1, 2, 3, 1, 0, 1, 0, 2, 3, 2, 3, 1, 0, 1, 0, 2, 3,
    3, 2, 0, 1, 0, 1, 3, 2, 3, 2, 0, 1, 0, 1, 3, 2, 1, 0, 2, 3, 2, 3, 1, 0, 1, 0, 2, 3, 2, 3, 1, 0,
];

// A bit at the place of stage i of eight in a byte: the earlier stage has the higher bit.
fn at_stage(bit: u32, i: u32) -> u32
    requires { (bit ≤ 1) × (i < 8) }
    ensures { (result ≡ bit * 2 ^ (7 - i)) × (result ≤ 128) }
{
    bit << (7 - i)
}

// The prices of a row for stage i of eight, in 256ths. A word whose first code bit is not the row's costs a little more, at the stage's
// own bit of the low byte: so a tie goes to the other word, and the bit says afterwards which was taken.
// By index, and not by `as_chunks`: tests/pricing.py cannot follow that one's types.
fn marked(rows: &[u32; 256], row: usize, i: u32) -> [u32; 4]
    requires { (row < 64) × (i < 8) × ((k : ℕ) → get_or rows.now k 0 ≤ ceiling) }
    ensures by_index { (j : ℕ) → j ≤ 3 → get_or result j 0 ≡ marked_of rows.now row (7 - i) j }
    ensures by_index_2 { (j : ℕ) → get_or result j 0 ≤ ceiling + 128 }
{
    let k = 4 * row;
    let low = (row % 2) as u32;
    let zero = at_stage(low, i);
    let one = at_stage(1 - low, i);
    [
        rows[k] + zero,
        rows[k + 1] + one,
        rows[k + 2] + zero,
        rows[k + 3] + one,
    ]
}

// Eight stages of the long code, the last first. The table is a constant here, where the stage is compiled into it: lent from further
// out, the compiler no longer makes masks of it.
fn run_long(costs: &mut [u32; 64], rows: &[u32; 256], picks: u64)
    requires { RunRequires costs.old rows.now }
    ensures { Ran 64 (words_of long) rows.now picks costs.old costs.new }
{
    let words = LONG;
    for i in (0..8).rev() {
        let row = (picks >> (8 * i)) % 64;
        let prices = marked(rows, row as usize, i);
        stage(costs, &words, prices);
    }
}

// Eight stages of the short code: its four states are one vector.
fn run_short(costs: &mut [u32; 64], rows: &[u32; 256], picks: u64)
    requires { RunRequires costs.old rows.now }
    ensures { Ran 4 (words_of short) rows.now picks costs.old costs.new }
{
    let [mut a, mut b, mut c, mut d, ..] = *costs;
    for i in (0..8).rev() {
        let row = (picks >> (8 * i)) % 64;
        let [p, q, r, s] = marked(rows, row as usize, i);
        (a, b, c, d) = (
            least(a + p, b + s),
            least(c + q, d + r),
            least(a + s, b + p),
            least(c + r, d + q),
        );
    }
    // Not `copy_from_slice`, which would be of one array more: tests/pricing.py names each that a price keeps.
    costs[0] = a;
    costs[1] = b;
    costs[2] = c;
    costs[3] = d;
}

// Eight stages of a code in place; byte i of picks is the row of stage i.
pub fn run(code: Code, costs: &mut [u32; 64], rows: &[u32; 256], picks: u64)
    requires { RunRequires costs.old rows.now }
    ensures { Ran (2 ^ (generators_of code).memory) (words_of (generators_of code))
        rows.now picks costs.old costs.new }
{
    if code.memory() == 2 {
        run_short(costs, rows, picks);
    } else {
        run_long(costs, rows, picks);
    }
}

// Clears the low byte of each number, and cuts it off where there is no cost.
pub fn settle(costs: &mut [u32; 64], states: usize)
    requires { (states ≤ 64) × (length costs.old ≡ 64) × ((i : ℕ) → get_or costs.old i 0 ≤ most_cost) }
    ensures settled { Settled states costs.old costs.new }
    ensures value { CLOSED ≡ closed }
{
    for cost in &mut costs[..states] {
        *cost = least(*cost / 256 * 256, CLOSED * 256);
    }
}

// Keeps the low byte of each number as block q of the history.
pub fn keep(history: &mut [u8; 4096], costs: &[u32; 64], states: usize, q: usize)
    requires { (q < 64) × (states ≤ 64) × (length history.old ≡ 4096) }
    ensures { Kept states q costs.now history.old history.new }
{
    for (s, cost) in costs[..states].iter().enumerate() {
        history[64 * q + s] = (*cost % 256) as u8;
    }
}
