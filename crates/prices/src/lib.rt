// The table of rows by the weights: each row has the prices of the four words of a stage of two cells, one bit a cell.
#![tactic(auto)]

ghost use Rattle.std.specs.Prelude.{◌≡◌, ℕ, ◌+◌, ◌*◌, ◌<◌, ◌≤◌, get_or};
ghost use Rattle.stages.specs.Stage.{closed};
ghost use Rattle.prices.specs.Prices.{step_list, row_price, Table};

use stages::CLOSED;
use stages::stage::{least, pick};

// The weights of the three steps, and closed for a step from level 3 and for a marked cell at each level.
fn steps_of(weights: [u8; 3]) -> [u32; 8]
    ensures { result ≡ step_list weights }
{
    // Not by a pattern, which would keep the weights in an array here: tests/pricing.py names each that a price keeps.
    let a = cells::weight(weights, 0);
    let b = cells::weight(weights, 1);
    let c = cells::weight(weights, 2);
    [a, b, c, CLOSED, CLOSED, CLOSED, CLOSED, CLOSED]
}

// The prices of the four words of row r, in 256ths: it has the first cell's kind r mod 8, the second cell's level r div 8 mod 4 and the
// label r div 32. A cell pays where it does not show the bit that the word asks of it. A word that is closed costs closed, however many
// of its cells are.
fn row_prices(steps: [u32; 8], r: usize) -> [u32; 4]
    requires { (r < 64) × ((i : ℕ) → get_or steps i 0 ≤ closed) }
    ensures { (j : ℕ) → j < 4 → get_or result j 0 ≡ 256 * row_price steps (4 * r + j) }
{
    let first = 256 * steps[r % 8];
    let second = 256 * steps[r / 8 % 4];
    // Words 0 and 1 ask the label of the second cell, words 2 and 3 the other bit; `other` is 1 where it shows that one.
    let other = ((r / 8 + r / 32) % 2) as u8;
    let a = pick(other, 0, second);
    let b = pick(other, second, 0);
    let c = least(first + a, CLOSED * 256);
    let d = least(first + b, CLOSED * 256);
    if r % 2 == 0 {
        [a, c, b, d]
    } else {
        [c, a, d, b]
    }
}

// The table of rows by the weights.
pub fn rows_of(weights: [u8; 3]) -> [u32; 256]
    ensures { Table weights result }
{
    let steps = steps_of(weights);
    let mut rows = [0u32; 256];
    for r in 0..64 {
        let prices = row_prices(steps, r);
        // Not `copy_from_slice`, which is lent the table by `&mut`: tests/pricing.py leaves that to price_strip's array.
        for j in 0..4 {
            rows[4 * r + j] = prices[j];
        }
    }
    rows
}
