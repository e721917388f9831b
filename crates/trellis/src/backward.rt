// From the last block of eight stages to the first: what the data of a strip costs, and what the states keep of their ways.
ghost use Rattle.std.specs.Prelude.{◌≡◌, List, ℕ, ◌+◌, ◌*◌, ◌<◌, ◌≤◌, length};
ghost use Rattle.cells.specs.Places.{Untouched};
ghost use Rattle.cells.specs.Marks.{marks_in};
ghost use Rattle.codes.specs.Codes.{generators_of};
ghost use Rattle.codes.specs.Taps.{window_of};
ghost use Rattle.codes.specs.Blocks.{label_at};
ghost use Rattle.prices.specs.Prices.{Priced};
ghost use Rattle.trellis.specs.Ways.{Shaped, Traced, Lows};
ghost use Rattle.trellis.specs.Outcomes.{decoded_outcome, solution_outcome};
ghost use Rattle.trellis.specs.Plans.{write_of};

use codes::{Code, window};
use rows::{data_window, picks_at};
use stage_blocks::{keep, run, settle};
use stages::CLOSED;

// What a number of the search says: the cost, or None where no pattern takes the data.
fn outcome(cost: u32) -> Option<u32>
    ensures { result ≡ decoded_outcome cost }
{
    (cost < CLOSED).then_some(cost)
}

// The last eight labels of the data.
fn last_labels(code: Code, data: &[u8]) -> u32
    requires { length «data».now ≤ 64 }
    ensures { (result ≡ window_of 8 (label_at (generators_of code) «data».now) (8 * length «data».now)) × (result < 256) }
{
    let mut labels: u32 = 0;
    for q in 0..data.len() {
        labels = code.divide(labels, data_window(data, q));
    }
    labels
}

// The eight labels before block q, by those of the block: the division undone. Before the first block there are none.
fn labels_before(code: Code, labels: u32, data: &[u8], q: usize) -> u32
    requires { (q < length «data».now) × (length «data».now ≤ 64)
        × (labels ≡ window_of 8 (label_at (generators_of code) «data».now) (8 * (q + 1))) }
    ensures { (result ≡ window_of 8 (label_at (generators_of code) «data».now) (8 * q)) × (result < 256) }
{
    if q == 0 {
        return 0;
    }
    let earlier = data_window(data, q - 1);
    let later = data_window(data, q);
    code.divide_back(labels, earlier * 256 + later)
}

// What the data of a strip costs, or None where no pattern takes them. It is lent nothing that it may change, and keeps no array with a
// place for each stage or cell.
// `decide` has the same loop: it keeps more of each block between two steps of it, and a price is to keep, and to be lent, none of that.
// What is passed stays apart: a struct of it would have room for more numbers than a price may be passed (tests/pricing.py, rule 3).
pub fn price_strip(
    code: Code,
    rows: &[u32; 256],
    strip: &[u8],
    map: &[u8],
    data: &[u8],
) -> Option<u32>
    requires { Shaped rows.now strip.now «data».now }
    ensures { (W : List ℕ) → Priced W rows.now
        → result ≡ solution_outcome (write_of (generators_of code) W strip.now (marks_in map.now) «data».now) }
{
    let states = code.states();
    let mut labels = last_labels(code, data);
    let mut costs = [0u32; 64];
    for q in (0..data.len()).rev() {
        let picks = picks_at(strip, map, q, labels);
        run(code, &mut costs, rows, picks);
        settle(&mut costs, states);
        labels = labels_before(code, labels, data, q);
    }
    outcome(costs[0] / 256)
}

// What the data of a strip costs, or None where no pattern takes them, what the states keep of their ways, and the bits that the first
// cells show, eight stages a byte. What stands in the history for a state without a cost, or beyond the code's states, is free.
pub fn decide(
    code: Code,
    rows: &[u32; 256],
    strip: &[u8],
    map: &[u8],
    data: &[u8],
    history: &mut [u8; 4096],
    lows: &mut [u8; 64],
) -> Option<u32>
    requires shaped { Shaped rows.now strip.now «data».now }
    requires history_len { (length history.old ≡ 4096) × (length lows.old ≡ 64) }
    ensures by_index { (W : List ℕ) → Priced W rows.now
        → result ≡ solution_outcome (write_of (generators_of code) W strip.now (marks_in map.now) «data».now) }
    ensures by_index_2 { (W : List ℕ) → Priced W rows.now
        → Traced (generators_of code) W strip.now (marks_in map.now) «data».now history.new }
    ensures untouched { Untouched (64 * length «data».now) history.old history.new }
    ensures lows { Lows strip.now (length «data».now) lows.new }
    ensures untouched_2 { Untouched (length «data».now) lows.old lows.new }
{
    let states = code.states();
    let mut labels = last_labels(code, data);
    let mut costs = [0u32; 64];
    for q in (0..data.len()).rev() {
        let picks = picks_at(strip, map, q, labels);
        lows[q] = window(picks, 8) as u8;
        run(code, &mut costs, rows, picks);
        keep(history, &costs, states, q);
        settle(&mut costs, states);
        labels = labels_before(code, labels, data, q);
    }
    outcome(costs[0] / 256)
}
