// Cells of a flash page: bits, levels, raises, and what a climb costs.
//
// A cell is three bits of a slice of bytes, and its level, 0 to 3, is how many of them are one. Every function here takes every input:
// what lies beyond the end of a slice reads as 0 and is never raised.
#![tactic(auto)]

ghost use Rattle.std.specs.Prelude.{◌≡◌, cond, ◌+◌, ◌*◌, ◌<◌, ◌≤◌, get_or};
ghost use Rattle.cells.specs.Bytes.{bit_of, Unset, with_bit};
ghost use Rattle.cells.specs.Levels.{level, raises_of};
ghost use Rattle.cells.specs.Raising.{start_of, zero_from, triple, raised_cell, can_rise};
ghost use Rattle.cells.specs.Climbs.{house, weight_of, climb};

// The cost of the step from level 0 to 1, from 1 to 2 and from 2 to 3.
const HOUSE_WEIGHTS: [u8; 3] = [16, 20, 28];

// Byte i, and 0 past the end. By a test of the length: `get`, `copied` and `unwrap_or` in a row are no plainer, and prices come here too.
pub fn byte(bytes: &[u8], i: usize) -> u32
    ensures { (result ≡ get_or bytes.now i 0) × (result < 256) }
{
    if i < bytes.len() { bytes[i] as u32 } else { 0 }
}

// Bit k, and 0 past the end.
pub fn bit(bytes: &[u8], k: usize) -> u8
    ensures { result ≡ bit_of bytes.now k }
{
    let x = byte(bytes, k / 8);
    ((x >> (k % 8)) % 2) as u8
}

// The level of a cell: the ones of its three bits, which may lie in two bytes.
pub fn level(bytes: &[u8], cell: u32) -> u8
    ensures { (result ≡ level bytes.now cell) × (result ≤ 3) }
{
    let k = 3 * (cell as usize);
    let i = k / 8;
    let x = byte(bytes, i) + byte(bytes, i + 1) * 256;
    ((x >> (k % 8)) & 7).count_ones() as u8
}

// The sum of the levels of the first cells: the raises that were made since all were at level 0.
pub fn raises(bytes: &[u8], cells: u32) -> u64
    ensures { result ≡ raises_of cells bytes.now }
{
    let mut sum = 0;
    for c in 0..cells {
        sum += level(bytes, c) as u64;
    }
    sum
}

// Sets bit k, which is 0.
fn set_bit(bytes: &mut [u8], k: usize)
    requires { Unset bytes.old k }
    ensures { bytes.new ≡ with_bit bytes.old k }
{
    bytes[k / 8] += 1 << (k % 8);
}

// The first of a cell's three bits that is 0, from the bit `start` on and going round the three, by its number in the slice.
fn zero_from(bytes: &[u8], cell: u32, start: u32) -> usize
    requires { start < 3 }
    ensures { result ≡ 3 * cell + zero_from start (triple bytes.now cell) }
{
    let k = 3 * (cell as usize);
    let first = start as usize;
    let second = (first + 1) % 3;
    if bit(bytes, k + first) == 0 {
        k + first
    } else if bit(bytes, k + second) == 0 {
        k + second
    } else {
        k + (first + 2) % 3
    }
}

// Raises a cell of a strip by one: of its three bits the first zero from bit `cell` mod 3 on, going round, becomes one. A cell at level 3,
// or one that does not lie in the slice whole, is not raised, and nothing changes. The answer is whether it was raised.
pub fn raise(bytes: &mut [u8], cell: u32) -> bool
    ensures value { result ≡ can_rise bytes.old cell }
    ensures bytes_after { bytes.new ≡ cond result (raised_cell start_of bytes.old cell) bytes.old }
{
    let k = 3 * (cell as usize);
    if bytes.len() <= (k + 2) / 8 || level(bytes, cell) == 3 {
        return false;
    }
    let z = zero_from(bytes, cell, cell % 3);
    set_bit(bytes, z);
    true
}

// The weight of the step from a level to the next; there is no step from level 3 on.
pub fn weight(weights: [u8; 3], from: u8) -> u32
    ensures { (result ≡ weight_of weights from) × (result < 256) }
{
    byte(&weights, from as usize)
}

// The cost of a climb: the sum of its steps.
pub fn climb(weights: [u8; 3], from: u8, to: u8) -> u32
    ensures { result ≡ climb (weight_of weights) from to }
{
    let mut sum = 0;
    for l in from..to {
        sum += weight(weights, l);
    }
    sum
}

// The weights of this house. A function, since no clause can name a constant that is an array.
pub fn house_weights() -> [u8; 3]
    ensures { result ≡ house }
{
    HOUSE_WEIGHTS
}
