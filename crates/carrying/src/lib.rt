// Carrying the digits of a strip out, eight stages at a time: each cell that does not show the bit that they want is raised by one. Which
// bit of a cell a raise sets is a matter of the bit at which it starts to look for a zero (`start_of`). Sixteen cells are raised at once,
// as one word of three bits a cell.
#![tactic(auto)]

ghost use Rattle.std.specs.Prelude.{◌≡◌, ◌+◌, ◌*◌, ◌%◌, ◌^◌, ◌<◌, ◌≤◌, length};
ghost use Rattle.cells.specs.Raising.{start_of, raised_to};
ghost use Rattle.codes.specs.Codes.{generators_of};
ghost use Rattle.carrying.specs.Carrying.{wanted_bits, Onward, CellBits, BlockShown, with_bits, digit_in, carried_to, CarryRequires};

use codes::Code;
use rows::{LOWEST, bits_of, data_window};

// The other two bits of each.
const OTHERS: u64 = 0o6666_6666_6666_6666;

// The starts of sixteen cells, each one bit on from that of the cell before it; the first cell's is bit 0, 1 or 2.
const STARTS: [u64; 3] = [
    0o1421_4214_2142_1421,
    0o2142_1421_4214_2142,
    0o4214_2142_1421_4214,
];

// The bits that are wanted of the cells of eight stages, each at the lowest bit of its cell; those of the first cells and of the second
// come with the first stage's worth most.
fn wanted_bits(first: u32, second: u32) -> u64
    ensures { result ≡ wanted_bits first second 8 }
{
    let mut out = 0;
    for i in 0..8u32 {
        let v = (first >> (7 - i)) % 2 + 8 * ((second >> (7 - i)) % 2);
        out += (v as u64) << (6 * i);
    }
    out
}

// Each mark on the next bit of its cell, going round the three.
fn onward(marks: u64) -> u64
    requires { marks < 2 ^ 48 }
    ensures { Onward marks result }
{
    ((marks << 1) & OTHERS) | ((marks >> 2) & LOWEST)
}

// The 48 bits of block q, where each cell that does not show the bit wanted of it is raised: a mark on its start goes on where it meets a
// one, twice at most. Three ones stay as they are. The block begins with cell 16·q, which starts at bit q mod 3.
fn shown_bits(q: usize, bits: u64, wanted: u64) -> u64
    requires { (bits < 2 ^ 48) × CellBits wanted }
    ensures { BlockShown q bits wanted result }
{
    let raises = ((bits ^ (bits >> 1) ^ (bits >> 2)) & LOWEST) ^ wanted;
    let first = (7 * raises) & STARTS[q % 3];
    let second = onward(bits & first);
    let third = onward(bits & second);
    bits | first | second | third
}

// Puts 48 bits into block q of a strip.
fn put_bits(strip: &mut [u8], q: usize, bits: u64)
    requires { (6 * q + 6 ≤ length strip.old) × (q < 64) }
    ensures { strip.new ≡ with_bits strip.old q bits }
{
    strip[6 * q..6 * q + 6].copy_from_slice(&bits.to_le_bytes()[..6]);
}

// Carries the digits out: each cell that does not show the bit that they want is raised by one.
pub fn carry_strip(code: Code, strip: &mut [u8], data: &[u8], digits: &[u8])
    requires { CarryRequires strip.old «data».now digits.now }
    ensures { strip.new ≡ raised_to start_of strip.old
        (carried_to (generators_of code) strip.old «data».now (digit_in digits.now)) }
{
    let mut labels = 0;
    let mut before = 0;
    for (q, &byte) in digits.iter().enumerate() {
        labels = code.divide(labels, data_window(data, q));
        let digit = byte as u32;
        let w = before * 256 + digit;
        let first = code.first_bits(w);
        let second = code.second_bits(w) ^ labels;
        let bits = shown_bits(q, bits_of(strip, q), wanted_bits(first, second));
        put_bits(strip, q, bits);
        before = digit;
    }
}
