// THE LAYOUT, for the search: which row of prices a stage picks. Two cells a stage, one bit a cell: a row is the kinds of the two cells and
// the label. Two bits a cell and three cells a stage will be other rows.
#![tactic(auto)]

ghost use Rattle.std.specs.Prelude.{◌≡◌, ◌+◌, ◌*◌, ◌^◌, ◌<◌, ◌≤◌, length};
ghost use Rattle.cells.specs.Bytes.{bit_of};
ghost use Rattle.codes.specs.Taps.{window_of};
ghost use Rattle.rows.specs.Rows.{mark_in, cell_kind, stage_row, packed_of, bits_at, marks_at};

use codes::window;

// The lowest bit of each of sixteen cells.
pub const LOWEST: u64 = 0o1111_1111_1111_1111;

// The lowest bit of each second cell of a stage.
const SECONDS: u64 = 0o1010_1010_1010_1010;

// The 48 bits of the cells of block q: six bytes of the strip.
pub fn bits_of(strip: &[u8], q: usize) -> u64
    requires { (6 * q + 6 ≤ length strip.now) × (q < 64) }
    ensures { result ≡ bits_at strip.now q }
{
    // Not by `from_le_bytes`: a price keeps no array of eight bytes.
    let mut bits = 0;
    for k in 0..6 {
        bits += (strip[6 * q + k] as u64) << (8 * k);
    }
    bits
}

// The 16 marks of block q: two bytes of the strip's part of the map, and none past its end.
fn marks_of(map: &[u8], q: usize) -> u64
    requires { q < 64 }
    ensures { result ≡ marks_at map.now q }
{
    let low = cells::byte(map, 2 * q);
    let high = cells::byte(map, 2 * q + 1);
    (low + high * 256) as u64
}

// The levels of the sixteen cells of a block, three bits a cell: how many of each cell's three bits are one.
fn levels_of(bits: u64) -> u64
    requires { bits < 2 ^ 48 }
    ensures value { result ≡ packed_of 3 (cell_kind bits 0) 16 }
    ensures value_2 { LOWEST ≡ packed_of 3 (λ c. 1) 16 }
{
    (bits & LOWEST) + ((bits >> 1) & LOWEST) + ((bits >> 2) & LOWEST)
}

// The marks of sixteen cells, each at the lowest bit of its cell.
fn marked_cells(marks: u64) -> u64
    ensures { result ≡ packed_of 3 (mark_in marks) 16 }
{
    let mut out = 0;
    for c in 0..16u32 {
        out += ((marks >> c) % 2) << (3 * c);
    }
    out
}

// The cells of a block by their bits and marks, three bits a cell. A marked first cell has 4 more than its level. A marked second cell is
// at 3, and has 4 more where it shows 0.
fn kinds_of(bits: u64, marks: u64) -> u64
    requires { bits < 2 ^ 48 }
    ensures { result ≡ packed_of 3 (cell_kind bits marks) 16 }
{
    let levels = levels_of(bits);
    let marked = marked_cells(marks);
    let second = marked & SECONDS;
    (levels | (3 * second)) + 4 * (marked ^ (second & levels))
}

// The cells of block q of a strip. A map with no byte marks nothing, and is not looked at.
fn block_kinds(strip: &[u8], map: &[u8], q: usize) -> u64
    requires { (6 * q + 6 ≤ length strip.now) × (q < 64) }
    ensures { result ≡ packed_of 3 (cell_kind (bits_at strip.now q) (marks_at map.now q)) 16 }
{
    let bits = bits_of(strip, q);
    let marks = if map.is_empty() { 0 } else { marks_of(map, q) };
    if marks == 0 {
        levels_of(bits)
    } else {
        kinds_of(bits, marks)
    }
}

// The rows of the eight stages of block q, by their cells and their labels, as the bytes of one number.
pub fn picks_at(strip: &[u8], map: &[u8], q: usize, labels: u32) -> u64
    requires { (6 * q + 6 ≤ length strip.now) × (q < 64) }
    ensures { result ≡ packed_of 8 (stage_row (bits_at strip.now q) (marks_at map.now q) labels) 8 }
{
    let kinds = block_kinds(strip, map, q);
    let mut picks = 0;
    for i in 0..8u32 {
        let pair = (kinds >> (6 * i)) % 64;
        let label = ((labels >> (7 - i)) % 2) as u64;
        picks += (pair + label * 32) << (8 * i);
    }
    picks
}

// Eight stages of data as a window.
pub fn data_window(data: &[u8], q: usize) -> u32
    requires { (q < length «data».now) × (length «data».now ≤ 64) }
    ensures { (result ≡ window_of 8 (bit_of «data».now) (8 * (q + 1))) × (result < 256) }
{
    window(data[q] as u64, 1)
}
