// Reading a strip: eight data bits a turn, by windows of the last bits of the first cells and of the second.
ghost use Rattle.std.specs.Prelude.{◌≡◌, ◌+◌, ◌*◌, ◌<◌, ◌≤◌, length};
ghost use Rattle.cells.specs.Places.{from_bits};
ghost use Rattle.cells.specs.Levels.{level};
ghost use Rattle.codes.specs.Layouts.{one_bit, cell_count, byte_count, map_count};
ghost use Rattle.codes.specs.Reading.{read_strip};
ghost use Rattle.codes.specs.Codes.{generators_of, WindowsBefore};
ghost use Rattle.codes.specs.Taps.{tapped_bit};

use crate::parities::parity;
use crate::{Code, MAP_BYTES, STRIP_BYTES, STRIP_CELLS};

// What a reading carries from one byte of data to the next: the last bits of the first cells and of the second, the newest worth 1.
#[derive(Clone, Copy, Drop)]
struct Windows {
    first: u32,
    second: u32,
}

// A byte of data, and the windows after it.
#[derive(Clone, Copy, Drop)]
struct ByteRead {
    byte: u8,
    windows: Windows,
}

// Reads byte q of a strip's data, from the windows before it.
fn read_byte(g1: u32, g2: u32, strip: &[u8], q: usize, windows: Windows) -> ByteRead
    requires { (q < 64) × WindowsBefore strip.now q windows }
    ensures byte_value { result.byte ≡ from_bits 8 (λ i. tapped_bit g1 g2 (level strip.now) (8 * q + i)) }
    ensures windows_before { WindowsBefore strip.now (q + 1) result.windows }
{
    let mut a = windows.first;
    let mut b = windows.second;
    let mut byte = 0;
    for i in 0..8 {
        let cell = 16 * (q as u32) + 2 * i;
        a = (2 * a + cells::level(strip, cell) as u32 % 2) % (2 << Code::MAX_MEMORY);
        b = (2 * b + cells::level(strip, cell + 1) as u32 % 2) % (2 << Code::MAX_MEMORY);
        let d = (parity(g2, a) + parity(g1, b)) % 2;
        byte += d << i;
    }
    ByteRead {
        byte: byte as u8,
        windows: Windows {
            first: a,
            second: b,
        },
    }
}

impl Code {
    // Reads a strip: a byte of data for each eight stages.
    pub fn read_strip(self, strip: &[u8], data: &mut [u8])
        requires { length «data».old ≤ 64 }
        ensures data_after { «data».new ≡ read_strip one_bit (generators_of self) (length «data».old) strip.now }
        ensures strip_bytes_value { (STRIP_BYTES ≡ byte_count one_bit 1) × (STRIP_CELLS ≡ cell_count one_bit 1) }
        ensures map_bytes_value { MAP_BYTES ≡ map_count one_bit 1 }
    {
        let g1 = self.g1_taps();
        let g2 = self.g2_taps();
        let mut windows = Windows {
            first: 0,
            second: 0,
        };
        for (q, byte) in data.iter_mut().enumerate() {
            let r = read_byte(g1, g2, strip, q, windows);
            *byte = r.byte;
            windows = r.windows;
        }
    }
}
