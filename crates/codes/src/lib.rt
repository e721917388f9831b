// The two coset codes, made by name: their table, and the states of their encoders. Beside them `parities`, what the generators make of the
// last bits; `blocks`, the same for eight stages at a time, and the labels, which are the data divided by the first generator; and
// `strips`, reading a strip.
#![tactic(auto)]

mod blocks;
mod parities;
mod strips;

ghost use Rattle.std.specs.Prelude.{◌≡◌, ◌≤◌};
ghost use Rattle.codes.specs.Generators.{short, long};
ghost use Rattle.codes.specs.Codes.{generators_of, next_of, TableRow};

pub use blocks::window;

// The bytes of a strip for each byte of its data: `byte_count` of `one_bit`.
pub const STRIP_BYTES: usize = 6;

// The cells of a strip for each byte of its data: `cell_count` of `one_bit`.
pub const STRIP_CELLS: u32 = 16;

// The bytes of a strip's part of a map, with one bit for each cell, for each byte of its data: `map_count` of `one_bit`.
pub const MAP_BYTES: usize = 2;

#[derive(Clone, Copy, Drop)]
enum Name {
    Short,
    Long,
}

// A code is its name, so every value of the type is one of the two codes.
#[derive(Clone, Copy, Drop)]
pub struct Code {
    name: Name,
}

#[derive(Clone, Copy, Drop)]
struct CodeRow {
    memory: u32,
    g1: u32,
    g2: u32,
}

// The memory and the two generators of each code, in octal as the paper writes them.
const CODE_TABLE: [CodeRow; 2] = [
    CodeRow {
        memory: 2,
        g1: 0o7,
        g2: 0o5,
    },
    CodeRow {
        memory: 6,
        g1: 0o171,
        g2: 0o133,
    },
];

impl Code {
    // The most memory that a code has: that of the long one.
    pub const MAX_MEMORY: u32 = 6;

    pub fn short() -> Code
        ensures { generators_of result ≡ short }
    {
        Code { name: Name::Short }
    }

    pub fn long() -> Code
        ensures { generators_of result ≡ long }
    {
        Code { name: Name::Long }
    }

    // The code's row of the table.
    fn generators(self) -> CodeRow
        ensures { TableRow self result }
    {
        match self.name {
            Name::Short => CODE_TABLE[0],
            Name::Long => CODE_TABLE[1],
        }
    }

    pub fn memory(self) -> u32
        ensures value { (result ≡ (generators_of self).memory) × (result ≤ 6) }
        ensures largest { Self.MAX_MEMORY ≡ long.memory }
    {
        self.generators().memory
    }

    // The state that follows the state s with the digit d mod 2.
    pub fn next(self, s: u32, d: u32) -> u32
        ensures { result ≡ next_of (generators_of self).memory s d }
    {
        let w = 2 * (s as u64) + ((d % 2) as u64);
        (w % (1u64 << self.memory())) as u32
    }
}
