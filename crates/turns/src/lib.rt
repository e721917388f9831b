// What each line of the run program's input does, up to what is printed.
#![tactic(auto)]

pub mod following;

ghost use Rattle.cells.specs.Places.{Free};
ghost use Rattle.std.specs.Prelude.{◌≡◌, true, take};
ghost use Rattle.turns.specs.Turns.{at_line, line_turn, Told};
ghost use Rattle.turns.specs.Buffers.{page_size, Holds, LineRequires};

use text::Values;
use text::printing::Printed;

// Where a run is between two bytes of its input: the values of line 2, the number of the line that is being read, how many of its bytes are
// kept, and whether the run goes on. (`on` is no `Option`: a run that has stopped keeps its place, as in the definitions.)
#[derive(Clone, Copy, Drop)]
pub struct Run {
    pub values: Values,
    pub number: u64,
    pub used: usize,
    pub on: bool,
}

impl Run {
    // Where a line begins: none of its bytes is there.
    pub fn at_line(number: u64, values: Values) -> Run
        ensures { result ≡ record { values = values; number = number; used = 0; on = true } }
    {
        Run {
            values,
            number,
            used: 0,
            on: true,
        }
    }
}

// What a whole line does: where the run is then, and the text that is printed.
#[derive(Clone, Copy, Drop)]
pub struct Turn {
    pub run: Run,
    pub printed: Printed,
}

// A whole line: the first data line is line 4. A match on the number, since that is what picks the turn.
pub fn line_turn(number: u64, values: Values, line: &[u8], page: &mut [u8], data: &mut [u8]) -> Turn
    requires { LineRequires (at_line number values (take (page_size number values) page.old)) page.old «data».old }
    ensures told { Told (line_turn (at_line number values (take (page_size number values) page.old)) line.now)
        result }
    ensures holds { Holds (line_turn (at_line number values (take (page_size number values) page.old)) line.now).after
        page.new }
    ensures free { Free «data».old «data».new }
{
    match number {
        1 => following::names_turn(values, line),
        2 => following::values_turn(values, line),
        3 => following::data_turn(values, line),
        _ => {
            let n = turn_rows::size(values);
            let m = codes::STRIP_BYTES * n;
            following::write_turn(number, values, line, &mut page[..m], &mut data[..n])
        }
    }
}
