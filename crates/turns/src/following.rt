// What a whole line does: where the run is then, and what is printed.
ghost use Rattle.std.specs.Prelude.{◌≡◌, cond, [], ◌<◌, leb, length};
ghost use Rattle.refusals.specs.Refusals.{text_number};
ghost use Rattle.text.specs.Hex.{decoded_of};
ghost use Rattle.turns.specs.Turns.{at_line, Told, ToldPage, halt, names_turn, values_turn, data_turn, write_turn};

use crate::{Run, Turn};
use text::printing::Printed;
use text::{Values, decoding, parsing};

// A fault: the run stops.
fn stop(v: Values, refusal: u64, number: u64) -> Turn
    ensures { Told (halt refusal (at_line number v [])) result }
{
    Turn {
        run: Run {
            on: false,
            ..Run::at_line(number, v)
        },
        printed: Printed::fault(refusal, number),
    }
}

// A line that is not in its form.
pub fn stop_form(v: Values, number: u64) -> Turn
    ensures { Told (halt text_number (at_line number v [])) result }
{
    stop(v, 6, number)
}

// Line 1.
pub fn names_turn(v: Values, line: &[u8]) -> Turn
    ensures { Told (names_turn (at_line 1 v []) line.now) result }
{
    if !parsing::is_names(line) {
        return stop_form(v, 1);
    }
    Turn {
        run: Run::at_line(2, v),
        printed: Printed::nothing(),
    }
}

// Line 2.
pub fn values_turn(v: Values, line: &[u8]) -> Turn
    ensures { Told (values_turn (at_line 2 v []) line.now) result }
{
    let Some(w) = parsing::values_of(line) else {
        return stop_form(v, 2);
    };
    match refusals::judge_sizes(w.code, w.bytes, w.strips) {
        Ok(()) => Turn {
            run: Run::at_line(3, w),
            printed: Printed::nothing(),
        },
        Err(refusal) => stop(v, u64::from(refusals::refusal_number(refusal)), 2),
    }
}

// Line 3.
pub fn data_turn(v: Values, line: &[u8]) -> Turn
    ensures { Told (data_turn (at_line 3 v []) line.now) result }
{
    if !parsing::is_data(line) {
        return stop_form(v, 3);
    }
    Turn {
        run: Run::at_line(4, v),
        printed: Printed::head(),
    }
}

// A data line, from line 4 on; the data are as long as a write's.
pub fn write_turn(number: u64, v: Values, line: &[u8], page: &mut [u8], data: &mut [u8]) -> Turn
    requires { 3 < number }
    ensures told_page { ToldPage (write_turn (length «data».old) (at_line number v page.old) line.now)
        result page.new }
    ensures data_after { «data».new
        ≡ cond (leb number 1003) (decoded_of «data».old line.now) «data».old }
{
    if number > 1003 || !decoding::decode(line, data) {
        return stop_form(v, number);
    }
    let printed = turn_rows::write_row(number - 3, v, page, data);
    Turn {
        run: Run::at_line(number + 1, v),
        printed,
    }
}
