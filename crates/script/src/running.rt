// The run between two bytes of its input: it is handed the next bytes, as many as there are, and says what is printed.
ghost use Rattle.std.specs.Prelude.{◌≡◌, List, [], ◌++◌, ℕ, ◌≤◌, length, take};
ghost use Rattle.script.specs.Positions.{start, prints_from};
ghost use Rattle.script.specs.Buffers.{position_of, Ready, LineEnd, KeptPart, Stepped};

use crate::Step;
use text::Values;
use text::printing::Printed;
use turns::{Run, Turn, following, line_turn};

// How many bytes of a line are kept, and how many of those that were handed over belong to it.
#[derive(Clone, Copy, Drop)]
struct Part {
    used: usize,
    end: usize,
}

// Before the first byte.
pub fn begin() -> Run
    ensures by_index { (line page : List ℕ) → position_of result line page ≡ start }
    ensures number_value { (result.number ≡ 1) × (result.used ≡ 0) }
{
    Run::at_line(1, Values::default())
}

// Where the line ends: the first byte 10, or the end of the bytes where there is none.
fn line_end(bytes: &[u8]) -> usize
    ensures { LineEnd bytes.now result }
{
    bytes
        .iter()
        .position(|byte| *byte == b'\n')
        .unwrap_or(bytes.len())
}

// Keeps the bytes up to the end of the line, or all of them where it does not end here. Of a line that is too long for its form only as
// many are kept as the buffer holds: that many are in no form.
fn keep_part(bytes: &[u8], line: &mut [u8], used: usize) -> Part
    requires { used ≤ length line.old }
    ensures kept_part { KeptPart (take used line.old ++ take result.end bytes.now)
        line.old result.used line.new }
    ensures line_end { LineEnd bytes.now result.end }
{
    let end = line_end(bytes);
    let kept = end.min(line.len() - used);
    line[used..used + kept].copy_from_slice(&bytes[..kept]);
    Part {
        used: used + kept,
        end,
    }
}

// Takes bytes of the input: up to the end of a line, or all of them.
pub fn take_bytes(run: Run, bytes: &[u8], line: &mut [u8], page: &mut [u8], data: &mut [u8]) -> Step
    requires { Ready run line.old page.old «data».old }
    ensures stepped { Stepped (position_of run line.old page.old) bytes.now
        result (position_of result.run line.new page.new) }
    ensures ready { Ready result.run line.new page.new «data».new }
{
    if !run.on {
        return Step {
            run,
            printed: Printed::nothing(),
            taken: bytes.len(),
        };
    }
    let Part { used, end } = keep_part(bytes, line, run.used);
    if end == bytes.len() {
        return Step {
            run: Run { used, ..run },
            printed: Printed::nothing(),
            taken: end,
        };
    }
    let Turn { run, printed } = line_turn(run.number, run.values, &line[..used], page, data);
    Step {
        run,
        printed,
        taken: end + 1,
    }
}

// The end of the input: a line that is missing or not ended is at fault.
pub fn take_end(run: Run) -> Printed
    ensures upper_bound { length result ≤ 96 }
    ensures by_index { (line page : List ℕ) → run.used ≤ length line
        → result ≡ prints_from (position_of run line page) [] }
{
    let whole = run.used == 0 && run.number > 3;
    if !run.on || whole {
        return Printed::nothing();
    }
    following::stop_form(run.values, run.number).printed
}
