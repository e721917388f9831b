// What lines 1 to 3 say.
ghost use Rattle.std.specs.Prelude.{◌≡◌};
ghost use Rattle.cells.specs.Places.{same_list};
ghost use Rattle.text.specs.Lines.{step_of, scan_of, no_values, five_digits, values_of, form_of};
ghost use Rattle.text.specs.Text.{names_text, data_text};

use crate::Values;
use crate::printing::Printed;

// One byte of line 2.
#[tactic(auto, using(std::proofs::lemmas::Bool::Decides::nat_tests), unfolding(crate::specs::Lines::step_of))]
fn step(v: Values, c: u8) -> Values
    ensures { result ≡ step_of v c }
{
    if c == b' ' {
        Values {
            code: v.bytes,
            bytes: v.strips,
            strips: 0,
        }
    } else {
        Values {
            strips: v.strips % 100000 * 10 + u32::from(c % 16),
            ..v
        }
    }
}

// The values that a line 2 in form has.
fn scan(line: &[u8]) -> Values
    ensures { result ≡ scan_of no_values line.now }
{
    let mut v = Values::default();
    for c in line {
        v = step(v, *c);
    }
    v
}

// Whether line 1 names the three values.
pub fn is_names(line: &[u8]) -> bool
    ensures { result ≡ same_list line.now names_text }
{
    line == b"code bytes strips".as_slice()
}

// Whether line 3 says that the data follow.
pub fn is_data(line: &[u8]) -> bool
    ensures { result ≡ same_list line.now data_text }
{
    line == b"data".as_slice()
}

// Whether each value has at most five digits.
#[tactic(auto, using(std::proofs::lemmas::Bool::Decides::nat_tests), unfolding(crate::specs::Lines::five_digits))]
fn five_digits(v: Values) -> bool
    ensures { result ≡ five_digits v }
{
    v.code < 100000 && v.bytes < 100000 && v.strips < 100000
}

// What line 2 gives. A line in form is the text of its own values: so a leading zero, a second space or any other byte breaks it.
pub fn values_of(line: &[u8]) -> Option<Values>
    ensures { result ≡ form_of (values_of line.now) }
{
    let v = scan(line);
    let in_form = five_digits(v) && line == Printed::values(v).text();
    in_form.then_some(v)
}
