// A write of the run program, and its row.
#![tactic(auto)]

ghost use Rattle.std.specs.Prelude.{◌≡◌, ◌≤◌, length};
ghost use Rattle.page_answers.specs.Answers.{answer_cost};
ghost use Rattle.turn_rows.specs.Rows.{size_of, values_page, write_row};

use page::{Answer, answers, writing};
use text::Values;
use text::printing::Printed;

// The bytes of a page's data, L·S; 0 where the values are refused.
pub fn size(v: Values) -> usize
    ensures { (result ≤ 4096) × (result ≡ size_of v) }
{
    match refusals::judge_sizes(v.code, v.bytes, v.strips) {
        Ok(()) => (v.bytes as usize) * (v.strips as usize),
        Err(_) => 0,
    }
}

// The cost of an answer: 0 where it is refused or spent.
fn answer_cost(a: Answer) -> u64
    ensures { result ≡ answer_cost a }
{
    match a {
        Answer::Done(cost) => u64::from(cost),
        Answer::Spent(_) => 0,
        Answer::Refused(_) => 0,
    }
}

// Writes the data to the page, and gives the row.
pub fn write_row(number: u64, v: Values, page: &mut [u8], data: &[u8]) -> Printed
    ensures row { result ≡ write_row number v page.old «data».now }
    ensures near { length result ≤ 96 }
    ensures page_after { page.new ≡ values_page v page.old «data».now }
{
    let answer = writing::write(v.code, v.bytes, v.strips, page, data);
    let n = size(v);
    let levels = cells::raises(page, codes::STRIP_CELLS * (n as u32));
    Printed::row(
        number,
        u64::from(answers::number(answer)),
        answer_cost(answer),
        levels,
    )
}
