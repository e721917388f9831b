// The one number that an answer is to C.
#![tactic(auto)]

ghost use Rattle.std.specs.Prelude.{◌≡◌, ◌+◌, ◌*◌};
ghost use Rattle.page_promises.specs.Lists.{ListBounds};
ghost use Rattle.words.specs.Words.{answer_word, completion_word, list_word, Fields};

use page_answers::{Answer, ListAnswer};
use refusals::Completion;

// A number and a value in one word.
fn packed(number: u32, value: u32) -> u64
    ensures { result ≡ number * 4294967296 + value }
{
    number as u64 * 4294967296 + value as u64
}

// A write's answer in one word.
pub fn answer_word(answer: Answer) -> u64
    ensures { result ≡ answer_word answer }
{
    packed(page_answers::number(answer), page_answers::value(answer))
}

// A list's answer in one word.
pub fn list_word(answer: ListAnswer) -> u64
    requires { ListBounds answer }
    ensures value { result ≡ list_word answer }
    ensures fields { Fields result answer }
{
    let end = answer.end;
    let strip = page_answers::end_strip(end);
    packed(page_answers::end_number(end), answer.cost)
        + answer.written as u64 * 1099511627776
        + strip as u64 * 281474976710656
}

// The answer of a call that has no cost, in one word.
pub fn completion_word(completion: Completion) -> u64
    ensures { result ≡ completion_word completion }
{
    packed(refusals::completion_number(completion), 0)
}
