// Writing a list of datas on a page that is in order, one after another: the loop behind the refusals.
#![tactic(auto)]

ghost use Rattle.std.specs.Prelude.{◌≡◌, ◌+◌, ◌<◌};
ghost use Rattle.cells.specs.Marks.{marks_in};
ghost use Rattle.codes.specs.Codes.{generators_of};
ghost use Rattle.codes.specs.Layouts.{one_bit};
ghost use Rattle.search.specs.Strip.{Dear, steps_of};
ghost use Rattle.page_answers.specs.Answers.{answer_cost};
ghost use Rattle.page_parts.specs.Shape.{Listed};
ghost use Rattle.page_promises.specs.Lists.{with_write, has_ended, none_written, refused_list, job_course};

use codes::Code;
use page_answers::{Answer, End, ListAnswer};
use page_parts::data_part;
use page_rewriting::Job;
use refusals::Refusal;

// The answer of a list with one more single write.
fn with_write(so_far: ListAnswer, answer: Answer) -> ListAnswer
    requires { (so_far.written < 64) × (so_far.cost + answer_cost answer < 4294967296) }
    ensures { result ≡ with_write so_far answer }
{
    match answer {
        Answer::Done(cost) => ListAnswer {
            written: so_far.written + 1,
            cost: so_far.cost + cost,
            end: End::Done,
        },
        Answer::Spent(strip) => ListAnswer {
            end: End::Spent(strip),
            ..so_far
        },
        Answer::Refused(refusal) => ListAnswer {
            end: End::Refused(refusal),
            ..so_far
        },
    }
}

// Whether a list has ended before its last data.
fn has_ended(end: End) -> bool
    ensures { result ≡ has_ended end }
{
    !matches!(end, End::Done)
}

// Nothing written yet.
fn none_written() -> ListAnswer
    ensures { result ≡ none_written }
{
    ListAnswer {
        written: 0,
        cost: 0,
        end: End::Done,
    }
}

// Nothing written, as the call is refused.
pub fn refused_list(refusal: Refusal) -> ListAnswer
    ensures { result ≡ refused_list refusal }
{
    ListAnswer {
        end: End::Refused(refusal),
        ..none_written()
    }
}

// Writes one data after another, and stops before the first for which the page is spent. Its parts come singly, and not as a job: the data of
// a job are one page's, and a list has more.
pub fn write_datas(
    code: Code,
    weights: [u8; 3],
    bytes: usize,
    strips: usize,
    count: usize,
    page: &mut [u8],
    map: &[u8],
    data: &[u8],
) -> ListAnswer
    requires listed { Listed one_bit bytes strips count page.old «data».now }
    requires dear { Dear (steps_of weights) }
    ensures value { result ≡ (job_course (marks_in map.now) (generators_of code) weights bytes strips count page.old
        «data».now).answer }
    ensures page_after { page.new
        ≡ (job_course (marks_in map.now) (generators_of code) weights bytes strips count
        page.old «data».now).page }
{
    let whole = bytes * strips;
    let mut so_far = none_written();
    for k in 0..count {
        let one = data_part(data, whole, k);
        let job = Job {
            code,
            weights,
            bytes,
            strips,
            map,
            data: one,
        };
        let answer = job.write_strips(page);
        so_far = with_write(so_far, answer);
        if has_ended(so_far.end) {
            return so_far;
        }
    }
    so_far
}
