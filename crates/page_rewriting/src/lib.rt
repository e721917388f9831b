// Pricing and writing the strips of a page that is in order: the loops behind the refusals. A write plans every strip before it touches
// one.
#![tactic(auto)]

ghost use Rattle.std.specs.Prelude.{◌≡◌, ◌*◌, true, length};
ghost use Rattle.std.proofs.Math.Option.{none};
ghost use Rattle.cells.specs.Climbs.{Weights};
ghost use Rattle.cells.specs.Places.{Free};
ghost use Rattle.cells.specs.Raising.{start_of};
ghost use Rattle.codes.specs.Codes.{generators_of};
ghost use Rattle.codes.specs.Layouts.{one_bit, byte_count};
ghost use Rattle.search.specs.Strip.{Dear, steps_of};
ghost use Rattle.refusals.specs.Refusals.{one_to_64};
ghost use Rattle.page_promises.specs.Writes.{job_answer, job_page};
ghost use Rattle.page_rewriting.specs.Plans.{Planned, Carried};

use carrying::carry_strip;
use codes::Code;
use page_answers::{Answer, Total};
use page_parts::{data_part, map_part, strip};
use prices::rows_of;
use trellis::backward::price_strip;
use trellis::forward::plan_strip;

// One data for a page of so many strips, of L bytes of data each, and how it is to be written: by which code, at which weights and around
// which marked cells. All of it is in order: what a job still asks of a page is its length.
#[derive(Drop)]
pub struct Job<'a> {
    pub code: Code,
    pub weights: [u8; 3],
    pub bytes: usize,
    pub strips: usize,
    pub map: &'a [u8],
    pub data: &'a [u8],
    pub ghost weighed: { Weights weights },
    pub ghost dear: { Dear (steps_of weights) },
    pub ghost bytes_in: { one_to_64 bytes ≡ true },
    pub ghost strips_in: { one_to_64 strips ≡ true },
    pub ghost data_is: { length «data».now ≡ bytes * strips },
}

impl Job<'_> {
    ghost use Rattle.page_rewriting.specs.Jobs.{job_on};

    // What the data of the whole page costs.
    pub fn price_strips(&self, page: &[u8]) -> Answer
        requires page_is { length page.now ≡ byte_count one_bit self.now.bytes * self.now.strips }
        ensures { result ≡ job_answer none (job_on self.now page.now) }
    {
        let rows = rows_of(self.weights);
        let mut total = Total::new();
        for k in 0..self.strips {
            let marked = map_part(self.map, self.bytes, k);
            let price = price_strip(
                self.code,
                &rows,
                strip(page, self.bytes, k),
                marked,
                data_part(self.data, self.bytes, k),
            );
            total = total.add(price);
            if total.spent {
                return total.answer();
            }
        }
        total.answer()
    }

    // What the data of the whole page costs, and the digits of the cheapest way: a bit a stage, each strip's in its own part. Of a page that
    // is spent they are free.
    fn plan_strips(&self, page: &[u8], digits: &mut [u8]) -> Answer
        requires page_is { length page.now ≡ byte_count one_bit self.now.bytes * self.now.strips }
        requires digits_len { length digits.old ≡ self.now.bytes * self.now.strips }
        ensures value { result ≡ job_answer none (job_on self.now page.now) }
        ensures planned { Planned (generators_of self.now.code) self.now.weights self.now.bytes self.now.strips
            page.now self.now.map.now self.now.«data».now digits.new }
        ensures free { Free digits.old digits.new }
    {
        let rows = rows_of(self.weights);
        let mut total = Total::new();
        for k in 0..self.strips {
            let a = self.bytes * k;
            let outcome = plan_strip(
                self.code,
                &rows,
                strip(page, self.bytes, k),
                map_part(self.map, self.bytes, k),
                data_part(self.data, self.bytes, k),
                &mut digits[a..a + self.bytes],
            );
            total = total.add(outcome);
            if total.spent {
                return total.answer();
            }
        }
        total.answer()
    }

    // Carries the digits out, strip by strip.
    fn carry_strips(&self, page: &mut [u8], digits: &[u8])
        requires page_is { length page.old ≡ byte_count one_bit self.now.bytes * self.now.strips }
        requires digits_len { length digits.now ≡ self.now.bytes * self.now.strips }
        ensures { Carried (generators_of self.now.code) self.now.bytes self.now.strips
            page.old self.now.«data».now digits.now page.new }
    {
        let n = codes::STRIP_BYTES * self.bytes;
        for k in 0..self.strips {
            let a = n * k;
            carry_strip(
                self.code,
                &mut page[a..a + n],
                data_part(self.data, self.bytes, k),
                data_part(digits, self.bytes, k),
            );
        }
    }

    // Plans every strip, and carries the plans out only where each has one.
    pub fn write_strips(&self, page: &mut [u8]) -> Answer
        requires page_is { length page.old ≡ byte_count one_bit self.now.bytes * self.now.strips }
        ensures value { result ≡ job_answer none (job_on self.now page.old) }
        ensures page_after { page.new ≡ job_page none (job_on self.now page.old) start_of }
    {
        let mut digits = [0u8; 4096];
        let whole = self.bytes * self.strips;
        let answer = self.plan_strips(page, &mut digits[0..whole]);
        if let Answer::Done(_) = answer {
            self.carry_strips(page, &digits[0..whole]);
        }
        answer
    }
}
