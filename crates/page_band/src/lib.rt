// A write that may store any value of a band: every value is priced, and the cheapest is written.
#![tactic(auto)]

ghost use Rattle.std.specs.Prelude.{◌≡◌, ◌+◌, ◌≤◌, length};
ghost use Rattle.std.proofs.Math.Option.{none};
ghost use Rattle.cells.specs.Climbs.{house};
ghost use Rattle.cells.specs.Raising.{start_of};
ghost use Rattle.refusals.specs.Refusals.{band_bytes, band_strips, value_ground};
ghost use Rattle.page_answers.specs.Answers.{plain_answer, value_of};
ghost use Rattle.page_choosing.specs.Picks.{taken};
ghost use Rattle.page_promises.specs.Writes.{ground_with, job_answer, job_page};
ghost use Rattle.page_promises.specs.Band.{value_bytes, value_job, away, lowest_value, value_count, band_choice, band_answer_by, chosen_page};
ghost use Rattle.page_promises.specs.Band.{band_answer, band_page, WroteBand, largest_band_cost};

use judges::{code_of, judge_value};
use page_answers::{Answer, BandAnswer};
use page_choosing::{Pick, better};
use page_rewriting::Job;

// The data of a value, low byte first.
fn value_bytes(value: u16) -> [u8; 2]
    ensures { result ≡ value_bytes value }
{
    value.to_le_bytes()
}

// What a value costs; no cell is marked.
fn price_value(code: u32, page: &[u8], value: u16) -> Answer
    requires { ground_with none house code band_bytes band_strips page.now (value_bytes value) ≡ none }
    ensures { result ≡ job_answer none (value_job code page.now value) }
{
    let weights = cells::house_weights();
    let data = value_bytes(value);
    let job = Job {
        code: code_of(code),
        weights,
        bytes: 2,
        strips: 1,
        map: &[],
        data: &data,
    };
    job.price_strips(page)
}

// Writes a value; no cell is marked.
fn write_value(code: u32, page: &mut [u8], value: u16) -> Answer
    requires { ground_with none house code band_bytes band_strips page.old (value_bytes value) ≡ none }
    ensures value { result ≡ job_answer none (value_job code page.old value) }
    ensures page_after { page.new ≡ job_page none (value_job code page.old value) start_of }
{
    let weights = cells::house_weights();
    let data = value_bytes(value);
    let job = Job {
        code: code_of(code),
        weights,
        bytes: 2,
        strips: 1,
        map: &[],
        data: &data,
    };
    job.write_strips(page)
}

// The lowest value of the band, which ends at 0.
fn lowest_value(value: u16, band: u32) -> u32
    ensures { result ≡ lowest_value value band }
{
    u32::from(value).saturating_sub(band)
}

// How many values the band has, which ends at 65,535.
fn value_count(value: u16, band: u32) -> u32
    requires { band ≤ 8 }
    ensures { result ≡ value_count value band }
{
    let high = (u32::from(value) + band).min(65535);
    high + 1 - lowest_value(value, band)
}

// The value at a place of the band.
fn value_at(low: u32, place: u32) -> u16
    requires { low + place ≤ 65535 }
    ensures { result ≡ low + place }
{
    (low + place) as u16
}

// The cheapest value of the band, of equals the nearest, then the lower: its place, its distance and its cost. Each is priced in turn.
fn cheapest_value(code: u32, page: &[u8], value: u16, band: u32) -> Option<Pick>
    requires { value_ground code band (length page.now) ≡ none }
    ensures { taken result ≡ band_choice code page.now value band }
{
    let low = lowest_value(value, band);
    let mut pick = None;
    for k in 0..value_count(value, band) {
        let tried = value_at(low, k);
        let price = price_value(code, page, tried);
        pick = better(pick, k, u32::from(value.abs_diff(tried)), price);
    }
    pick
}

// Writes the cheapest value of the band into a page that is in order.
fn store_value(code: u32, page: &mut [u8], value: u16, band: u32) -> BandAnswer
    requires { value_ground code band (length page.old) ≡ none }
    ensures value { result ≡ band_answer_by code page.old value band none (band_choice code page.old value band) }
    ensures page_after { page.new
        ≡ chosen_page code page.old value band none (band_choice code page.old value band) start_of }
{
    match cheapest_value(code, page, value, band) {
        None => BandAnswer::Spent,
        Some(pick) => {
            let stored = value_at(lowest_value(value, band), pick.number);
            write_value(code, page, stored);
            BandAnswer::Done(pick.cost, stored)
        }
    }
}

// Writes the cheapest value that is at most the band away from the one given, of equals the nearest, then the lower, at the least cost in
// the house's weights, into a page with L = 2 and S = 1.
pub fn write_band(code: u32, page: &mut [u8], value: u16, band: u32) -> BandAnswer
    ensures value { result ≡ band_answer code page.old value band }
    ensures page_after { page.new ≡ band_page code page.old value band }
    ensures wrote_band { WroteBand code page.old value band page.new result }
    ensures result_bound { value_of (plain_answer result) ≤ largest_band_cost }
{
    match judge_value(code, band, page.len()) {
        Ok(()) => store_value(code, page, value, band),
        Err(refusal) => BandAnswer::Refused(refusal),
    }
}
