// Pricing and writing a page, one data or a list of them: a call is judged, and what is in order goes to the loops over strips and datas.
// The write in a band stands in a room of its own, and is handed on here. Numbers and slices are what C hands over: so the public calls
// take these, and no struct.
ghost use Rattle.std.specs.Prelude.{◌≡◌, [], ◌∷◌, ◌≤◌, length};
ghost use Rattle.std.proofs.Math.Option.{none, some};
ghost use Rattle.cells.specs.Marks.{marks_in};
ghost use Rattle.cells.specs.Raising.{start_of};
ghost use Rattle.cells.specs.Climbs.{house};
ghost use Rattle.refusals.specs.Refusals.{count_given, map_given, list_ground, completion_of};
ghost use Rattle.page_answers.specs.Answers.{value_of};
ghost use Rattle.page_promises.specs.Writes.{marked_by, map_size, answer_with, page_with, answer_of, page_of, largest_cost};
ghost use Rattle.page_promises.specs.Writes.{largest_weighted_cost};
ghost use Rattle.page_promises.specs.Promise.{WroteWith, Wrote};
ghost use Rattle.page_promises.specs.Lists.{list_answer, list_page, ListBounds, WroteList};
ghost use Rattle.page.specs.Maps.{map_of};

use judges::{code_of, judge_write};
use page_answers::{Answer, ListAnswer};
pub use page_band::write_band;
use page_lists::{refused_list, write_datas};
use page_rewriting::Job;
use refusals::Completion;

// The length of a call's map, where it has one.
fn length_if(map: Option<&[u8]>) -> Option<usize>
    ensures { map_given result ≡ map_size (map_of map.entry) }
{
    // no `map` with a closure: a price comes here, and tests/pricing.py follows what it calls, which it cannot into a closure
    match map {
        Some(map) => Some(map.len()),
        None => None,
    }
}

// A call's map, where it has one, else an empty one, which marks no cell.
fn map_if(map: Option<&[u8]>) -> &[u8]
    ensures { marks_in result.now ≡ marked_by (map_of map.entry) }
{
    map.unwrap_or(&[])
}

// Judges a call of one data or of a list of so many, with a map or without one.
// The numbers of a call stay parameters until they are judged: only what is in order makes a job.
fn judged(
    code: u32,
    bytes: u32,
    strips: u32,
    weights: [u8; 3],
    count: Option<u32>,
    page: &[u8],
    map: Option<&[u8]>,
    data: &[u8],
) -> Completion
    ensures { result ≡ completion_of (list_ground (count_given count) (map_size (map_of map.entry)) weights
        code bytes strips (length page.now) (length «data».now)) }
{
    judge_write(
        code,
        bytes,
        strips,
        weights,
        count,
        page.len(),
        length_if(map),
        data.len(),
    )
}

// What a write of the same data would answer, with a map or without one; nothing is changed.
fn price_if(
    code: u32,
    bytes: u32,
    strips: u32,
    weights: [u8; 3],
    page: &[u8],
    map: Option<&[u8]>,
    data: &[u8],
) -> Answer
    ensures value { result ≡ answer_with (map_of map.entry) weights code bytes strips
        page.now «data».now }
    ensures wrote_with { WroteWith (map_of map.entry) weights code bytes strips
        page.now «data».now
        (page_with (map_of map.entry) weights code bytes strips page.now «data».now start_of) result }
    ensures result_bound { value_of result ≤ largest_weighted_cost }
{
    match judged(code, bytes, strips, weights, None, page, map, data) {
        Ok(()) => {
            let job = Job {
                code: code_of(code),
                weights,
                bytes: bytes as usize,
                strips: strips as usize,
                map: map_if(map),
                data,
            };
            job.price_strips(page)
        }
        Err(refusal) => Answer::Refused(refusal),
    }
}

// Writes the data at the least cost, with a map or without one.
fn write_if(
    code: u32,
    bytes: u32,
    strips: u32,
    weights: [u8; 3],
    page: &mut [u8],
    map: Option<&[u8]>,
    data: &[u8],
) -> Answer
    ensures value { result ≡ answer_with (map_of map.entry) weights code bytes strips
        page.old «data».now }
    ensures page_after { page.new ≡ page_with (map_of map.entry) weights code bytes strips
        page.old «data».now start_of }
    ensures wrote_with { WroteWith (map_of map.entry) weights code bytes strips
        page.old «data».now page.new result }
    ensures result_bound { value_of result ≤ largest_weighted_cost }
{
    match judged(code, bytes, strips, weights, None, page, map, data) {
        Ok(()) => {
            let job = Job {
                code: code_of(code),
                weights,
                bytes: bytes as usize,
                strips: strips as usize,
                map: map_if(map),
                data,
            };
            job.write_strips(page)
        }
        Err(refusal) => Answer::Refused(refusal),
    }
}

// Writes the datas one after another, with a map or without one.
fn write_list_if(
    code: u32,
    bytes: u32,
    strips: u32,
    weights: [u8; 3],
    count: u32,
    page: &mut [u8],
    map: Option<&[u8]>,
    data: &[u8],
) -> ListAnswer
    ensures value { result ≡ list_answer (map_of map.entry) weights code bytes strips count
        page.old «data».now }
    ensures page_after { page.new ≡ list_page (map_of map.entry) weights code bytes strips count
        page.old «data».now }
    ensures wrote_list { WroteList (map_of map.entry) weights code bytes strips count
        page.old «data».now page.new result }
    ensures list_bounds { ListBounds result }
{
    match judged(code, bytes, strips, weights, Some(count), page, map, data) {
        Ok(()) => write_datas(
            code_of(code),
            weights,
            bytes as usize,
            strips as usize,
            count as usize,
            page,
            map_if(map),
            data,
        ),
        Err(refusal) => refused_list(refusal),
    }
}

// What a write of the same data with this map and these weights would answer; nothing is changed.
pub fn price_mapped(
    code: u32,
    bytes: u32,
    strips: u32,
    w1: u8,
    w2: u8,
    w3: u8,
    page: &[u8],
    map: &[u8],
    data: &[u8],
) -> Answer
    ensures value { result ≡ answer_with (some map.now) (w1 ∷ w2 ∷ w3 ∷ []) code bytes strips page.now
        «data».now }
    ensures wrote_with { WroteWith (some map.now) (w1 ∷ w2 ∷ w3 ∷ []) code bytes strips page.now «data».now
        (page_with (some map.now) (w1 ∷ w2 ∷ w3 ∷ []) code bytes strips page.now «data».now start_of) result }
    ensures result_bound { value_of result ≤ largest_weighted_cost }
{
    price_if(code, bytes, strips, [w1, w2, w3], page, Some(map), data)
}

// Writes the data at the least cost in these weights, and raises no cell that the map marks.
pub fn write_mapped(
    code: u32,
    bytes: u32,
    strips: u32,
    w1: u8,
    w2: u8,
    w3: u8,
    page: &mut [u8],
    map: &[u8],
    data: &[u8],
) -> Answer
    ensures value { result ≡ answer_with (some map.now) (w1 ∷ w2 ∷ w3 ∷ []) code bytes strips page.old
        «data».now }
    ensures page_after { page.new ≡ page_with (some map.now) (w1 ∷ w2 ∷ w3 ∷ []) code bytes strips page.old
        «data».now start_of }
    ensures wrote_with { WroteWith (some map.now) (w1 ∷ w2 ∷ w3 ∷ []) code bytes strips page.old «data».now
        page.new result }
    ensures result_bound { value_of result ≤ largest_weighted_cost }
{
    write_if(code, bytes, strips, [w1, w2, w3], page, Some(map), data)
}

// What a write of the same data with these weights would answer; nothing is changed.
pub fn price_weighted(
    code: u32,
    bytes: u32,
    strips: u32,
    w1: u8,
    w2: u8,
    w3: u8,
    page: &[u8],
    data: &[u8],
) -> Answer
    ensures value { result ≡ answer_of (w1 ∷ w2 ∷ w3 ∷ []) code bytes strips page.now «data».now }
    ensures wrote { Wrote (w1 ∷ w2 ∷ w3 ∷ []) code bytes strips page.now «data».now
        (page_of (w1 ∷ w2 ∷ w3 ∷ []) code bytes strips page.now «data».now) result }
    ensures result_bound { value_of result ≤ largest_weighted_cost }
{
    price_if(code, bytes, strips, [w1, w2, w3], page, None, data)
}

// Writes the data at the least cost in these weights: w1 for the step from level 0 to 1, w2 from 1 to 2, w3 from 2 to 3.
pub fn write_weighted(
    code: u32,
    bytes: u32,
    strips: u32,
    w1: u8,
    w2: u8,
    w3: u8,
    page: &mut [u8],
    data: &[u8],
) -> Answer
    ensures value { result ≡ answer_of (w1 ∷ w2 ∷ w3 ∷ []) code bytes strips page.old «data».now }
    ensures page_after { page.new ≡ page_of (w1 ∷ w2 ∷ w3 ∷ []) code bytes strips page.old «data».now }
    ensures wrote { Wrote (w1 ∷ w2 ∷ w3 ∷ []) code bytes strips page.old «data».now page.new result }
    ensures result_bound { value_of result ≤ largest_weighted_cost }
{
    write_if(code, bytes, strips, [w1, w2, w3], page, None, data)
}

// What a write of the same data with the house's weights would answer; nothing is changed.
pub fn price(code: u32, bytes: u32, strips: u32, page: &[u8], data: &[u8]) -> Answer
    ensures value { result ≡ answer_of house code bytes strips page.now «data».now }
    ensures wrote { Wrote house code bytes strips page.now «data».now
        (page_of house code bytes strips page.now «data».now) result }
    ensures result_bound { value_of result ≤ largest_cost }
{
    let [w1, w2, w3] = cells::house_weights();
    price_weighted(code, bytes, strips, w1, w2, w3, page, data)
}

// Writes the data at the least cost in the house's weights.
pub fn write(code: u32, bytes: u32, strips: u32, page: &mut [u8], data: &[u8]) -> Answer
    ensures value { result ≡ answer_of house code bytes strips page.old «data».now }
    ensures page_after { page.new ≡ page_of house code bytes strips page.old «data».now }
    ensures wrote { Wrote house code bytes strips page.old «data».now page.new result }
    ensures result_bound { value_of result ≤ largest_cost }
{
    let [w1, w2, w3] = cells::house_weights();
    write_weighted(code, bytes, strips, w1, w2, w3, page, data)
}

// Writes the datas one after another, each at the least cost in these weights, and raises no cell that the map marks.
pub fn write_list_mapped(
    code: u32,
    bytes: u32,
    strips: u32,
    w1: u8,
    w2: u8,
    w3: u8,
    count: u32,
    page: &mut [u8],
    map: &[u8],
    data: &[u8],
) -> ListAnswer
    ensures value { result ≡ list_answer (some map.now) (w1 ∷ w2 ∷ w3 ∷ []) code bytes strips count page.old
        «data».now }
    ensures page_after { page.new ≡ list_page (some map.now) (w1 ∷ w2 ∷ w3 ∷ []) code bytes strips count page.old
        «data».now }
    ensures wrote_list { WroteList (some map.now) (w1 ∷ w2 ∷ w3 ∷ []) code bytes strips count page.old
        «data».now page.new result }
    ensures list_bounds { ListBounds result }
{
    write_list_if(
        code,
        bytes,
        strips,
        [w1, w2, w3],
        count,
        page,
        Some(map),
        data,
    )
}

// Writes the datas one after another, each at the least cost in these weights.
pub fn write_list(
    code: u32,
    bytes: u32,
    strips: u32,
    w1: u8,
    w2: u8,
    w3: u8,
    count: u32,
    page: &mut [u8],
    data: &[u8],
) -> ListAnswer
    ensures value { result ≡ list_answer none (w1 ∷ w2 ∷ w3 ∷ []) code bytes strips count page.old «data».now }
    ensures page_after { page.new ≡ list_page none (w1 ∷ w2 ∷ w3 ∷ []) code bytes strips count
        page.old «data».now }
    ensures wrote_list { WroteList none (w1 ∷ w2 ∷ w3 ∷ []) code bytes strips count page.old «data».now
        page.new result }
    ensures list_bounds { ListBounds result }
{
    write_list_if(code, bytes, strips, [w1, w2, w3], count, page, None, data)
}
