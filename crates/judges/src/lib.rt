// What a call is given is in order, or refused on the first ground that applies: the grounds in the paper's order.
#![tactic(auto)]

ghost use Rattle.std.specs.Prelude.{◌≡◌};
ghost use Rattle.std.proofs.Math.Option.{none};
ghost use Rattle.codes.specs.Codes.{generators_of};
ghost use Rattle.refusals.specs.Refusals.{count_given, map_given, limits_ground, shape_ground, lengths_ground, ground, list_ground};
ghost use Rattle.refusals.specs.Refusals.{value_ground, erasing_ground, numbered, completion_of};

use codes::Code;
use refusals::{
    Completion, judge_band, judge_count, judge_data, judge_limits, judge_map, judge_page,
    judge_sizes, judge_tenths, judge_weights,
};

// Judges L, S and the page's length, in this order.
#[tactic(auto, unfolding(refusals::specs::Refusals::shape_ground))]
pub fn judge_shape(bytes: u32, strips: u32, page: usize) -> Completion
    ensures { result ≡ completion_of (shape_ground bytes strips page) }
{
    judge_limits(bytes, strips)?;
    judge_page(bytes, strips, page)
}

// Judges the lengths of page, map and data, in this order, where L and S are within their limits.
#[tactic(auto, unfolding(refusals::specs::Refusals::lengths_ground))]
fn judge_lengths(
    bytes: u32,
    strips: u32,
    count: Option<u32>,
    page: usize,
    map: Option<usize>,
    data: usize,
) -> Completion
    requires { limits_ground bytes strips ≡ none }
    ensures { result ≡ completion_of (lengths_ground (count_given count) (map_given map) bytes strips page «data») }
{
    judge_page(bytes, strips, page)?;
    judge_map(bytes, strips, map)?;
    judge_data(bytes, strips, count, data)
}

// Judges what a read is given: the code, L and S, then both lengths.
#[tactic(auto, unfolding(refusals::specs::Refusals::ground))]
pub fn judge_read(code: u32, bytes: u32, strips: u32, page: usize, data: usize) -> Completion
    ensures { result ≡ completion_of (ground code bytes strips page «data») }
{
    judge_sizes(code, bytes, strips)?;
    judge_lengths(bytes, strips, None, page, None, data)
}

// Judges what a price, a write or a list of writes is given, with a map or without one: the code, L and S, then the weights, the count and
// the lengths.
#[tactic(auto, unfolding(refusals::specs::Refusals::list_ground))]
pub fn judge_write(
    code: u32,
    bytes: u32,
    strips: u32,
    weights: [u8; 3],
    count: Option<u32>,
    page: usize,
    map: Option<usize>,
    data: usize,
) -> Completion
    ensures { result ≡ completion_of (list_ground (count_given count) (map_given map) weights code bytes strips page «data») }
{
    judge_sizes(code, bytes, strips)?;
    judge_weights(weights)?;
    judge_count(count)?;
    judge_lengths(bytes, strips, count, page, map, data)
}

// Judges what a write in a band is given: the code, the band, then the page's length. L and S are 2 and 1, within their limits, so that
// each can be judged before the others.
pub fn judge_value(code: u32, band: u32, page: usize) -> Completion
    ensures { result ≡ completion_of (value_ground code band page) }
{
    let of_code = judge_sizes(code, 2, 1);
    let of_band = judge_band(band);
    let of_page = judge_page(2, 1, page);
    of_code.and(of_band.and(of_page))
}

// The code of a number that is 3 or 7.
pub fn code_of(code: u32) -> Code
    ensures { generators_of result ≡ numbered code }
{
    if code == 3 {
        Code::short()
    } else {
        Code::long()
    }
}

// Judges what an erase is given, with a map or without one: the shape, the map's length, then the temperature.
#[tactic(auto, unfolding(refusals::specs::Refusals::erasing_ground))]
pub fn judge_erase(
    bytes: u32,
    strips: u32,
    page: usize,
    map: Option<usize>,
    tenths: i16,
) -> Completion
    ensures { result ≡ completion_of (erasing_ground (map_given map) bytes strips page tenths) }
{
    judge_shape(bytes, strips, page)?;
    judge_map(bytes, strips, map)?;
    judge_tenths(tenths)
}
