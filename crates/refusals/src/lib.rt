// The grounds of a refusal, each tested in one place; `judges` puts them in the paper's order.
#![tactic(auto)]

ghost use Rattle.std.specs.Prelude.{◌≡◌};
ghost use Rattle.std.proofs.Math.Option.{Option, none};
ghost use Rattle.codes.specs.Layouts.{one_bit};
ghost use Rattle.refusals.specs.Refusals.{one_to_64, is_code, too_cold, too_warm, free_step, limits_ground, sizes_ground, weights_ground};
ghost use Rattle.refusals.specs.Refusals.{count_given, map_given, band_ground, count_ground, page_ground, map_ground, datas_ground};
ghost use Rattle.refusals.specs.Refusals.{erase_ground, first_of, refusal_number, completion_of, completion_number};

// Why a call is refused, in the order of the tests; the paper's numbers are 1, 12, 2, 3, 13, 9, 10, 4, 11, 5, 8 and 14.
#[derive(Clone, Copy, Drop)]
pub enum Refusal {
    CodeUnknown,
    BandOutside,
    BytesOutside,
    StripsOutside,
    PagesOutside,
    WeightZero,
    CountOutside,
    PageLength,
    MapLength,
    DataLength,
    EraseTemperature,
    PageMissing,
}

// The answer of a call that is done or refused.
pub type Completion = Result<(), Refusal>;

// Whether n is from 1 to 64.
fn one_to_64(n: u32) -> bool
    ensures { result ≡ one_to_64 n }
{
    1 <= n && n <= 64
}

// Judges L and S, in this order.
pub fn judge_limits(bytes: u32, strips: u32) -> Completion
    ensures { result ≡ completion_of (limits_ground bytes strips) }
{
    if !one_to_64(bytes) {
        return Err(Refusal::BytesOutside);
    }
    if !one_to_64(strips) {
        return Err(Refusal::StripsOutside);
    }
    Ok(())
}

// Whether n is the number of a code.
fn is_code(n: u32) -> bool
    ensures { result ≡ is_code n }
{
    n == 3 || n == 7
}

// Judges the code, then L and S.
pub fn judge_sizes(code: u32, bytes: u32, strips: u32) -> Completion
    ensures { result ≡ completion_of (sizes_ground code bytes strips) }
{
    if !is_code(code) {
        return Err(Refusal::CodeUnknown);
    }
    judge_limits(bytes, strips)
}

// Judges how far a value that is stored may be from the one given.
pub fn judge_band(band: u32) -> Completion
    ensures { result ≡ completion_of (band_ground band) }
{
    if band > 8 {
        return Err(Refusal::BandOutside);
    }
    Ok(())
}

// Whether one of the weights is 0.
fn free_step(weights: [u8; 3]) -> bool
    ensures { result ≡ free_step weights }
{
    let [w1, w2, w3] = weights;
    w1 == 0 || w2 == 0 || w3 == 0
}

// Judges the weights.
pub fn judge_weights(weights: [u8; 3]) -> Completion
    ensures { result ≡ completion_of (weights_ground weights) }
{
    if free_step(weights) {
        return Err(Refusal::WeightZero);
    }
    Ok(())
}

// Judges the count of a list; a single write has none.
pub fn judge_count(count: Option<u32>) -> Completion
    ensures { result ≡ completion_of (count_ground (count_given count)) }
{
    if let Some(n) = count {
        if !one_to_64(n) {
            return Err(Refusal::CountOutside);
        }
    }
    Ok(())
}

// Judges the page's length, where L and S are within their limits.
pub fn judge_page(bytes: u32, strips: u32, page: usize) -> Completion
    requires { limits_ground bytes strips ≡ none }
    ensures { result ≡ completion_of (page_ground one_bit bytes strips page) }
{
    if page != codes::STRIP_BYTES * (bytes as usize) * (strips as usize) {
        return Err(Refusal::PageLength);
    }
    Ok(())
}

// Judges the map's length, where there is a map.
pub fn judge_map(bytes: u32, strips: u32, map: Option<usize>) -> Completion
    requires { limits_ground bytes strips ≡ none }
    ensures { result ≡ completion_of (map_ground one_bit bytes strips (map_given map)) }
{
    if let Some(size) = map {
        if size != codes::MAP_BYTES * (bytes as usize) * (strips as usize) {
            return Err(Refusal::MapLength);
        }
    }
    Ok(())
}

// Judges the length of the data, or of the buffer for it; of a list, that of all its datas.
pub fn judge_data(bytes: u32, strips: u32, count: Option<u32>, data: usize) -> Completion
    requires { limits_ground bytes strips ≡ none }
    ensures { result ≡ completion_of (datas_ground (count_given count) bytes strips «data») }
{
    let one = (bytes as usize) * (strips as usize);
    match count {
        None => {
            if data != one {
                return Err(Refusal::DataLength);
            }
        }
        Some(n) => {
            if data != (n as usize) * one {
                return Err(Refusal::DataLength);
            }
        }
    }
    Ok(())
}

// Whether it is too cold for an erase, in tenths of a degree Celsius.
fn too_cold(tenths: i16) -> bool
    ensures { result ≡ too_cold tenths }
{
    tenths < 50
}

// Whether it is too warm for an erase, in tenths of a degree Celsius.
fn too_warm(tenths: i16) -> bool
    ensures { result ≡ too_warm tenths }
{
    tenths > 400
}

// Judges the temperature.
pub fn judge_tenths(tenths: i16) -> Completion
    ensures { result ≡ completion_of (erase_ground tenths) }
{
    if too_cold(tenths) || too_warm(tenths) {
        return Err(Refusal::EraseTemperature);
    }
    Ok(())
}

// The number of a refusal.
pub fn refusal_number(refusal: Refusal) -> u32
    ensures { result ≡ refusal_number refusal }
{
    match refusal {
        Refusal::CodeUnknown => 1,
        Refusal::BytesOutside => 2,
        Refusal::StripsOutside => 3,
        Refusal::PageLength => 4,
        Refusal::DataLength => 5,
        Refusal::EraseTemperature => 8,
        Refusal::WeightZero => 9,
        Refusal::CountOutside => 10,
        Refusal::MapLength => 11,
        Refusal::BandOutside => 12,
        Refusal::PagesOutside => 13,
        Refusal::PageMissing => 14,
    }
}

// The number of a completion.
pub fn completion_number(completion: Completion) -> u32
    ensures { result ≡ completion_number completion }
{
    match completion {
        Ok(()) => 0,
        Err(refusal) => refusal_number(refusal),
    }
}
