// The calls of crate `firmware`, exported for C, each with the clauses of the call that it stands for: a crate is a library for other
// crates or an archive for C, and no crate is both. The declarations for C are in include/segrunov.h.
#![tactic(auto)]

ghost use Rattle.std.specs.Prelude.{◌≡◌, [], ◌∷◌, ◌%◌, ◌≤◌, length, replicate};
ghost use Rattle.std.proofs.Math.Option.{none, some};
ghost use Rattle.cells.specs.Marks.{marks_in, emptied};
ghost use Rattle.cells.specs.Raising.{start_of};
ghost use Rattle.cells.specs.Climbs.{house};
ghost use Rattle.demand.specs.Reading.{read_page};
ghost use Rattle.refusals.specs.Refusals.{shape_ground, erase_ground, erasing_ground, block_erasing, first_of, ground, numbered};
ghost use Rattle.refusals.specs.Refusals.{completion_of, kept};
ghost use Rattle.page_answers.specs.Answers.{plain_answer};
ghost use Rattle.page_promises.specs.Writes.{answer_with, page_with, answer_of, page_of, largest_cost, largest_weighted_cost};
ghost use Rattle.page_promises.specs.Promise.{WroteWith, Wrote};
ghost use Rattle.page_promises.specs.Lists.{list_answer, list_page, WroteList};
ghost use Rattle.page_promises.specs.Band.{band_answer, band_page, WroteBand, largest_band_cost};
ghost use Rattle.block_promises.specs.Block.{put_answer, block_after, WrotePut, largest_put_cost, ground_of_get, live_page};
ghost use Rattle.words.specs.Words.{answer_word, completion_word, list_word, Fields};

// Fills a buffer of L·S bytes with what the page reads as.
#[unsafe(no_mangle)]
pub extern "C" fn segrunov_read(
    code: u32,
    bytes: u32,
    strips: u32,
    page: &[u8],
    data: &mut [u8],
) -> u64
    ensures value { result ≡ completion_word (completion_of (ground code bytes strips (length page.now)
        (length «data».old))) }
    ensures data_after { «data».new ≡ kept (ground code bytes strips (length page.now) (length «data».old))
        (read_page (numbered code) bytes strips page.now) «data».old }
{
    firmware::segrunov_read(code, bytes, strips, page, data)
}

// What a write of the same data would answer; nothing is changed.
#[unsafe(no_mangle)]
pub extern "C" fn segrunov_price(
    code: u32,
    bytes: u32,
    strips: u32,
    page: &[u8],
    data: &[u8],
) -> u64
    ensures value { result ≡ answer_word (answer_of house code bytes strips page.now «data».now) }
    ensures wrote { Wrote house code bytes strips page.now «data».now
        (page_of house code bytes strips page.now «data».now)
        (answer_of house code bytes strips page.now «data».now) }
    ensures result_bound { result % 4294967296 ≤ largest_cost }
{
    firmware::segrunov_price(code, bytes, strips, page, data)
}

// Writes the data at the least cost.
#[unsafe(no_mangle)]
pub extern "C" fn segrunov_write(
    code: u32,
    bytes: u32,
    strips: u32,
    page: &mut [u8],
    data: &[u8],
) -> u64
    ensures value { result ≡ answer_word (answer_of house code bytes strips page.old «data».now) }
    ensures page_after { page.new ≡ page_of house code bytes strips page.old «data».now }
    ensures wrote { Wrote house code bytes strips page.old «data».now page.new
        (answer_of house code bytes strips page.old «data».now) }
    ensures result_bound { result % 4294967296 ≤ largest_cost }
{
    firmware::segrunov_write(code, bytes, strips, page, data)
}

// What a write of the same data with these weights would answer; nothing is changed.
#[unsafe(no_mangle)]
pub extern "C" fn segrunov_price_weighted(
    code: u32,
    bytes: u32,
    strips: u32,
    w1: u8,
    w2: u8,
    w3: u8,
    page: &[u8],
    data: &[u8],
) -> u64
    ensures value { result ≡ answer_word (answer_of (w1 ∷ w2 ∷ w3 ∷ []) code bytes strips page.now «data».now) }
    ensures wrote { Wrote (w1 ∷ w2 ∷ w3 ∷ []) code bytes strips page.now «data».now
        (page_of (w1 ∷ w2 ∷ w3 ∷ []) code bytes strips page.now «data».now)
        (answer_of (w1 ∷ w2 ∷ w3 ∷ []) code bytes strips page.now «data».now) }
    ensures result_bound { result % 4294967296 ≤ largest_weighted_cost }
{
    firmware::segrunov_price_weighted(code, bytes, strips, w1, w2, w3, page, data)
}

// Writes the data at the least cost in these weights.
#[unsafe(no_mangle)]
pub extern "C" fn segrunov_write_weighted(
    code: u32,
    bytes: u32,
    strips: u32,
    w1: u8,
    w2: u8,
    w3: u8,
    page: &mut [u8],
    data: &[u8],
) -> u64
    ensures value { result ≡ answer_word (answer_of (w1 ∷ w2 ∷ w3 ∷ []) code bytes strips page.old «data».now) }
    ensures page_after { page.new ≡ page_of (w1 ∷ w2 ∷ w3 ∷ []) code bytes strips page.old «data».now }
    ensures wrote { Wrote (w1 ∷ w2 ∷ w3 ∷ []) code bytes strips page.old «data».now page.new
        (answer_of (w1 ∷ w2 ∷ w3 ∷ []) code bytes strips page.old «data».now) }
    ensures result_bound { result % 4294967296 ≤ largest_weighted_cost }
{
    firmware::segrunov_write_weighted(code, bytes, strips, w1, w2, w3, page, data)
}

// What a write of the same data with this map and these weights would answer; nothing is changed.
#[unsafe(no_mangle)]
pub extern "C" fn segrunov_price_mapped(
    code: u32,
    bytes: u32,
    strips: u32,
    w1: u8,
    w2: u8,
    w3: u8,
    page: &[u8],
    map: &[u8],
    data: &[u8],
) -> u64
    ensures value { result ≡ answer_word (answer_with (some map.now) (w1 ∷ w2 ∷ w3 ∷ []) code bytes strips page.now
        «data».now) }
    ensures wrote_with { WroteWith (some map.now) (w1 ∷ w2 ∷ w3 ∷ []) code bytes strips page.now «data».now
        (page_with (some map.now) (w1 ∷ w2 ∷ w3 ∷ []) code bytes strips page.now «data».now start_of)
        (answer_with (some map.now) (w1 ∷ w2 ∷ w3 ∷ []) code bytes strips page.now «data».now) }
    ensures result_bound { result % 4294967296 ≤ largest_weighted_cost }
{
    firmware::segrunov_price_mapped(code, bytes, strips, w1, w2, w3, page, map, data)
}

// Writes the data at the least cost in these weights, and raises no cell that the map marks.
#[unsafe(no_mangle)]
pub extern "C" fn segrunov_write_mapped(
    code: u32,
    bytes: u32,
    strips: u32,
    w1: u8,
    w2: u8,
    w3: u8,
    page: &mut [u8],
    map: &[u8],
    data: &[u8],
) -> u64
    ensures value { result ≡ answer_word (answer_with (some map.now) (w1 ∷ w2 ∷ w3 ∷ []) code bytes strips page.old
        «data».now) }
    ensures page_after { page.new ≡ page_with (some map.now) (w1 ∷ w2 ∷ w3 ∷ []) code bytes strips page.old
        «data».now start_of }
    ensures wrote_with { WroteWith (some map.now) (w1 ∷ w2 ∷ w3 ∷ []) code bytes strips page.old «data».now
        page.new (answer_with (some map.now) (w1 ∷ w2 ∷ w3 ∷ []) code bytes strips page.old
        «data».now) }
    ensures result_bound { result % 4294967296 ≤ largest_weighted_cost }
{
    firmware::segrunov_write_mapped(code, bytes, strips, w1, w2, w3, page, map, data)
}

// Writes the datas one after another, each at the least cost in these weights, and stops before the first for which the page is spent.
#[unsafe(no_mangle)]
pub extern "C" fn segrunov_write_list(
    code: u32,
    bytes: u32,
    strips: u32,
    w1: u8,
    w2: u8,
    w3: u8,
    count: u32,
    page: &mut [u8],
    data: &[u8],
) -> u64
    ensures value { result ≡ list_word (list_answer none (w1 ∷ w2 ∷ w3 ∷ []) code bytes strips count
        page.old «data».now) }
    ensures page_after { page.new ≡ list_page none (w1 ∷ w2 ∷ w3 ∷ []) code bytes strips count
        page.old «data».now }
    ensures wrote_list { WroteList none (w1 ∷ w2 ∷ w3 ∷ []) code bytes strips count page.old «data».now page.new
        (list_answer none (w1 ∷ w2 ∷ w3 ∷ []) code bytes strips count page.old «data».now) }
    ensures fields { Fields result (list_answer none (w1 ∷ w2 ∷ w3 ∷ []) code bytes strips count page.old «data».now) }
{
    firmware::segrunov_write_list(code, bytes, strips, w1, w2, w3, count, page, data)
}

// Writes the datas one after another, each at the least cost in these weights, and raises no cell that the map marks.
#[unsafe(no_mangle)]
pub extern "C" fn segrunov_write_list_mapped(
    code: u32,
    bytes: u32,
    strips: u32,
    w1: u8,
    w2: u8,
    w3: u8,
    count: u32,
    page: &mut [u8],
    map: &[u8],
    data: &[u8],
) -> u64
    ensures value { result ≡ list_word (list_answer (some map.now) (w1 ∷ w2 ∷ w3 ∷ []) code bytes strips count page.old
        «data».now) }
    ensures page_after { page.new ≡ list_page (some map.now) (w1 ∷ w2 ∷ w3 ∷ []) code bytes strips count page.old
        «data».now }
    ensures wrote_list { WroteList (some map.now) (w1 ∷ w2 ∷ w3 ∷ []) code bytes strips count page.old
        «data».now page.new (list_answer (some map.now) (w1 ∷ w2 ∷ w3 ∷ []) code bytes strips count
        page.old «data».now) }
    ensures fields { Fields result (list_answer (some map.now) (w1 ∷ w2 ∷ w3 ∷ []) code bytes strips count page.old
        «data».now) }
{
    firmware::segrunov_write_list_mapped(code, bytes, strips, w1, w2, w3, count, page, map, data)
}

// Writes the cheapest value that is at most the band away from the one given, of equals the nearest, then the lower.
#[unsafe(no_mangle)]
pub extern "C" fn segrunov_write_band(code: u32, page: &mut [u8], value: u16, band: u32) -> u64
    ensures value { result ≡ answer_word (plain_answer (band_answer code page.old value band)) }
    ensures page_after { page.new ≡ band_page code page.old value band }
    ensures wrote_band { WroteBand code page.old value band page.new
        (band_answer code page.old value band) }
    ensures result_bound { result % 4294967296 ≤ largest_band_cost }
{
    firmware::segrunov_write_band(code, page, value, band)
}

// Makes every byte of the page 0 at a temperature from 50 to 400 tenths of a degree.
#[unsafe(no_mangle)]
pub extern "C" fn segrunov_erase(bytes: u32, strips: u32, page: &mut [u8], tenths: i16) -> u64
    ensures value { result ≡ completion_word (completion_of (first_of (shape_ground bytes strips (length page.old))
        (erase_ground tenths))) }
    ensures page_after { page.new ≡ kept (first_of (shape_ground bytes strips (length page.old)) (erase_ground tenths))
        (replicate (length page.old) 0) page.old }
{
    firmware::segrunov_erase(bytes, strips, page, tenths)
}

// Empties every cell that the map does not mark, at a temperature from 50 to 400 tenths of a degree; the bits of the others stay.
#[unsafe(no_mangle)]
pub extern "C" fn segrunov_erase_mapped(
    bytes: u32,
    strips: u32,
    page: &mut [u8],
    map: &[u8],
    tenths: i16,
) -> u64
    ensures value { result ≡ completion_word (completion_of (erasing_ground (some (length map.now)) bytes strips
        (length page.old) tenths)) }
    ensures page_after { page.new ≡ kept (erasing_ground (some (length map.now)) bytes strips (length page.old)
        tenths) (emptied (marks_in map.now) page.old) page.old }
{
    firmware::segrunov_erase_mapped(bytes, strips, page, map, tenths)
}

// Writes the data into the page of the block for which that page and the directory cost least, the lowest number of equals.
#[unsafe(no_mangle)]
pub extern "C" fn segrunov_block_put(
    code: u32,
    bytes: u32,
    strips: u32,
    pages: u32,
    block: &mut [u8],
    data: &[u8],
) -> u64
    ensures value { result ≡ answer_word (put_answer code bytes strips pages block.old «data».now) }
    ensures block_after { block.new ≡ block_after code bytes strips pages block.old «data».now }
    ensures wrote_put { WrotePut code bytes strips pages block.old «data».now block.new
        (put_answer code bytes strips pages block.old «data».now) }
    ensures result_bound { result % 4294967296 ≤ largest_put_cost }
{
    firmware::segrunov_block_put(code, bytes, strips, pages, block, data)
}

// Fills a buffer of L·S bytes with what the live page of the block reads as.
#[unsafe(no_mangle)]
pub extern "C" fn segrunov_block_get(
    code: u32,
    bytes: u32,
    strips: u32,
    pages: u32,
    block: &[u8],
    data: &mut [u8],
) -> u64
    ensures value { result ≡ completion_word (completion_of (ground_of_get code bytes strips pages block.now
        (length «data».old))) }
    ensures data_after { «data».new ≡ kept (ground_of_get code bytes strips pages block.now (length «data».old))
        (live_page code bytes strips block.now) «data».old }
{
    firmware::segrunov_block_get(code, bytes, strips, pages, block, data)
}

// Makes every byte of the block 0 at a temperature from 50 to 400 tenths of a degree.
#[unsafe(no_mangle)]
pub extern "C" fn segrunov_block_erase(
    bytes: u32,
    strips: u32,
    pages: u32,
    block: &mut [u8],
    tenths: i16,
) -> u64
    ensures value { result ≡ completion_word (completion_of (block_erasing bytes strips pages (length block.old) tenths)) }
    ensures block_after { block.new ≡ kept (block_erasing bytes strips pages (length block.old) tenths)
        (replicate (length block.old) 0) block.old }
{
    firmware::segrunov_block_erase(bytes, strips, pages, block, tenths)
}
