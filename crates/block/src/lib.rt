// A block of pages: a put tries every page, and writes the cheapest and the directory. Get and erase stand in a room of their own, and are
// handed on here.
#![tactic(auto)]

ghost use Rattle.std.specs.Prelude.{◌≡◌, ◌<◌, ◌≤◌};
ghost use Rattle.std.proofs.Math.Option.{none, some};
ghost use Rattle.cells.specs.Raising.{start_of};
ghost use Rattle.page_answers.specs.Answers.{offered, value_of};
ghost use Rattle.page_choosing.specs.Picks.{taken};
ghost use Rattle.page_promises.specs.Writes.{largest_cost};
ghost use Rattle.block_promises.specs.Block.{together, put_offer, put_choice, put_block, put_answer_by, chosen_block};
ghost use Rattle.block_promises.specs.Block.{ground_of_put, put_answer, block_after, WrotePut, largest_put_cost};

pub use block_reading::{erase, get};
use block_shape::{judge_put, page_size, page_start};
use page::writing::{price, write};
use page_answers::Answer;
use page_choosing::{Pick, better};

// The cost of a page with that of the directory, where the page is done.
fn with_directory(of_page: Answer, directory: u32) -> Answer
    requires { (value_of of_page ≤ largest_cost) × (directory ≤ largest_cost) }
    ensures { offered result ≡ together (some directory) (offered of_page) }
{
    match of_page {
        Answer::Done(cost) => Answer::Done(directory + cost),
        Answer::Spent(_) | Answer::Refused(_) => of_page,
    }
}

// What a put to page k would cost: the page and the directory, where both take it.
fn price_put(
    code: u32,
    bytes: u32,
    strips: u32,
    pages: u32,
    block: &[u8],
    data: &[u8],
    k: u32,
) -> Answer
    requires data_value { ground_of_put code bytes strips pages block.now «data».now ≡ none }
    requires k_lt_pages { k < pages }
    ensures { offered result ≡ put_offer code bytes strips pages block.now «data».now k }
{
    let number = [k as u8];
    let of_directory = price(3, 1, 1, &block[..codes::STRIP_BYTES], &number);
    let Answer::Done(directory) = of_directory else {
        return of_directory;
    };
    let a = page_start(bytes, strips, k);
    let n = page_size(bytes, strips);
    let of_page = price(code, bytes, strips, &block[a..a + n], data);
    with_directory(of_page, directory)
}

// The page for which a put costs least, the lowest number of equals. Each is tried in turn.
fn cheapest_page(
    code: u32,
    bytes: u32,
    strips: u32,
    pages: u32,
    block: &[u8],
    data: &[u8],
) -> Option<Pick>
    requires { ground_of_put code bytes strips pages block.now «data».now ≡ none }
    ensures { taken result ≡ put_choice code bytes strips pages block.now «data».now }
{
    let mut pick = None;
    for k in 0..pages {
        let offer = price_put(code, bytes, strips, pages, block, data, k);
        pick = better(pick, k, 0, offer);
    }
    pick
}

// Writes the data into page k, and its number into the directory.
fn write_page(code: u32, bytes: u32, strips: u32, pages: u32, block: &mut [u8], data: &[u8], k: u32)
    requires data_value { ground_of_put code bytes strips pages block.old «data».now ≡ none }
    requires k_lt_pages { k < pages }
    ensures { block.new ≡ put_block code bytes strips pages block.old «data».now k start_of }
{
    let a = page_start(bytes, strips, k);
    let n = page_size(bytes, strips);
    write(code, bytes, strips, &mut block[a..a + n], data);
    let number = [k as u8];
    write(3, 1, 1, &mut block[..codes::STRIP_BYTES], &number);
}

// Writes the cheapest page of a block that is in order, and the directory.
fn put_cheapest(
    code: u32,
    bytes: u32,
    strips: u32,
    pages: u32,
    block: &mut [u8],
    data: &[u8],
) -> Answer
    requires { ground_of_put code bytes strips pages block.old «data».now ≡ none }
    ensures value { result ≡ put_answer_by code bytes strips pages block.old «data».now none
        (put_choice code bytes strips pages block.old «data».now) }
    ensures block_after { block.new ≡ chosen_block code bytes strips pages block.old «data».now none
        (put_choice code bytes strips pages block.old «data».now) start_of }
{
    match cheapest_page(code, bytes, strips, pages, block, data) {
        None => Answer::Spent(0),
        Some(pick) => {
            write_page(code, bytes, strips, pages, block, data, pick.number);
            Answer::Done(pick.cost)
        }
    }
}

// Writes the data into the page for which that page and the directory cost least in the house's weights, the lowest number of equals, and
// that number into the directory.
pub fn put(code: u32, bytes: u32, strips: u32, pages: u32, block: &mut [u8], data: &[u8]) -> Answer
    ensures value { result ≡ put_answer code bytes strips pages block.old «data».now }
    ensures block_after { block.new ≡ block_after code bytes strips pages block.old «data».now }
    ensures wrote_put { WrotePut code bytes strips pages block.old «data».now block.new result }
    ensures result_bound { value_of result ≤ largest_put_cost }
{
    match judge_put(code, bytes, strips, pages, block.len(), data.len()) {
        Ok(()) => put_cheapest(code, bytes, strips, pages, block, data),
        Err(refusal) => Answer::Refused(refusal),
    }
}
