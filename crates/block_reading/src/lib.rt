// Reading the live page of a block, and erasing the block.
#![tactic(auto)]

ghost use Rattle.std.specs.Prelude.{◌≡◌, ◌≤◌, length, replicate};
ghost use Rattle.refusals.specs.Refusals.{directory_size, block_erasing, completion_of, kept};
ghost use Rattle.block_promises.specs.Block.{live_of, ground_of_get, live_page};

use block_shape::{judge_block_erase, judge_live, judge_put, page_size, page_start};
use page_erasing::clear;
use page_reading::read;
use refusals::Completion;

// The number of the live page: what the directory reads as, by code 3.
fn live_page(block: &[u8]) -> u32
    requires { directory_size ≤ length block.now }
    ensures { result ≡ live_of block.now }
{
    let mut number = [0u8; 1];
    // with that much of the block no ground applies, so the answer is done
    let _ = read(3, 1, 1, &block[..codes::STRIP_BYTES], &mut number);
    u32::from(number[0])
}

// Fills a buffer of L·S bytes with what the live page reads as.
pub fn get(
    code: u32,
    bytes: u32,
    strips: u32,
    pages: u32,
    block: &[u8],
    data: &mut [u8],
) -> Completion
    ensures value { result ≡ completion_of (ground_of_get code bytes strips pages block.now (length «data».old)) }
    ensures data_after { «data».new ≡ kept (ground_of_get code bytes strips pages block.now (length «data».old))
        (live_page code bytes strips block.now) «data».old }
{
    judge_put(code, bytes, strips, pages, block.len(), data.len())?;
    let live = live_page(block);
    judge_live(pages, live)?;
    let a = page_start(bytes, strips, live);
    let n = page_size(bytes, strips);
    read(code, bytes, strips, &block[a..a + n], data)
}

// Makes every byte of the block 0 at a temperature from 50 to 400 tenths of a degree.
pub fn erase(bytes: u32, strips: u32, pages: u32, block: &mut [u8], tenths: i16) -> Completion
    ensures value { result ≡ completion_of (block_erasing bytes strips pages (length block.old) tenths) }
    ensures block_after { block.new ≡ kept (block_erasing bytes strips pages (length block.old) tenths)
        (replicate (length block.old) 0) block.old }
{
    judge_block_erase(bytes, strips, pages, block.len(), tenths)?;
    clear(block);
    Ok(())
}
