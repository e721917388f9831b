// What a call on a block is given is in order, or refused on the first ground that applies; and where the pages of a block begin.
#![tactic(auto)]

ghost use Rattle.std.specs.Prelude.{◌≡◌, ◌+◌, ◌*◌};
ghost use Rattle.std.proofs.Math.Option.{none};
ghost use Rattle.refusals.specs.Refusals.{limits_ground, page_bytes, directory_size, pages_ground, block_ground, put_ground, live_ground};
ghost use Rattle.refusals.specs.Refusals.{block_erasing, completion_of};

use refusals::{Completion, Refusal, judge_data, judge_limits, judge_sizes, judge_tenths};

// The bytes of a page.
pub fn page_size(bytes: u32, strips: u32) -> usize
    requires { limits_ground bytes strips ≡ none }
    ensures { result ≡ page_bytes bytes strips }
{
    codes::STRIP_BYTES * (bytes as usize) * (strips as usize)
}

// Where page k of a block begins; its directory is a strip of one byte.
pub fn page_start(bytes: u32, strips: u32, k: u32) -> usize
    requires { limits_ground bytes strips ≡ none }
    ensures { result ≡ directory_size + page_bytes bytes strips * k }
{
    codes::STRIP_BYTES + page_size(bytes, strips) * (k as usize)
}

// Judges the number of pages.
fn judge_pages(pages: u32) -> Completion
    ensures { result ≡ completion_of (pages_ground pages) }
{
    if pages < 2 || 16 < pages {
        return Err(Refusal::PagesOutside);
    }
    Ok(())
}

// Judges the block's length, where L and S are within their limits: it ends where a page behind its last would begin.
#[tactic(auto, using(std::proofs::lemmas::Bool::Decides::nat_tests), unfolding(refusals::specs::Refusals::block_ground))]
fn judge_block(bytes: u32, strips: u32, pages: u32, block: usize) -> Completion
    requires { limits_ground bytes strips ≡ none }
    ensures { result ≡ completion_of (block_ground bytes strips pages block) }
{
    if block != page_start(bytes, strips, pages) {
        return Err(Refusal::PageLength);
    }
    Ok(())
}

// Judges what a put is given, and a get: the code, L and S, then the number of pages and both lengths.
#[tactic(auto, unfolding(refusals::specs::Refusals::put_ground))]
pub fn judge_put(
    code: u32,
    bytes: u32,
    strips: u32,
    pages: u32,
    block: usize,
    data: usize,
) -> Completion
    ensures { result ≡ completion_of (put_ground code bytes strips pages block «data») }
{
    judge_sizes(code, bytes, strips)?;
    judge_pages(pages)?;
    judge_block(bytes, strips, pages, block)?;
    judge_data(bytes, strips, None, data)
}

// Judges the number that the directory reads as.
pub fn judge_live(pages: u32, live: u32) -> Completion
    ensures { result ≡ completion_of (live_ground pages live) }
{
    if live < pages {
        return Ok(());
    }
    Err(Refusal::PageMissing)
}

// Judges what the erase of a block is given: L and S, then the number of pages, the block's length and the temperature.
#[tactic(auto, unfolding(refusals::specs::Refusals::block_erasing))]
pub fn judge_block_erase(
    bytes: u32,
    strips: u32,
    pages: u32,
    block: usize,
    tenths: i16,
) -> Completion
    ensures { result ≡ completion_of (block_erasing bytes strips pages block tenths) }
{
    judge_limits(bytes, strips)?;
    judge_pages(pages)?;
    judge_block(bytes, strips, pages, block)?;
    judge_tenths(tenths)
}
