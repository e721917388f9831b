// Erasing a page.
#![tactic(auto)]

ghost use Rattle.std.specs.Prelude.{◌≡◌, ◌<◌, length, replicate};
ghost use Rattle.std.proofs.Math.Option.{some};
ghost use Rattle.cells.specs.Marks.{marks_in, emptied, kept_byte};
ghost use Rattle.refusals.specs.Refusals.{shape_ground, erase_ground, erasing_ground, first_of, completion_of, kept};

use judges::judge_erase;
use refusals::Completion;

// Makes every byte 0.
pub fn clear(page: &mut [u8])
    ensures { page.new ≡ replicate (length page.old) 0 }
{
    // not by `fill`, which keeps more on the stack of an erase
    for byte in page {
        *byte = 0;
    }
}

// Byte number `third` of three bytes, whose eight cells are marked by the bits of `marked`: the bits of the marked cells, and zeros for the
// others.
fn kept_byte(byte: u8, marked: u32, third: usize) -> u8
    requires { third < 3 }
    ensures { result ≡ kept_byte byte marked third }
{
    if marked == 0 {
        return 0;
    }
    let mut out: u8 = 0;
    for j in 0..8 {
        if (marked >> ((8 * third + j) / 3)) % 2 == 1 {
            out += ((byte >> j) % 2) << j;
        }
    }
    out
}

// Empties every cell that the map does not mark, and leaves the bits of those that it marks.
fn empty_unmarked(page: &mut [u8], map: &[u8])
    ensures { page.new ≡ emptied (marks_in map.now) page.old }
{
    for (i, byte) in page.iter_mut().enumerate() {
        *byte = kept_byte(*byte, cells::byte(map, i / 3), i % 3);
    }
}

// Makes every byte of the page 0 at a temperature from 50 to 400 tenths of a degree.
#[tactic(auto, unfolding(refusals::specs::Refusals::erasing_ground))]
pub fn erase(bytes: u32, strips: u32, page: &mut [u8], tenths: i16) -> Completion
    ensures value { result ≡ completion_of (first_of (shape_ground bytes strips (length page.old)) (erase_ground tenths)) }
    ensures page_after { page.new ≡ kept (first_of (shape_ground bytes strips (length page.old)) (erase_ground tenths))
        (replicate (length page.old) 0) page.old }
{
    judge_erase(bytes, strips, page.len(), None, tenths)?;
    clear(page);
    Ok(())
}

// Empties every cell that the map does not mark, at a temperature from 50 to 400 tenths of a degree; the bits of the others stay.
pub fn erase_mapped(bytes: u32, strips: u32, page: &mut [u8], map: &[u8], tenths: i16) -> Completion
    ensures value { result ≡ completion_of (erasing_ground (some (length map.now)) bytes strips
        (length page.old) tenths) }
    ensures page_after { page.new ≡ kept (erasing_ground (some (length map.now)) bytes strips (length page.old)
        tenths) (emptied (marks_in map.now) page.old) page.old }
{
    judge_erase(bytes, strips, page.len(), Some(map.len()), tenths)?;
    empty_unmarked(page, map);
    Ok(())
}
