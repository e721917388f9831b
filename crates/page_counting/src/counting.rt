// Counting the cells of a page.
ghost use Rattle.std.specs.Prelude.{◌≡◌, ◌≤◌};
ghost use Rattle.cells.specs.Levels.{level};
ghost use Rattle.page_counting.specs.Counting.{row_of, census_of};

use crate::{Census, Row};
use judges::judge_shape;
use page_parts::strip;

// The row of a strip of this many cells.
fn row_of(strip: &[u8], cells: u32) -> Row
    requires { cells ≤ 1024 }
    ensures { result ≡ row_of cells (level strip.now) }
{
    let mut counts = [0u32; 4];
    for c in 0..cells {
        counts[cells::level(strip, c) as usize] += 1;
    }
    Row { counts }
}

// One row for each strip, and zeros from S to 63; all zeros with a refusal.
pub fn census(bytes: u32, strips: u32, page: &[u8]) -> Census
    ensures { result ≡ census_of bytes strips page.now }
{
    let zero = Row { counts: [0; 4] };
    let mut rows = [zero; 64];
    let answer = judge_shape(bytes, strips, page.len());
    if answer.is_err() {
        return Census { answer, rows };
    }
    for k in 0..strips as usize {
        rows[k] = row_of(strip(page, bytes as usize, k), codes::STRIP_CELLS * bytes);
    }
    Census { answer, rows }
}
