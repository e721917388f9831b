// The parts of the caller's slices: the strips of a page, their parts of a map, and the datas of a list.
#![tactic(auto)]

ghost use Rattle.std.specs.Prelude.{◌≡◌, ◌+◌, ◌*◌, ◌<◌, ◌≤◌, length};
ghost use Rattle.demand.specs.Jobs.{part};
ghost use Rattle.page_parts.specs.Shape.{strip_of, Lies, Found, map_part};

use std::ops::Range;

// Where strip k stands in a page of this many bytes: nowhere, from a place to the same, where L is not from 1 to 64 or the strip lies
// beyond the page's end.
fn find(size: usize, bytes: usize, k: usize) -> Range<usize>
    ensures { Found bytes k size result }
{
    if bytes < 1 || bytes > 64 {
        return 0..0;
    }
    let n = codes::STRIP_BYTES * bytes;
    if k >= size / n {
        return size..size;
    }
    n * k..n * k + n
}

// Strip k of the caller's page, as that part; the empty part where L is not from 1 to 64 or the strip lies beyond the page's end.
pub fn strip(page: &[u8], bytes: usize, k: usize) -> &[u8]
    ensures result_value { result.now ≡ strip_of bytes k page.now }
    ensures lies { Lies bytes k page.now page.entry.ref_ptr result.ref_ptr }
{
    &page[find(page.len(), bytes, k)]
}

// Strip k of the caller's page, as that part, to be written; the empty part where there is no such strip.
pub fn strip_mut(page: &mut [u8], bytes: usize, k: usize) -> &mut [u8]
    ensures result_value { result.now ≡ strip_of bytes k page.old }
    ensures lies { Lies bytes k page.old page.entry.ref_ptr result.ref_ptr }
{
    let place = find(page.len(), bytes, k);
    &mut page[place]
}

// Strip k's part of a map of cells, which ends where the map ends: of a map with no byte it has none, and so no cell is marked.
pub fn map_part(map: &[u8], bytes: usize, k: usize) -> &[u8]
    requires { (bytes ≤ 64) × (k < 64) }
    ensures { result.now ≡ map_part bytes k map.now }
{
    let n = codes::MAP_BYTES * bytes;
    let at = n * k;
    let size = map.len();
    &map[at.min(size)..(at + n).min(size)]
}

// Data number k of a list of datas of `whole` bytes each.
pub fn data_part(data: &[u8], whole: usize, k: usize) -> &[u8]
    requires { whole * k + whole ≤ length «data».now }
    ensures { result.now ≡ part whole k «data».now }
{
    let a = whole * k;
    &data[a..a + whole]
}
