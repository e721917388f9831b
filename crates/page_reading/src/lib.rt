// Reading a page.
#![tactic(auto)]

ghost use Rattle.std.specs.Prelude.{◌≡◌, length};
ghost use Rattle.codes.specs.Layouts.{one_bit};
ghost use Rattle.codes.specs.Codes.{generators_of};
ghost use Rattle.page_parts.specs.Shape.{Sized};
ghost use Rattle.demand.specs.Reading.{read_page};
ghost use Rattle.refusals.specs.Refusals.{ground, numbered, completion_of, kept};

use codes::Code;
use judges::{code_of, judge_read};
use page_parts::strip;
use refusals::Completion;

// Reads each strip into its own part of the buffer.
pub fn read_strips(code: Code, bytes: usize, strips: usize, page: &[u8], data: &mut [u8])
    requires { Sized one_bit bytes strips page.now «data».old }
    ensures { «data».new ≡ read_page (generators_of code) bytes strips page.now }
{
    // by bounds and not by `chunks_exact_mut`, of which the prover knows the length alone once the parts are written
    for k in 0..strips {
        let a = bytes * k;
        code.read_strip(strip(page, bytes, k), &mut data[a..a + bytes]);
    }
}

// Fills a buffer of L·S bytes with what the page reads as.
pub fn read(code: u32, bytes: u32, strips: u32, page: &[u8], data: &mut [u8]) -> Completion
    ensures value { result ≡ completion_of (ground code bytes strips (length page.now) (length «data».old)) }
    ensures data_after { «data».new ≡ kept (ground code bytes strips (length page.now) (length «data».old))
        (read_page (numbered code) bytes strips page.now) «data».old }
{
    judge_read(code, bytes, strips, page.len(), data.len())?;
    read_strips(code_of(code), bytes as usize, strips as usize, page, data);
    Ok(())
}
