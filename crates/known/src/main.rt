// Known cells: what the compiled functions answer on known bytes, a row each, held against the file stdout, which tests/known.py works out
// by the papers. The proofs speak of the source; this runs what the compiler made of it.
#![tactic(auto)]

use codes::Code;
use page::BandAnswer;
use std::fmt::{Display, Formatter};
use std::{fmt, io};

// Bytes, printed in hexadecimal, in a row.
#[derive(Drop)]
struct Hex<'a>(&'a [u8]);

impl<'a> Display for Hex<'a> {
    fn fmt<W: fmt::Write>(&self, f: &mut Formatter<W>) -> fmt::Result {
        for byte in self.0 {
            write!(f, "{byte:02x}")?;
        }
        Ok(())
    }
}

// A call's answer as C sees it, printed as its number and its value.
#[derive(Drop)]
struct Word(u64);

impl Display for Word {
    fn fmt<W: fmt::Write>(&self, f: &mut Formatter<W>) -> fmt::Result {
        write!(f, "{} {}", self.0 / 4294967296, self.0 % 4294967296)
    }
}

// A list's answer as C sees it, printed field by field.
#[derive(Drop)]
struct ListWord(u64);

impl Display for ListWord {
    fn fmt<W: fmt::Write>(&self, f: &mut Formatter<W>) -> fmt::Result {
        let [c0, c1, c2, c3, number, written, s0, s1] = self.0.to_le_bytes();
        let cost = u32::from_le_bytes([c0, c1, c2, c3]);
        let strip = u16::from_le_bytes([s0, s1]);
        write!(
            f,
            "answer {number} written {written} strip {strip} cost {cost}"
        )
    }
}

// The answer of a write in a band, printed as its number and its value, and the value stored, if one is.
#[derive(Drop)]
struct Band(BandAnswer);

impl Display for Band {
    fn fmt<W: fmt::Write>(&self, f: &mut Formatter<W>) -> fmt::Result {
        let plain = page::answers::plain(self.0);
        write!(
            f,
            "answer {} {}",
            page::answers::number(plain),
            page::answers::value(plain)
        )?;
        if let BandAnswer::Done(_, stored) = self.0 {
            write!(f, " stored {stored}")?;
        }
        Ok(())
    }
}

// What a call is given beside the sizes: nothing, so that the weights are the house's; weights; or weights and a map of marked cells.
#[derive(Clone, Copy, Drop)]
enum Given<'a> {
    House,
    Weights([u8; 3]),
    Map([u8; 3], &'a [u8]),
}

// The calls of the C interface with this code, this L and S, and what else is given.
#[derive(Clone, Copy, Drop)]
struct Calls<'a> {
    code: u32,
    bytes: u32,
    strips: u32,
    given: Given<'a>,
}

impl<'a> Calls<'a> {
    // The calls with these items.
    fn new(code: u32, bytes: u32, strips: u32, given: Given<'a>) -> Calls<'a> {
        Calls {
            code,
            bytes,
            strips,
            given,
        }
    }

    // The price of the data.
    fn price(self, page: &[u8], data: &[u8]) -> Word {
        let Calls {
            code,
            bytes,
            strips,
            given,
        } = self;
        Word(match given {
            Given::House => firmware::segrunov_price(code, bytes, strips, page, data),
            Given::Weights(weights) => {
                let [w1, w2, w3] = weights;
                firmware::segrunov_price_weighted(code, bytes, strips, w1, w2, w3, page, data)
            }
            Given::Map(weights, map) => {
                let [w1, w2, w3] = weights;
                firmware::segrunov_price_mapped(code, bytes, strips, w1, w2, w3, page, map, data)
            }
        })
    }

    // A write of the data.
    fn write(self, page: &mut [u8], data: &[u8]) -> Word {
        let Calls {
            code,
            bytes,
            strips,
            given,
        } = self;
        Word(match given {
            Given::House => firmware::segrunov_write(code, bytes, strips, page, data),
            Given::Weights(weights) => {
                let [w1, w2, w3] = weights;
                firmware::segrunov_write_weighted(code, bytes, strips, w1, w2, w3, page, data)
            }
            Given::Map(weights, map) => {
                let [w1, w2, w3] = weights;
                firmware::segrunov_write_mapped(code, bytes, strips, w1, w2, w3, page, map, data)
            }
        })
    }

    // A read into the data; it needs no weights and no map.
    fn read(self, page: &[u8], data: &mut [u8]) -> Word {
        Word(firmware::segrunov_read(self.code, self.bytes, self.strips, page, data))
    }

    // A list of writes. No such call is without weights, so it is given the house's as any others.
    fn write_list(self, count: u32, page: &mut [u8], data: &[u8]) -> ListWord {
        let Calls {
            code,
            bytes,
            strips,
            given,
        } = self;
        let ([w1, w2, w3], map) = match given {
            Given::House => (cells::house_weights(), None),
            Given::Weights(weights) => (weights, None),
            Given::Map(weights, map) => (weights, Some(map)),
        };
        ListWord(match map {
            None => firmware::segrunov_write_list(
                code, bytes, strips, w1, w2, w3, count, page, data,
            ),
            Some(map) => firmware::segrunov_write_list_mapped(
                code, bytes, strips, w1, w2, w3, count, page, map, data,
            ),
        })
    }
}

// A strip of one data byte, and what it reads as.
fn show_reading(rt: &impl Print, code: Code, name: &str, strip: [u8; 6]) -> io::Result<()> {
    let mut data = [0u8; 1];
    code.read_strip(&strip, &mut data);
    println!(rt; "{name} {} reads {}", Hex(&strip), Hex(&data))
}

// A strip with one of its cells raised, if it can be; the row has the sum of the levels before and after.
fn show_raise(rt: &impl Print, strip: &mut [u8; 6], cell: u32) -> io::Result<()> {
    let before = cells::raises(strip, 16);
    let word = if cells::raise(strip, cell) {
        "raised"
    } else {
        "full"
    };
    let after = cells::raises(strip, 16);
    println!(rt; "{} levels {before} to {after} {word}", Hex(strip))
}

// A price and a write of the data, a read into them, and what page and data are then.
fn show_calls_on(
    rt: &impl Print,
    name: &str,
    calls: Calls,
    page: &mut [u8],
    data: &mut [u8],
) -> io::Result<()> {
    println!(rt; "{name}")?;
    println!(rt; "  price {}", calls.price(page, data))?;
    println!(rt; "  write {}", calls.write(page, data))?;
    println!(rt; "  read {}", calls.read(page, data))?;
    println!(rt; "  page {} data {}", Hex(page), Hex(data))
}

// A list of writes.
fn show_list(
    rt: &impl Print,
    name: &str,
    calls: Calls,
    count: u32,
    page: &mut [u8],
    data: &[u8],
) -> io::Result<()> {
    let answer = calls.write_list(count, page, data);
    println!(rt; "{name}: {answer} page {}", Hex(page))
}

// An erase, with a map of marked cells if there is one, and the page after it.
fn show_erase(
    rt: &impl Print,
    name: &str,
    bytes: u32,
    strips: u32,
    page: &mut [u8],
    map: Option<&[u8]>,
    tenths: i16,
) -> io::Result<()> {
    let answer = match map {
        None => firmware::segrunov_erase(bytes, strips, page, tenths),
        Some(map) => firmware::segrunov_erase_mapped(bytes, strips, page, map, tenths),
    };
    println!(rt; "{name} {}", Word(answer))?;
    println!(rt; "  page {}", Hex(page))
}

// The answer of a census, and the first four of its rows.
fn show_census(rt: &impl Print, bytes: u32, strips: u32, page: &[u8]) -> io::Result<()> {
    let counted = page::counting::census(bytes, strips, page);
    println!(rt; "census {}", refusals::completion_number(counted.answer))?;
    for row in &counted.rows[..4] {
        let [none, one, two, three] = row.counts;
        println!(rt; "  {none} {one} {two} {three}")?;
    }
    Ok(())
}

// A page of 72 bytes, no two of them alike, with the last byte of strip k set, as a part to be written: every other byte is as it was.
fn show_strip(rt: &impl Print, bytes: usize, k: usize) -> io::Result<()> {
    let mut page = *b"ABCDEFGHIJKLMNOPQRSTUVWXYZabcdefghijklmnopqrstuvwxyz0123456789+-*/=<>.,:";
    let part = page::shape::strip_mut(&mut page, bytes, k);
    if let Some(last) = part.last_mut() {
        *last = 0xee;
    }
    let size = part.len();
    println!(rt; "L = {bytes}, strip {k}: {size} bytes, page {}", Hex(&page))
}

// Strips of pages where L is not S, and parts that are empty: a strip beyond the end, also one that no product of its number fits, and L
// outside its limits.
fn show_strips(rt: &impl Print) -> io::Result<()> {
    for (bytes, k) in [
        (3, 2),
        (3, 3),
        (4, 1),
        (2, 1),
        (1, 2),
        (3, 4),
        (5, 2),
        (3, 18446744073709551615),
        (0, 0),
        (65, 0),
    ] {
        show_strip(rt, bytes, k)?;
    }
    Ok(())
}

// Every call where L is not S, so that one taken for the other shows.
fn show_shapes(rt: &impl Print) -> io::Result<()> {
    let mut page = [0u8; 36];
    let mut data = [0x80, 0x01, 0xc3, 0x40, 0x5a, 0xff];
    let calls = Calls::new(3, 2, 3, Given::House);
    show_calls_on(rt, "L = 2, S = 3, code 3", calls, &mut page, &mut data)?;
    show_census(rt, 2, 3, &page)?;
    show_census(rt, 3, 2, &page)?;
    let calls = Calls::new(7, 3, 2, Given::House);
    show_calls_on(rt, "L = 3, S = 2, code 7", calls, &mut page, &mut data)?;
    show_census(rt, 3, 2, &page)?;
    show_erase(rt, "erase, L = 65, S = 1", 65, 1, &mut page, None, 200)?;
    show_erase(rt, "erase, L = 1, S = 65", 1, 65, &mut page, None, 200)?;
    show_census(rt, 65, 1, &page)?;
    show_census(rt, 1, 65, &page)?;
    show_erase(rt, "erase, L = 3, S = 2", 3, 2, &mut page, None, 200)
}

// A write that changes the data of strip 1 alone: strip 0 keeps its bytes.
fn show_one_strip(rt: &impl Print) -> io::Result<()> {
    let mut page = [0u8; 48];
    let mut data = [0x80, 0x01, 0xc3, 0x40, 0x5a, 0xff, 0x0f, 0x1e];
    let calls = Calls::new(3, 4, 2, Given::House);
    show_calls_on(rt, "L = 4, S = 2, code 3", calls, &mut page, &mut data)?;
    data[5] = 0x3c;
    show_calls_on(rt, "the same, strip 1", calls, &mut page, &mut data)
}

// Writes with weights one after the other on one page, with L not S.
fn show_weights(rt: &impl Print) -> io::Result<()> {
    let mut page = [0u8; 36];
    for (name, calls, mut data) in [
        (
            "weights 1 2 3, L = 2, S = 3, code 3",
            Calls::new(3, 2, 3, Given::Weights([1, 2, 3])),
            [0x01, 0x23, 0x45, 0x67, 0x89, 0xab],
        ),
        (
            "weights 255 1 2, L = 2, S = 3, code 3",
            Calls::new(3, 2, 3, Given::Weights([255, 1, 2])),
            [0xba, 0x98, 0x76, 0x54, 0x32, 0x10],
        ),
        (
            "weights 2 255 1, L = 3, S = 2, code 7",
            Calls::new(7, 3, 2, Given::Weights([2, 255, 1])),
            [0x0f, 0x1e, 0x2d, 0x3c, 0x4b, 0x5a],
        ),
        (
            "weights 255 255 255, L = 3, S = 2, code 3",
            Calls::new(3, 3, 2, Given::Weights([255, 255, 255])),
            [0xfe, 0xed, 0xc0, 0xff, 0xee, 0x42],
        ),
    ] {
        show_calls_on(rt, name, calls, &mut page, &mut data)?;
    }
    show_census(rt, 3, 2, &page)
}

// A weight of 0 in each place.
fn show_zero_weights(rt: &impl Print) -> io::Result<()> {
    for (name, weights) in [
        ("weights 0 1 1", [0, 1, 1]),
        ("weights 1 0 1", [1, 0, 1]),
        ("weights 1 1 0", [1, 1, 0]),
    ] {
        let calls = Calls::new(3, 1, 1, Given::Weights(weights));
        show_calls_on(rt, name, calls, &mut [0u8; 6], &mut [0x80])?;
    }
    Ok(())
}

// A page under one map, which marks the cells 7 and 10 of strip 1 where L = 2, and cells of strip 0 where L = 3: an erase that leaves their
// bits, then writes. A map that is a byte short. By write_page, the model in tests/run.py, the map with the bits of each byte or the bytes
// of each pair turned round, or another strip's, gives other costs.
fn show_maps(rt: &impl Print) -> io::Result<()> {
    let map = [0u8, 0, 0, 0, 0x80, 0x04, 0, 0, 0, 0, 0, 0];
    let short = [0u8; 11];
    let mut page = [0x5au8; 36];
    show_erase(
        rt,
        "erase, map of strip 1, L = 2, S = 3",
        2,
        3,
        &mut page,
        Some(&map),
        200,
    )?;
    for (name, calls, mut data) in [
        (
            "map of strip 1, L = 2, S = 3, code 7",
            Calls::new(7, 2, 3, Given::Map([3, 1, 2], &map)),
            [0x61, 0x7b, 0x0f, 0xed, 0xa7, 0xe1],
        ),
        (
            "the same map, L = 3, S = 2, code 3",
            Calls::new(3, 3, 2, Given::Map([16, 20, 28], &map)),
            [0x6a, 0xb3, 0x78, 0x20, 0xdb, 0x5c],
        ),
        (
            "a map of 11 bytes",
            Calls::new(3, 3, 2, Given::Map([16, 20, 28], &short)),
            [0; 6],
        ),
    ] {
        show_calls_on(rt, name, calls, &mut page, &mut data)?;
    }
    show_erase(
        rt,
        "erase, a map of 11 bytes",
        3,
        2,
        &mut page,
        Some(&short),
        200,
    )
}

// A page all of whose cells are marked at level 0.
fn show_marked(rt: &impl Print) -> io::Result<()> {
    let mut strip = [0u8; 6];
    let calls = Calls::new(3, 1, 1, Given::Map([16, 20, 28], &[0xff, 0xff]));
    show_calls_on(
        rt,
        "every cell marked at level 0",
        calls,
        &mut strip,
        &mut [0x80],
    )?;
    show_calls_on(rt, "the same, zeros", calls, &mut strip, &mut [0x00])
}

// Lists of writes: the paper's seven; one for whose third data strip 1 is spent, while its fourth would fit; lists where L is not S, with
// other weights, on one page; 64 datas.
fn show_lists(rt: &impl Print) -> io::Result<()> {
    let one = Calls::new(3, 1, 1, Given::House);
    let seven = [0x80, 0, 0x80, 0, 0x80, 0, 0x80];
    show_list(rt, "seven writes", one, 7, &mut [0u8; 6], &seven)?;
    let calls = Calls::new(3, 1, 2, Given::House);
    let mut two = [0, 0, 0, 0, 0, 0, 0xff, 0xff, 0xff, 0xff, 0xff, 0xff];
    let four = [0x80, 0xfe, 0x00, 0xfe, 0x81, 0x80, 0x40, 0xfe];
    show_list(rt, "spent at the third", calls, 4, &mut two, &four)?;
    let calls = Calls::new(3, 2, 3, Given::Weights([1, 2, 3]));
    let mut page = [0u8; 36];
    let three = b"\x01\x23\x45\x67\x89\xab\xba\x98\x76\x54\x32\x10\x0f\x1e\x2d\x3c\x4b\x5a";
    show_list(rt, "L = 2, S = 3, code 3", calls, 3, &mut page, three)?;
    let calls = Calls::new(7, 3, 2, Given::Weights([255, 1, 2]));
    let others = b"\xfe\xed\xc0\xff\xee\x42\x61\x7b\x0f\xed\xa7\xe1";
    show_list(rt, "L = 3, S = 2, code 7", calls, 2, &mut page, others)?;
    show_list(rt, "64 writes", one, 64, &mut [0u8; 6], &[0x80u8; 64])
}

// Those that are refused: nothing is written, and the page stays.
fn show_refused_lists(rt: &impl Print) -> io::Result<()> {
    let calls = Calls::new(3, 1, 1, Given::House);
    let zero = Calls::new(3, 1, 1, Given::Weights([1, 0, 1]));
    let mut page = [0x5au8; 6];
    let seven = [0x80, 0, 0x80, 0, 0x80, 0, 0x80];
    show_list(rt, "65 writes", calls, 65, &mut page, &[0x80u8; 65])?;
    show_list(rt, "no write", calls, 0, &mut page, &[])?;
    show_list(rt, "a weight of 0", zero, 0, &mut page, &seven)?;
    show_list(rt, "a byte less", calls, 8, &mut page, &seven)
}

// And with a map of marked cells, as in show_maps; the one of 11 bytes is refused.
fn show_mapped_lists(rt: &impl Print) -> io::Result<()> {
    let map = [0u8, 0, 0, 0, 0x80, 0x04, 0, 0, 0, 0, 0, 0];
    let mut page = [0u8; 36];
    page[14..16].fill(0x40);
    let datas = b"\x61\x7b\x0f\xed\xa7\xe1\x6a\xb3\x78\x20\xdb\x5c";
    let calls = Calls::new(7, 2, 3, Given::Map([3, 1, 2], &map));
    show_list(rt, "map of strip 1, code 7", calls, 2, &mut page, datas)?;
    let calls = Calls::new(7, 2, 3, Given::Map([3, 1, 2], &map[..11]));
    show_list(rt, "a map of 11 bytes", calls, 2, &mut page, datas)?;
    let calls = Calls::new(3, 1, 1, Given::Map(cells::house_weights(), &[0xff, 0xff]));
    show_list(
        rt,
        "every cell marked",
        calls,
        3,
        &mut [0u8; 6],
        &[0x00, 0x00, 0x80],
    )
}

// A write in a band: its answer, the value stored, and what the page is then.
fn show_band(
    rt: &impl Print,
    name: &str,
    code: u32,
    page: &mut [u8],
    value: u16,
    band: u32,
) -> io::Result<()> {
    let answer = page::writing::write_band(code, page, value, band);
    println!(rt; "{name}: {} page {}", Band(answer), Hex(page))
}

// Writes in a band: the exact value, a cheaper one, the ends of the values, the lower of two at the same cost and distance while a farther
// one costs as much, a value beside one for which the page is spent, and a page that is spent for all.
fn show_bands(rt: &impl Print) -> io::Result<()> {
    for (name, code, mut page, value, band) in [
        ("a band of 0, code 3", 3, [0; 12], 256, 0),
        ("a band of 8, code 7", 7, [0; 12], 300, 8),
        ("near 0, code 3", 3, [0; 12], 3, 8),
        ("near 65535, code 7", 7, [0; 12], 65533, 8),
        (
            "the lower of two, code 3",
            3,
            *b"\x88\x68\x09\x11\x00\x08\x09\x22\x80\x63\x14\x81",
            1781,
            8,
        ),
        (
            "the lower of two, code 7",
            7,
            *b"\x16\x10\x41\x10\x04\x10\x87\x12\x40\x80\x28\x00",
            8450,
            8,
        ),
        (
            "spent for the exact value, code 3",
            3,
            *b"\x7f\x8f\x07\x88\x00\x30\x00\x00\x00\x00\x00\x00",
            483,
            3,
        ),
        (
            "spent for all, code 3",
            3,
            *b"\xff\xff\xff\xff\x1b\x74\x00\x00\x00\x00\x00\x00",
            474,
            3,
        ),
    ] {
        show_band(rt, name, code, &mut page, value, band)?;
    }
    Ok(())
}

// Those that are refused.
fn show_refused_bands(rt: &impl Print) -> io::Result<()> {
    show_band(rt, "a band of 9", 3, &mut [0x5au8; 12], 300, 9)?;
    let mut short = [0x5au8; 11];
    show_band(rt, "a band of 9, a page of 11 bytes", 3, &mut short, 300, 9)?;
    show_band(rt, "code 4, a band of 9", 4, &mut [0x5au8; 12], 300, 9)?;
    show_band(rt, "a page of 11 bytes", 3, &mut short, 300, 8)
}

// A call on a block, and what the block is then.
fn show_block(rt: &impl Print, name: &str, answer: u64, block: &[u8]) -> io::Result<()> {
    println!(rt; "{name} {}", Word(answer))?;
    println!(rt; "  block {}", Hex(block))
}

// A put of one byte into a block of pages of one strip.
fn show_put(rt: &impl Print, name: &str, pages: u32, block: &mut [u8]) -> io::Result<()> {
    let answer = firmware::segrunov_block_put(7, 1, 1, pages, block, &[0x80]);
    show_block(rt, name, answer, block)
}

// A get from such a block, and what the buffer is then.
fn show_get(rt: &impl Print, name: &str, pages: u32, block: &[u8]) -> io::Result<()> {
    let mut data = [0x5au8; 1];
    let answer = firmware::segrunov_block_get(7, 1, 1, pages, block, &mut data);
    println!(rt; "{name} {}", Word(answer))?;
    println!(rt; "  data {}", Hex(&data))
}

// An erased block takes the data in page 0, a get reads it there, and an erase empties all of it. A full directory takes no number, and
// names no page that is there. One page is too few.
fn show_blocks(rt: &impl Print) -> io::Result<()> {
    let mut block = [0u8; 18];
    show_put(rt, "put, an erased block", 2, &mut block)?;
    show_get(rt, "get, page 0 live", 2, &block)?;
    let answer = firmware::segrunov_block_erase(1, 1, 2, &mut block, 400);
    show_block(rt, "erase of a block", answer, &block)?;
    let mut full = [0xffu8; 18];
    show_put(rt, "put, a full block", 2, &mut full)?;
    show_get(rt, "get, a full block", 2, &full)?;
    show_put(rt, "put, 1 page", 1, &mut full)
}

// The calls that the paper says are refused, and those beside them that are done.
fn show_calls(rt: &impl Print) -> io::Result<()> {
    for (name, code, bytes, strips) in [
        ("code 3", 3, 1, 1),
        ("code 7", 7, 1, 1),
        ("code 4", 4, 1, 1),
        ("L = 0", 3, 0, 1),
        ("L = 65", 3, 65, 1),
        ("S = 0", 3, 1, 0),
        ("S = 65", 3, 1, 65),
    ] {
        let calls = Calls::new(code, bytes, strips, Given::House);
        show_calls_on(rt, name, calls, &mut [0u8; 6], &mut [0x80])?;
    }
    let calls = Calls::new(3, 1, 1, Given::House);
    show_calls_on(rt, "a page of 5 bytes", calls, &mut [0u8; 5], &mut [0x80])?;
    show_calls_on(rt, "a page of 7 bytes", calls, &mut [0u8; 7], &mut [0x80])
}

// Erases at both ends of the flash's temperatures, and beyond.
fn show_erases(rt: &impl Print) -> io::Result<()> {
    for (name, tenths) in [
        ("erase at 49", 49),
        ("erase at 50", 50),
        ("erase at 400", 400),
        ("erase at 401", 401),
        ("erase at -1", -1),
        ("erase at -32768", -32768),
    ] {
        show_erase(rt, name, 1, 1, &mut [0x5au8; 6], None, tenths)?;
    }
    Ok(())
}

// Rows of strips.
fn show_counts(rt: &impl Print) -> io::Result<()> {
    for strip in [
        [0x01, 0x03, 0, 0, 0, 0],
        [0x41, 0x02, 0, 0, 0, 0],
        [0xff; 6],
    ] {
        show_census(rt, 1, 1, &strip)?;
    }
    Ok(())
}

// What strips read as.
fn show_readings(rt: &impl Print) -> io::Result<()> {
    for (code, name, strip) in [
        (Code::short(), "code 3", [0; 6]),
        (Code::short(), "code 3", [1, 0, 0, 0, 0, 0]),
        (Code::short(), "code 3", [8, 0, 0, 0, 0, 0]),
        (Code::short(), "code 3", [0x01, 0x03, 0, 0, 0, 0]),
        (Code::short(), "code 3", [0x41, 0x02, 0, 0, 0, 0]),
        (Code::short(), "code 3", [0xff; 6]),
        (Code::long(), "code 7", [1, 0, 0, 0, 0, 0]),
        (Code::long(), "code 7", [8, 0, 0, 0, 0, 0]),
        (Code::long(), "code 7", [0xff; 6]),
    ] {
        show_reading(rt, code, name, strip)?;
    }
    Ok(())
}

// The state that follows a state with a digit.
fn show_next(rt: &impl Print, code: Code, name: &str, state: u32, digit: u32) -> io::Result<()> {
    let next = code.next(state, digit);
    println!(rt; "{name} state {state} digit {digit} next {next}")
}

// States and digits that give another state when one is taken for the other, also a state of 2^m and more and a digit above 1.
fn show_states(rt: &impl Print) -> io::Result<()> {
    for (state, digit) in [
        (0, 1),
        (1, 0),
        (2, 1),
        (3, 2),
        (5, 4),
        (4294967295, 6),
        (6, 4294967295),
    ] {
        show_next(rt, Code::short(), "code 3", state, digit)?;
    }
    for (state, digit) in [
        (0, 1),
        (1, 0),
        (37, 1),
        (63, 10),
        (100, 7),
        (4294967295, 6),
        (6, 4294967295),
    ] {
        show_next(rt, Code::long(), "code 7", state, digit)?;
    }
    Ok(())
}

// Cells raised, and the cost of a climb.
fn show_raises(rt: &impl Print) -> io::Result<()> {
    for cell in [0, 1, 3] {
        show_raise(rt, &mut [0; 6], cell)?;
    }
    let mut strip = [0; 6];
    for _ in 0..4 {
        show_raise(rt, &mut strip, 2)?;
    }
    show_raise(rt, &mut [0x80, 1, 0, 0, 0, 0], 2)?;
    println!(rt; "{}", cells::climb(cells::house_weights(), 0, 3))
}

fn main(rt: HostRuntime) -> io::Result<()> {
    show_readings(&rt)?;
    show_states(&rt)?;
    show_raises(&rt)?;
    show_calls(&rt)?;
    show_erases(&rt)?;
    show_counts(&rt)?;
    show_shapes(&rt)?;
    show_strips(&rt)?;
    show_one_strip(&rt)?;
    show_weights(&rt)?;
    show_zero_weights(&rt)?;
    show_maps(&rt)?;
    show_marked(&rt)?;
    show_lists(&rt)?;
    show_refused_lists(&rt)?;
    show_mapped_lists(&rt)?;
    show_bands(&rt)?;
    show_refused_bands(&rt)?;
    show_blocks(&rt)
}
