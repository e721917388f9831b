// The data of a line, in hexadecimal.
#![tactic(auto, using(std::proofs::lemmas::Bool::Decides::nat_tests), unfolding(crate::specs::Hex::is_hex, crate::specs::Hex::nibble))]

ghost use Rattle.std.specs.Prelude.{◌≡◌, ◌<◌, ◌*◌, length};
ghost use Rattle.text.specs.Hex.{is_hex, all_hex, nibble, pairs, is_data, decoded_of};

// Whether a byte is a lower-case hexadecimal digit.
fn is_hex(c: u8) -> bool
    ensures { result ≡ is_hex c }
{
    matches!(c, b'0'..=b'9' | b'a'..=b'f')
}

// Whether each byte is such a digit.
fn all_hex(line: &[u8]) -> bool
    ensures { result ≡ all_hex line.now }
{
    line.iter().all(|c| is_hex(*c))
}

// The number of a digit.
fn nibble_of(c: u8) -> u8
    ensures value { result ≡ nibble c }
    ensures upper_bound { result < 16 }
{
    if c < 58 { c % 16 } else { (c % 16 + 9) % 16 }
}

// The bytes of pairs of digits.
fn fill(line: &[u8], data: &mut [u8])
    requires { length line.now ≡ 2 * length «data».old }
    ensures { «data».new ≡ pairs line.now }
{
    for (k, byte) in data.iter_mut().enumerate() {
        let high = nibble_of(line[2 * k]);
        let low = nibble_of(line[2 * k + 1]);
        *byte = high * 16 + low;
    }
}

// Whether a line is the text of as many bytes as the data have, two lower-case hexadecimal digits a byte; if so the data are these bytes,
// if not they are kept. (A `bool` says whether: an `Option<()>` would be no plainer.)
pub fn decode(line: &[u8], data: &mut [u8]) -> bool
    ensures value { result ≡ is_data (length «data».old) line.now }
    ensures data_after { «data».new ≡ decoded_of «data».old line.now }
{
    if line.len() != 2 * data.len() || !all_hex(line) {
        return false;
    }
    fill(line, data);
    true
}
