// The texts that are printed.
ghost use Rattle.std.specs.Prelude.{◌≡◌, ◌∷◌, [], ◌++◌, ◌+◌, ◌<◌, ◌≤◌, length};
ghost use Rattle.text.specs.Text.{decimal, row_text, head_text, fault_text, values_text};

use crate::Values;
use std::marker::Model;

// The room for a text: a row of four numbers has 84 bytes at most, and no other text has more.
const ROOM: usize = 96;

// A text, at the end of its bytes: it starts at `at`, and is made from its last byte on.
#[derive(Clone, Copy, Drop)]
pub struct Printed {
    bytes: [u8; ROOM],
    at: usize,
}

// What a contract sees of it is the text. The bytes in front of it are zeros, so that the text says what the fields are,
// which a type needs to be `Copy`.
impl Model for Printed {
    ghost use Rattle.std.specs.Prelude.{List, ℕ, ◌≡◌, ◌+◌, ◌-◌, ◌++◌, length, drop, replicate};
    ghost use Rattle.std.proofs.Common.{ap, sym, ◌∙◌};
    ghost use Rattle.std.proofs.Math.Nat.{add-sub_cancel};
    ghost use Rattle.text.specs.declared.printing.TheConstants.{ROOM};

    ghost Value = { List ℕ };

    ghost view = { λ p. drop p.at p.bytes };

    ghost invariant = { λ p. (p.at + length (drop p.at p.bytes) ≡ ROOM)
        × (p.bytes ≡ replicate p.at 0 ++ drop p.at p.bytes) };

    ghost inverse = { λ text. record {
      bytes = replicate (ROOM - length text) 0 ++ text;
      at = ROOM - length text;
    } };

    ghost inverse_ok = { λ p h i.
        let text = drop p.at p.bytes in
        let at_is = ap (λ n. n - length text) (sym h.0) ∙ add-sub_cancel p.at (length text) in
        record { bytes = (ap (λ n. replicate n 0 ++ text) at_is ∙ sym h.1) i; at = at_is i } };
}

impl Printed {
    // No text.
    pub fn nothing() -> Printed
        ensures text_is { result ≡ [] }
        ensures near { length result ≤ 96 }
    {
        Printed {
            bytes: [0; ROOM],
            at: ROOM,
        }
    }

    // Its bytes.
    pub fn text(&self) -> &[u8]
        ensures { result.now ≡ self.now }
    {
        &self.bytes[self.at..]
    }

    // Puts a byte in front.
    fn put_byte(&mut self, byte: u8)
        requires { length self.old < ROOM }
        ensures { self.new ≡ byte ∷ self.old }
    {
        self.at -= 1;
        self.bytes[self.at] = byte;
    }

    // Puts a number in decimal in front.
    fn put_decimal(&mut self, number: u64)
        requires { length self.old + 20 ≤ ROOM }
        ensures text_is { self.new ≡ decimal number ++ self.old }
        ensures near { length self.new ≤ length self.old + 20 }
    {
        let mut n = number;
        while n > 9 {
            self.put_byte(b'0' + (n % 10) as u8);
            n /= 10;
        }
        self.put_byte(b'0' + n as u8);
    }

    // Puts a number, and the byte after it, in front.
    fn put_field(&mut self, number: u64, after: u8)
        requires { length self.old + 21 ≤ ROOM }
        ensures text_is { self.new ≡ decimal number ++ after ∷ self.old }
        ensures near { length self.new ≤ length self.old + 21 }
    {
        self.put_byte(after);
        self.put_decimal(number);
    }

    // Puts a text in front.
    fn put_text(&mut self, text: &[u8])
        requires { length text.now + length self.old ≤ ROOM }
        ensures { self.new ≡ text.now ++ self.old }
    {
        let end = self.at;
        self.at -= text.len();
        self.bytes[self.at..end].copy_from_slice(text);
    }

    // The row of a write: its number from 1, 0 or 7, the cost, the sum of the levels after it.
    pub fn row(number: u64, answer: u64, cost: u64, levels: u64) -> Printed
        ensures text_is { result ≡ row_text number answer cost levels }
        ensures near { length result ≤ 96 }
    {
        let mut printed = Printed::nothing();
        printed.put_field(levels, b'\n');
        printed.put_field(cost, b' ');
        printed.put_field(answer, b' ');
        printed.put_field(number, b' ');
        printed
    }

    // What is printed once line 3 is judged.
    pub fn head() -> Printed
        ensures text_is { result ≡ head_text }
        ensures near { length result ≤ 96 }
    {
        let mut printed = Printed::nothing();
        printed.put_text(b"write answer cost levels\n");
        printed
    }

    // What is printed at a fault: the refusal and the line, with their names.
    pub fn fault(refusal: u64, line: u64) -> Printed
        ensures text_is { result ≡ fault_text refusal line }
        ensures near { length result ≤ 96 }
    {
        let mut printed = Printed::nothing();
        printed.put_field(line, b'\n');
        printed.put_field(refusal, b' ');
        printed.put_text(b"refusal line\n");
        printed
    }

    // The three values, as line 2 has them.
    pub fn values(v: Values) -> Printed
        ensures text_is { result ≡ values_text v }
        ensures near { length result ≤ 96 }
    {
        let mut printed = Printed::nothing();
        printed.put_decimal(u64::from(v.strips));
        printed.put_field(u64::from(v.bytes), b' ');
        printed.put_field(u64::from(v.code), b' ');
        printed
    }
}
