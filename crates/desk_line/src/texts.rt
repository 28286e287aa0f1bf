// A text made longer, byte after byte.
ghost use Rattle.std.specs.Prelude.{◌≡◌, [], ◌∷◌, ◌++◌, ◌+◌, ◌*◌, ◌<◌, ◌≤◌, length};
ghost use Rattle.desk_line.specs.Texts.{hex_digit, hex_of, decimal, input_line, refused_line, route_line};

use std::marker::Model;

// A text of at most 128 bytes, with zeros past its end: fixed memory, since there is no heap. A clause sees the bytes that it shows.
#[derive(Clone, Copy)]
pub struct Text {
    bytes: [u8; 128],
    length: usize,
}

impl Model for Text {
    ghost use Rattle.std.specs.Prelude.{ℕ, List};
    ghost use Rattle.std.proofs.Common.{sym};

    ghost Value = { List ℕ };

    ghost use Rattle.desk_line.specs.Shown.{shown, text_of, Whole};

    ghost view = { shown };

    ghost invariant = { Whole };

    ghost inverse = { text_of };

    ghost inverse_ok = { λ t h. sym h.same };
}

impl Text {
    // The text with nothing in it.
    pub(crate) fn new() -> Self
        ensures { result ≡ [] }
    {
        Text {
            bytes: [0; 128],
            length: 0,
        }
    }

    // "input" and a newline.
    pub(crate) fn input() -> Self
        ensures { result ≡ input_line }
    {
        let mut text = Text::new();
        text.push_word(b"input\n");
        text
    }

    // "refused ", a number below 100 and a newline.
    pub(crate) fn refused(number: usize) -> Self
        requires { number < 100 }
        ensures { result ≡ refused_line number }
    {
        let mut text = Text::new();
        text.push_word(b"refused ");
        text.push_decimal(number);
        text.push(b'\n');
        text
    }

    // The bytes of the text, where the text itself holds them.
    pub fn shown(&self) -> &[u8]
        ensures { (result.now ≡ self.now) × (result.ref_ptr ≡ self.entry.ref_ptr) }
    {
        &self.bytes[..self.length]
    }

    // Puts a byte behind the text.
    pub(crate) fn push(&mut self, byte: u8)
        requires { length self.old < 128 }
        ensures { self.new ≡ self.old ++ byte ∷ [] }
    {
        self.bytes[self.length] = byte;
        self.length += 1;
    }

    // Puts all bytes of a word behind the text.
    pub(crate) fn push_word(&mut self, word: &[u8])
        requires { length self.old + length word.now ≤ 128 }
        ensures { self.new ≡ self.old ++ word.now }
    {
        for byte in word {
            self.push(*byte);
        }
    }

    // Puts bytes in hex behind the text, the high digit of each first.
    fn push_hex(&mut self, bytes: &[u8])
        requires { length self.old + 2 * length bytes.now ≤ 128 }
        ensures { self.new ≡ self.old ++ hex_of bytes.now }
    {
        for byte in bytes {
            self.push(hex_digit(*byte / 16));
            self.push(hex_digit(*byte % 16));
        }
    }

    // Puts a number in decimal behind the text.
    pub(crate) fn push_decimal(&mut self, number: usize)
        requires { length self.old + length (decimal number) ≤ 128 }
        ensures { self.new ≡ self.old ++ decimal number }
    {
        if 10 <= number {
            self.push_decimal(number / 10);
        }
        self.push(b'0' + (number % 10) as u8);
    }

    // Puts a route's line behind the text: eight bytes in hex, a space and the hops, fewer than 10.
    pub(crate) fn push_route(&mut self, route: &[u8], hops: usize)
        requires room { length self.old + 19 ≤ 128 }
        requires array { length route.now ≡ 8 }
        requires few { hops < 10 }
        ensures { self.new ≡ self.old ++ route_line route.now hops }
    {
        self.push_hex(route);
        self.push(b' ');
        self.push_decimal(hops);
        self.push(b'\n');
    }
}

// A number below 16 as a hex digit.
fn hex_digit(x: u8) -> u8
    requires { x < 16 }
    ensures { result ≡ hex_digit x }
{
    if x < 10 { b'0' + x } else { b'a' - 10 + x }
}
