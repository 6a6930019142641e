// Bytes, words and numbers, each written after what is there already.
ghost use Rattle.std.specs.Prelude.{◌≡◌, ◌≤◌, ◌<◌, ◌∷◌, [], length};
ghost use Rattle.sheet.specs.Digits.{digits, hex_digits, decimal};
ghost use Rattle.sheet.specs.Lent.{Puts, RoomFor};

use crate::digits::{digit, digit_count};

// A text at the start of a buffer, and how long it is so far.
#[derive(Drop)]
pub(crate) struct Text<'a> {
    pub out: &'a mut [u8],
    pub len: usize,
}

impl<'a> Text<'a> {
    pub(crate) fn put_byte(&mut self, byte: u8)
        requires { RoomFor self.old (byte ∷ []) }
        ensures { Puts self.old (byte ∷ []) self.new }
    {
        self.out[self.len] = byte;
        self.len += 1;
    }

    pub(crate) fn put_word(&mut self, word: &[u8])
        requires { RoomFor self.old word.now }
        ensures { Puts self.old word.now self.new }
    {
        let end = self.len + word.len();
        self.out[self.len..end].copy_from_slice(word);
        self.len = end;
    }

    pub(crate) fn put_hex(&mut self, bits: u32)
        requires { RoomFor self.old (hex_digits bits) }
        ensures { Puts self.old (hex_digits bits) self.new }
    {
        let end = self.len + 8;
        fill_digits(&mut self.out[self.len..end], 16, bits as usize);
        self.len = end;
    }

    pub(crate) fn put_decimal(&mut self, n: usize)
        requires { RoomFor self.old (decimal n) }
        ensures { Puts self.old (decimal n) self.new }
    {
        let end = self.len + digit_count(n);
        fill_digits(&mut self.out[self.len..end], 10, n);
        self.len = end;
    }
}

// The last digits of a number, as many as there are places. The lowest is the last. By index: a proof
// does not know what is stored through a reversed `iter_mut`.
fn fill_digits(places: &mut [u8], base: usize, n: usize)
    requires { (0 < base) × (base ≤ 16) }
    ensures { places.new ≡ digits base (length places.old) n }
{
    let mut rest = n;
    for k in (0..places.len()).rev() {
        places[k] = digit(rest % base);
        rest /= base;
    }
}
