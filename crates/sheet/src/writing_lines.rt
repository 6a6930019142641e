// The lines of a text, each written after what is there already.
ghost use Rattle.std.specs.Prelude.{ℕ, ◌<◌, ◌++◌, List, length};
ghost use Rattle.sheet.specs.Digits.{hex_digits, decimal, heading};
ghost use Rattle.sheet.specs.Lent.{Puts, RoomFor};
ghost use Rattle.sheet.specs.Meshes.{lines};
ghost use Rattle.patterns.specs.Patterns.{bits_of};

use crate::digits::gap;
use crate::writing_numbers::Text;

// A number of a mesh's lists, as a text has it.
pub(crate) trait Printed: Copy {
    ghost word: { Self → List ℕ };

    fn put(self, text: &mut Text<'_>)
        requires { RoomFor text.old (word self) }
        ensures { Puts text.old (word self) text.new };
}

impl Printed for f32 {
    ghost word = { λ x. hex_digits (bits_of x) };

    fn put(self, text: &mut Text<'_>) {
        text.put_hex(patterns::pattern(self));
    }
}

impl Printed for u16 {
    ghost word = { decimal };

    fn put(self, text: &mut Text<'_>) {
        text.put_decimal(self as usize);
    }
}

impl<'a> Text<'a> {
    pub(crate) fn put_heading(&mut self, word: &[u8], n: usize)
        requires { RoomFor self.old (heading word.now n) }
        ensures { Puts self.old (heading word.now n) self.new }
    {
        self.put_word(word);
        self.put_decimal(n);
        self.put_byte(b'\n');
    }

    // Numbers, so many to a line.
    fn put_lines<T: Printed>(&mut self, numbers: &[T], width: usize)
        requires line { 0 < width }
        requires room { (d : T) → RoomFor self.old (lines T.word d numbers.now width (length numbers.now)) }
        ensures { (d : T) → Puts self.old (lines T.word d numbers.now width (length numbers.now)) self.new }
    {
        for (k, number) in numbers.iter().enumerate() {
            number.put(self);
            self.put_byte(gap(width, k));
        }
    }

    // A heading with a count, and the numbers.
    pub(crate) fn put_part<T: Printed>(
        &mut self,
        word: &[u8],
        n: usize,
        numbers: &[T],
        width: usize,
    )
        requires line { 0 < width }
        requires heading { RoomFor self.old (heading word.now n) }
        requires room { (d : T) → RoomFor self.old (heading word.now n ++ lines T.word d numbers.now width (length numbers.now)) }
        ensures { (d : T) → Puts self.old (heading word.now n ++ lines T.word d numbers.now width (length numbers.now)) self.new }
    {
        self.put_heading(word, n);
        self.put_lines(numbers, width);
    }
}
