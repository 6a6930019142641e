// The leaves of a sheet: a byte, a word, a number in hex or decimal.
ghost use Rattle.std.specs.Prelude.{◌≡◌, ◌<◌, ◌≤◌};
ghost use Rattle.sheet.specs.Readers.{mark_of, word_of, digit_of, hex_of, decimal_from, decimal_of, seen, Kept};

// The bytes that are still to be read. Where a method answers None, they say nothing.
#[derive(Clone, Copy)]
pub(crate) struct Cursor<'a> {
    pub rest: &'a [u8],
}

impl<'a> Cursor<'a> {
    #[tactic(auto, unfolding(crate::specs::Readers::mark_of))]
    pub(crate) fn mark(&mut self, byte: u8) -> Option<()>
        ensures { seen self.new.rest.now result ≡ mark_of byte self.old.rest.now }
    {
        let (first, rest) = self.rest.split_first()?;
        if *first != byte {
            return None;
        }
        self.rest = rest;
        Some(())
    }

    pub(crate) fn word(&mut self, text: &[u8]) -> Option<()>
        ensures { seen self.new.rest.now result ≡ word_of text.now self.old.rest.now }
    {
        self.rest = self.rest.strip_prefix(text)?;
        Some(())
    }

    // The next byte, where it is a digit in this base.
    #[tactic(auto, unfolding(crate::specs::Readers::digit_at))]
    fn digit(&mut self, base: u8) -> Option<u8>
        requires { base ≤ 16 }
        ensures digit { seen self.new.rest.now result ≡ digit_of base self.old.rest.now }
        ensures kept { Kept result self.old.rest.now self.new.rest.now }
    {
        let (first, rest) = self.rest.split_first()?;
        let d = patterns::digit_value(*first);
        if base <= d {
            return None;
        }
        self.rest = rest;
        Some(d)
    }

    pub(crate) fn hex(&mut self) -> Option<u32>
        ensures { seen self.new.rest.now result ≡ hex_of self.old.rest.now }
    {
        let mut value = 0;
        for _k in 0..8u32 {
            value = value * 16 + u32::from(self.digit(16)?);
        }
        Some(value)
    }

    // The digits after the first, which was not 0.
    fn decimal_from(&mut self, first: u32) -> Option<u32>
        ensures { seen self.new.rest.now result ≡ decimal_from first self.old.rest.now }
    {
        let mut value = first;
        while let Some(d) = self.digit(10) {
            value = value.checked_mul(10)?.checked_add(u32::from(d))?;
        }
        Some(value)
    }

    // A first 0 is the whole number: a digit after it is no newline.
    #[tactic(auto, unfolding(crate::specs::Readers::decimal_of))]
    pub(crate) fn decimal(&mut self) -> Option<u32>
        ensures { seen self.new.rest.now result ≡ decimal_of self.old.rest.now }
    {
        let first = self.digit(10)?;
        if first == 0 {
            return Some(0);
        }
        self.decimal_from(u32::from(first))
    }
}
