// The cases of a text.
ghost use Rattle.std.specs.Prelude.{◌+◌, ◌≤◌, length};
ghost use Rattle.std.specs.Iterator.{at_most};

const MARK: u8 = b'=';

#[derive(Clone, Copy)]
pub(crate) struct Case<'a> {
    pub name: &'a [u8],
    pub sheet: &'a [u8],
}

// What is left of the text.
#[derive(Clone, Copy)]
pub(crate) struct Cases<'a>(pub &'a [u8]);

// What stands before a byte, and what behind it. Without the byte nothing stands behind it.
fn cut(text: &[u8], byte: u8) -> (&[u8], &[u8])
    ensures { length result.0.now + length result.1.now ≤ length text.now }
{
    match text.iter().position(|b| *b == byte) {
        Some(k) => (&text[..k], &text[k + 1..]),
        None => (text, &[]),
    }
}

impl<'a> Iterator for Cases<'a> {
    type Item = Case<'a>;

    ghost remaining = { λ s. at_most (length s.0.now) };

    // A name has one byte at least.
    fn next(&mut self) -> Option<Case<'a>> {
        let all = self.0;
        let (_, rest) = all.split_first()?;
        let (more, rest) = cut(rest, b'\n');
        let (sheet, rest) = cut(rest, MARK);
        let (_, rest) = cut(rest, b'\n');
        self.0 = rest;
        Some(Case {
            name: &all[..more.len() + 1],
            sheet,
        })
    }
}
