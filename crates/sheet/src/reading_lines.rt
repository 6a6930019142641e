// The lines of a sheet: a section's name and count, and the records after it.
ghost use Rattle.std.specs.Prelude.{◌≡◌, ◌<◌, ◌≤◌, ◌*◌, length, []};
ghost use Rattle.sheet.specs.Readers.{count_of, section_of, numbers_from, block_of, seen, list_seen};

use crate::digits::gap;
use crate::reading_numbers::Cursor;

// At most six lines, and the numbers in them; the places past these are 0.
#[derive(Clone, Copy)]
pub(crate) struct Block<const N: usize> {
    pub lines: u32,
    pub numbers: [u32; N],
}

impl<'a> Cursor<'a> {
    // A count ends its line.
    #[tactic(auto, unfolding(crate::specs::Readers::count_of))]
    pub(crate) fn count(&mut self) -> Option<u32>
        ensures { seen self.new.rest.now result ≡ count_of self.old.rest.now }
    {
        let n = self.decimal()?;
        self.mark(b'\n')?;
        Some(n)
    }

    #[tactic(auto, unfolding(crate::specs::Readers::section_of))]
    pub(crate) fn section(&mut self, name: &[u8]) -> Option<u32>
        ensures { seen self.new.rest.now result ≡ section_of name.now self.old.rest.now }
    {
        self.word(name)?;
        self.count()
    }

    #[tactic(auto, unfolding(crate::specs::Readers::numbers_from))]
    fn numbers(&mut self, width: usize, out: &mut [u32]) -> Option<()>
        requires { (0 < width) × (length out.old < 100) }
        ensures { list_seen self.new.rest.now out.new result ≡ numbers_from width (length out.old) [] self.old.rest.now }
    {
        for (i, place) in out.iter_mut().enumerate() {
            *place = self.hex()?;
            self.mark(gap(width, i))?;
        }
        Some(())
    }

    #[tactic(auto, unfolding(crate::specs::Readers::block_of))]
    pub(crate) fn block<const N: usize>(&mut self, name: &[u8], width: usize) -> Option<Block<N>>
        requires { (0 < width) × (width * 6 ≤ N) × (N < 100) }
        ensures { seen self.new.rest.now result ≡ block_of name.now width N self.old.rest.now }
    {
        let lines = self.section(name)?;
        if 6 < lines {
            return None;
        }
        let mut numbers = [0; N];
        self.numbers(width, &mut numbers[..width * lines as usize])?;
        Some(Block { lines, numbers })
    }
}
