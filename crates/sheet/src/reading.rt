// The bytes of a sheet to a sheet. Numbers are bit patterns, so that nothing of a NaN is lost.
ghost use Rattle.std.specs.Prelude.{◌≡◌};
ghost use Rattle.sheet.specs.Readers.{are_caps, head_of, seen, reading};

use crate::reading_lines::Block;
use crate::reading_numbers::Cursor;

// What an absent side or absent caps would carry is 0.
#[derive(Clone, Copy)]
pub struct Sheet {
    pub height: u32,
    pub subdivisions: u32,
    pub sides: u32,
    pub pairs: [u32; 24],
    pub caps: bool,
    pub corners: [u32; 12],
}

#[derive(Clone, Copy)]
struct Head {
    height: u32,
    subdivisions: u32,
}

#[tactic(auto, unfolding(crate::specs::Readers::head_of))]
fn head_lines(bytes: &mut Cursor<'_>) -> Option<Head>
    ensures { seen bytes.new.rest.now result ≡ head_of bytes.old.rest.now }
{
    if bytes.section(b"column ")? != 1 {
        return None;
    }
    let height = bytes.hex()?;
    bytes.mark(b' ')?;
    let subdivisions = bytes.count()?;
    Some(Head {
        height,
        subdivisions,
    })
}

// Both caps or none.
fn are_caps(lines: u32) -> bool
    ensures { result ≡ are_caps lines }
{
    matches!(lines, 0 | 6)
}

// Reads exactly the texts of lawful sheets, each as its sheet. What does not read is refusal 9, which
// the caller gives.
#[tactic(auto, unfolding(crate::specs::Readers::reading, crate::specs::Readers::sheet_of))]
pub(crate) fn read(bytes: &[u8]) -> Option<Sheet>
    ensures { result ≡ reading bytes.now }
{
    let mut left = Cursor { rest: bytes };
    let Head {
        height,
        subdivisions,
    } = head_lines(&mut left)?;
    let Block {
        lines: sides,
        numbers: pairs,
    } = left.block(b"sides ", 4)?;
    let Block {
        lines: caps,
        numbers: corners,
    } = left.block(b"caps ", 2)?;
    if !are_caps(caps) || !left.rest.is_empty() {
        return None;
    }
    Some(Sheet {
        height,
        subdivisions,
        sides,
        pairs,
        caps: caps == 6,
        corners,
    })
}
