// The text of a record: cells of nine bytes, each eight characters and a space, or a line's end
// after the last cell of a line. So a line of n cells has 9 * n bytes.
ghost use Rattle.std.specs.Prelude.{◌≡◌, ◌≤◌, ◌*◌, ◌^◌, length};
ghost use Rattle.arith_cases.specs.Cell.{Below};

// The number that a cell spells in a base of at most 16, if the cell ends as it should.
pub(crate) fn cell(cell: &[u8], base: u64, end: u8) -> Option<u32>
    requires { (base ≤ 16) × (length cell.now ≡ 9) }
    ensures { Below (base ^ 8) result }
{
    if cell[8] != end {
        return None;
    }
    let mut value = 0;
    for byte in &cell[..8] {
        let d = u64::from(patterns::digit_value(*byte));
        if d >= base {
            return None;
        }
        value = value * base + d;
    }
    Some(value as u32)
}

// The patterns of a line.
pub(crate) fn cells<const N: usize>(text: &[u8]) -> Option<[u32; N]>
    requires { (N ≤ 50) × (length text.now ≡ 9 * N) }
{
    let mut words = [0; N];
    for (i, (word, text)) in words.iter_mut().zip(text.chunks_exact(9)).enumerate() {
        let end = if i + 1 == N { b'\n' } else { b' ' };
        *word = cell(text, 16, end)?;
    }
    Some(words)
}
