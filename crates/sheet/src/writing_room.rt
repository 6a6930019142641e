// Whether there is room for the text of a mesh. No sum is formed before its parts are tested to be
// small.
ghost use Rattle.std.specs.Prelude.{◌≡◌, ◌≤◌, leb, length};
ghost use Rattle.sheet.specs.Meshes.{index_lines, text_length};

use crate::digits::digit_count;

fn indices_have_room(indices: &[u16], room: usize) -> bool
    ensures { result ≡ leb (length (index_lines indices.now (length indices.now))) room }
{
    let mut left = room;
    for index in indices {
        let size = digit_count(*index as usize) + 1;
        if size > left {
            return false;
        }
        left -= size;
    }
    true
}

// A vertex takes eight numbers of nine bytes; the headings have 33 bytes beside their numbers.
pub(crate) fn has_room(indices: &[u16], v: usize, room: usize) -> bool
    ensures { result ≡ leb (text_length v (length indices.now) indices.now) room }
{
    if v > room / 72 {
        return false;
    }
    let left = room - 72 * v;
    let headings = 33 + 3 * digit_count(v) + digit_count(indices.len());
    if headings > left {
        return false;
    }
    indices_have_room(indices, left - headings)
}
