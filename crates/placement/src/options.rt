// The table of face options: nine numbers and four marks an entry, in two lent lists.
ghost use Rattle.std.specs.Prelude.{◌≡◌, ◌+◌, ◌*◌, ◌≤◌, length};
ghost use Rattle.placement.specs.Options.{entry_count, means, marks_mean, is_table, inset_of, plain_options, entry_at, option_at, choice_names, option_for};

use face::inset::Inset;
use face::uv_mapping::{Flip, UvOptions};
use face::vec::Vec2;

// The number of an option, or that the face is not there. An enum of our own, no `Option`: a rule of this repository.
#[derive(Clone, Copy)]
pub enum Choice {
    Absent,
    With(u8),
}

#[derive(Clone, Copy)]
pub struct FaceOptions {
    pub uv: UvOptions,
    pub inset: Inset,
}

// How many entries the marks are for.
pub fn entries(marks: &[u8]) -> usize
    ensures { result ≡ entry_count marks.now }
{
    marks.len() / 4
}

// Each third mark of four is a kind of inset, the others are 0 or 1.
fn is_meant(i: usize, mark: u8) -> bool
    ensures { result ≡ means i mark }
{
    mark < if i % 4 == 2 { 3 } else { 2 }
}

fn all_meant(marks: &[u8]) -> bool
    ensures { result ≡ marks_mean marks.now }
{
    marks.iter().enumerate().all(|(i, mark)| is_meant(i, *mark))
}

// Whether two lists are a table: as many numbers as marks ask for, of at most 64 entries, and no
// mark without a meaning. The numbers' range is asked apart.
pub fn is_table(numbers: &[f32], marks: &[u8]) -> bool
    ensures { result ≡ is_table numbers.now marks.now }
{
    let n = entries(marks);
    n <= 64
        && answer::check::is_exactly(marks.len(), n, 4)
        && answer::check::is_exactly(numbers.len(), n, 9)
        && all_meant(marks)
}

fn inset_of(kind: u8, scale: f32, keep: bool) -> Inset
    ensures { result ≡ inset_of kind scale keep }
{
    match kind {
        1 => Inset::Centroid(scale, keep),
        2 => Inset::SmallestEdge(scale, keep),
        _ => Inset::None,
    }
}

fn entry_at(numbers: &[f32], marks: &[u8], k: usize) -> FaceOptions
    requires k_in_bounds { 9 * k + 9 ≤ length numbers.now }
    requires k_in_bounds_2 { 4 * k + 4 ≤ length marks.now }
    ensures { result ≡ entry_at numbers.now marks.now k }
{
    let n = &numbers[9 * k..];
    let m = &marks[4 * k..];
    FaceOptions {
        uv: UvOptions {
            scale: Vec2 { x: n[0], y: n[1] },
            offset: Vec2 { x: n[2], y: n[3] },
            min: Vec2 { x: n[4], y: n[5] },
            max: Vec2 { x: n[6], y: n[7] },
            flip: Flip {
                u: m[0] == 1,
                v: m[1] == 1,
            },
        },
        inset: inset_of(m[2], n[8], m[3] == 1),
    }
}

impl Default for FaceOptions {
    ghost is_default = { λ o. o ≡ plain_options };

    fn default() -> Self {
        FaceOptions {
            uv: UvOptions::default(),
            inset: Inset::None,
        }
    }
}

// The entry of that number; the default for 255 and for a number that the lists do not hold.
pub fn option_at(numbers: &[f32], marks: &[u8], number: u8) -> FaceOptions
    ensures { result ≡ option_at numbers.now marks.now number }
{
    let k = number as usize;
    if number == 255 || numbers.len() / 9 <= k || marks.len() / 4 <= k {
        return FaceOptions::default();
    }
    entry_at(numbers, marks, k)
}

// Whether a face that is there names an entry or the default.
pub fn choice_names(c: Choice, entries: usize) -> bool
    ensures { result ≡ choice_names c entries }
{
    match c {
        Choice::Absent => true,
        Choice::With(k) => answer::check::names_option(k, entries),
    }
}

// The option of a face; an absent one is never laid.
pub fn option_for(c: Choice, numbers: &[f32], marks: &[u8]) -> FaceOptions
    ensures { result ≡ option_for numbers.now marks.now c }
{
    match c {
        Choice::Absent => option_at(numbers, marks, 255),
        Choice::With(k) => option_at(numbers, marks, k),
    }
}
