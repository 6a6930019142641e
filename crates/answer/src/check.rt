// The tests of what a job carries. What a number of a list stands for is its caller's to say.
ghost use Rattle.std.specs.Prelude.{◌≡◌, Bool};
ghost use Rattle.answer.specs.Checks.{in_range, in_range2, in_range3, every, all_in_range, exactly, names_option, is_neighbour, below, cell_count};

use face::vec::{Vec2, Vec3};

// From -1,000,000 to 1,000,000, the ends in; so no infinity and no NaN.
pub fn in_range(x: f32) -> bool
    ensures { result ≡ in_range x }
{
    -1000000.0 <= x && x <= 1000000.0
}

pub fn in_range2(p: Vec2) -> bool
    ensures { result ≡ in_range2 p }
{
    in_range(p.x) && in_range(p.y)
}

pub fn in_range3(p: Vec3) -> bool
    ensures { result ≡ in_range3 p }
{
    in_range(p.x) && in_range(p.y) && in_range(p.z)
}

// Lists are walked to their end whatever they hold, and no branch hangs on a number: so the compiler tests several at once.
fn every<T: Copy, F: Fn(T) -> bool>(items: &[T], test: F) -> bool
    requires { F.IsAlwaysCallable test }
    ensures { (ok : T → Bool) → ((x : T) (r : Bool) → F.post test x r → r ≡ ok x) → result ≡ every ok items.now }
{
    items.iter().fold(true, |good, x| good & test(*x))
}

pub fn all_in_range(numbers: &[f32]) -> bool
    ensures { result ≡ all_in_range numbers.now }
{
    every(numbers, in_range)
}

// Whether a list of a job has its length: so many numbers for each of so many entries.
pub fn is_exactly(numbers: usize, entries: usize, each: usize) -> bool
    ensures { result ≡ exactly numbers entries each }
{
    if each == 0 {
        return numbers == 0;
    }
    numbers % each == 0 && numbers / each == entries
}

// 255 is the default; any other number is that of an entry.
pub fn names_option(number: u8, entries: usize) -> bool
    ensures { result ≡ names_option number entries }
{
    number == 255 || (number as usize) < entries
}

// A cell, or 4,294,967,295 for none.
pub fn is_neighbour(number: u32, cells: usize) -> bool
    ensures { result ≡ is_neighbour number cells }
{
    number == 4294967295 || (number as usize) < cells
}

// An index, below a count of vertices. A comparison of 16 bits lets the compiler test eight at once.
fn is_below(count: usize, index: u16) -> bool
    ensures { result ≡ below count index }
{
    count > 65535 || index < count as u16
}

pub fn all_below(count: usize, indices: &[u16]) -> bool
    ensures { result ≡ every (below count) indices.now }
{
    every(indices, |index| is_below(count, index))
}

pub fn all_name_options(numbers: &[u8], entries: usize) -> bool
    ensures { result ≡ every (λ k. names_option k entries) numbers.now }
{
    every(numbers, |number| names_option(number, entries))
}

pub fn all_neighbours(numbers: &[u32], cells: usize) -> bool
    ensures { result ≡ every (λ k. is_neighbour k cells) numbers.now }
{
    every(numbers, |number| is_neighbour(number, cells))
}

// At most 65,536 cells.
pub fn is_cell_count(cells: usize) -> bool
    ensures { result ≡ cell_count cells }
{
    cells <= 65536
}
