// What was last made of an option, beside the option's number: it is made anew only where another number comes.
ghost use Rattle.std.specs.Prelude.{◌≡◌, cond, eqb};
ghost use Rattle.heightmap.specs.HeightMap.{seen};
ghost use Rattle.heightmap_faces.specs.Kept.{number_in, level_by, top_by};

use heightmap::{Lists, Span};
use placement::options::Choice;

#[derive(Clone, Copy)]
pub struct KeptLevel {
    pub number: u8,
    pub level: crate::Level,
}

#[derive(Clone, Copy)]
pub struct KeptTop {
    pub number: u8,
    pub top: crate::Top,
}

// The option's number; 255 is the default, which an absent choice has too.
pub fn number_of(c: Choice) -> u8
    ensures { result ≡ number_in c }
{
    match c {
        Choice::Absent => 255,
        Choice::With(k) => k,
    }
}

pub fn level_by(number: u8, span: Span, top: f32, lists: Lists<'_>) -> KeptLevel
    ensures { result ≡ level_by span top (seen lists.entry).numbers (seen lists.entry).marks number }
{
    let o = placement::options::option_at(lists.numbers, lists.marks, number);
    let level = crate::level_of(crate::skin_of(o, span), top);
    KeptLevel { number, level }
}

pub fn top_by(number: u8, lists: Lists<'_>) -> KeptTop
    ensures { result ≡ top_by (seen lists.entry).corners (seen lists.entry).numbers (seen lists.entry).marks number }
{
    let o = placement::options::option_at(lists.numbers, lists.marks, number);
    let top = crate::top_of(lists.corners, o);
    KeptTop { number, top }
}

// What is kept, or what its number asks for in its place.
pub fn keep_top(kept: KeptTop, number: u8, lists: Lists<'_>) -> KeptTop
    ensures { result ≡ cond (eqb number kept.number) kept (top_by (seen lists.entry).corners (seen lists.entry).numbers (seen lists.entry).marks number) }
{
    if number == kept.number {
        return kept;
    }
    top_by(number, lists)
}
