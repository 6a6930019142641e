// The option of each face, and where the sides stand.
ghost use Rattle.std.specs.Prelude.{◌≡◌, ◌+◌, ◌*◌};
ghost use Rattle.heightmap.specs.HeightMap.{seen, custom_at, custom_place, own_choice, chosen, option_of, origin_of, side_stand};

use crate::grid::of_cell_or;
use placement::options::{Choice, FaceOptions};
use placement::placement::{Choice3, Stand};

// The option that a list names for one of the seven faces of a cell: 255 means the job's own.
fn custom_at(how: crate::Customs, customs: &[u8], k: usize, i: usize) -> u8
    ensures { result ≡ custom_at how customs.now (7 * k + i) }
{
    match how {
        crate::Customs::Absent => 255,
        crate::Customs::Listed => of_cell_or(customs, 7, k, i, 255),
    }
}

// A face's own option where it names one, else the job's; so none drops a face.
fn choose(own: Choice, custom: u8) -> Choice
    ensures { result ≡ chosen own custom }
{
    if custom == 255 {
        return own;
    }
    Choice::With(custom)
}

pub fn choice_of(job: crate::HeightMap, name: crate::Name, customs: &[u8]) -> Choice
    ensures { result ≡ chosen (own_choice job name) (custom_at job.customs customs.now (custom_place name)) }
{
    match name {
        crate::Name::Cap(k) => choose(job.caps, custom_at(job.customs, customs, k, 0)),
        crate::Name::Side(k, d) => {
            choose(
                job.sides,
                custom_at(job.customs, customs, k, 1 + (d as usize)),
            )
        }
    }
}

// Inlined, here and in the counts of a map: else the job and its lists are copied for each face.
#[inline(always)]
pub fn option_of(job: crate::HeightMap, name: crate::Name, lists: crate::Lists<'_>) -> FaceOptions
    ensures { result ≡ option_of job (seen lists.entry) name }
{
    let choice = choice_of(job, name, lists.customs);
    placement::options::option_for(choice, lists.numbers, lists.marks)
}

// The origin, at height +0, unless the map is centred.
pub fn origin_of(origin: crate::Origin) -> Choice3
    ensures { result ≡ origin_of origin }
{
    match origin {
        crate::Origin::Centred => Choice3::Absent,
        crate::Origin::At(p) => Choice3::With(face::face::raise(p, 0.0)),
    }
}

// A side has no position of its own.
pub fn side_stand(job: crate::HeightMap) -> Stand
    ensures { result ≡ side_stand job }
{
    placement::placement::stand_from(origin_of(job.origin), Choice3::Absent, false, job.placement)
}
