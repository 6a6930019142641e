// The calls of the three kinds of job.
use crate::job::Words;
use answer::answer::Answer;
use record::jobs::Job;
use record::lists::Lists;

#[derive(Drop)]
pub(crate) struct CheapJob<'a>(pub Words<'a>);

#[derive(Drop)]
pub(crate) struct PlaneJob<'a>(pub Words<'a>);

#[derive(Drop)]
pub(crate) struct ColumnJob<'a>(pub Words<'a>);

impl Job for CheapJob<'_> {
    fn plan(&self) -> Answer {
        let of = &self.0;
        cheap_column::plan(of.cheap(), of.corners)
    }

    fn build(&self, to: &mut Lists) -> Answer {
        let of = &self.0;
        cheap_column::build(
            of.cheap(),
            of.corners,
            to.vertices,
            to.normals,
            to.uvs,
            to.indices,
        )
    }

    fn face(&self, number: usize, to: &mut Lists) -> Answer {
        let of = &self.0;
        cheap_column::face(
            of.cheap(),
            of.corners,
            number,
            to.vertices,
            to.normals,
            to.uvs,
            to.indices,
        )
    }
}

impl Job for PlaneJob<'_> {
    fn plan(&self) -> Answer {
        let of = &self.0;
        plane_builder::plan(of.plane(), of.corners, of.numbers, of.marks)
    }

    fn build(&self, to: &mut Lists) -> Answer {
        let of = &self.0;
        plane_builder::build(
            of.plane(),
            of.corners,
            of.numbers,
            of.marks,
            to.vertices,
            to.normals,
            to.uvs,
            to.indices,
        )
    }

    fn face(&self, number: usize, to: &mut Lists) -> Answer {
        let of = &self.0;
        plane_builder::face(
            of.plane(),
            of.corners,
            of.numbers,
            of.marks,
            number,
            to.vertices,
            to.normals,
            to.uvs,
            to.indices,
        )
    }
}

impl Job for ColumnJob<'_> {
    fn plan(&self) -> Answer {
        let of = &self.0;
        column_builder::plan(of.column, of.pairs, of.corners, of.numbers, of.marks)
    }

    fn build(&self, to: &mut Lists) -> Answer {
        let of = &self.0;
        column_builder::build(
            of.column,
            of.pairs,
            of.corners,
            of.numbers,
            of.marks,
            to.vertices,
            to.normals,
            to.uvs,
            to.indices,
        )
    }

    fn face(&self, number: usize, to: &mut Lists) -> Answer {
        let of = &self.0;
        column_builder::face(
            of.column,
            of.pairs,
            of.corners,
            of.numbers,
            of.marks,
            number,
            to.vertices,
            to.normals,
            to.uvs,
            to.indices,
        )
    }
}
