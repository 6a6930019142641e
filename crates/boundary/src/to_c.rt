// What a caller is told: a number, 0 or that of a refusal, the counts, and the need of a buffer that is
// short. The spare number is 0.
ghost use Rattle.std.specs.Prelude.{◌≡◌};
ghost use Rattle.boundary.specs.ToC.{answer_to_c, point_to_c, point3_to_c, centroid_to_c, uv_centroid_to_c, faces_to_c, window_to_c, file_to_c, why_to_c, which_to_c};

use crate::from_c::{CVec2, CVec3};
use answer::answer::{Answer, Refusal};
use face::vec::{Vec2, Vec3};
use heightmap_why::{WhichAnswer, WhyAnswer};
use mesh::stored::Middle;
use mesh::windows::{Faces, Window};
use stl_writing::Filed;

#[repr(C)]
#[derive(Clone, Copy, Default)]
pub struct CAnswer {
    pub number: u32,
    pub spare: u32,
    pub vertices: usize,
    pub indices: usize,
    pub need: usize,
}

#[repr(C)]
#[derive(Clone, Copy, Default)]
pub struct CCentroid {
    pub answer: CAnswer,
    pub centroid: CVec3,
}

#[repr(C)]
#[derive(Clone, Copy, Default)]
pub struct CUvCentroid {
    pub answer: CAnswer,
    pub centroid: CVec2,
}

#[repr(C)]
#[derive(Clone, Copy, Default)]
pub struct CFaces {
    pub answer: CAnswer,
    pub faces: usize,
}

#[repr(C)]
#[derive(Clone, Copy, Default)]
pub struct CWindow {
    pub answer: CAnswer,
    pub first_vertex: usize,
    pub first_index: usize,
    pub vertices: usize,
    pub indices: usize,
}

#[repr(C)]
#[derive(Clone, Copy, Default)]
pub struct CFile {
    pub answer: CAnswer,
    pub bytes: usize,
}

#[repr(C)]
#[derive(Clone, Copy, Default)]
pub struct CWhy {
    pub answer: CAnswer,
    pub reason: u32,
    pub height: f32,
    pub face: usize,
}

#[repr(C)]
#[derive(Clone, Copy, Default)]
pub struct CWhich {
    pub answer: CAnswer,
    pub kind: u32,
    pub side: u32,
    pub cell: usize,
}

// What is told of a mesh, of a job or of a file, or why nothing is.
type CentroidAnswer = Result<Middle<Vec3>, Refusal>;

type UvCentroidAnswer = Result<Middle<Vec2>, Refusal>;

type FacesAnswer = Result<Faces, Refusal>;

type WindowAnswer = Result<Window, Refusal>;

type FileAnswer = Result<Filed, Refusal>;

impl From<Answer> for CAnswer {
    ghost from_gives = { λ answer made. made ≡ answer_to_c answer };

    fn from(answer: Answer) -> CAnswer {
        let counts = answer::answer::counts_of(answer);
        CAnswer {
            number: answer::answer::number_of(answer),
            spare: 0,
            vertices: counts.vertices.0,
            indices: counts.indices.0,
            need: answer::answer::need_of(answer),
        }
    }
}

impl From<Vec2> for CVec2 {
    ghost from_gives = { λ p made. made ≡ point_to_c p };

    fn from(p: Vec2) -> CVec2 {
        CVec2 { x: p.x, y: p.y }
    }
}

impl From<Vec3> for CVec3 {
    ghost from_gives = { λ p made. made ≡ point3_to_c p };

    fn from(p: Vec3) -> CVec3 {
        CVec3 {
            x: p.x,
            y: p.y,
            z: p.z,
        }
    }
}

impl From<CentroidAnswer> for CCentroid {
    ghost from_gives = { λ told made. made ≡ centroid_to_c told };

    fn from(told: CentroidAnswer) -> CCentroid {
        match told {
            Ok(middle) => CCentroid {
                answer: CAnswer::from(Ok(middle.counts)),
                centroid: CVec3::from(middle.centroid),
            },
            Err(why) => CCentroid {
                answer: CAnswer::from(Err(why)),
                ..CCentroid::default()
            },
        }
    }
}

impl From<UvCentroidAnswer> for CUvCentroid {
    ghost from_gives = { λ told made. made ≡ uv_centroid_to_c told };

    fn from(told: UvCentroidAnswer) -> CUvCentroid {
        match told {
            Ok(middle) => CUvCentroid {
                answer: CAnswer::from(Ok(middle.counts)),
                centroid: CVec2::from(middle.centroid),
            },
            Err(why) => CUvCentroid {
                answer: CAnswer::from(Err(why)),
                ..CUvCentroid::default()
            },
        }
    }
}

impl From<FacesAnswer> for CFaces {
    ghost from_gives = { λ told made. made ≡ faces_to_c told };

    fn from(told: FacesAnswer) -> CFaces {
        match told {
            Ok(told) => CFaces {
                answer: CAnswer::from(Ok(told.counts)),
                faces: told.faces,
            },
            Err(why) => CFaces {
                answer: CAnswer::from(Err(why)),
                ..CFaces::default()
            },
        }
    }
}

impl From<WindowAnswer> for CWindow {
    ghost from_gives = { λ told made. made ≡ window_to_c told };

    fn from(told: WindowAnswer) -> CWindow {
        match told {
            Ok(window) => CWindow {
                answer: CAnswer::from(Ok(window.counts)),
                first_vertex: window.start.vertices.0,
                first_index: window.start.indices.0,
                vertices: window.size.vertices.0,
                indices: window.size.indices.0,
            },
            Err(why) => CWindow {
                answer: CAnswer::from(Err(why)),
                ..CWindow::default()
            },
        }
    }
}

impl From<FileAnswer> for CFile {
    ghost from_gives = { λ told made. made ≡ file_to_c told };

    fn from(told: FileAnswer) -> CFile {
        match told {
            Ok(filed) => CFile {
                answer: CAnswer::from(Ok(filed.counts)),
                bytes: filed.bytes,
            },
            Err(why) => CFile {
                answer: CAnswer::from(Err(why)),
                ..CFile::default()
            },
        }
    }
}

impl From<WhyAnswer> for CWhy {
    ghost from_gives = { λ told made. made ≡ why_to_c told };

    fn from(told: WhyAnswer) -> CWhy {
        match told {
            Ok((counts, reason)) => CWhy {
                answer: CAnswer::from(Ok(counts)),
                reason: heightmap_why::reason_code(reason),
                height: heightmap_why::reason_height(reason),
                face: heightmap_why::reason_face(reason),
            },
            Err(why) => CWhy {
                answer: CAnswer::from(Err(why)),
                ..CWhy::default()
            },
        }
    }
}

impl From<WhichAnswer> for CWhich {
    ghost from_gives = { λ told made. made ≡ which_to_c told };

    fn from(told: WhichAnswer) -> CWhich {
        match told {
            Ok((counts, name)) => CWhich {
                answer: CAnswer::from(Ok(counts)),
                kind: heightmap_why::kind_code(name),
                side: heightmap_why::side_of(name),
                cell: heightmap_why::cell_of(name),
            },
            Err(why) => CWhich {
                answer: CAnswer::from(Err(why)),
                ..CWhich::default()
            },
        }
    }
}
