//! Students: each asks for four courses, where one may stand twice.

ghost use Rattle.std.specs.Prelude.{◌≡◌, ◌≤◌, ◌++◌, OnOk, ⊤};
ghost use Rattle.serde_json.specs.Written.{compact_text};
ghost use Rattle.tt_make.specs.Students.{student as student_of, request as request_of};

use crate::append::{push_field, push_text};
use crate::draws::draw;
use crate::parts::{Made, push_list};
use rand_pcg::Lcg64Xsh32;
use std::alloc::{AllocError, Global};

/// The students of a problem, by their ids.
#[derive(Drop)]
pub struct Students {
    pub courses: u32,
    pub ghost some: { 1 ≤ courses },
    pub ghost few: { courses ≤ 5000 },
}

// The courses that a student asks for.
#[derive(Drop)]
struct Requests {
    courses: u32,
    ghost some: { 1 ≤ courses },
    ghost few: { courses ≤ 5000 },
}

impl Made for Students {
    ghost made = { λ students id. student_of students.courses id };

    ghost covers = { λ students id. ⊤ };

    fn push(
        &self,
        alloc: Global,
        out: &mut Vec<u8>,
        random: &mut Lcg64Xsh32,
        id: u32,
    ) -> Result<(), AllocError> {
        let requests = Requests {
            courses: self.courses,
        };
        push_text(out, r#"{"courses":"#)?;
        push_list(alloc, out, random, &requests, 0, 4)?;
        push_field(out, r#","id":"#, id)?;
        push_text(out, "}")?;
        Ok(())
    }
}

impl Made for Requests {
    ghost made = { λ requests i. request_of requests.courses };

    ghost covers = { λ requests i. ⊤ };

    #[tactic(auto, unfolding(crate::specs::Students::request))]
    fn push(
        &self,
        _alloc: Global,
        out: &mut Vec<u8>,
        random: &mut Lcg64Xsh32,
        _i: u32,
    ) -> Result<(), AllocError> {
        let course = draw(random, self.courses);
        push_field(out, "", 1 + course)
    }
}
