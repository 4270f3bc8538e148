//! Courses: each has four classes, two and their children, and the last one the classes that are
//! left.

ghost use Rattle.std.specs.Prelude.{◌≡◌, ◌<◌, ◌≤◌, ◌+◌, ◌*◌, ◌/◌, ◌%◌, ◌^◌, ◌++◌, ℕ, OnOk};
ghost use Rattle.serde_json.specs.Written.{compact_text};
ghost use Rattle.tt_make.specs.Draws.{draw_each};
ghost use Rattle.tt_make.specs.Courses.{course as course_of, course_count as count_of, whole_course as whole_of, last_course as last_of, subpart_data};

use crate::append::{push_field, push_text};
use crate::classes::{Children, Parents};
use crate::parts::{Made, push_list};
use rand_pcg::Lcg64Xsh32;
use std::alloc::{AllocError, Global};

/// The courses of a problem, by their ids.
#[derive(Drop)]
pub struct Courses {
    pub rooms: u32,
    pub classes: u32,
    pub ghost some: { 1 ≤ rooms },
    pub ghost few: { rooms ≤ 2002 },
}

impl Made for Courses {
    ghost made = { λ courses k. course_of courses.rooms courses.classes k };

    ghost covers = { λ courses k. (1 ≤ k) × (k ≤ 5000) };

    #[tactic(auto, unfolding(crate::specs::Courses::course))]
    fn push(
        &self,
        alloc: Global,
        out: &mut Vec<u8>,
        random: &mut Lcg64Xsh32,
        k: u32,
    ) -> Result<(), AllocError> {
        if 4 * k <= self.classes {
            push_whole(alloc, out, random, self.rooms, k)
        } else {
            push_last(alloc, out, random, self.rooms, self.classes % 4, k)
        }
    }
}

/// The number of courses of a problem with so many classes.
pub fn course_count(classes: u32) -> u32
    ensures count { result ≡ count_of classes }
    ensures few { result ≤ classes / 4 + 1 }
{
    if classes % 4 == 0 {
        classes / 4
    } else {
        classes / 4 + 1
    }
}

// Appends a course of four classes, two and a child of each.
fn push_whole(
    alloc: Global,
    out: &mut Vec<u8>,
    random: &mut Lcg64Xsh32,
    rooms: u32,
    k: u32,
) -> Result<(), AllocError>
    requires some { 1 ≤ rooms }
    requires few { rooms ≤ 2002 }
    requires first { 1 ≤ k }
    requires last { k ≤ 5000 }
    ensures text { OnOk result
        (out.new.items ≡ out.old.items ++ compact_text (whole_of rooms k random.old).0) }
    ensures random { OnOk result (random.new ≡ (whole_of rooms k random.old).1) }
{
    push_field(out, r#"{"configs":[{"id":"#, k)?;
    push_text(out, r#","subparts":["#)?;
    push_subpart(
        alloc,
        out,
        random,
        &Parents { rooms },
        4 * k - 3,
        2,
        2 * k - 1,
    )?;
    push_text(out, ",")?;
    push_subpart(alloc, out, random, &Children { rooms }, 4 * k - 1, 2, 2 * k)?;
    push_field(out, r#"]}],"id":"#, k)?;
    push_text(out, "}")?;
    Ok(())
}

// Appends the last course, which has a subpart of so many classes alone.
fn push_last(
    alloc: Global,
    out: &mut Vec<u8>,
    random: &mut Lcg64Xsh32,
    rooms: u32,
    count: u32,
    k: u32,
) -> Result<(), AllocError>
    requires some { 1 ≤ rooms }
    requires few { rooms ≤ 2002 }
    requires first { 1 ≤ k }
    requires last { k ≤ 5000 }
    requires count { count < 4 }
    ensures text { OnOk result
        (out.new.items ≡ out.old.items ++ compact_text (last_of rooms count k random.old).0) }
    ensures random { OnOk result (random.new ≡ (last_of rooms count k random.old).1) }
{
    push_field(out, r#"{"configs":[{"id":"#, k)?;
    push_text(out, r#","subparts":["#)?;
    push_subpart(
        alloc,
        out,
        random,
        &Parents { rooms },
        4 * k - 3,
        count,
        2 * k - 1,
    )?;
    push_field(out, r#"]}],"id":"#, k)?;
    push_text(out, "}")?;
    Ok(())
}

// Draws a subpart with so many classes, from the id `from` on, and appends its text.
fn push_subpart<P: Made>(
    alloc: Global,
    out: &mut Vec<u8>,
    random: &mut Lcg64Xsh32,
    classes: &P,
    from: u32,
    count: u32,
    id: u32,
) -> Result<(), AllocError>
    requires small { from + count < 2 ^ 32 }
    requires covers { (k : ℕ) → from ≤ k → k < from + count → P.covers classes.now k }
    ensures text { OnOk result (out.new.items
        ≡ out.old.items
        ++ compact_text
        (subpart_data id (draw_each from count (P.made classes.now) random.old).0)) }
    ensures random { OnOk result
        (random.new ≡ (draw_each from count (P.made classes.now) random.old).1) }
{
    push_text(out, r#"{"classes":"#)?;
    push_list(alloc, out, random, classes, from, count)?;
    push_field(out, r#","id":"#, id)?;
    push_text(out, "}")?;
    Ok(())
}
