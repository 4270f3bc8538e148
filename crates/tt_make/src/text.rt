//! The text of a problem. It is written piece by piece, as it is drawn, and nothing of it is held
//! as a value.

ghost use Rattle.std.specs.Prelude.{◌≡◌, ◌≤◌, IfOk};
ghost use Rattle.tt_base.specs.Limits.{most_classes};
ghost use Rattle.tt_make.specs.Text.{make_text as text_of};

use crate::append::push_text;
use crate::courses::{Courses, course_count};
use crate::parts::push_list;
use crate::rooms::Rooms;
use crate::rules::Rules;
use crate::students::Students;
use rand_pcg::Lcg64Xsh32;
use std::alloc::{AllocError, Global};

/// The text of a problem in the JSON form of the ITC 2019 format, with so many classes, 1 to
/// 20,000. It depends on the seed and the number of classes alone.
///
/// A tenth of that many rooms and two more, a course for each four classes, a distribution for
/// each two and fifteen students for each four are made. The error is want of memory.
#[tactic(auto, unfolding(crate::specs::Text::make_text))]
pub fn make_text(alloc: Global, seed: u64, classes: u32) -> Result<Vec<u8>, AllocError>
    requires some { 1 ≤ classes }
    requires few { classes ≤ most_classes }
    ensures { IfOk result (λ v. v.items ≡ text_of seed classes) }
{
    let mut random = Lcg64Xsh32::new(seed, 1);
    let rooms = classes / 10 + 2;
    let courses = course_count(classes);
    let mut rooms_text = Vec::new(alloc);
    push_list(alloc, &mut rooms_text, &mut random, &Rooms, 1, rooms)?;
    let mut out = Vec::new(alloc);
    push_text(&mut out, r#"{"courses":"#)?;
    let all = Courses { rooms, classes };
    push_list(alloc, &mut out, &mut random, &all, 1, courses)?;
    push_text(&mut out, r#","distributions":"#)?;
    push_list(alloc, &mut out, &mut random, &Rules, 0, 2 * (classes / 4))?;
    push_text(
        &mut out,
        r#","name":"generated","nrDays":7,"nrWeeks":13,"optimization":{"distribution":1,"room":1,"student":2,"time":2},"rooms":"#,
    )?;
    out.extend_from_slice(&rooms_text)?;
    push_text(&mut out, r#","slotsPerDay":288,"students":"#)?;
    let all = Students { courses };
    push_list(alloc, &mut out, &mut random, &all, 1, 15 * classes / 4)?;
    push_text(&mut out, "}")?;
    Ok(out)
}
