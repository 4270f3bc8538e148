//! Sums over the parts of a problem, for telling whether they are within its limits. Only the tables of
//! cells and of subparts take memory.

ghost use Rattle.std.specs.Prelude.{◌≡◌, ◌≤◌, ◌<◌, All, IfOk, length, map, slice_index, sum_by};
ghost use Rattle.tt_base.specs.Limits.{most_classes, most_members, most_rules, most_students};
ghost use Rattle.tt_problem.specs.Spans.{Covers, IsSpanWithin};
ghost use Rattle.tt_problem.specs.Valid.{IsValidRule, IsValidStudent, course_spans};
ghost use Rattle.tt_problem.specs.ListLengths.{most_of_course};
ghost use Rattle.tt_problem.specs.Sums.{time_cells, class_cells, cells_of, member_count, links_of, most_listed};

use crate::parts::{ClassPart, CoursePart, Parts, Rule, Span, StudentPart, TimeChoice};
use std::alloc::{AllocError, Global};
use tt_base::Row;

// How many cells of the term a time takes, a cell being one day of one week.
fn time_cells(choice: &TimeChoice) -> u32
    ensures cells { result ≡ time_cells choice.now }
    ensures few { result ≤ 896 }
{
    u32::from(choice.time.days.count()) * u32::from(choice.time.weeks.count())
}

/// The most cells that a time of a class takes.
pub fn class_cells(class: &ClassPart) -> u32
    ensures cells { result ≡ class_cells class.now }
    ensures few { result ≤ 896 }
{
    let mut most = 0;
    for choice in class.times.as_slice() {
        most = u32::max(most, time_cells(choice));
    }
    most
}

/// The most cells that all classes take together.
pub fn cells_of(parts: &Parts) -> u32
    requires { length parts.now.classes ≤ most_classes }
    ensures { result ≡ cells_of parts.now }
{
    let mut sum = 0;
    for class in parts.classes.as_slice() {
        sum += class_cells(class);
    }
    sum
}

/// How many members all rules have together.
pub fn member_count(parts: &Parts) -> u32
    requires few { length parts.now.rules ≤ most_rules }
    requires short { All (λ r. length r.members ≤ most_members) parts.now.rules }
    ensures { result ≡ member_count parts.now }
{
    let mut count = 0;
    for rule in parts.rules.as_slice() {
        count += rule.members.len() as u32;
    }
    count
}

/// For each class the most cells that a time of it takes.
pub fn cell_table(alloc: Global, parts: &Parts) -> Result<Row<u16>, AllocError>
    ensures { IfOk result (λ cells. cells ≡ map class_cells parts.now.classes) }
{
    let mut cells = Vec::new(alloc);
    for class in parts.classes.as_slice() {
        cells.push(class_cells(class) as u16)?;
    }
    Ok(Row::from_vec(cells))
}

// The most cells that the members of a rule take together, by the most of each class.
fn links_of_rule(cells: &[u16], rule: &Rule) -> u32
    requires few { All (λ most. most ≤ 896) cells.now }
    requires short { length rule.now.members ≤ most_members }
    requires classes { All (λ class. class < length cells.now) rule.now.members }
    ensures links { result ≡ sum_by (slice_index cells.now) rule.now.members }
    ensures few { result ≤ 1792000 }
{
    let mut sum = 0;
    for class in rule.members.as_slice() {
        sum += u32::from(cells[*class as usize]);
    }
    sum
}

/// The most cells that the members of all rules of `MaxBreaks` and `MaxBlock` take together, of which
/// a problem file has a limit. `cells` has the most of each class.
pub fn links_of(parts: &Parts, cells: &[u16]) -> u64
    requires cells { cells.now ≡ map class_cells parts.now.classes }
    requires few { length parts.now.rules ≤ most_rules }
    requires rules { All (IsValidRule parts.now) parts.now.rules }
    ensures { result ≡ links_of parts.now }
{
    let mut sum = 0;
    for rule in parts.rules.as_slice() {
        if rule.kind.counts_blocks() {
            sum += u64::from(links_of_rule(cells, rule));
        }
    }
    sum
}

// The greatest number of subparts of a configuration of a course.
#[tactic(auto, using(crate::proofs::SumLemmas::span_in), unfolding(crate::specs::ListLengths::most_of_course))]
fn most_of_course(parts: &Parts, course: &CoursePart) -> u32
    requires within { IsSpanWithin (length parts.now.configs) course.now.configs }
    requires configs { Covers parts.now.configs (length parts.now.subparts) }
    ensures { result ≡ most_of_course parts.now course.now }
{
    let Span { first, after } = course.configs;
    let mut most = 0;
    for config in &parts.configs.as_slice()[first as usize..after as usize] {
        most = u32::max(most, config.after - config.first);
    }
    most
}

/// For each course the greatest number of subparts of a configuration.
#[tactic(auto, using(crate::proofs::SpanLemmas::course_within))]
pub fn subpart_table(alloc: Global, parts: &Parts) -> Result<Row<u32>, AllocError>
    requires courses { Covers (course_spans parts.now) (length parts.now.configs) }
    requires configs { Covers parts.now.configs (length parts.now.subparts) }
    ensures { IfOk result (λ table. table ≡ map (most_of_course parts.now) parts.now.courses) }
{
    let mut subparts = Vec::with_capacity(alloc, parts.courses.len())?;
    for course in parts.courses.as_slice() {
        subparts.push(most_of_course(parts, course))?;
    }
    Ok(Row::from_vec(subparts))
}

/// The sum of a table over the courses of a student. Where the table has for each course the greatest
/// number of subparts of a configuration, it is the most classes that the student's list may have.
pub fn most_classes_of(subparts: &[u32], student: &StudentPart) -> u32
    requires few_subparts { All (λ most. most ≤ most_classes) subparts.now }
    requires courses { All (λ place. place < length subparts.now) student.now.courses }
    requires few_courses { length student.now.courses ≤ 40 }
    ensures most { result ≡ sum_by (slice_index subparts.now) student.now.courses }
    ensures few { result ≤ 800000 }
{
    let mut most = 0;
    for place in student.courses.as_slice() {
        most += subparts[*place as usize];
    }
    most
}

/// The most classes that the lists of all students may have together. `subparts` has for each course
/// the greatest number of subparts of a configuration.
#[tactic(auto, using(crate::proofs::SumLemmas::few_subparts_in_table))]
pub fn most_listed(parts: &Parts, subparts: &[u32]) -> u64
    requires subparts { subparts.now ≡ map (most_of_course parts.now) parts.now.courses }
    requires configs { Covers parts.now.configs (length parts.now.subparts) }
    requires few_subparts { length parts.now.subparts ≤ most_classes }
    requires few { length parts.now.students ≤ most_students }
    requires students { All (IsValidStudent parts.now) parts.now.students }
    ensures { result ≡ most_listed parts.now }
{
    let mut sum = 0;
    for student in parts.students.as_slice() {
        sum += u64::from(most_classes_of(subparts, student));
    }
    sum
}
