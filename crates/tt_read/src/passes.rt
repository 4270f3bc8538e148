//! The first and the second pass: the shape of all values, then the references.

ghost use Rattle.std.specs.Prelude.{◌≡◌, ◌≤◌, length, None, IfOk, codes};
ghost use Rattle.tt_base.specs.Limits.{most_classes, most_courses, most_rooms, most_rules, most_students};
ghost use Rattle.tt_problem.specs.Valid.{AreValidWeights, IsValidTerm};
ghost use Rattle.tt_fields.specs.Answer.{Reads, Gives, part_of};
ghost use Rattle.tt_fields.specs.List.{items_of};
ghost use Rattle.tt_tree.specs.Context.{context_of, IsContext};
ghost use Rattle.tt_tree.specs.Read.{rooms_read, courses_read};
ghost use Rattle.tt_tree.specs.Whole.{HasClasses};
ghost use Rattle.tt_lists.specs.Tables.{rules_in, students_in};
ghost use Rattle.tt_read.specs.Read.{room_list_read, course_list_read, shape_read, lists_of, IsShape, HasAllClasses, IsLinked, HasOwnIds};
ghost use Rattle.tt_read.specs.Tables.{most_weeks as most_weeks_of, term_of, weights_of, term_context, room_list_of, course_list_of, checked_list, file_shape, shape_context, parts_with as parts_of_all, linked_of};

use crate::term::Term;
use indexmap::IndexSet;
use std::alloc::Global;
use tt_base::Row;
use tt_fields::{
    Fault, Field, FileFault, Known, PartList, as_object, list, list_or_none, number, number_or,
    object as required_object,
};
use tt_lists::{read_rules, read_students};
use tt_problem::{Parts, Rule, StudentPart, Weights};
use tt_tree::{Classes, Configs, Context, Courses, Rooms, Subparts, read_courses, read_rooms};

// The most weeks of a term, by the version of the file's form.
fn most_weeks(version: u8) -> u32
    ensures most { result ≡ most_weeks_of version }
    ensures few { result ≤ 128 }
{
    if version == 1 { 64 } else { 128 }
}

/// The version of the form, the days of a week, and the weeks of the term.
#[tactic(auto, unfolding(crate::specs::Tables::term_of))]
pub fn read_term<'a>(object: &'a Field<'a>) -> Result<Term, Fault<'a>>
    ensures reads { Reads (λ term. term) result (term_of (part_of object.now)) }
    ensures valid { IfOk result (λ term. IsValidTerm term.nr_days term.nr_weeks) }
{
    let version = number_or(1, object, "version", 1, 2)? as u8;
    let nr_days = number(object, "nrDays", 1, 7)? as u8;
    let nr_weeks = number(object, "nrWeeks", 1, most_weeks(version))? as u8;
    number(object, "slotsPerDay", 1, 1440)?;
    Ok(Term {
        version,
        nr_days,
        nr_weeks,
    })
}

/// The optimization weights.
#[tactic(auto, unfolding(crate::specs::Tables::weights_of))]
pub fn read_weights<'a>(object: &'a Field<'a>) -> Result<Weights, Fault<'a>>
    ensures reads { Reads (λ weights. weights) result (weights_of (part_of object.now)) }
    ensures valid { IfOk result AreValidWeights }
{
    let time = number(object, "time", 0, 100_000)?;
    let room = number(object, "room", 0, 100_000)?;
    let distribution = number(object, "distribution", 0, 100_000)?;
    let student = number(object, "student", 0, 100_000)?;
    Ok(Weights {
        time,
        room,
        distribution,
        student,
    })
}

// What the first pass reads with: no reference is looked up.
fn term_context(term: Term) -> Context<'static>
    requires { IsValidTerm term.nr_days term.nr_weeks }
    ensures context { context_of result ≡ term_context term }
    ensures valid { IsContext result }
{
    Context {
        nr_days: term.nr_days,
        nr_weeks: term.nr_weeks,
        rooms: Known::none(),
        classes: Known::none(),
    }
}

/// The list of rooms, and the ids in it.
#[derive(Drop)]
pub struct RoomList<'a> {
    pub items: PartList<'a>,
    pub ids: IndexSet<u32>,
}

// The rooms, with no reference looked up.
#[tactic(auto, using(crate::proofs::Linked::ids_count), unfolding(crate::specs::Tables::room_list_of))]
fn read_room_list<'a>(
    alloc: Global,
    term: Term,
    object: &'a Field<'a>,
) -> Result<RoomList<'a>, FileFault>
    requires { IsValidTerm term.nr_days term.nr_weeks }
    ensures reads { Gives room_list_read result (room_list_of term (part_of object.now)) }
    ensures few { IfOk result (λ list. length list.items.values.now ≤ most_rooms) }
    ensures count { IfOk result (λ list. length list.ids.keys ≡ length list.items.values.now) }
{
    let context = term_context(term);
    let items = list_or_none(object, "rooms", 2500)?;
    let Rooms { ids, .. } = read_rooms(alloc, &context, &items)?;
    Ok(RoomList { items, ids })
}

/// The list of courses, and the ids of courses and of classes in it.
#[derive(Drop)]
pub struct CourseList<'a> {
    pub items: PartList<'a>,
    pub ids: IndexSet<u32>,
    pub class_ids: IndexSet<u32>,
}

// The courses, with no reference looked up.
#[tactic(auto, using(crate::proofs::Linked::ids_count), unfolding(crate::specs::Tables::course_list_of))]
fn read_course_list<'a>(
    alloc: Global,
    term: Term,
    object: &'a Field<'a>,
) -> Result<CourseList<'a>, FileFault>
    requires { IsValidTerm term.nr_days term.nr_weeks }
    ensures reads { Gives course_list_read result (course_list_of term (part_of object.now)) }
    ensures few { IfOk result (λ list. length list.items.values.now ≤ most_courses) }
    ensures count { IfOk result (λ list. length list.ids.keys ≡ length list.items.values.now) }
    ensures few_classes { IfOk result (λ list. length list.class_ids.keys ≤ most_classes) }
    ensures classes { IfOk result
        (λ list. HasClasses (items_of list.items) (length list.class_ids.keys)) }
{
    let context = term_context(term);
    let items = list(object, "courses", 0, 20_000)?;
    let Courses { ids, configs, .. } = read_courses(alloc, &context, &items)?;
    let Configs { subparts, .. } = configs;
    let Subparts { classes, .. } = subparts;
    let Classes { ids: class_ids, .. } = classes;
    Ok(CourseList {
        items,
        ids,
        class_ids,
    })
}

// The list of distributions, read with no reference looked up.
#[tactic(auto, unfolding(crate::specs::Tables::checked_list))]
fn read_rule_list<'a>(
    alloc: Global,
    version: u8,
    object: &'a Field<'a>,
) -> Result<PartList<'a>, FileFault>
    ensures reads { Gives items_of result (checked_list most_rules (rules_in version None)
        (codes "distributions") (part_of object.now)) }
    ensures few { IfOk result (λ items. length items.values.now ≤ most_rules) }
{
    let items = list_or_none(object, "distributions", 20_000)?;
    read_rules(alloc, version, &Known::none(), &items)?;
    Ok(items)
}

// The list of students, read with no reference looked up.
#[tactic(auto, unfolding(crate::specs::Tables::checked_list))]
fn read_student_list<'a>(alloc: Global, object: &'a Field<'a>) -> Result<PartList<'a>, FileFault>
    ensures reads { Gives items_of result
        (checked_list most_students (students_in None) (codes "students") (part_of object.now)) }
    ensures few { IfOk result (λ items. length items.values.now ≤ most_students) }
{
    let items = list_or_none(object, "students", 100_000)?;
    read_students(alloc, &Known::none(), &items)?;
    Ok(items)
}

/// What the first pass finds.
#[derive(Drop)]
pub struct Shape<'a> {
    pub term: Term,
    pub weights: Weights,
    pub rooms: RoomList<'a>,
    pub courses: CourseList<'a>,
    pub distributions: PartList<'a>,
    pub students: PartList<'a>,
}

// The lists of the whole value, with no reference looked up.
#[tactic(auto, unfolding(crate::specs::Read::lists_of))]
fn read_lists<'a>(
    alloc: Global,
    term: Term,
    weights: Weights,
    object: &'a Field<'a>,
) -> Result<Shape<'a>, FileFault>
    requires term { IsValidTerm term.nr_days term.nr_weeks }
    requires weights { AreValidWeights weights }
    ensures reads { Gives shape_read result (lists_of term weights (part_of object.now)) }
    ensures valid { IfOk result IsShape }
    ensures classes { IfOk result HasAllClasses }
{
    let rooms = read_room_list(alloc, term, object)?;
    let courses = read_course_list(alloc, term, object)?;
    let distributions = read_rule_list(alloc, term.version, object)?;
    let students = read_student_list(alloc, object)?;
    Ok(Shape {
        term,
        weights,
        rooms,
        courses,
        distributions,
        students,
    })
}

/// The first pass: the whole value, with no reference looked up.
#[tactic(auto, unfolding(crate::specs::Tables::file_shape))]
pub fn first_pass<'a>(alloc: Global, object: &'a Field<'a>) -> Result<Shape<'a>, FileFault>
    ensures reads { Gives shape_read result (file_shape (part_of object.now)) }
    ensures valid { IfOk result IsShape }
    ensures classes { IfOk result HasAllClasses }
{
    as_object(object)?;
    let term = read_term(object)?;
    let optimization = required_object(object, "optimization")?;
    let weights = read_weights(&optimization)?;
    read_lists(alloc, term, weights, object)
}

// What the second pass reads with: the ids of the first.
fn shape_context<'a>(shape: &'a Shape<'_>) -> Context<'a>
    requires { IsShape shape.now }
    ensures context { context_of result ≡ shape_context (shape_read shape.now) }
    ensures valid { IsContext result }
{
    Context {
        nr_days: shape.term.nr_days,
        nr_weeks: shape.term.nr_weeks,
        rooms: Known::among(&shape.rooms.ids),
        classes: Known::among(&shape.courses.class_ids),
    }
}

/// What the second pass reads: the parts of a problem, and the ids of its rooms, courses and classes.
#[derive(Drop)]
pub struct Linked {
    pub parts: Parts,
    pub room_ids: IndexSet<u32>,
    pub course_ids: IndexSet<u32>,
    pub class_ids: IndexSet<u32>,
}

// The parts of a problem, and the ids that were read with them.
fn linked_with(
    shape: &Shape<'_>,
    rooms: Rooms,
    tree: Courses,
    rules: Row<Rule>,
    students: Row<StudentPart>,
) -> Linked
    ensures parts { result.parts
        ≡ parts_of_all (shape_read shape.now) (rooms_read rooms) (courses_read tree) rules
        students }
    ensures room_ids { result.room_ids ≡ rooms.ids }
    ensures course_ids { result.course_ids ≡ tree.ids }
    ensures class_ids { result.class_ids ≡ tree.configs.subparts.classes.ids }
{
    let Rooms {
        ids: room_ids,
        rooms,
        travel,
    } = rooms;
    let Courses {
        ids: course_ids,
        courses,
        configs,
    } = tree;
    let Configs {
        spans: configs,
        subparts,
    } = configs;
    let Subparts {
        spans: subparts,
        classes,
    } = subparts;
    let Classes {
        ids: class_ids,
        classes,
    } = classes;
    let parts = Parts {
        nr_days: shape.term.nr_days,
        nr_weeks: shape.term.nr_weeks,
        weights: shape.weights,
        courses: Row::from_vec(courses),
        configs: Row::from_vec(configs),
        subparts: Row::from_vec(subparts),
        classes: Row::from_vec(classes),
        rooms: Row::from_vec(rooms),
        travel,
        rules,
        students,
    };
    Linked {
        parts,
        room_ids,
        course_ids,
        class_ids,
    }
}

/// The second pass: the same lists again, with each reference looked up.
#[tactic(auto, unfolding(crate::specs::Tables::linked_of))]
pub fn second_pass(alloc: Global, shape: &Shape<'_>) -> Result<Linked, FileFault>
    requires { IsShape shape.now }
    ensures reads { Gives (λ linked. linked.parts) result (linked_of (shape_read shape.now)) }
    ensures linked { IfOk result (λ linked. HasAllClasses shape.now → IsLinked linked.parts) }
    ensures ids { IfOk result HasOwnIds }
{
    let context = shape_context(&*shape);
    let rooms = read_rooms(alloc, &context, &shape.rooms.items)?;
    let tree = read_courses(alloc, &context, &shape.courses.items)?;
    let rules = read_rules(
        alloc,
        shape.term.version,
        &context.classes,
        &shape.distributions,
    )?;
    let courses = Known::among(&shape.courses.ids);
    let students = read_students(alloc, &courses, &shape.students)?;
    Ok(linked_with(shape, rooms, tree, rules, students))
}
