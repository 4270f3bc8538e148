//! The courses of a problem file, with all that is in them.

ghost use Rattle.std.specs.Prelude.{◌≡◌, ◌<◌, ◌≤◌, ◌^◌, List, [], ◌∷◌, ◌++◌, length, All, IfOk, OnOk};
ghost use Rattle.tt_base.specs.Limits.{most_classes};
ghost use Rattle.tt_problem.specs.Spans.{Covers};
ghost use Rattle.tt_problem.specs.declared.parts.ClassPart.{ClassPart as ClassSeen};
ghost use Rattle.tt_fields.specs.Answer.{Reads, Gives, part_of};
ghost use Rattle.tt_fields.specs.List.{items_of};
ghost use Rattle.tt_tree.specs.Context.{context_of, IsContext};
ghost use Rattle.tt_tree.specs.Read.{classes_read, subparts_read, configs_read, courses_read, IsChoiceAmong, AreClasses, IsSubparts, IsConfigs, IsCourses};
ghost use Rattle.tt_tree.specs.Tables.{a_room_choice, rooms_where, rooms_of, a_class, span, a_subpart, a_config, a_course, courses_in, Subparts as SubpartsSeen, Configs as ConfigsSeen, Courses as CoursesSeen};
ghost use Rattle.tt_tree.specs.Whole.{HasClasses};

use crate::context::Context;
use crate::times::TimeTable;
use indexmap::IndexSet;
use std::alloc::{AllocError, Global};
use tt_base::Row;
use tt_fields::{
    Fault, Field, FileFault, ItemTable, NextTable, PartList, add_id, as_object, known_id, list,
    list_or_none, number, optional_number, optional_reference, read_each, read_onto, truth_or,
};
use tt_problem::{ClassPart, CoursePart, RoomChoice, Span};

/// The classes that have been read, and their ids.
#[derive(Drop)]
pub struct Classes {
    pub ids: IndexSet<u32>,
    pub classes: Vec<ClassPart>,
}

/// The subparts that have been read, each as the span of its classes.
#[derive(Drop)]
pub struct Subparts {
    pub spans: Vec<Span>,
    pub classes: Classes,
}

/// The configurations that have been read, each as the span of its subparts.
#[derive(Drop)]
pub struct Configs {
    pub spans: Vec<Span>,
    pub subparts: Subparts,
}

/// The courses that have been read with all that is in them, and their ids.
#[derive(Drop)]
pub struct Courses {
    pub ids: IndexSet<u32>,
    pub courses: Vec<CoursePart>,
    pub configs: Configs,
}

// A room of a class, with its penalty.
#[tactic(auto, unfolding(crate::specs::Tables::a_room_choice))]
fn read_room_choice<'a>(context: &Context<'_>, item: &'a Field<'a>) -> Result<RoomChoice, Fault<'a>>
    requires { IsContext context.now }
    ensures reads { Reads (λ choice. choice) result
        (a_room_choice (context_of context.now) (part_of item.now)) }
    ensures valid { IfOk result (λ choice. IsChoiceAmong context.now.rooms choice) }
{
    as_object(item)?;
    let room = known_id(&context.rooms, item, "id")?;
    let penalty = number(item, "penalty", 0, 1_000_000)?;
    Ok(RoomChoice { room, penalty })
}

// The rooms of a class.
#[derive(Clone, Copy)]
struct RoomChoiceTable<'a> {
    context: &'a Context<'a>,
}

impl ItemTable<RoomChoice> for RoomChoiceTable<'_> {
    ghost reads = { λ t. a_room_choice (context_of t.context.now) };

    ghost valid = { λ t room. IsChoiceAmong t.context.now.rooms room };

    ghost ready = { λ t. IsContext t.context.now };

    fn read_item(&self, _alloc: Global, item: &Field<'_>) -> Result<RoomChoice, FileFault> {
        Ok(read_room_choice(self.context, &*item)?)
    }
}

// The rooms of a class that may need one, none for one that needs none.
fn rooms_if(
    alloc: Global,
    room: bool,
    context: &Context<'_>,
    object: &Field<'_>,
) -> Result<Row<RoomChoice>, FileFault>
    requires { IsContext context.now }
    ensures reads { Gives (λ rooms. rooms) result
        (rooms_where room (context_of context.now) (part_of object.now)) }
    ensures few { IfOk result (λ rooms. length rooms ≤ 1000) }
    ensures valid { IfOk result (λ rooms. All (IsChoiceAmong context.now.rooms) rooms) }
{
    if room {
        let items = list_or_none(&*object, "rooms", 1000)?;
        let table = RoomChoiceTable { context };
        Ok(Row::from_vec(read_each(alloc, &table, &items)?))
    } else {
        Ok(Row::from_vec(Vec::new(alloc)))
    }
}

// The rooms of a class, which are skipped where its `room` is false.
#[tactic(auto, unfolding(crate::specs::Tables::rooms_of))]
fn read_class_rooms(
    alloc: Global,
    context: &Context<'_>,
    object: &Field<'_>,
) -> Result<Row<RoomChoice>, FileFault>
    requires { IsContext context.now }
    ensures reads { Gives (λ rooms. rooms) result
        (rooms_of (context_of context.now) (part_of object.now)) }
    ensures few { IfOk result (λ rooms. length rooms ≤ 1000) }
    ensures valid { IfOk result (λ rooms. All (IsChoiceAmong context.now.rooms) rooms) }
{
    let room = truth_or(true, &*object, "room")?;
    rooms_if(alloc, room, context, object)
}

// The classes of a subpart.
#[derive(Clone, Copy)]
struct ClassTable<'a> {
    context: &'a Context<'a>,
}

impl NextTable<Classes> for ClassTable<'_> {
    ghost Seen = { List ClassSeen };

    ghost seen = { classes_read };

    ghost reads = { λ t. a_class (context_of t.context.now) };

    ghost most = { λ t. most_classes };

    ghost valid = { λ t place s. IsContext t.context.now × AreClasses t.context.now s };

    #[tactic(auto, using(crate::proofs::Pushed::classes_push), unfolding(crate::specs::Tables::a_class))]
    fn read_next(
        &self,
        alloc: Global,
        _place: usize,
        item: &Field<'_>,
        before: &mut Classes,
    ) -> Result<(), FileFault> {
        as_object(item)?;
        let id = number(&*item, "id", 0, u32::MAX)?;
        add_id(item, id, &mut before.ids)?;
        let limit = optional_number(&*item, "limit", 0, u32::MAX)?;
        let parent = optional_reference(&self.context.classes, &*item, "parent")?;
        let rooms = read_class_rooms(alloc, self.context, item)?;
        let items = list(&*item, "times", 1, 1000)?;
        let table = TimeTable {
            context: self.context,
        };
        let times = read_each(alloc, &table, &items)?;
        before.classes.push(ClassPart {
            id,
            limit,
            parent,
            times: Row::from_vec(times),
            rooms,
        })?;
        Ok(())
    }
}

// Appends the span from `first` up to `after`.
#[tactic(auto, using(crate::proofs::Pushed::covers_more, crate::proofs::Pushed::spans_few))]
fn push_span(spans: &mut Vec<Span>, first: usize, after: usize) -> Result<(), AllocError>
    requires covers { Covers spans.old.items first }
    requires some { first < after }
    requires few { after ≤ most_classes }
    ensures pushed { OnOk result (spans.new.items ≡ spans.old.items ++ span first after ∷ []) }
    ensures covers { OnOk result (Covers spans.new.items after) }
    ensures few { OnOk result (length spans.new.items ≤ most_classes) }
{
    spans.push(Span {
        first: first as u32,
        after: after as u32,
    })?;
    Ok(())
}

// The subparts of a configuration.
#[derive(Clone, Copy)]
struct SubpartTable<'a> {
    context: &'a Context<'a>,
}

impl NextTable<Subparts> for SubpartTable<'_> {
    ghost Seen = { SubpartsSeen };

    ghost seen = { subparts_read };

    ghost reads = { λ t. a_subpart (context_of t.context.now) };

    ghost most = { λ t. 2 ^ 64 };

    ghost valid = { λ t place s. IsContext t.context.now × IsSubparts t.context.now s };

    #[tactic(auto, using(crate::proofs::Whole::more_classes), unfolding(crate::specs::Tables::a_subpart))]
    fn read_next(
        &self,
        alloc: Global,
        _place: usize,
        item: &Field<'_>,
        before: &mut Subparts,
    ) -> Result<(), FileFault> {
        as_object(item)?;
        let first = before.classes.classes.len();
        let items = list(&*item, "classes", 1, 20_000 - first)?;
        let table = ClassTable {
            context: self.context,
        };
        read_onto(alloc, &table, &items, &mut before.classes)?;
        push_span(&mut before.spans, first, before.classes.classes.len())?;
        Ok(())
    }
}

// The configurations of a course.
#[derive(Clone, Copy)]
struct ConfigTable<'a> {
    context: &'a Context<'a>,
}

impl NextTable<Configs> for ConfigTable<'_> {
    ghost Seen = { ConfigsSeen };

    ghost seen = { configs_read };

    ghost reads = { λ t. a_config (context_of t.context.now) };

    ghost most = { λ t. 2 ^ 64 };

    ghost valid = { λ t place s. IsContext t.context.now × IsConfigs t.context.now s };

    #[tactic(auto, using(crate::proofs::Whole::more_subparts), unfolding(crate::specs::Tables::a_config))]
    fn read_next(
        &self,
        alloc: Global,
        _place: usize,
        item: &Field<'_>,
        before: &mut Configs,
    ) -> Result<(), FileFault> {
        as_object(item)?;
        let first = before.subparts.spans.len();
        let items = list(&*item, "subparts", 1, usize::MAX)?;
        let table = SubpartTable {
            context: self.context,
        };
        read_onto(alloc, &table, &items, &mut before.subparts)?;
        push_span(&mut before.spans, first, before.subparts.spans.len())?;
        Ok(())
    }
}

// The courses.
#[derive(Clone, Copy)]
struct CourseTable<'a> {
    context: &'a Context<'a>,
}

impl NextTable<Courses> for CourseTable<'_> {
    ghost Seen = { CoursesSeen };

    ghost seen = { courses_read };

    ghost reads = { λ t. a_course (context_of t.context.now) };

    ghost most = { λ t. 2 ^ 64 };

    ghost valid = { λ t place tree. IsContext t.context.now × IsCourses t.context.now tree };

    #[tactic(auto, using(crate::proofs::Whole::more_configs, crate::proofs::Pushed::courses_push), unfolding(crate::specs::Tables::a_course))]
    fn read_next(
        &self,
        alloc: Global,
        _place: usize,
        item: &Field<'_>,
        before: &mut Courses,
    ) -> Result<(), FileFault> {
        as_object(item)?;
        let id = number(&*item, "id", 0, u32::MAX)?;
        add_id(item, id, &mut before.ids)?;
        let first = before.configs.spans.len();
        let items = list(&*item, "configs", 1, usize::MAX)?;
        let table = ConfigTable {
            context: self.context,
        };
        read_onto(alloc, &table, &items, &mut before.configs)?;
        let after = before.configs.spans.len();
        before.courses.push(CoursePart {
            id,
            configs: Span {
                first: first as u32,
                after: after as u32,
            },
        })?;
        Ok(())
    }
}

/// All courses of a list, with all that is in them.
#[tactic(auto, using(crate::proofs::Pushed::none_distinct), unfolding(crate::specs::Tables::courses_in))]
pub fn read_courses(
    alloc: Global,
    context: &Context<'_>,
    items: &PartList<'_>,
) -> Result<Courses, FileFault>
    requires { IsContext context.now }
    ensures reads { Gives courses_read result
        (courses_in (context_of context.now) (items_of items.now)) }
    ensures tree { IfOk result (λ tree. IsCourses context.now tree) }
    ensures count { IfOk result (λ tree. length tree.courses.items ≡ length items.now.values.now) }
    ensures classes { IfOk result
        (λ tree. HasClasses (items_of items.now) (length tree.configs.subparts.classes.ids.keys)) }
{
    let classes = Classes {
        ids: IndexSet::new(alloc),
        classes: Vec::new(alloc),
    };
    let subparts = Subparts {
        spans: Vec::new(alloc),
        classes,
    };
    let configs = Configs {
        spans: Vec::new(alloc),
        subparts,
    };
    let mut tree = Courses {
        ids: IndexSet::new(alloc),
        courses: Vec::new(alloc),
        configs,
    };
    let table = CourseTable { context };
    read_onto(alloc, &table, items, &mut tree)?;
    Ok(tree)
}
