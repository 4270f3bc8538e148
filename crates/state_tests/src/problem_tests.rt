//! Tests of the problem and the sums over it.

use std::alloc::{AllocError, Global};
use std::test::Fail;
use test_help::problem;
use tt_bits::PairKind;
use tt_problem::{CoursePart, DistKind, Problem, RoomChoice, RulePlace, Span, Weights, sums};

// Whether there are as many parts as the text has.
fn has_counts(problem: &Problem) -> bool {
    let counts = [
        problem.course_count(),
        problem.class_count(),
        problem.room_count(),
        problem.rule_count(),
        problem.student_count(),
    ];
    counts == [1, 3, 2, 3, 2]
}

// Whether the term and the weights are those of the text.
fn has_numbers(problem: &Problem) -> bool {
    let weights = Weights {
        time: 2,
        room: 3,
        distribution: 5,
        student: 7,
    };
    [problem.nr_days(), problem.nr_weeks()] == [2, 2] && problem.weights() == weights
}

// Whether an id is found among the parts of its kind alone.
fn has_ids(problem: &Problem) -> bool {
    let known = [
        problem.class_of(23),
        problem.room_of(72),
        problem.student_of(32),
    ];
    let unknown = [
        problem.class_of(72),
        problem.room_of(32),
        problem.student_of(23),
    ];
    known == [Some(2), Some(1), Some(1)] && unknown == [None, None, None]
}

// Whether the class with one seat is that of the text.
fn has_class(problem: &Problem) -> bool {
    if problem.class_count() != 3 {
        return false;
    }
    let class = problem.class(2);
    let room = RoomChoice {
        room: 1,
        penalty: 2,
    };
    class.id == 23
        && [class.limit, class.parent] == [Some(1), Some(0)]
        && class.times.len() == 1
        && class.rooms.as_slice() == [room].as_slice()
}

// Whether the second room and the second student are those of the text.
fn has_room_and_student(problem: &Problem) -> bool {
    if problem.room_count() != 2 || problem.student_count() != 2 {
        return false;
    }
    let room = problem.room(1);
    let student = problem.student(1);
    [room.id, student.id] == [72, 32]
        && room.closed.len() == 1
        && student.courses.as_slice() == [0].as_slice()
}

// Whether the third class is of the second subpart of the configuration of the course.
fn has_spans(problem: &Problem) -> bool {
    if problem.class_count() != 3 {
        return false;
    }
    let subpart = problem.subpart_of(2);
    let config = problem.config_of(2);
    let course = problem.course_of(2);
    let configs = Span { first: 0, after: 1 };
    [subpart, config, course] == [1, 0, 0]
        && problem.subpart(subpart) == Span { first: 2, after: 3 }
        && problem.config(config) == Span { first: 0, after: 2 }
        && *problem.course(course) == CoursePart { id: 40, configs }
}

// Whether the rules are those of the text.
fn has_rules(problem: &Problem) -> bool {
    if problem.rule_count() != 3 {
        return false;
    }
    let kind = PairKind::SameRoom;
    problem.rule(0).kind == DistKind::Pair { kind }
        && problem.rule(0).penalty == 10
        && problem.rule(1).members.as_slice() == [2, 0].as_slice()
        && problem.rule(2).required
}

// Whether each rule that has a class is found, with the place of the class in it.
fn has_rules_of(problem: &Problem) -> bool {
    if problem.class_count() != 3 {
        return false;
    }
    let places = [
        RulePlace { rule: 0, place: 1 },
        RulePlace { rule: 1, place: 0 },
        RulePlace { rule: 2, place: 1 },
    ];
    problem.rules_of(2) == places.as_slice() && problem.rules_of(1).is_empty()
}

// Whether the travel that the first room names counts both ways.
fn has_travel(problem: &Problem) -> bool {
    problem.validity();
    if problem.room_count() != 2 {
        return false;
    }
    let travel = problem.travel();
    let there = travel.between(Some(0), Some(1));
    let back = travel.between(Some(1), Some(0));
    [there, back] == [6, 6]
}

// Whether the cells and the links are those of the times and of the rule of blocks.
fn has_cells(alloc: Global, problem: &Problem) -> Result<bool, AllocError> {
    problem.validity();
    if problem.class_count() != 3 || problem.rule_count() != 3 {
        return Ok(false);
    }
    let parts = problem.parts();
    let table = sums::cell_table(alloc, parts)?;
    let cells = [sums::cells_of(parts), sums::class_cells(problem.class(0))];
    let links = sums::links_of(parts, table.as_slice());
    Ok(cells == [7, 2] && table.as_slice() == [2, 1, 4].as_slice() && links == 6)
}

// Whether the members are those of all rules together.
fn has_members(problem: &Problem) -> bool {
    problem.validity();
    sums::member_count(problem.parts()) == 6
}

// Whether each student may have a class of each of two subparts.
#[tactic(auto, using(tt_problem::proofs::SpanLemmas::few_subparts, tt_problem::proofs::SumLemmas::few_subparts_in_table))]
fn has_list_lengths(alloc: Global, problem: &Problem) -> Result<bool, AllocError> {
    problem.validity();
    if problem.student_count() != 2 {
        return Ok(false);
    }
    let parts = problem.parts();
    let table = sums::subpart_table(alloc, parts)?;
    let subparts = table.as_slice();
    let most = [
        sums::most_classes_of(subparts, problem.student(1)),
        problem.most_classes_of(1),
    ];
    Ok(subparts == [2].as_slice() && sums::most_listed(parts, subparts) == 4 && most == [2, 2])
}

// Whether each of these is as the text has it.
fn has_all(alloc: Global, problem: &Problem) -> Result<[bool; 12], AllocError> {
    Ok([
        has_counts(problem),
        has_numbers(problem),
        has_ids(problem),
        has_class(problem),
        has_room_and_student(problem),
        has_spans(problem),
        has_rules(problem),
        has_rules_of(problem),
        has_travel(problem),
        has_cells(alloc, problem)?,
        has_members(problem),
        has_list_lengths(alloc, problem)?,
    ])
}

#[test]
fn a_problem_has_the_parts_of_its_text_and_sums_over_them(rt: HostRuntime) -> Result<(), Fail> {
    let problem = problem(rt.alloc())?;
    let shown = has_all(rt.alloc(), &problem);
    drop(problem);
    assert_eq!(rt; shown, Ok([true; 12]));
    Ok(())
}
