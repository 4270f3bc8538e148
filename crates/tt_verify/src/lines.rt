//! The lines on violations, on the sums, and the last line.

ghost use Rattle.std.specs.Prelude.{◌≡◌, ◌++◌, OnOk, codes};
ghost use Rattle.tt_verify.specs.Lines.{class_text, number_line, violation_line, violation_lines, sum_line, verdict_line};
ghost use Rattle.tt_verify.specs.Found.{totals_with};

use crate::sums::Sums;
use crate::violation::Violation;
use std::alloc::AllocError;
use tt_problem::Problem;
use tt_text::Reply;

// Appends a text and the id of a class.
#[tactic(auto, unfolding(crate::specs::Lines::class_text))]
fn add_class(out: &mut Reply, t: &str, problem: &Problem, class: u32) -> Result<(), AllocError>
    ensures { OnOk result (out.new ≡ out.old ++ class_text t.now problem.now class) }
{
    out.field(t, u128::from(problem.class_id(class)))
}

// Appends a text, the id of a class, and another text.
#[tactic(auto, using(std::proofs::Common::append_assoc))]
fn add_class_line(
    out: &mut Reply,
    t: &str,
    problem: &Problem,
    class: u32,
    end: &str,
) -> Result<(), AllocError>
    ensures { OnOk result (out.new ≡ out.old ++ (class_text t.now problem.now class ++ end.now)) }
{
    add_class(out, t, problem, class)?;
    out.text(end)
}

// Appends two texts, each with the id of a class, and the end of the line.
#[tactic(auto, using(std::proofs::Common::append_assoc))]
fn add_two_classes(
    out: &mut Reply,
    t: &str,
    problem: &Problem,
    class: u32,
    other: u32,
) -> Result<(), AllocError>
    ensures { OnOk result (out.new
        ≡ out.old
        ++ (class_text t.now problem.now class
        ++ class_text (codes " ") problem.now other
        ++ codes "\n")) }
{
    add_class(out, t, problem, class)?;
    add_class(out, " ", problem, other)?;
    out.text("\n")
}

// Appends the line on a violation.
#[tactic(auto, using(std::proofs::Common::append_assoc), unfolding(crate::specs::Lines::violation_line))]
fn add_line(out: &mut Reply, problem: &Problem, violation: Violation) -> Result<(), AllocError>
    ensures { OnOk result (out.new ≡ out.old ++ violation_line problem.now violation) }
{
    match violation {
        Violation::Missing { class } => add_class_line(out, "class ", problem, class, " missing\n"),
        Violation::Outside { class } => add_class_line(out, "class ", problem, class, " outside\n"),
        Violation::Invalid { student } => {
            out.field("student ", u128::from(problem.student_id(student)))?;
            out.text(" invalid\n")
        }
        Violation::Over { class, students } => {
            add_class(out, "class ", problem, class)?;
            out.field(" over ", u128::from(students))?;
            out.text("\n")
        }
        Violation::Clash { class, other } => add_two_classes(out, "clash ", problem, class, other),
        Violation::Closed { class } => add_class_line(out, "closed ", problem, class, "\n"),
        Violation::Pair { rule, class, other } => {
            out.field("rule ", u128::from(rule) + 1)?;
            add_two_classes(out, " pair ", problem, class, other)
        }
        Violation::Amount { rule, amount } => {
            out.field("rule ", u128::from(rule) + 1)?;
            out.field(" amount ", u128::from(amount))?;
            out.text("\n")
        }
    }
}

/// Appends a line for each violation, in order.
#[tactic(auto, using(std::proofs::Common::append_assoc), unfolding(crate::specs::Lines::violation_lines))]
pub fn add_lines(
    out: &mut Reply,
    problem: &Problem,
    violations: &[Violation],
) -> Result<(), AllocError>
    ensures { OnOk result (out.new ≡ out.old ++ violation_lines problem.now violations.now) }
{
    for violation in violations {
        add_line(out, problem, *violation)?;
    }
    Ok(())
}

/// Appends the line on the sums.
#[tactic(auto, using(std::proofs::Common::append_assoc), unfolding(crate::specs::Lines::sum_line))]
pub fn add_sum_line(out: &mut Reply, sums: &Sums, hard: u64) -> Result<(), AllocError>
    ensures { OnOk result (out.new ≡ out.old ++ sum_line (totals_with sums.now hard)) }
{
    let penalties = sums.penalties;
    out.field("sum time ", u128::from(penalties.time))?;
    out.field(" room ", u128::from(penalties.room))?;
    out.field(" distribution ", penalties.distribution)?;
    out.field(" student ", u128::from(penalties.student))?;
    out.field(" total ", sums.total)?;
    out.field(" hard ", u128::from(hard))?;
    out.text("\n")
}

/// Appends the line on how many violations there are.
#[tactic(auto, using(std::proofs::Common::append_assoc))]
pub fn add_count(out: &mut Reply, violations: u64) -> Result<(), AllocError>
    ensures { OnOk result (out.new ≡ out.old ++ number_line violations) }
{
    out.field("violations ", u128::from(violations))?;
    out.text("\n")
}

/// Appends the last line, by the number of violations.
#[tactic(auto, unfolding(crate::specs::Lines::verdict_line))]
pub fn add_verdict(out: &mut Reply, violations: u64) -> Result<(), AllocError>
    ensures { OnOk result (out.new ≡ out.old ++ verdict_line violations) }
{
    if violations == 0 {
        out.text("valid\n")
    } else {
        add_count(out, violations)
    }
}
