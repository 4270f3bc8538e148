//! `verify`: all that is found of a published timetable, and its lines.

ghost use Rattle.std.specs.Prelude.{◌≡◌, ◌++◌, IfOk, OnOk, length, vec_len};
ghost use Rattle.tt_score.specs.Members.{AreSpotsOf};
ghost use Rattle.tt_published.specs.Timetable.{IsTimetableOf};
ghost use Rattle.tt_verify.specs.Hard.{AreAsManyAsHard};
ghost use Rattle.tt_verify.specs.Lines.{violation_lines, sum_line, verdict_line};
ghost use Rattle.tt_verify.specs.Verified.{verified_text};
ghost use Rattle.tt_verify.specs.Violations.{hard_violations, violations_of};
ghost use Rattle.tt_verify.specs.Found.{listing_faults, sums_of, timetable_totals, totals_with};

use crate::clashes::add_clashes;
use crate::classes::{add_class_faults, add_closed_faults, add_limit_faults};
use crate::lines::{add_lines, add_sum_line, add_verdict};
use crate::plan::{published_plan, spots_of};
use crate::rules::add_all_rule_faults;
use crate::students::{add_list_faults, student_counts};
use crate::sums::{Sums, sums_of};
use crate::violation::Violation;
use std::alloc::{AllocError, Global};
use tt_bits::{Spot, Value};
use tt_clash::Closures;
use tt_problem::Problem;
use tt_published::Published;
use tt_text::Reply;

// Adds what is wrong with the listed classes and with the students' lists.
fn add_listing_faults(
    alloc: Global,
    problem: &Problem,
    published: &Published,
    plan: &[Option<Value>],
    found: &mut Vec<Violation>,
) -> Result<(), AllocError>
    requires belongs { IsTimetableOf problem.now published.now }
    requires whole { length plan.now ≡ length problem.now.classes }
    ensures { OnOk result
        (found.new.items ≡ found.old.items ++ listing_faults problem.now published.now plan.now) }
{
    let counts = student_counts(alloc, problem, published)?;
    add_class_faults(problem, published, plan, found)?;
    add_list_faults(problem, published, found)?;
    add_limit_faults(problem, &counts, found)
}

/// Adds what is counted as hard, with the closures of a session: clashes, closed rooms and required
/// rules. There is as much of it as the totals of the classes' plan count, whatever the students'
/// lists are.
#[tactic(auto, using(std::proofs::Common::append_assoc), unfolding(crate::specs::Violations::hard_violations))]
pub fn add_hard_violations(
    alloc: Global,
    problem: &Problem,
    closures: &Closures,
    spots: &[Option<Spot>],
    found: &mut Vec<Violation>,
) -> Result<(), AllocError>
    requires whole { length spots.now ≡ length problem.now.classes }
    requires fit { AreSpotsOf problem.now spots.now }
    ensures found { OnOk result
        (found.new.items ≡ found.old.items ++ hard_violations problem.now closures.now spots.now) }
    ensures hard { OnOk result (AreAsManyAsHard problem.now closures.now spots.now) }
{
    problem.validity();
    add_clashes(alloc, spots, found)?;
    add_closed_faults(problem, closures, spots, found)?;
    add_all_rule_faults(alloc, problem, spots, found)
}

// What is wrong with a timetable, how much of it is counted as hard, and what it costs.
#[derive(Drop)]
struct Findings {
    violations: Vec<Violation>,
    hard: u64,
    sums: Sums,
}

// All that is found of a published timetable.
#[tactic(auto, using(std::proofs::Common::append_assoc), unfolding(crate::specs::Violations::violations_of, crate::specs::Found::listing_faults))]
fn findings_on(
    alloc: Global,
    problem: &Problem,
    published: &Published,
) -> Result<Findings, AllocError>
    requires { IsTimetableOf problem.now published.now }
    ensures violations { IfOk result
        (λ f. f.violations.items ≡ violations_of problem.now published.now) }
    ensures hard { IfOk result (λ f. f.hard ≡ (timetable_totals problem.now published.now).hard) }
    ensures sums { IfOk result
        (λ f. f.sums ≡ sums_of (timetable_totals problem.now published.now)) }
{
    problem.validity();
    let plan = published_plan(alloc, problem, published)?;
    let spots = spots_of(alloc, problem, &plan)?;
    let mut violations = Vec::new(alloc);
    add_listing_faults(alloc, problem, published, &plan, &mut violations)?;
    let before = violations.len();
    let closures = Closures::new(alloc);
    add_hard_violations(alloc, problem, &closures, &spots, &mut violations)?;
    let hard = (violations.len() - before) as u64;
    let sums = sums_of(alloc, problem, published, &plan, &spots)?;
    Ok(Findings {
        violations,
        hard,
        sums,
    })
}

// Appends a line for each violation, the line on the sums, and the last line.
#[tactic(auto, using(std::proofs::Common::append_assoc))]
fn add_findings(out: &mut Reply, problem: &Problem, findings: &Findings) -> Result<(), AllocError>
    ensures { OnOk result (out.new
        ≡ out.old
        ++ (violation_lines problem.now findings.now.violations.items
        ++ sum_line (totals_with findings.now.sums findings.now.hard)
        ++ verdict_line (vec_len findings.now.violations))) }
{
    add_lines(out, problem, findings.violations.as_slice())?;
    add_sum_line(out, &findings.sums, findings.hard)?;
    add_verdict(out, findings.violations.len() as u64)
}

/// Checks a published timetable against its problem. Each listed class has the first value of its
/// domain with the listed days, weeks, start and room, and each student the listed classes. Appends
/// a line for each violation, the line on the sums, and `valid` or the number of violations, which
/// it answers. Where memory is wanting, some of that may have been appended.
pub fn verify(
    alloc: Global,
    problem: &Problem,
    published: &Published,
    out: &mut Reply,
) -> Result<u64, AllocError>
    requires { IsTimetableOf problem.now published.now }
    ensures text { OnOk result (out.new ≡ out.old ++ verified_text problem.now published.now) }
    ensures count { IfOk result (λ n. n ≡ length (violations_of problem.now published.now)) }
{
    let findings = findings_on(alloc, problem, published)?;
    add_findings(out, problem, &findings)?;
    Ok(findings.violations.len() as u64)
}
