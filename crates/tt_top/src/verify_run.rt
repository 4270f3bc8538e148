//! The run that checks a solution file.

ghost use Rattle.std.specs.Prelude.{◌≡◌, ◌≢◌, ◌+◌, ◌∷◌, [], ℕ, List, Err, IfOk, IfErr, IsOk, Ok, OnOk};
ghost use Rattle.tt_io.specs.Causes.{Asks, Writes, most_read};
ghost use Rattle.tt_io.specs.Whole.{WritesFront};
ghost use Rattle.tt_published.specs.Timetable.{IsTimetableOf};
ghost use Rattle.tt_top.specs.PlainRun.{checking};
ghost use Rattle.tt_top.specs.Run.{IsReadAtMost, IsVerifyRun};
ghost use Rattle.tt_top.specs.Phases.{HasAtMost, check_phase, left_open, solution_phase};
ghost use Rattle.tt_top.specs.Ends.{Agrees, Fetches, HasEndCause, done_status, outside_of, status_of};
ghost use Rattle.tt_top.specs.Checks.{check_run, check_seen, check_status, check_text};
ghost use Rattle.tt_top.specs.Words.{verify_words};

use crate::end::{Done, End, Fetched, Input};
use crate::fetch::{fetch_problem, fetch_timetable};
use crate::outside::Outside;
use crate::reply::put_fault;
use crate::serve::hand_on;
use crate::workspace::Setting;
use std::alloc::{AllocError, Global};
use tt_io::{Files, Sink};
use tt_problem::Problem;
use tt_published::Published;
use tt_text::Reply;
use tt_verify::verify;
use tt_watch::Watcher;

// What is found of a solution file: what is written of it, and whether it has violations.
#[derive(Drop)]
struct Check {
    reply: Reply,
    violations: bool,
}

// What is found of a solution.
fn found(alloc: Global, problem: &Problem, solution: &Published) -> Result<Check, AllocError>
    requires { IsTimetableOf problem.now solution.now }
    ensures { IfOk result (λ c.
        (names : List (List ℕ)) → checking names problem.now solution.now ≡ check_run names c) }
{
    let mut reply = Reply::new(alloc)?;
    let violations = verify(alloc, problem, solution, &mut reply)? != 0;
    Ok(Check { reply, violations })
}

// Reads the solution file, and checks it against the problem.
fn check_solution<F: Files>(
    setting: Setting,
    problem: &Problem,
    solution: &str,
    files: &mut F,
) -> Result<Fetched<Check>, End>
    ensures agrees { (names : List (List ℕ))
        → Agrees names
        (solution_phase setting.limit (F.holds files.old) names problem.now solution.now)
        (check_seen names result) }
    ensures input { IfOk result (λ l. IfErr l (λ f. f.input ≡ Input.Published)) }
    ensures reads { IsReadAtMost (setting.limit + most_read) (F.holds files.old)
        (left_open (F.is_open files.new) (F.left files.new)) solution.now }
    ensures fits { IsOk result → HasAtMost setting.limit (F.holds files.old) solution.now }
    ensures no_sink { result ≢ Err End.Sink }
    ensures asks { Asks (F.asked files.old) (F.asked files.new) solution.now }
    ensures cause { HasEndCause End.Files (F.faults files.old) (F.faults files.new) result }
{
    match fetch_timetable(setting, problem, solution, files)? {
        Ok(timetable) => Ok(Ok(found(setting.alloc, problem, &timetable)?)),
        Err(fault) => Ok(Err(fault)),
    }
}

// Reads both files, and checks the solution against the problem.
fn check_files<F: Files>(
    setting: Setting,
    problem: &str,
    solution: &str,
    files: &mut F,
) -> Result<Fetched<Check>, End>
    ensures checks { Fetches (verify_words problem.now solution.now) setting.limit
        (F.holds files.old) (left_open (F.is_open files.new) (F.left files.new))
        (check_phase setting.limit (F.holds files.old) problem.now solution.now) (F.asked files.old)
        (F.asked files.new) (check_seen (problem.now ∷ solution.now ∷ []) result) }
    ensures no_sink { result ≢ Err End.Sink }
    ensures cause { HasEndCause End.Files (F.faults files.old) (F.faults files.new) result }
{
    match fetch_problem(setting, problem, files)? {
        Ok(problem) => check_solution(setting, &problem, solution, files),
        Err(fault) => Ok(Err(fault)),
    }
}

// Writes what was found, or the line on the fault of a file.
fn write_check<S: Sink>(alloc: Global, check: &Fetched<Check>, out: &mut S) -> Result<(), End>
    ensures written { OnOk result
        (Writes (S.written out.old) (S.written out.new) (check_text check.now)) }
    ensures memory { result ≡ Err End.Memory → S.written out.new ≡ S.written out.old }
    ensures front { WritesFront (S.written out.old) (S.written out.new) (check_text check.now) }
    ensures cause { HasEndCause End.Sink (S.faults out.old) (S.faults out.new) result }
    ensures no_files { result ≢ Err End.Files }
    ensures no_limit { result ≢ Err End.TooLong }
{
    match check {
        Ok(check) => hand_on(out, check.reply.bytes()),
        Err(fault) => {
            let mut reply = Reply::new(alloc)?;
            put_fault(&mut reply, fault)?;
            hand_on(out, reply.bytes())
        }
    }
}

// How the run is done where this was written.
fn done_of(check: &Fetched<Check>) -> Done
    ensures { done_status result ≡ check_status check.now }
{
    match check {
        Ok(check) => Done::Verified {
            violations: check.violations,
        },
        Err(fault) => Done::Faulty(fault.input),
    }
}

/// Checks a solution file against a problem, and writes what is found.
pub fn verify_files<F: Files, S: Sink, W: Watcher>(
    setting: Setting,
    problem: &str,
    solution: &str,
    outside: &mut Outside<'_, F, S, W>,
) -> Result<Done, End>
    ensures runs { IsVerifyRun problem.now solution.now setting.limit
        (outside_of F.holds F.asked F.is_open F.left F.faults S.written S.faults
        outside.old.files.now outside.new.files.now outside.old.out.now outside.new.out.now)
        (status_of result) }
    ensures same_files { outside.new.files.ghost_name ≡ outside.old.files.ghost_name }
    ensures same_out { outside.new.out.ghost_name ≡ outside.old.out.ghost_name }
{
    let check = check_files(setting, problem, solution, outside.files)?;
    write_check(setting.alloc, &check, outside.out)?;
    Ok(done_of(&check))
}
