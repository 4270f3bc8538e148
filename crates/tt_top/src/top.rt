//! `run`, which does what the words of the command line say, and the usage line.

ghost use Rattle.std.specs.Prelude.{◌≡◌, ◌≢◌, Err, IfSome, map, option_map, string_bytes};
ghost use Rattle.tt_top.specs.Words.{form_of};
ghost use Rattle.tt_top.specs.PlainRun.{usage_run};
ghost use Rattle.tt_top.specs.Run.{IsRun, file_limit, moment};
ghost use Rattle.tt_top.specs.Ends.{HasEndCause, WritesPlain, outside_of, status_of};
ghost use Rattle.tt_top.specs.Forms.{HasClasses, form_seen};

use crate::end::{Done, End, status};
use crate::file_run::run_files;
use crate::form::{Form, read_form};
use crate::outside::Outside;
use crate::plain_run::{demo, make};
use crate::serve::hand_on;
use crate::verify_run::verify_files;
use crate::workspace::Setting;
use std::alloc::Global;
use tt_io::{Files, Sink};
use tt_watch::{Silent, Watcher};

// The most bytes of a file.
const FILE_LIMIT: u64 = 134_217_728;

const USAGE: &[u8] =
    b"usage: uttab run PROBLEM SCRIPT [PUBLISHED] | check PROBLEM | demo SEED CLASSES TURNS | make SEED CLASSES | verify PROBLEM SOLUTION\n";

// A run whose words are in no form.
fn usage<S: Sink>(out: &mut S) -> Result<Done, End>
    ensures writes { WritesPlain usage_run (S.written out.old) (S.written out.new)
        (status_of result) }
    ensures cause { HasEndCause End.Sink (S.faults out.old) (S.faults out.new) result }
    ensures no_memory { result ≢ Err End.Memory }
{
    hand_on(out, USAGE)?;
    Ok(Done::Usage)
}

// Does what a form asks for, or writes the usage line where the words are in none.
fn run_form<F: Files, S: Sink, W: Watcher>(
    setting: Setting,
    form: Option<Form<'_>>,
    outside: &mut Outside<'_, F, S, W>,
) -> Result<Done, End>
    requires { IfSome form HasClasses }
    ensures runs { IsRun (option_map form_seen form.entry) setting.limit
        (outside_of F.holds F.asked F.is_open F.left F.faults S.written S.faults
        outside.old.files.now outside.new.files.now outside.old.out.now outside.new.out.now)
        (status_of result) }
    ensures same_files { outside.new.files.ghost_name ≡ outside.old.files.ghost_name }
    ensures same_out { outside.new.out.ghost_name ≡ outside.old.out.ghost_name }
{
    match form {
        Some(Form::Files(words)) => run_files(setting, words, outside),
        Some(Form::Verify { problem, solution }) => {
            verify_files(setting, problem, solution, outside)
        }
        Some(
            Form::Demo {
                seed,
                classes,
                turns,
            },
        ) => demo(
            setting.alloc,
            seed,
            classes,
            turns,
            outside.out,
            outside.watcher,
        ),
        Some(Form::Make { seed, classes }) => make(setting.alloc, seed, classes, outside.out),
        None => usage(outside.out),
    }
}

/// Does the same as [`run_watched`], with another limit on the bytes of a file.
pub fn run_within<F: Files, S: Sink, W: Watcher>(
    limit: u64,
    alloc: Global,
    words: &[String],
    files: &mut F,
    out: &mut S,
    watcher: &mut W,
) -> u8
    ensures form { IsRun (form_of (map string_bytes words.now)) limit
        (record {
          holds = F.holds files.old;
          before = moment (F.asked files.old) (F.is_open files.old) (F.left files.old)
              (S.written out.old) (F.faults files.old) (S.faults out.old);
          now = moment (F.asked files.new) (F.is_open files.new) (F.left files.new)
              (S.written out.new) (F.faults files.new) (S.faults out.new);
        }) result }
{
    let form = read_form(words);
    let mut outside = Outside::new(files, out, watcher);
    let setting = Setting { limit, alloc };
    let ended = run_form(setting, form, &mut outside);
    status(ended)
}

/// Does what the words of the command line say, and answers the status with which the program ends:
///
/// - 0: the script was read to its end or to `quit`, and no command was refused, or the problem that
///   was asked for was made, or the solution file has no violation; 1: some command was refused, or
///   there is a violation;
/// - 2: the words are in no form, and the usage line was written;
/// - 3: the problem has a fault, which was written; 4: the published timetable has one, or
///   the solution file;
/// - 5 and 6: a call on the files or the output failed, and ended the run;
/// - 7: memory is wanting, before the first line or for a command of the script;
/// - 8: a file has more than 134,217,728 bytes, of a script before a line `quit`.
pub fn run<F: Files, S: Sink>(alloc: Global, words: &[String], files: &mut F, out: &mut S) -> u8
    // What is written is the transcript of a plain desk, or a front of it, and each status has its cause.
    ensures form { IsRun (form_of (map string_bytes words.now)) file_limit
        (record {
          holds = F.holds files.old;
          before = moment (F.asked files.old) (F.is_open files.old) (F.left files.old)
              (S.written out.old) (F.faults files.old) (S.faults out.old);
          now = moment (F.asked files.new) (F.is_open files.new) (F.left files.new)
              (S.written out.new) (F.faults files.new) (S.faults out.new);
        }) result }
{
    let mut watcher = Silent;
    run_watched(alloc, words, files, out, &mut watcher)
}

/// Does the same as [`run`], and tells the watcher how far a long command has come.
pub fn run_watched<F: Files, S: Sink, W: Watcher>(
    alloc: Global,
    words: &[String],
    files: &mut F,
    out: &mut S,
    watcher: &mut W,
) -> u8
    ensures form { IsRun (form_of (map string_bytes words.now)) file_limit
        (record {
          holds = F.holds files.old;
          before = moment (F.asked files.old) (F.is_open files.old) (F.left files.old)
              (S.written out.old) (F.faults files.old) (S.faults out.old);
          now = moment (F.asked files.new) (F.is_open files.new) (F.left files.new)
              (S.written out.new) (F.faults files.new) (S.faults out.new);
        }) result }
{
    run_within(FILE_LIMIT, alloc, words, files, out, watcher)
}
