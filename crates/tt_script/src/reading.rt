//! The command that the words of a line ask for.

ghost use Rattle.std.specs.Prelude.{◌≡◌, ◌↔◌, ◌∷◌, [], Some, None, IfOk, IfSome, IsSome, is_some, codes, bytes_eq, false, option_map};
ghost use Rattle.tt_script.specs.Forms.{HasDepth, IsDepth, IsSectionLine, id_of, ids_of, room_or_none, count_of, seed_of, slot_of, named_value_of, turns_of, closing_of, lone_id, depth_of, suggest_of, chosen_of, for_chosen, section_of, no_more_words, question_of, other_command, command_of};

use crate::command::{Command, Ids, LineFault};
use std::alloc::Global;
use tt_bits::BitWord;
use tt_text::{Words, read_decimal};

// The most turns of a command.
const MOST_TURNS: u64 = 1_000_000;

/// The words `C T R`: a class, the number of a time, and a room.
#[derive(Clone, Copy)]
pub struct NamedValue {
    class: u32,
    time: u32,
    room: Option<u32>,
}

/// The words `N SEED`: a number of turns, and the seed of their random words.
#[derive(Clone, Copy)]
pub struct Turns {
    count: u32,
    seed: u64,
}

/// The word `all`, or that of one class or student.
#[derive(Clone, Copy)]
pub enum Chosen {
    All,
    One { id: u32 },
}

/// The words `ROOM DAYS START LENGTH WEEKS`: a room, and when it is closed.
#[derive(Clone, Copy)]
pub struct Closing {
    room: u32,
    days: BitWord,
    start: u16,
    length: u16,
    weeks: BitWord,
}

// The id, or the number of a time, that a word is.
fn read_id(word: &[u8]) -> Option<u32>
    ensures { result ≡ id_of word.now }
{
    match read_decimal(word, u64::from(u32::MAX)) {
        Some(id) => Some(id as u32),
        None => None,
    }
}

// The room that a word is: an id, or `-` for none.
fn read_room(word: &[u8]) -> Option<Option<u32>>
    ensures { result ≡ room_or_none word.now }
{
    if word == b"-".as_slice() {
        return Some(None);
    }
    match read_id(word) {
        Some(id) => Some(Some(id)),
        None => None,
    }
}

/// The number of turns that a word is: a decimal number up to 1,000,000.
pub fn read_count(word: &[u8]) -> Option<u32>
    ensures { result ≡ count_of word.now }
{
    match read_decimal(word, MOST_TURNS) {
        Some(count) => Some(count as u32),
        None => None,
    }
}

/// The seed that a word is: a decimal number below 2^64.
pub fn read_seed(word: &[u8]) -> Option<u64>
    ensures { result ≡ seed_of word.now }
{
    read_decimal(word, u64::MAX)
}

// The number of slots that a word is: a decimal number up to 65,535.
fn read_slots(word: &[u8]) -> Option<u16>
    ensures { result ≡ slot_of word.now }
{
    match read_decimal(word, 65_535) {
        Some(slots) => Some(slots as u16),
        None => None,
    }
}

// The value that three words name.
fn read_named_value(class: &[u8], time: &[u8], room: &[u8]) -> Option<NamedValue>
    ensures { result ≡ named_value_of (class.now ∷ time.now ∷ room.now ∷ []) }
{
    Some(NamedValue {
        class: read_id(class)?,
        time: read_id(time)?,
        room: read_room(room)?,
    })
}

// The value that the words still to come name.
fn only_named_value(mut words: Words<'_>) -> Option<NamedValue>
    ensures { result ≡ named_value_of words.entry }
{
    match (words.next(), words.next(), words.next(), words.next()) {
        (Some(class), Some(time), Some(room), None) => read_named_value(class, time, room),
        _ => None,
    }
}

// The number of turns and the seed that two words are.
fn read_turns(count: &[u8], seed: &[u8]) -> Option<Turns>
    ensures { result ≡ turns_of (count.now ∷ seed.now ∷ []) }
{
    Some(Turns {
        count: read_count(count)?,
        seed: read_seed(seed)?,
    })
}

// The number of turns and the seed that the words still to come are.
fn only_turns(mut words: Words<'_>) -> Option<Turns>
    ensures { result ≡ turns_of words.entry }
{
    match (words.next(), words.next(), words.next()) {
        (Some(count), Some(seed), None) => read_turns(count, seed),
        _ => None,
    }
}

// The room and the time that five words are.
fn read_closing(
    room: &[u8],
    days: &[u8],
    start: &[u8],
    length: &[u8],
    weeks: &[u8],
) -> Option<Closing>
    ensures { result ≡ closing_of (room.now ∷ days.now ∷ start.now ∷ length.now ∷ weeks.now ∷ []) }
{
    Some(Closing {
        room: read_id(room)?,
        days: BitWord::read(days)?,
        start: read_slots(start)?,
        length: read_slots(length)?,
        weeks: BitWord::read(weeks)?,
    })
}

// The room and the time that the words still to come are.
fn only_closing(mut words: Words<'_>) -> Option<Closing>
    ensures { result ≡ closing_of words.entry }
{
    let (Some(room), Some(days), Some(start)) = (words.next(), words.next(), words.next()) else {
        return None;
    };
    match (words.next(), words.next(), words.next()) {
        (Some(length), Some(weeks), None) => read_closing(room, days, start, length, weeks),
        _ => None,
    }
}

// The one id that the words still to come are.
fn only_id(mut words: Words<'_>) -> Option<u32>
    ensures { result ≡ lone_id words.entry }
{
    match (words.next(), words.next()) {
        (Some(word), None) => read_id(word),
        _ => None,
    }
}

// The depth that a word is: `1`, `2` or `3`.
fn read_depth(word: &[u8]) -> Option<u8>
    ensures depth { result ≡ depth_of word.now }
    ensures within { IfSome result IsDepth }
{
    if word == b"1".as_slice() {
        Some(1)
    } else if word == b"2".as_slice() {
        Some(2)
    } else if word == b"3".as_slice() {
        Some(3)
    } else {
        None
    }
}

// The command of a `suggest` line, by the words after its first one.
fn read_suggest(mut words: Words<'_>) -> Option<Command>
    ensures command { result ≡ suggest_of words.entry }
    ensures depth { IfSome result HasDepth }
{
    let (Some(class), Some(depth), None) = (words.next(), words.next(), words.next()) else {
        return None;
    };
    Some(Command::Suggest {
        class: read_id(class)?,
        depth: read_depth(depth)?,
    })
}

// Whether the words still to come are the word `all` or one id, and which.
fn only_chosen(mut words: Words<'_>) -> Option<Chosen>
    ensures { result ≡ chosen_of words.entry }
{
    let (Some(word), None) = (words.next(), words.next()) else {
        return None;
    };
    if word == b"all".as_slice() {
        return Some(Chosen::All);
    }
    let id = read_id(word)?;
    Some(Chosen::One { id })
}

// The command, if no word is still to come.
fn only_word(command: Command, mut words: Words<'_>) -> Option<Command>
    ensures { result ≡ no_more_words command words.entry }
{
    match words.next() {
        None => Some(command),
        Some(_) => None,
    }
}

// The command that asks of a class or a student, by its first word and those after it.
fn read_question(word: &[u8], words: Words<'_>) -> Option<Command>
    ensures command { result ≡ question_of word.now words.entry }
    ensures depth { IfSome result HasDepth }
{
    if word == b"explain".as_slice() {
        let class = only_id(words)?;
        Some(Command::Explain { class })
    } else if word == b"why".as_slice() {
        let NamedValue { class, time, room } = only_named_value(words)?;
        Some(Command::Why { class, time, room })
    } else if word == b"values".as_slice() {
        let class = only_id(words)?;
        Some(Command::Values { class })
    } else if word == b"meets".as_slice() {
        let class = only_id(words)?;
        Some(Command::Meets { class })
    } else if word == b"student".as_slice() {
        let student = only_id(words)?;
        Some(Command::Student { student })
    } else if word == b"stats".as_slice() {
        let class = only_id(words)?;
        Some(Command::Stats { class })
    } else if word == b"suggest".as_slice() {
        read_suggest(words)
    } else {
        None
    }
}

// The command that locks, goes back, publishes, asks or ends, by its first word and those after it.
fn read_other(word: &[u8], words: Words<'_>) -> Option<Command>
    ensures command { result ≡ other_command word.now words.entry }
    ensures depth { IfSome result HasDepth }
{
    if word == b"lock".as_slice() {
        match only_chosen(words)? {
            Chosen::All => Some(Command::LockAll),
            Chosen::One { id: class } => Some(Command::Lock { class }),
        }
    } else if word == b"unlock".as_slice() {
        match only_chosen(words)? {
            Chosen::All => Some(Command::UnlockAll),
            Chosen::One { id: class } => Some(Command::Unlock { class }),
        }
    } else if word == b"undo".as_slice() {
        only_word(Command::Undo, words)
    } else if word == b"publish".as_slice() {
        only_word(Command::Publish, words)
    } else if word == b"draft".as_slice() {
        only_word(Command::Draft, words)
    } else if word == b"totals".as_slice() {
        only_word(Command::Totals, words)
    } else if word == b"violations".as_slice() {
        only_word(Command::Violations, words)
    } else if word == b"costs".as_slice() {
        only_word(Command::Costs, words)
    } else if word == b"quit".as_slice() {
        only_word(Command::Quit, words)
    } else {
        read_question(word, words)
    }
}

// The command of a line that isn't a `section` line, by its first word and those after it.
fn read_short(word: &[u8], words: Words<'_>) -> Option<Command>
    requires { bytes_eq word.now (codes "section") ≡ false }
    ensures command { result ≡ command_of (word.now ∷ words.entry) }
    ensures depth { IfSome result HasDepth }
{
    if word == b"assign".as_slice() {
        let NamedValue { class, time, room } = only_named_value(words)?;
        Some(Command::Assign { class, time, room })
    } else if word == b"unassign".as_slice() {
        let class = only_id(words)?;
        Some(Command::Unassign { class })
    } else if word == b"force".as_slice() {
        let NamedValue { class, time, room } = only_named_value(words)?;
        Some(Command::Force { class, time, room })
    } else if word == b"drop".as_slice() {
        let student = only_id(words)?;
        Some(Command::Drop { student })
    } else if word == b"enrol".as_slice() {
        match only_chosen(words)? {
            Chosen::All => Some(Command::EnrolAll),
            Chosen::One { id: student } => Some(Command::Enrol { student }),
        }
    } else if word == b"search".as_slice() {
        let Turns { count: turns, seed } = only_turns(words)?;
        Some(Command::Search { turns, seed })
    } else if word == b"repair".as_slice() {
        let Turns { count: turns, seed } = only_turns(words)?;
        Some(Command::Repair { turns, seed })
    } else if word == b"place".as_slice() {
        let Turns { count: turns, seed } = only_turns(words)?;
        Some(Command::Place { turns, seed })
    } else if word == b"improve".as_slice() {
        let Turns {
            count: rounds,
            seed,
        } = only_turns(words)?;
        Some(Command::Improve { rounds, seed })
    } else if word == b"deluge".as_slice() {
        let Turns {
            count: rounds,
            seed,
        } = only_turns(words)?;
        Some(Command::Deluge { rounds, seed })
    } else if word == b"recall".as_slice() {
        only_word(Command::Recall, words)
    } else if word == b"close".as_slice() {
        let Closing {
            room,
            days,
            start,
            length,
            weeks,
        } = only_closing(words)?;
        Some(Command::Close {
            room,
            days,
            start,
            length,
            weeks,
        })
    } else if word == b"reopen".as_slice() {
        let room = only_id(words)?;
        Some(Command::Reopen { room })
    } else {
        read_other(word, words)
    }
}

// Whether each word still to come is an id.
fn are_ids(mut words: Words<'_>) -> bool
    ensures { result ≡ is_some (ids_of words.entry) }
{
    while let Some(word) = words.next() {
        if read_id(word).is_none() {
            return false;
        }
    }
    true
}

// The ids that the words still to come are.
fn read_ids(alloc: Global, mut words: Words<'_>) -> Result<Ids, LineFault>
    ensures ok { IfOk result (λ ids. ids_of words.entry ≡ Some ids) }
    ensures bad { result ≡ Err LineFault.Bad → ids_of words.entry ≡ None }
    ensures memory { result ≡ Err LineFault.Memory → IsSome (ids_of words.entry) }
{
    let mut ids = Vec::new(alloc);
    while let Some(word) = words.next() {
        let Some(id) = read_id(word) else {
            return Err(LineFault::Bad);
        };
        if ids.push(id).is_err() {
            return Err(if are_ids(words) {
                LineFault::Memory
            } else {
                LineFault::Bad
            });
        }
    }
    Ok(Ids::from_vec(ids))
}

// The command of a `section` line, by the words after its first one.
fn read_section(alloc: Global, mut words: Words<'_>) -> Result<Command, LineFault>
    ensures ok { IfOk result (λ command. section_of words.entry ≡ Some command) }
    ensures depth { IfOk result HasDepth }
    ensures bad { result ≡ Err LineFault.Bad → section_of words.entry ≡ None }
    ensures memory { result ≡ Err LineFault.Memory → IsSome (section_of words.entry) }
{
    let Some(word) = words.next() else {
        return Err(LineFault::Bad);
    };
    let Some(student) = read_id(word) else {
        return Err(LineFault::Bad);
    };
    let classes = read_ids(alloc, words)?;
    Ok(Command::Section { student, classes })
}

// The command that a line asks for, by its first word and those after it. Only that of a `section`
// line in its form takes memory.
pub(crate) fn read_command(
    alloc: Global,
    word: &[u8],
    words: Words<'_>,
) -> Result<Command, LineFault>
    ensures ok { IfOk result (λ command. command_of (word.now ∷ words.entry) ≡ Some command) }
    ensures depth { IfOk result HasDepth }
    ensures bad { result ≡ Err LineFault.Bad ↔ (command_of (word.now ∷ words.entry) ≡ None) }
    ensures memory { result ≡ Err LineFault.Memory → IsSectionLine (word.now ∷ words.entry) }
{
    if word == b"section".as_slice() {
        return read_section(alloc, words);
    }
    match read_short(word, words) {
        Some(command) => Ok(command),
        None => Err(LineFault::Bad),
    }
}
