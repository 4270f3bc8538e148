//! Times: days and weeks are taken from lists, and all else is drawn from a range.

ghost use Rattle.std.specs.Prelude.{◌≡◌, ◌<◌, ◌++◌, OnOk, ⊤};
ghost use Rattle.serde_json.specs.Written.{compact_text};
ghost use Rattle.tt_make.specs.Values.{word_at};
ghost use Rattle.tt_make.specs.Classes.{day_words, week_words, time as time_of, time_data};

use crate::append::{push_field, push_text, push_word};
use crate::draws::draw;
use crate::parts::Made;
use rand_pcg::Lcg64Xsh32;
use std::alloc::{AllocError, Global};

/// The times that a class may have.
#[derive(Drop)]
pub struct Times;

impl Made for Times {
    ghost made = { λ times i. time_of };

    ghost covers = { λ times i. ⊤ };

    #[tactic(auto, unfolding(crate::specs::Classes::time))]
    fn push(
        &self,
        _alloc: Global,
        out: &mut Vec<u8>,
        random: &mut Lcg64Xsh32,
        _i: u32,
    ) -> Result<(), AllocError> {
        let days = draw(random, 9);
        let start = draw(random, 10);
        let length = draw(random, 3);
        let weeks = draw(random, 3);
        let penalty = draw(random, 5);
        let drawn = DrawnTime {
            days,
            start,
            length,
            weeks,
            penalty,
        };
        push_time(out, drawn)
    }
}

// The sets of days of which one is drawn.
const DAYS: [&str; 9] = [
    "1010000", "0101000", "1001000", "0010100", "1000000", "0100000", "0010000", "0001000",
    "0000100",
];

// The sets of weeks of which one is drawn: all, or every second one.
const WEEKS: [&str; 3] = ["1111111111111", "1010101010101", "0101010101010"];

// The set of days at a place, counted from 0.
fn day_word(k: u32) -> &'static str
    requires { k < 9 }
    ensures { result.now ≡ word_at day_words k }
{
    DAYS[k as usize]
}

// The set of weeks at a place, counted from 0.
fn week_word(k: u32) -> &'static str
    requires { k < 3 }
    ensures { result.now ≡ word_at week_words k }
{
    WEEKS[k as usize]
}

// The numbers that are drawn for a time, each counted from 0.
#[derive(Clone, Copy)]
struct DrawnTime {
    days: u32,
    start: u32,
    length: u32,
    weeks: u32,
    penalty: u32,
}

// Appends a time that was drawn.
fn push_time(out: &mut Vec<u8>, drawn: DrawnTime) -> Result<(), AllocError>
    requires days { drawn.days < 9 }
    requires start { drawn.start < 10 }
    requires length { drawn.length < 3 }
    requires weeks { drawn.weeks < 3 }
    ensures { OnOk result (out.new.items
        ≡ out.old.items
        ++ compact_text
        (time_data drawn.days drawn.start drawn.length drawn.weeks drawn.penalty)) }
{
    push_word(out, r#"{"days":"#, day_word(drawn.days))?;
    push_field(out, r#","length":"#, 10 + 6 * drawn.length)?;
    push_field(out, r#","penalty":"#, drawn.penalty)?;
    push_field(out, r#","start":"#, 96 + 12 * drawn.start)?;
    push_word(out, r#","weeks":"#, week_word(drawn.weeks))?;
    push_text(out, "}")?;
    Ok(())
}
