//! Distributions: two for each course of four classes, one of a type in turn and one on its
//! attendees.

ghost use Rattle.std.specs.Prelude.{◌≡◌, ◌<◌, ◌≤◌, ◌-◌, ◌*◌, ◌++◌, [], ◌∷◌, OnOk};
ghost use Rattle.serde_json.specs.Written.{compact_text};
ghost use Rattle.tt_make.specs.Values.{list, num, word_at};
ghost use Rattle.tt_make.specs.Rules.{rule as rule_of, turn_data, attendees_rule as attendees_rule_of, type_words};
ghost use Rattle.tt_make.specs.Pieces.{strength_text};

use crate::append::{push_field, push_text, push_word};
use crate::draws::draw;
use crate::parts::Made;
use rand_pcg::Lcg64Xsh32;
use std::alloc::{AllocError, Global};

/// The distributions of a problem, counted from 0.
#[derive(Drop)]
pub struct Rules;

impl Made for Rules {
    ghost made = { λ rules j. rule_of j };

    ghost covers = { λ rules j. j < 10000 };

    #[tactic(auto, unfolding(crate::specs::Rules::rule, crate::specs::Rules::turn_rule))]
    fn push(
        &self,
        _alloc: Global,
        out: &mut Vec<u8>,
        random: &mut Lcg64Xsh32,
        j: u32,
    ) -> Result<(), AllocError> {
        let k = j / 2 + 1;
        if j % 2 == 0 {
            let penalty = draw(random, 10);
            push_turn(out, k, 1 + penalty)
        } else {
            push_attendees(out, k)
        }
    }
}

// The types that come in turn, as a problem file writes them.
const TYPES: [&str; 19] = [
    "SameStart",
    "SameTime",
    "DifferentTime",
    "SameDays",
    "DifferentDays",
    "SameWeeks",
    "DifferentWeeks",
    "Overlap",
    "NotOverlap",
    "SameRoom",
    "DifferentRoom",
    "SameAttendees",
    "Precedence",
    "WorkDay(120)",
    "MinGap(6)",
    "MaxDays(3)",
    "MaxDayLoad(60)",
    "MaxBreaks(1,6)",
    "MaxBlock(48,6)",
];

// The type at a place, counted from 0.
fn type_word(k: u32) -> &'static str
    requires { k < 19 }
    ensures { result.now ≡ word_at type_words k }
{
    TYPES[k as usize]
}

// Appends a rule over the classes of a course, of the type that comes in turn.
fn push_turn(out: &mut Vec<u8>, k: u32, penalty: u32) -> Result<(), AllocError>
    requires first { 1 ≤ k }
    requires last { k ≤ 5000 }
    ensures { OnOk result (out.new.items ≡ out.old.items ++ compact_text (turn_data k penalty)) }
{
    push_text(out, r#"{"classes":"#)?;
    push_four(out, k)?;
    push_strength(out, k, penalty)?;
    push_word(out, r#","type":"#, type_word((k - 1) % 19))?;
    push_text(out, "}")?;
    Ok(())
}

// Appends the list of the four classes of course k.
fn push_four(out: &mut Vec<u8>, k: u32) -> Result<(), AllocError>
    requires first { 1 ≤ k }
    requires last { k ≤ 5000 }
    ensures { OnOk result (out.new.items
        ≡ out.old.items
        ++ compact_text
        (list (num (4 * k - 3) ∷ num (4 * k - 2) ∷ num (4 * k - 1) ∷ num (4 * k) ∷ []))) }
{
    push_field(out, "[", 4 * k - 3)?;
    push_field(out, ",", 4 * k - 2)?;
    push_field(out, ",", 4 * k - 1)?;
    push_field(out, ",", 4 * k)?;
    push_text(out, "]")?;
    Ok(())
}

// Appends that the rule on course k is required, or its penalty.
fn push_strength(out: &mut Vec<u8>, k: u32, penalty: u32) -> Result<(), AllocError>
    requires { 1 ≤ k }
    ensures { OnOk result (out.new.items ≡ out.old.items ++ strength_text k penalty) }
{
    if (k - 1) % 4 == 0 {
        push_text(out, r#","required":true"#)
    } else {
        push_field(out, r#","penalty":"#, penalty)
    }
}

// Appends the rule of SameAttendees over a class of a course and its child.
fn push_attendees(out: &mut Vec<u8>, k: u32) -> Result<(), AllocError>
    requires first { 1 ≤ k }
    requires last { k ≤ 5000 }
    ensures { OnOk result (out.new.items ≡ out.old.items ++ compact_text (attendees_rule_of k)) }
{
    push_field(out, r#"{"classes":["#, 4 * k - 3)?;
    push_field(out, ",", 4 * k - 1)?;
    push_text(out, r#"],"required":true,"type":"SameAttendees"}"#)?;
    Ok(())
}
