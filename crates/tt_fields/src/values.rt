//! Values of one kind: numbers, truth values, texts, sets and objects, as such and at the keys of an
//! object.

ghost use Rattle.std.specs.Prelude.{◌≡◌, ◌≤◌, ◌<◌, ◌^◌, option_map, IfOk, IfSome, Ok};
ghost use Rattle.serde_json.specs.View.{view};
ghost use Rattle.tt_bits.specs.Sets.{day_set, week_set, days_text, weeks_text};
ghost use Rattle.tt_fields.specs.Answer.{Reads, part_of};
ghost use Rattle.tt_fields.specs.Kinds.{json_number, a_number, truth_of, a_truth, a_text, a_set, an_object, found_at, value_at, required, optional, or_else};
ghost use Rattle.tt_fields.specs.Path.{at, steps_of};

use crate::faults::{Wrong, fault, fault_at};
use crate::field::{Fault, Field};
use serde_json::Value;
use tt_bits::{Days, Weeks};
use tt_text::decimal_number;

// The number that a value is: a JSON number that is no less than 0 and has no fraction, or a text of 1
// to 20 decimal digits, which may be above what 64 bits hold.
fn json_number(value: &Value) -> Option<u128>
    ensures { result ≡ json_number (view value.now) }
{
    match value.as_u64() {
        Some(n) => Some(u128::from(n)),
        None => match value.as_str() {
            Some(text) => decimal_number(text.as_bytes()),
            None => None,
        },
    }
}

/// The number that a part is, from `least` to `most`. Not of its kind where it is no number, and
/// otherwise outside its range.
#[tactic(auto, unfolding(crate::specs::Kinds::a_number))]
pub fn as_number<'a>(part: &Field<'a>, least: u32, most: u32) -> Result<u32, Fault<'a>>
    ensures reads { Reads (λ n. n) result (a_number least most (part_of part.now)) }
    ensures within { IfOk result (λ n. (least ≤ n) × (n ≤ most)) }
{
    match json_number(part.value) {
        None => Err(fault(Wrong::NotOfKind, part)),
        Some(n) => {
            if n < u128::from(least) || n > u128::from(most) {
                Err(fault(Wrong::OutOfRange, part))
            } else {
                Ok(n as u32)
            }
        }
    }
}

/// That a part is an object, and not of its kind where it isn't.
#[tactic(auto, unfolding(crate::specs::Kinds::an_object))]
pub fn as_object<'a>(part: &Field<'a>) -> Result<(), Fault<'a>>
    ensures { Reads (λ _. part_of part.now) result (an_object (part_of part.now)) }
{
    match part.value.as_object() {
        None => Err(fault(Wrong::NotOfKind, part)),
        Some(_) => Ok(()),
    }
}

/// The value at a key of an object. A key whose value is null counts as absent.
#[tactic(auto, unfolding(crate::specs::Kinds::found_at))]
pub fn found<'v>(object: &'v Value, key: &str) -> Option<&'v Value>
    ensures { option_map (λ v. view v.now) result ≡ found_at key.now (view object.now) }
{
    match object.get(key) {
        Some(found) => if found.is_null() { None } else { Some(found) },
        None => None,
    }
}

/// The value at a key, and where it stands.
#[tactic(auto, unfolding(crate::specs::Kinds::value_at))]
pub fn value<'a>(object: &'a Field<'a>, key: &'static str) -> Option<Field<'a>>
    ensures value { option_map (λ p. part_of p) result ≡ value_at key.now (part_of object.now) }
    ensures there { IfSome result (λ p. steps_of p.trail ≡ at (steps_of object.now.trail) key.now) }
{
    match found(object.value, key) {
        None => None,
        Some(value) => Some(Field {
            alloc: object.alloc,
            trail: object.trail.key(key),
            value,
        }),
    }
}

/// The part at a required key, of any kind. Not of its kind where it is absent.
#[tactic(auto, unfolding(crate::specs::Kinds::required))]
pub fn required<'a>(object: &'a Field<'a>, key: &'static str) -> Result<Field<'a>, Fault<'a>>
    ensures { Reads (λ p. part_of p) result (required Ok key.now (part_of object.now)) }
{
    match value(object, key) {
        None => Err(fault_at(Wrong::NotOfKind, object, key)),
        Some(part) => Ok(part),
    }
}

/// The number at a required key, from `least` to `most`.
#[tactic(auto, unfolding(crate::specs::Kinds::required))]
pub fn number<'a>(
    object: &'a Field<'a>,
    key: &'static str,
    least: u32,
    most: u32,
) -> Result<u32, Fault<'a>>
    ensures reads { Reads (λ n. n) result
        (required (a_number least most) key.now (part_of object.now)) }
    ensures within { IfOk result (λ n. (least ≤ n) × (n ≤ most)) }
{
    as_number(&required(object, key)?, least, most)
}

/// The number at a key, from `least` to `most`, and `None` where the key is absent.
#[tactic(auto, unfolding(crate::specs::Kinds::optional, crate::specs::Kinds::or_else))]
pub fn optional_number<'a>(
    object: &'a Field<'a>,
    key: &'static str,
    least: u32,
    most: u32,
) -> Result<Option<u32>, Fault<'a>>
    ensures { Reads (λ n. n) result (optional (a_number least most) key.now (part_of object.now)) }
{
    match value(object, key) {
        None => Ok(None),
        Some(part) => Ok(Some(as_number(&part, least, most)?)),
    }
}

/// The number at a key, from `least` to `most`, and `other` where the key is absent.
#[tactic(auto, unfolding(crate::specs::Kinds::or_else))]
pub fn number_or<'a>(
    other: u32,
    object: &'a Field<'a>,
    key: &'static str,
    least: u32,
    most: u32,
) -> Result<u32, Fault<'a>>
    requires { (least ≤ other) × (other ≤ most) }
    ensures reads { Reads (λ n. n) result
        (or_else other (a_number least most) key.now (part_of object.now)) }
    ensures within { IfOk result (λ n. (least ≤ n) × (n ≤ most)) }
{
    match value(object, key) {
        None => Ok(other),
        Some(part) => as_number(&part, least, most),
    }
}

// The truth value that a value is: `true` or `false`, as such or as text.
fn truth_of(value: &Value) -> Option<bool>
    ensures { result ≡ truth_of (view value.now) }
{
    match value.as_bool() {
        Some(b) => Some(b),
        None => match value.as_str() {
            Some(text) => {
                if text == "true" {
                    Some(true)
                } else if text == "false" {
                    Some(false)
                } else {
                    None
                }
            }
            None => None,
        },
    }
}

// The truth value that a part is, and not of its kind where it is none.
#[tactic(auto, unfolding(crate::specs::Kinds::a_truth))]
fn as_truth<'a>(part: &Field<'a>) -> Result<bool, Fault<'a>>
    ensures { Reads (λ b. b) result (a_truth (part_of part.now)) }
{
    match truth_of(part.value) {
        None => Err(fault(Wrong::NotOfKind, part)),
        Some(b) => Ok(b),
    }
}

/// The truth value at a key, and `other` where the key is absent.
#[tactic(auto, unfolding(crate::specs::Kinds::or_else))]
pub fn truth_or<'a>(
    other: bool,
    object: &'a Field<'a>,
    key: &'static str,
) -> Result<bool, Fault<'a>>
    ensures { Reads (λ b. b) result (or_else other a_truth key.now (part_of object.now)) }
{
    match value(object, key) {
        None => Ok(other),
        Some(part) => as_truth(&part),
    }
}

/// The object at a required key.
#[tactic(auto, unfolding(crate::specs::Kinds::required))]
pub fn object<'a>(object: &'a Field<'a>, key: &'static str) -> Result<Field<'a>, Fault<'a>>
    ensures { Reads (λ p. part_of p) result (required an_object key.now (part_of object.now)) }
{
    let part = required(object, key)?;
    as_object(&part)?;
    Ok(part)
}

/// The text that a part is, and not of its kind where it is none.
#[tactic(auto, unfolding(crate::specs::Kinds::a_text))]
pub fn as_text<'a>(part: &Field<'a>) -> Result<&'a str, Fault<'a>>
    ensures { Reads (λ t. t.now) result (a_text (part_of part.now)) }
{
    match part.value.as_str() {
        None => Err(fault(Wrong::NotOfKind, part)),
        Some(text) => Ok(text),
    }
}

/// The days that the text at a required key writes, `n` characters 0 and 1 with at least one 1, the
/// leftmost the first day. No set where the text is none such.
#[tactic(auto, unfolding(crate::specs::Kinds::a_set, crate::specs::Kinds::required))]
pub fn days<'a>(object: &'a Field<'a>, key: &'static str, n: u8) -> Result<Days, Fault<'a>>
    requires { n ≤ 7 }
    ensures reads { Reads (λ d. d) result
        (required (a_set days_text n) key.now (part_of object.now)) }
    ensures below { IfOk result (λ d. day_set d < 2 ^ n) }
{
    let part = required(object, key)?;
    match Days::read(as_text(&part)?, n) {
        None => Err(fault(Wrong::NoSet, &part)),
        Some(days) => Ok(days),
    }
}

/// The weeks that the text at a required key writes, `n` characters 0 and 1 with at least one 1, the
/// leftmost the first week. No set where the text is none such.
#[tactic(auto, unfolding(crate::specs::Kinds::a_set, crate::specs::Kinds::required))]
pub fn weeks<'a>(object: &'a Field<'a>, key: &'static str, n: u8) -> Result<Weeks, Fault<'a>>
    requires { n ≤ 128 }
    ensures reads { Reads (λ w. w) result
        (required (a_set weeks_text n) key.now (part_of object.now)) }
    ensures below { IfOk result (λ w. week_set w < 2 ^ n) }
{
    let part = required(object, key)?;
    match Weeks::read(as_text(&part)?, n) {
        None => Err(fault(Wrong::NoSet, &part)),
        Some(weeks) => Ok(weeks),
    }
}
