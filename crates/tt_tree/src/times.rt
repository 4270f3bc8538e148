//! The times of a class, and the unavailable times of a room, as a file has them.

ghost use Rattle.std.specs.Prelude.{IfOk};
ghost use Rattle.tt_problem.specs.Valid.{IsTimeOf, IsValidTime};
ghost use Rattle.tt_fields.specs.Answer.{Reads, part_of};
ghost use Rattle.tt_tree.specs.Context.{context_of, IsContext};
ghost use Rattle.tt_tree.specs.Tables.{length_after, time_in, a_time_choice, a_closed_time};

use crate::context::Context;
use std::alloc::Global;
use tt_bits::Time;
use tt_fields::{Fault, Field, FileFault, ItemTable, Wrong, as_object, fault, fault_at, number};
use tt_problem::TimeChoice;

// The length of a time that begins at `start`, or no time where there is none so long.
#[tactic(auto, unfolding(crate::specs::Tables::length_after))]
fn length_from<'a>(object: &'a Field<'a>, start: u16) -> Result<u16, Fault<'a>>
    ensures { Reads (λ n. n) result (length_after start (part_of object.now)) }
{
    let length = number(object, "length", 0, 65_535)?;
    if length == 0 || u32::from(start) + length > 65_535 {
        Err(fault_at(Wrong::NoTime, object, "length"))
    } else {
        Ok(length as u16)
    }
}

// The time that an object has, without its penalty.
#[tactic(auto, unfolding(crate::specs::Tables::time_in))]
fn read_time<'a>(context: &Context<'_>, object: &'a Field<'a>) -> Result<Time, Fault<'a>>
    requires { IsContext context.now }
    ensures reads { Reads (λ t. t) result (time_in (context_of context.now) (part_of object.now)) }
    ensures within { IfOk result (λ t. IsTimeOf context.now.nr_days context.now.nr_weeks t) }
{
    let days = tt_fields::days(object, "days", context.nr_days)?;
    let start = number(object, "start", 0, 65_535)? as u16;
    let length = length_from(object, start)?;
    let weeks = tt_fields::weeks(object, "weeks", context.nr_weeks)?;
    match Time::new(days, weeks, start, length) {
        None => Err(fault(Wrong::NoTime, object)),
        Some(time) => Ok(time),
    }
}

// A time of a class, with its penalty.
#[tactic(auto, unfolding(crate::specs::Tables::a_time_choice))]
fn read_time_choice<'a>(context: &Context<'_>, item: &'a Field<'a>) -> Result<TimeChoice, Fault<'a>>
    requires { IsContext context.now }
    ensures reads { Reads (λ choice. choice) result
        (a_time_choice (context_of context.now) (part_of item.now)) }
    ensures valid { IfOk result
        (λ choice. IsValidTime context.now.nr_days context.now.nr_weeks choice) }
{
    as_object(item)?;
    let time = read_time(context, item)?;
    let penalty = number(item, "penalty", 0, 1_000_000)?;
    Ok(TimeChoice { time, penalty })
}

/// The times of a class.
#[derive(Clone, Copy)]
pub struct TimeTable<'a> {
    pub context: &'a Context<'a>,
}

impl ItemTable<TimeChoice> for TimeTable<'_> {
    ghost reads = { λ t. a_time_choice (context_of t.context.now) };

    ghost valid = { λ t time. IsValidTime t.context.now.nr_days t.context.now.nr_weeks time };

    ghost ready = { λ t. IsContext t.context.now };

    fn read_item(&self, _alloc: Global, item: &Field<'_>) -> Result<TimeChoice, FileFault> {
        Ok(read_time_choice(self.context, &*item)?)
    }
}

// An unavailable time of a room.
#[tactic(auto, unfolding(crate::specs::Tables::a_closed_time))]
fn read_closed<'a>(context: &Context<'_>, item: &'a Field<'a>) -> Result<Time, Fault<'a>>
    requires { IsContext context.now }
    ensures reads { Reads (λ t. t) result
        (a_closed_time (context_of context.now) (part_of item.now)) }
    ensures within { IfOk result (λ t. IsTimeOf context.now.nr_days context.now.nr_weeks t) }
{
    as_object(item)?;
    read_time(context, item)
}

/// The unavailable times of a room.
#[derive(Clone, Copy)]
pub struct ClosedTable<'a> {
    pub context: &'a Context<'a>,
}

impl ItemTable<Time> for ClosedTable<'_> {
    ghost reads = { λ t. a_closed_time (context_of t.context.now) };

    ghost valid = { λ t time. IsTimeOf t.context.now.nr_days t.context.now.nr_weeks time };

    ghost ready = { λ t. IsContext t.context.now };

    fn read_item(&self, _alloc: Global, item: &Field<'_>) -> Result<Time, FileFault> {
        Ok(read_closed(self.context, &*item)?)
    }
}
