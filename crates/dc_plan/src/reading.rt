ghost use Rattle.std.specs.Prelude.{◌≡◌, [], All, IfOk, List, length, map, option_map, replicate, string_bytes};
ghost use Rattle.std.specs.Str.{is_utf8};
ghost use Rattle.toml.specs.View.{view};
ghost use Rattle.dc_plan.specs.Values.{items_in, text_in};
ghost use Rattle.dc_plan.specs.Plans.{IsExact, plan_of, plan_view, input_record_of, source_of, source_view};
ghost use Rattle.dc_plan.specs.Allowed.{IsAllowed, Suits};
ghost use Rattle.dc_plan.specs.Stops.{HasRoom, stop_of};
ghost use Rattle.dc_plan.specs.Parts.{parts_view};

use crate::command::Command;
use crate::fault::{PlanError, PlanFault};
use crate::inputs::input_record_of;
use crate::parts::{Parts, parts_in};
use crate::plan::{Plan, ScheduleSource, Seed};
use crate::planned::stop_of;
use crate::values::{items_in, text_in};
use dc_links::Message;
use dc_media::PlannedStop;
use std::alloc::{AllocError, Global};
use std::str::from_utf8;
use toml::Value;

/// Copies of some texts.
fn texts_of(alloc: Global, values: &[Value]) -> Result<Vec<String>, AllocError>
    ensures { IfOk result (λ texts. map string_bytes texts.items ≡ map text_in (map view values.now)) }
{
    let mut texts = Vec::new(alloc);
    for value in values {
        texts.push(String::from_str(alloc, text_in(value))?)?;
    }
    Ok(texts)
}

/// The records of some texts.
fn records_of(alloc: Global, values: &[Value]) -> Result<Vec<Message>, AllocError>
    ensures { IfOk result (λ records. records.items ≡ map input_record_of (map view values.now)) }
{
    let mut records = Vec::new(alloc);
    for value in values {
        records.push(input_record_of(value))?;
    }
    Ok(records)
}

/// The records of each list.
fn inputs_of(alloc: Global, lists: &[Value]) -> Result<Vec<Vec<Message>>, AllocError>
    ensures { IfOk result (λ inputs. map (λ records. records.items) inputs.items ≡ map (λ records. map input_record_of (items_in records)) (map view lists.now)) }
{
    let mut inputs = Vec::new(alloc);
    for list in lists {
        inputs.push(records_of(alloc, items_in(list))?)?;
    }
    Ok(inputs)
}

/// No records for each guest.
fn no_inputs(alloc: Global, guests: usize) -> Result<Vec<Vec<Message>>, AllocError>
    ensures { IfOk result (λ inputs. map (λ records. records.items) inputs.items ≡ replicate guests []) }
{
    let mut inputs = Vec::new(alloc);
    for _ in 0..guests {
        inputs.push(Vec::new(alloc))?;
    }
    Ok(inputs)
}

/// What some tables of stops say.
fn stops_of(alloc: Global, values: &[Value]) -> Result<Vec<PlannedStop>, AllocError>
    requires { All (λ value. HasRoom (stop_of (view value))) values.now }
    ensures { IfOk result (λ stops. stops.items ≡ map stop_of (map view values.now)) }
{
    let mut stops = Vec::new(alloc);
    for value in values {
        stops.push(stop_of(value))?;
    }
    Ok(stops)
}

/// The file where there is one, and else the seed with its turns.
fn source_of(
    alloc: Global,
    schedule: Option<&str>,
    seed: Option<u64>,
    turns: Option<u32>,
) -> Result<ScheduleSource, AllocError>
    ensures { IfOk result (λ source. source_view source ≡ source_of (option_map (λ name. name.now) schedule.entry) seed turns) }
{
    match schedule {
        Some(name) => Ok(ScheduleSource::File(String::from_str(alloc, name)?)),
        None => Ok(ScheduleSource::Seed(Seed {
            start: seed.unwrap_or(0),
            turns: turns.unwrap_or(0),
        })),
    }
}

/// A copy of what the parts say.
fn copied(alloc: Global, parts: &Parts) -> Result<Plan, AllocError>
    requires { All (λ value. HasRoom (stop_of (view value))) parts.now.stops.now }
    ensures { IfOk result (λ plan. plan_view plan ≡ parts_view parts.now) }
{
    let guests = texts_of(alloc, parts.guests)?;
    let inputs = match parts.inputs {
        Some(lists) => inputs_of(alloc, lists)?,
        None => no_inputs(alloc, parts.guests.len())?,
    };
    let schedule = source_of(alloc, parts.schedule, parts.seed, parts.turns)?;
    let stops = stops_of(alloc, parts.stops)?;
    Ok(Plan {
        protocol: parts.protocol,
        medium: parts.medium,
        memory: parts.memory,
        guests,
        inputs,
        schedule,
        stops,
        halt: parts.halt,
    })
}

/// Reads a plan from the bytes of a TOML document, for a command. Want of memory apart, this is what they say as a plan, or the first
/// rule that they break, the command's among them; a plan whose text is faulty may be answered with want of memory too.
pub fn read_plan(alloc: Global, bytes: &[u8], command: Command) -> Result<Plan, PlanError>
    ensures exact { IsExact result (plan_of command bytes.now) }
    // Its values are in their ranges.
    ensures allowed { IfOk result (λ plan. IsAllowed (plan_view plan)) }
    // It has nothing of what the command forbids.
    ensures suits { IfOk result (λ plan. Suits command (plan_view plan)) }
{
    plan_in(alloc, bytes, command)
}

fn plan_in(alloc: Global, bytes: &[u8], command: Command) -> Result<Plan, PlanError>
    ensures { IsExact result (plan_of command bytes.now) }
{
    let Ok(text) = from_utf8(bytes) else {
        return Err(PlanError::Refused(PlanFault::Text));
    };
    let table = match toml::table_from_str(alloc, text) {
        Ok(table) => table,
        Err(error) if error.is_memory() => return Err(PlanError::Memory),
        Err(_) => return Err(PlanError::Refused(PlanFault::Text)),
    };
    let parts = match parts_in(command, &table) {
        Ok(parts) => parts,
        Err(fault) => return Err(PlanError::Refused(fault)),
    };
    match copied(alloc, &parts) {
        Ok(plan) => Ok(plan),
        Err(_) => Err(PlanError::Memory),
    }
}
