ghost use Rattle.std.specs.Prelude.{◌≡◌, length, map, string_bytes};
ghost use Rattle.std.specs.List.{list_all};
ghost use Rattle.toml.specs.View.{view, table_view};
ghost use Rattle.dc_plan.specs.Keys.{is_key};
ghost use Rattle.dc_plan.specs.Stops.{has_stop_keys};
ghost use Rattle.dc_plan.specs.Plans.{at_key, has_known_keys, items_at, plan_from, rows};
ghost use Rattle.dc_words.specs.Results.{seen};
ghost use Rattle.dc_plan.specs.Parts.{parts_view};

use crate::command::Command;
use crate::fault::PlanFault;
use crate::keys::{Key, at_key, is_key};
use crate::plan::Medium;
use crate::rows::{
    guests_in, halt_in, inputs_in, medium_in, memory_in, protocol_in, schedule_in, seed_in,
    stops_in, turns_in,
};
use crate::stops::has_stop_keys;
use crate::values::items_in;
use dc_protocols::Protocol;
use toml::{Table, Value};

/// What a plan that keeps all rules says, where it stands in the document.
#[derive(Clone, Copy)]
pub struct Parts<'a> {
    /// When processes commit and what they log.
    pub protocol: Protocol,
    /// Where checkpoints are kept.
    pub medium: Medium,
    /// The size of each guest's memory in bytes.
    pub memory: u32,
    /// The names of the guests' files.
    pub guests: &'a [Value],
    /// The lists of the guests' records, if there are any.
    pub inputs: Option<&'a [Value]>,
    /// The name of the schedule's file. Where there is none, a seed and its turns are there.
    pub schedule: Option<&'a str>,
    /// What the turns are drawn from.
    pub seed: Option<u64>,
    /// How many turns are drawn.
    pub turns: Option<u32>,
    /// The tables of the stops.
    pub stops: &'a [Value],
    /// The first entry that is not run.
    pub halt: Option<u32>,
}

fn are_keys(table: &Table) -> bool
    ensures { result ≡ list_all (λ e. is_key (string_bytes e.0)) table.now.entries }
{
    for (name, _) in table {
        if !is_key(name.as_str()) {
            return false;
        }
    }
    true
}

fn have_stop_keys(stops: &[Value]) -> bool
    ensures { result ≡ list_all (λ v. has_stop_keys (view v)) stops.now }
{
    stops.iter().all(|stop| has_stop_keys(stop))
}

fn are_stop_keys_known(table: &Table) -> bool
    ensures { result ≡ list_all has_stop_keys (items_at (at_key Key.Stop (table_view table.now))) }
{
    match at_key(Key::Stop, table) {
        Some(value) => have_stop_keys(items_in(value)),
        None => true,
    }
}

fn has_known_keys(table: &Table) -> bool
    ensures { result ≡ has_known_keys (table_view table.now) }
{
    are_keys(table) && are_stop_keys_known(table)
}

/// The keys in the order of their tests.
fn rows_in(by: Command, table: &Table) -> Result<Parts<'_>, PlanFault>
    ensures { seen parts_view result ≡ rows by (table_view table.now) }
{
    let protocol = protocol_in(table)?;
    let medium = medium_in(by, table)?;
    let memory = memory_in(table)?;
    let guests = guests_in(table)?;
    let inputs = inputs_in(guests.len(), table)?;
    let schedule = schedule_in(table)?;
    let seed = seed_in(by, table)?;
    let turns = turns_in(table)?;
    let stops = stops_in(by, medium, guests.len(), table)?;
    let halt = halt_in(by, medium, table)?;
    Ok(Parts {
        protocol,
        medium,
        memory,
        guests,
        inputs,
        schedule,
        seed,
        turns,
        stops,
        halt,
    })
}

/// What a document says to a command as a plan, or the first rule that it breaks.
pub fn parts_in(by: Command, table: &Table) -> Result<Parts<'_>, PlanFault>
    ensures { seen parts_view result ≡ plan_from by (table_view table.now) }
{
    if !has_known_keys(table) {
        return Err(PlanFault::Unknown);
    }
    rows_in(by, table)
}
