ghost use Rattle.std.specs.Prelude.{◌≡◌, Err, IfOk, None, Some, codes, option_map};
ghost use Rattle.clap.specs.Words.{app_of, first_of, found_of, new_app, rows_of, subcommand_rows_of, with_subcommand};
ghost use Rattle.dc_command.specs.Command.{asked_of, asked_view, check_command, command_line, halted_by, met, met_by, names_by, resume_command, to_run, with_word};

use clap::error::ErrorKind;
use clap::{Arg, ArgMatches, Command};
use std::alloc::{AllocError, Global};

/// What a run writes at its end, beside the lines that its processes showed.
#[derive(Clone, Copy, Debug, PartialEq, Eq)]
pub enum Ledger {
    /// The report: what each process was told, in order.
    Report,
    /// The journal: the events that count and the commits.
    Journal,
    /// The report of a run that goes on from an earlier part: of all its parts together.
    Total,
}

/// The plan of a run, by its file's name, and what the run writes at its end.
#[derive(Clone, Copy)]
pub struct Order<'a> {
    pub plan: &'a str,
    pub ledger: Ledger,
}

/// The names of the files of a check.
#[derive(Clone, Copy)]
pub struct Names<'a> {
    pub plan: &'a str,
    pub report: &'a str,
    pub out: &'a str,
}

/// The plan and the report of a run that was halted, by the names of their files.
#[derive(Clone, Copy)]
pub struct Halted<'a> {
    pub plan: &'a str,
    pub report: &'a str,
}

/// What the words ask for, by the names of files.
pub enum Asked<'a> {
    /// To run a plan, and write its report or its journal.
    Run(Order<'a>),
    /// To check an output against a report, by a plan.
    Check(Names<'a>),
    /// To assemble that source.
    Assemble(&'a str),
    /// To audit that journal.
    Audit(&'a str),
    /// To go on with a halted run.
    Resume(Halted<'a>),
}

/// Why words are no command's.
#[derive(Clone, Copy, Debug, PartialEq, Eq)]
pub enum CommandFault {
    /// They are not those of a command; asking for help is none.
    Usage,
    /// There was no memory to read them.
    Memory,
}

/// Adds a command with the one word that it needs.
fn with_command<'a>(
    alloc: Global,
    top: Command<'a>,
    name: &'a str,
    word: &'a str,
) -> Result<Command<'a>, AllocError>
    ensures { IfOk result (λ c. app_of c ≡ with_subcommand (app_of top.entry) (with_word (new_app name.entry.now) word.entry.now).top) }
{
    let command = Command::new(alloc, name).arg(Arg::new(alloc, word).required(true))?;
    top.subcommand(command)
}

/// Adds `check` with the names of a plan, of a report and of an output.
fn with_check<'a>(alloc: Global, top: Command<'a>) -> Result<Command<'a>, AllocError>
    ensures { IfOk result (λ c. app_of c ≡ with_subcommand (app_of top.entry) check_command.top) }
{
    let plan = Arg::new(alloc, "plan").required(true);
    let report = Arg::new(alloc, "report").required(true);
    let out = Arg::new(alloc, "out").required(true);
    let planned = Command::new(alloc, "check").arg(plan)?;
    let reported = planned.arg(report)?;
    let check = reported.arg(out)?;
    top.subcommand(check)
}

/// Adds `resume` with the names of a plan and of a report.
fn with_resume<'a>(alloc: Global, top: Command<'a>) -> Result<Command<'a>, AllocError>
    ensures { IfOk result (λ c. app_of c ≡ with_subcommand (app_of top.entry) resume_command.top) }
{
    let plan = Arg::new(alloc, "plan").required(true);
    let report = Arg::new(alloc, "report").required(true);
    let planned = Command::new(alloc, "resume").arg(plan)?;
    let resume = planned.arg(report)?;
    top.subcommand(resume)
}

/// The command line: one of the commands has to be there.
fn command<'a>(alloc: Global) -> Result<Command<'a>, AllocError>
    ensures { IfOk result (λ c. app_of c ≡ command_line) }
{
    let top = Command::new(alloc, "dc").subcommand_required(true);
    let top = with_command(alloc, top, "run", "plan")?;
    let top = with_check(alloc, top)?;
    let top = with_command(alloc, top, "asm", "source")?;
    let top = with_command(alloc, top, "journal", "plan")?;
    let top = with_command(alloc, top, "audit", "journal")?;
    with_resume(alloc, top)
}

/// The word of that name.
fn word<'a>(matches: &ArgMatches<'a>, name: &str) -> Option<&'a str>
    ensures { option_map (λ w. w.now) result ≡ first_of name.now (rows_of (found_of matches.now)) }
{
    matches.get_str(name)
}

/// What the words of a check ask for.
fn names_met<'a>(matches: &ArgMatches<'a>) -> Option<Asked<'a>>
    ensures { option_map asked_view result ≡ names_by (first_of (codes "plan") (rows_of (found_of matches.now)))
        (first_of (codes "report") (rows_of (found_of matches.now))) (first_of (codes "out") (rows_of (found_of matches.now))) }
{
    let plan = word(matches, "plan")?;
    let report = word(matches, "report")?;
    let out = word(matches, "out")?;
    Some(Asked::Check(Names { plan, report, out }))
}

/// What the words of a run that goes on ask for.
fn halted_met<'a>(matches: &ArgMatches<'a>) -> Option<Asked<'a>>
    ensures { option_map asked_view result ≡ halted_by (first_of (codes "plan") (rows_of (found_of matches.now)))
        (first_of (codes "report") (rows_of (found_of matches.now))) }
{
    let plan = word(matches, "plan")?;
    let report = word(matches, "report")?;
    Some(Asked::Resume(Halted { plan, report }))
}

/// To run the plan that the words name, and write that at its end.
fn run_met<'a>(matches: &ArgMatches<'a>, ledger: Ledger) -> Option<Asked<'a>>
    ensures { option_map asked_view result ≡ option_map (to_run ledger) (first_of (codes "plan") (rows_of (found_of matches.now))) }
{
    let plan = word(matches, "plan")?;
    Some(Asked::Run(Order { plan, ledger }))
}

/// What the words of the command of that name ask for.
fn met_by<'a>(name: &str, matches: &ArgMatches<'a>) -> Option<Asked<'a>>
    ensures { option_map asked_view result ≡ met_by name.now (rows_of (found_of matches.now)) }
{
    if name == "asm" {
        return Some(Asked::Assemble(word(matches, "source")?));
    }
    if name == "check" {
        return names_met(matches);
    }
    if name == "journal" {
        return run_met(matches, Ledger::Journal);
    }
    if name == "audit" {
        return Some(Asked::Audit(word(matches, "journal")?));
    }
    if name == "resume" {
        return halted_met(matches);
    }
    run_met(matches, Ledger::Report)
}

/// What the matches of a command ask for.
fn met<'a>(matches: &ArgMatches<'a>) -> Option<Asked<'a>>
    ensures { option_map asked_view result ≡ met (subcommand_rows_of matches.now) }
{
    let (name, inner) = matches.subcommand()?;
    met_by(name, inner)
}

/// What the words ask for; the first word is the program's name.
pub fn command_in<'a>(alloc: Global, words: &'a [String]) -> Result<Asked<'a>, CommandFault>
    ensures asked { IfOk result (λ asked. asked_of words.entry.now ≡ Some (asked_view asked)) }
    ensures usage { result ≡ Err CommandFault.Usage → asked_of words.entry.now ≡ None }
{
    let Ok(command) = command(alloc) else {
        return Err(CommandFault::Memory);
    };
    let matches = match command.try_get_matches_from(words) {
        Ok(matches) => matches,
        Err(error) => match error.kind() {
            ErrorKind::OutOfMemory => return Err(CommandFault::Memory),
            _ => return Err(CommandFault::Usage),
        },
    };
    match met(&matches) {
        Some(asked) => Ok(asked),
        None => Err(CommandFault::Usage),
    }
}
