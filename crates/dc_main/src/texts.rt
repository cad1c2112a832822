//! What the program tells of itself, where `@` stands for its name. Made by sdk/manual from docs/dc.txt.

/// The version.
pub const VERSION: &str = "\
@ 0.1.0, 2026-11-30
";

/// What stands for the commit and the toolchain where they are not told.
pub const UNTOLD: &str = "\
commit and toolchain not known: nothing beside the program tells them
";

/// The program, its commands, files and statuses.
pub const PROGRAM: &str = "\
@ runs one to eight RV32I programs, its guests, stops them anywhere and
recovers them from their last commit: a stop shows as repeated output alone.

Commands:
  @ run PLAN               run the guests of a plan
  @ check PLAN REPORT OUT  tell whether a run's files belong together
  @ asm SOURCE             assemble a guest
  @ resume PLAN REPORT     go on with a run on disks that was halted
  @ journal PLAN           run a plan and write its journal
  @ audit JOURNAL          tell whether a journal has Save-work
  @ help [COMMAND]         this text, or more on one command
  @ --version              the version, and what it was proved with

`--help` and `-h` are help, also behind a command, as in `@ run --help`;
behind `--` all words are names of files.

Files, named from the working folder:
  PLAN       what to run, in TOML: the guests' files, their schedule, the stops
  dc.report  what `@ run` writes beside its output: each act that counts;
             of `@ journal` the journal of the run
  dc.disk.P  the disk of guest P, where a plan asks for disks
  REPORT     such a dc.report
  OUT        the standard output of a run, kept in a file
  SOURCE     RV32I instructions, one a line; the guest is the standard output
  JOURNAL    events and commits of processes, by whatever system, a line each

Statuses, each with its line on standard error:
  0   done: every guest has ended, the output passes, the guest is written,
      or the journal has Save-work
  1   unfinished: the turns are used up, and some guest has not ended
  2   usage: the words mean nothing
  3   plan refused: it breaks the rule that is named
  4   guest refused: its file is no RV32I program that fits its memory
  5   missing: there is no file of that name
  6   library failed: the file cannot be read
  7   device failed: a call of a guest's store failed
  8   sink failed: standard output or dc.report could not be written
  9   not a run, or differs: the report or the output is not the plan's
  10  out of memory
  11  schedule refused: in the line that is named
  12  store refused: it holds no commit of this guest, or, as strange, one of
      another run
  13  report refused: in the line that is named
  14  source refused: in the line that is named
  15  halted: the plan's halt leaves turns over
  16  not halted: the report is not that of a run with turns left over
  17  device stopped: a call of a guest's store was, so the journal ends there
  18  journal refused: in the line that is named
  19  not saved: the event of a line was not committed before another line

Examples, which make a guest that ends at once, run it and check the run:
  printf 'addi x17,x0,1\\necall\\n' > guest.s && @ asm guest.s > guest.elf

  printf '%s\\n' 'protocol = \"cpvs\"' 'medium = \"rio\"' 'memory = 65536' \\
      'guests = [\"guest.elf\"]' 'seed = 1' 'turns = 20' > plan.toml
  @ run plan.toml > lines && @ check plan.toml dc.report lines
";

/// The command `run`, and the keys of a plan.
pub const RUN: &str = "\
@ run PLAN runs the guests of a plan under its schedule. What they show
is a line each on standard output; the report of the run is dc.report.

Keys of a plan, a TOML document (* has to be there):
  protocol *  cand, cand-log, cpvs, cbndvs, cbndvs-log, cpv-2pc or cbndv-2pc
  medium *    \"rio\", recoverable memory; or \"disk\"
  memory *    each guest's bytes: 65536 to 1048576, a multiple of 4096
  guests *    an array of 1 to 8 files; guests are numbered from 0
  inputs      an array a guest: up to 10000 texts, each to 64 bytes in small hex
  schedule    the file of the turns; has to be there where there is no seed
  seed        draws the turns: 0 to 9223372036854775807; not beside a schedule
  turns       how many the seed draws: 0 to 1000000; has to be there with a seed
  stop        an array of at most 1000 tables: the stops inside turns
  halt        only on a disk: the first entry that is not run, 0 to 1000000

Keys of a stop, a table [[stop]] at the end of the plan:
  turn *      the entry, 0 to 999999, counted from 0 as the schedule's lines are
  process *   the guest
  call *      which of its store's calls in that turn: 1 to 4000000000
  keep *      how many words (of a disk bytes) it still stores: 0 to 4000000000
  fill        only on a disk: what the bytes that are not kept become, 0 to 255

Lines of a schedule, at most 1000000:
  P W C       guest P takes a turn, with the word W and the clock C
  stop P      guest P is stopped
  power       all guests are stopped

Lines of the output, where K counts the records of guest P from 0:
  out P K HEX         bytes that it showed, or - for none
  end P K CODE        it ended
  trap P K CAUSE PC   it trapped
";

/// The command `check`.
pub const CHECK: &str = "\
@ check PLAN REPORT OUT tells whether a plan with guests and schedule,
a report and an output belong together, and prints `ok A L` where they do: the
A acts of the report are a run in which nothing fails, which shows L records.
";

/// The command `asm`.
pub const ASSEMBLING: &str = "\
@ asm SOURCE writes the guest's ELF file of a source to standard output.

Lines of a source, where blanks at the ends and what follows # do not count:
  add RD,RS1,RS2           operands as of GNU as, for all 40 instructions
  addi RD,RS1,NUMBER       numbers in decimal, or names
  lw RD,NUMBER(RS1)        registers x0 to x31
  .word NUMBER             any word
  NAME:                    names the next word; the first is at address 1024
";

/// The command `resume`.
pub const RESUME: &str = "\
@ resume PLAN REPORT goes on with a run on disks that its plan halted,
in the folder with its dc.disk files: it reads the commit of each guest,
compares it with the acts of the report, and runs the turns that are left over.
A halt that the report came to has no effect; a later one halts the run again.
Its lines come behind those of the part before, and repeat what was shown since
the last commits; dc.report then has both parts.

@ check PLAN dc.report OUT takes the lines of all parts together.
";

/// The command `journal`.
pub const JOURNAL: &str = "\
@ journal PLAN runs a plan as `@ run` does, and writes the journal
of the run to dc.report in place of the report. The plan has to have a schedule,
of turns alone, no stop and no halt; then the journal has Save-work, as
`@ audit dc.report` finds. Where the run did not come to the end of its
schedule the journal lacks its last line.
";

/// The command `audit`.
pub const AUDIT: &str = "\
@ audit JOURNAL tells whether a journal has Save-work, and prints `ok E`
where it has, with its E events: nothing that could have come otherwise was
shown, or committed by another process, before it was saved by a commit.

Lines of a journal, at most 4000000, in the order in which things happened:
  dc-journal 1 N FORM    the first: N processes, 1 to 16; FORM plain or causal
  e P nd                 process P was told what could have come otherwise
  e P logged             the same, and a log has it
  e P visible            it showed something
  e P send Q K           it sent message K to Q, counted from 0 for each pair
  e P receive Q K nd     it received message K of Q; or logged in place of nd
  commit P,Q             these processes committed together, in rising order
  end                    the last
";
