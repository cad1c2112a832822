//! Runs that are halted and resumed.

/// Runs that are halted at these entries: one guest that asks the clock, two that show, and two of which one sends.
pub const PARTED: &str = "\
* a clock
protocol=EACH
guests=clock
schedule=6 x 0 0 65, stop 0, 30 x 0 0 66
halts=0 4 9
* two that show
protocol=EACH
guests=hi twice
schedule=4 x 0 0 0, 4 x 1 0 0, stop 1, 8 x 0 0 0, power, 12 x 1 0 0, 10 x 0 0 0, 10 x 1 0 0
halts=3 9 17 21
* one sends to the other
protocol=EACH
guests=sender teller
schedule=8 x 0 0 0, 6 x 1 0 0, stop 0, 4 x 0 0 0, 12 x 1 0 0, 10 x 0 0 0, 10 x 1 0 0
halts=2 7 13 20
";

/// A run of `hi` on a disk that is halted at its fifth entry, and resumed: with what belongs to it, and with what does not. Where nothing was run the
/// disks are left as they were.
pub const RESUMED: &str = "\
* a halted run
out=out 0 0 6869~end 0 1 0~
said=dc: done 7 acts 3 lines~
report=act 0 0 plain~act 1 0 plain~act 2 0 plain~act 3 0 plain~act 7 0 plain~act 8 0 plain~act 9 0 plain~close 0 10 7 3~
* an act behind the last commit is left out
before=act 4 0 plain~close 15 5 5 1
after=close 15 5 4 1
out=out 0 0 6869~end 0 1 0~
said=dc: done 7 acts 3 lines~
report=act 0 0 plain~act 1 0 plain~act 2 0 plain~act 3 0 plain~act 7 0 plain~act 8 0 plain~act 9 0 plain~close 0 10 7 3~
* an act before the last commit is left out
before=act 2 0 plain~act 3 0 plain~act 4 0 plain~close 15 5 5 1
after=close 15 5 2 1
status=12
said=dc: store of 0 refused: strange~
* no disk
disks=none
status=12
said=dc: store of 0 refused: header~
* a report of another status
before=close 15
after=close 1
status=16
said=dc: not halted~
* a report of the whole schedule
before=close 15 5 5 1
after=close 15 10 5 1
status=16
said=dc: not halted~
* a report with fewer entries than its acts
before=close 15 5 5 1
after=close 15 4 5 1
status=13
said=dc: report line 7 refused: count~
* a report that is cut off
before=close 15 5 5 1~
after=
status=13
said=dc: report line 7 refused: cut~
* an act that was not drawn
before=act 3 0 plain
after=act 3 0 clock 5
status=9
said=dc: not a run: act 3~
* no report
words=dc resume plan none
status=5
said=dc: missing: report~
* no plan
words=dc resume none left
status=5
said=dc: missing: plan~
* a plan in recoverable memory
old=\"disk\"~
new=\"rio\"~
status=3
said=dc: plan refused: range medium~
* a faulty line of the schedule comes before the report
words=dc resume plan none
lines=0 0 x
status=11
said=dc: schedule line 1 refused: form~
* too few words
words=dc resume plan
status=2
said=dc: usage: dc run PLAN | dc check PLAN REPORT OUT | dc asm SOURCE | dc resume PLAN REPORT | dc journal PLAN | dc audit JOURNAL~
";
