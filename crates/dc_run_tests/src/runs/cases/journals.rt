/// Journals that are audited.
pub const JOURNALS: &str = "\
* a commit of another without the event before it
words=dc audit journal
journal=dc-journal 1 2 plain~e 0 nd~e 0 send 1 0~e 1 receive 0 0 nd~commit 1~e 1 visible~end~
status=19
said=dc: not saved: line 2 before line 5~
* the event committed before it was sent
words=dc audit journal
journal=dc-journal 1 2 plain~e 0 nd~commit 0~e 0 send 1 0~e 1 receive 0 0 nd~commit 1~e 1 visible~end~
out=ok 4~
said=dc: saved 4 events~
* the event committed after it was sent
words=dc audit journal
journal=dc-journal 1 2 plain~e 0 nd~e 0 send 1 0~commit 0~e 1 receive 0 0 nd~commit 1~e 1 visible~end~
status=19
said=dc: not saved: line 2 before line 6~
* a logged event
words=dc audit journal
journal=dc-journal 1 2 plain~e 0 logged~e 0 send 1 0~e 1 receive 0 0 logged~e 1 visible~end~
out=ok 4~
said=dc: saved 4 events~
* a commit of both
words=dc audit journal
journal=dc-journal 1 2 plain~e 0 nd~e 0 send 1 0~e 1 receive 0 0 nd~commit 0,1~e 1 visible~end~
out=ok 4~
said=dc: saved 4 events~
* no event
words=dc audit journal
journal=dc-journal 1 2 plain~end~
out=ok 0~
said=dc: saved 0 events~
* the journal of a run under CAND
words=dc audit journal
journal=dc-journal 1 1 plain~commit 0~e 0 visible~commit 0~e 0 visible~end~
out=ok 2~
said=dc: saved 2 events~
* the same without its end
words=dc audit journal
journal=dc-journal 1 1 plain~commit 0~e 0 visible~commit 0~e 0 visible~
status=18
said=dc: journal line 6 refused: cut~
* no lines
words=dc audit journal
journal=
status=18
said=dc: journal line 1 refused: cut~
* another heading
words=dc audit journal
journal=dc-journal 2 1 plain~end~
status=18
said=dc: journal line 1 refused: form~
* seventeen processes
words=dc audit journal
journal=dc-journal 1 17 plain~end~
status=18
said=dc: journal line 1 refused: form~
* a commit in falling order
words=dc audit journal
journal=dc-journal 1 2 plain~commit 1,0~end~
status=18
said=dc: journal line 2 refused: form~
* a process that is not there
words=dc audit journal
journal=dc-journal 1 2 plain~e 2 nd~end~
status=18
said=dc: journal line 2 refused: process~
* a message to itself
words=dc audit journal
journal=dc-journal 1 2 plain~e 0 nd~e 0 send 0 0~end~
status=18
said=dc: journal line 3 refused: process~
* a message of another number
words=dc audit journal
journal=dc-journal 1 2 plain~e 0 send 1 1~end~
status=18
said=dc: journal line 2 refused: number~
* a message received before it was sent
words=dc audit journal
journal=dc-journal 1 2 plain~e 1 receive 0 0 nd~e 0 send 1 0~end~
status=18
said=dc: journal line 2 refused: unsent~
* a message received twice
words=dc audit journal
journal=dc-journal 1 2 plain~e 0 send 1 0~e 1 receive 0 0 nd~e 1 receive 0 0 nd~end~
status=18
said=dc: journal line 4 refused: unsent~
* a line behind the end
words=dc audit journal
journal=dc-journal 1 2 plain~end~e 1 visible~
status=18
said=dc: journal line 3 refused: form~
* the last line without its line feed
words=dc audit journal
journal=dc-journal 1 2 plain~end
status=18
said=dc: journal line 2 refused: form~
* a number of 25 digits
words=dc audit journal
journal=dc-journal 1 2 plain~e 1000000000000000000000000 nd~end~
status=18
said=dc: journal line 2 refused: process~
* no such file
words=dc audit journal
status=5
said=dc: missing: journal~
* a file that cannot be read
words=dc audit journal
journal=dc-journal 1 2 plain~end~
fetch=1
status=6
said=dc: library failed: journal~
* an output without room
words=dc audit journal
journal=dc-journal 1 2 plain~end~
room=0
status=8
said=dc: sink failed: out~
* an output that is cut off
words=dc audit journal
journal=dc-journal 1 2 plain~end~
room=2
status=8
out=ok
said=dc: sink failed: out~
* no name
words=dc audit
status=2
said=dc: usage: dc run PLAN | dc check PLAN REPORT OUT | dc asm SOURCE | dc resume PLAN REPORT | dc journal PLAN | dc audit JOURNAL~
* two names
words=dc audit journal journal
status=2
said=dc: usage: dc run PLAN | dc check PLAN REPORT OUT | dc asm SOURCE | dc resume PLAN REPORT | dc journal PLAN | dc audit JOURNAL~
";
