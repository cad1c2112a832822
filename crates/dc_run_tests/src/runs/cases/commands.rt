/// Which words are a command, and which file is missed first.
pub const COMMANDS: &str = "\
* no command: no words
words=
status=2
said=dc: usage: dc run PLAN | dc check PLAN REPORT OUT | dc asm SOURCE | dc resume PLAN REPORT | dc journal PLAN | dc audit JOURNAL~
* no command: dc
words=dc
status=2
said=dc: usage: dc run PLAN | dc check PLAN REPORT OUT | dc asm SOURCE | dc resume PLAN REPORT | dc journal PLAN | dc audit JOURNAL~
* no command: dc run
words=dc run
status=2
said=dc: usage: dc run PLAN | dc check PLAN REPORT OUT | dc asm SOURCE | dc resume PLAN REPORT | dc journal PLAN | dc audit JOURNAL~
* no command: dc run plan plan
words=dc run plan plan
status=2
said=dc: usage: dc run PLAN | dc check PLAN REPORT OUT | dc asm SOURCE | dc resume PLAN REPORT | dc journal PLAN | dc audit JOURNAL~
* no command: dc asm
words=dc asm
status=2
said=dc: usage: dc run PLAN | dc check PLAN REPORT OUT | dc asm SOURCE | dc resume PLAN REPORT | dc journal PLAN | dc audit JOURNAL~
* no command: dc asm source source
words=dc asm source source
status=2
said=dc: usage: dc run PLAN | dc check PLAN REPORT OUT | dc asm SOURCE | dc resume PLAN REPORT | dc journal PLAN | dc audit JOURNAL~
* nearly a command: dc chek plan report output
words=dc chek plan report output
status=2
said=dc: usage: dc run PLAN | dc check PLAN REPORT OUT | dc asm SOURCE | dc resume PLAN REPORT | dc journal PLAN | dc audit JOURNAL; is check meant?~
* nearly a command: dc rum plan
words=dc rum plan
status=2
said=dc: usage: dc run PLAN | dc check PLAN REPORT OUT | dc asm SOURCE | dc resume PLAN REPORT | dc journal PLAN | dc audit JOURNAL; is run meant?~
* nearly a command: dc aduit journal
words=dc aduit journal
status=2
said=dc: usage: dc run PLAN | dc check PLAN REPORT OUT | dc asm SOURCE | dc resume PLAN REPORT | dc journal PLAN | dc audit JOURNAL; is audit meant?~
* nearly a command: dc asmm source
words=dc asmm source
status=2
said=dc: usage: dc run PLAN | dc check PLAN REPORT OUT | dc asm SOURCE | dc resume PLAN REPORT | dc journal PLAN | dc audit JOURNAL; is asm meant?~
* nearly a command: dc checkk
words=dc checkk
status=2
said=dc: usage: dc run PLAN | dc check PLAN REPORT OUT | dc asm SOURCE | dc resume PLAN REPORT | dc journal PLAN | dc audit JOURNAL; is check meant?~
* not nearly a command: dc ru plan
words=dc ru plan
status=2
said=dc: usage: dc run PLAN | dc check PLAN REPORT OUT | dc asm SOURCE | dc resume PLAN REPORT | dc journal PLAN | dc audit JOURNAL~
* not nearly a command: dc chk plan report output
words=dc chk plan report output
status=2
said=dc: usage: dc run PLAN | dc check PLAN REPORT OUT | dc asm SOURCE | dc resume PLAN REPORT | dc journal PLAN | dc audit JOURNAL~
* not nearly a command: dc audience journal
words=dc audience journal
status=2
said=dc: usage: dc run PLAN | dc check PLAN REPORT OUT | dc asm SOURCE | dc resume PLAN REPORT | dc journal PLAN | dc audit JOURNAL~
* nearly a command: dc Asm source
words=dc Asm source
status=2
said=dc: usage: dc run PLAN | dc check PLAN REPORT OUT | dc asm SOURCE | dc resume PLAN REPORT | dc journal PLAN | dc audit JOURNAL; is asm meant?~
* no command: dc asm --help
words=dc asm --help
status=2
said=dc: usage: dc run PLAN | dc check PLAN REPORT OUT | dc asm SOURCE | dc resume PLAN REPORT | dc journal PLAN | dc audit JOURNAL~
* no command: dc check plan
words=dc check plan
status=2
said=dc: usage: dc run PLAN | dc check PLAN REPORT OUT | dc asm SOURCE | dc resume PLAN REPORT | dc journal PLAN | dc audit JOURNAL~
* no command: dc run -x
words=dc run -x
status=2
said=dc: usage: dc run PLAN | dc check PLAN REPORT OUT | dc asm SOURCE | dc resume PLAN REPORT | dc journal PLAN | dc audit JOURNAL~
* nearly a command: dc Run plan
words=dc Run plan
status=2
said=dc: usage: dc run PLAN | dc check PLAN REPORT OUT | dc asm SOURCE | dc resume PLAN REPORT | dc journal PLAN | dc audit JOURNAL; is run meant?~
* no command: dc help
words=dc help
status=2
said=dc: usage: dc run PLAN | dc check PLAN REPORT OUT | dc asm SOURCE | dc resume PLAN REPORT | dc journal PLAN | dc audit JOURNAL~
* no command: dc --help
words=dc --help
status=2
said=dc: usage: dc run PLAN | dc check PLAN REPORT OUT | dc asm SOURCE | dc resume PLAN REPORT | dc journal PLAN | dc audit JOURNAL~
* no command: dc run --help
words=dc run --help
status=2
said=dc: usage: dc run PLAN | dc check PLAN REPORT OUT | dc asm SOURCE | dc resume PLAN REPORT | dc journal PLAN | dc audit JOURNAL~
* no command: dc run plan -h
words=dc run plan -h
status=2
said=dc: usage: dc run PLAN | dc check PLAN REPORT OUT | dc asm SOURCE | dc resume PLAN REPORT | dc journal PLAN | dc audit JOURNAL~
* no command: dc --version
words=dc --version
status=2
said=dc: usage: dc run PLAN | dc check PLAN REPORT OUT | dc asm SOURCE | dc resume PLAN REPORT | dc journal PLAN | dc audit JOURNAL~
* two dashes end the options
words=dc run -- plan
said=dc: done 7 acts 2 lines~
out=out 0 0 6869~end 0 1 0~
acts=0-6
close=close 0 7 7 2
* a plan named -
words=dc run -
status=5
said=dc: missing: plan~
* a plan named help
words=dc run help
status=5
said=dc: missing: plan~
* no plan
plan=none
status=5
said=dc: missing: plan~
* no guest
old=hi.elf
new=none.elf
status=5
said=dc: missing: guest 0~
* no schedule
schedule=none
status=5
said=dc: missing: schedule~
* no guest and no schedule
old=hi.elf
new=none.elf
schedule=none
status=5
said=dc: missing: guest 0~
* a bad guest and no schedule
cut=0
schedule=none
status=4
said=dc: guest 0 refused: short~
* the library fails at the plan
fetch=1
status=6
said=dc: library failed: plan~
* the library fails at the guest 0
fetch=2
status=6
said=dc: library failed: guest 0~
* the library fails at the schedule
fetch=3
status=6
said=dc: library failed: schedule~
";
