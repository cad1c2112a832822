/// What comes of checking an output against a report. `%` in a report stands for the acts of the guest `hi`.
pub const CHECKS: &str = "\
* what a run wrote
words=dc check plan report output
report=%close 0 7 7 2~
output=out 0 0 6869~end 0 1 0~
said=dc: done 7 acts 2 lines~
out=ok 7 2~
* the status, the count of entries and that of lines are those of another run
words=dc check plan report output
report=%close 12 900 7 5~
output=out 0 0 6869~end 0 1 0~
said=dc: done 7 acts 2 lines~
out=ok 7 2~
* nothing was run
words=dc check plan report output
report=dc-report 1~close 1 0 0 0~
output=
said=dc: done 0 acts 0 lines~
out=ok 0 0~
* a run that failed at its last turn
words=dc check plan report output
report=dc-report 1~act 0 0 plain~act 1 0 plain~act 2 0 plain~act 3 0 plain~act 4 0 plain~act 5 0 plain~close 7 6 6 1~
output=out 0 0 6869~
said=dc: done 6 acts 1 lines~
out=ok 6 1~
* a line that repeats
words=dc check plan report output
report=%close 0 7 7 2~
output=out 0 0 6869~out 0 0 6869~end 0 1 0~out 0 0 6869~end 0 1 0~
said=dc: done 7 acts 2 lines~
out=ok 7 2~
* a line that repeats with another body
words=dc check plan report output
report=%close 0 7 7 2~
output=out 0 0 6869~out 0 0 6868~end 0 1 0~
status=9
said=dc: differs: line 2~
* another body
words=dc check plan report output
report=%close 0 7 7 2~
output=out 0 0 6868~end 0 1 0~
status=9
said=dc: differs: line 1~
* the last line is missing
words=dc check plan report output
report=%close 0 7 7 2~
output=out 0 0 6869~
status=9
said=dc: differs: line 2~
* all lines are missing
words=dc check plan report output
report=%close 0 7 7 2~
output=
status=9
said=dc: differs: line 1~
* a line too many
words=dc check plan report output
report=%close 0 7 7 2~
output=out 0 0 6869~end 0 1 0~end 0 2 0~
status=9
said=dc: differs: line 3~
* an empty line too many
words=dc check plan report output
report=%close 0 7 7 2~
output=out 0 0 6869~end 0 1 0~~
status=9
said=dc: differs: line 3~
* a line where nothing is shown
words=dc check plan report output
report=dc-report 1~close 1 0 0 0~
output=~
status=9
said=dc: differs: line 1~
* two lines exchanged
words=dc check plan report output
report=%close 0 7 7 2~
output=end 0 1 0~out 0 0 6869~
status=9
said=dc: differs: line 1~
* a last line without its line feed
words=dc check plan report output
report=%close 0 7 7 2~
output=out 0 0 6869~end 0 1 0
said=dc: done 7 acts 2 lines~
out=ok 7 2~
* a last line that would repeat, without its line feed
words=dc check plan report output
report=%close 0 7 7 2~
output=out 0 0 6869~end 0 1 0~end 0 1 0
status=9
said=dc: differs: line 3~
* numbers with a leading zero
words=dc check plan report output
report=%close 0 7 7 2~
output=out 0 00 6869~end 0 1 0~
status=9
said=dc: differs: line 1~
* no close line
words=dc check plan report output
report=%
output=out 0 0 6869~end 0 1 0~
status=13
said=dc: report line 9 refused: cut~
* another count of acts
words=dc check plan report output
report=%close 0 7 6 2~
output=out 0 0 6869~end 0 1 0~
status=13
said=dc: report line 9 refused: count~
* a line after the close line
words=dc check plan report output
report=%close 0 7 7 2~act 7 0 plain~
output=out 0 0 6869~end 0 1 0~
status=13
said=dc: report line 10 refused: form~
* an act of a process that the plan has not
words=dc check plan report output
report=dc-report 1~act 0 1 plain~close 1 1 1 0~
output=
status=13
said=dc: report line 2 refused: process~
* more acts than there are turns
words=dc check plan report output
report=dc-report 1~act 1000000 0 plain~close 1 1 1 0~
output=
status=13
said=dc: report line 2 refused: turn~
* a report that is refused comes before an output that is missing
words=dc check plan report output
report=dc-report 2~
output=none
status=13
said=dc: report line 1 refused: form~
* an act that was not drawn
words=dc check plan report output
report=dc-report 1~act 0 0 plain~act 1 0 clock 0~close 1 2 2 0~
output=
status=9
said=dc: not a run: act 1~
* an act past the end of the schedule
words=dc check plan report output
report=%act 7 0 plain~close 0 8 8 2~
output=out 0 0 6869~end 0 1 0~
status=9
said=dc: not a run: act 7~
* an act of a process that has ended
words=dc check plan report output
schedule=8 x 0 0 0
report=%act 7 0 plain~close 0 8 8 2~
output=out 0 0 6869~end 0 1 0~
status=9
said=dc: not a run: act 7~
* an act that is left out stands where another is drawn
words=dc check plan report output
report=dc-report 1~act 1 0 plain~act 2 0 plain~act 3 0 plain~act 4 0 plain~close 1 5 4 1~
output=out 0 0 6869~
said=dc: done 4 acts 1 lines~
out=ok 4 1~
* the clock of another turn
words=dc check plan report output
source=addi x17,x0,4~ecall~addi x17,x0,1~ecall~
schedule=0 7 5~0 7 6~0 7 7~
report=dc-report 1~act 0 0 plain~act 1 0 clock 5~close 1 2 2 0~
output=
status=9
said=dc: not a run: act 1~
* the clock of its turn
words=dc check plan report output
source=addi x17,x0,4~ecall~addi x17,x0,1~ecall~
schedule=0 7 5~0 7 6~0 7 7~
report=dc-report 1~act 0 0 plain~act 1 0 clock 6~close 1 2 2 0~
output=
said=dc: done 2 acts 0 lines~
out=ok 2 0~
* an input that an even word does not take
words=dc check plan report output
source=addi x17,x0,3~addi x10,x0,512~addi x11,x0,64~ecall~
old=memory
new=inputs = [[\"6f6b\"]]~memory
schedule=0 1 0~0 1 0~0 1 0~0 2 0~
report=dc-report 1~act 0 0 plain~act 1 0 plain~act 2 0 plain~act 3 0 input next~close 1 4 4 0~
output=
status=9
said=dc: not a run: act 3~
* a message of its own
words=dc check plan report output
source=addi x17,x0,7~addi x10,x0,512~addi x11,x0,64~ecall~
report=dc-report 1~act 0 0 plain~act 1 0 plain~act 2 0 plain~act 3 0 receive from 0~close 1 4 4 0~
output=
status=9
said=dc: not a run: act 3~
* a message that was taken before
words=dc check plan report output
guests=sender teller
schedule=5 x 0 0 0, 4 x 1 0 0, stop 0, 2 x 0 0 0, 10 x 1 0 0, 3 x 0 0 0
report=dc-report 1~act 0 0 plain~act 1 0 plain~act 2 0 plain~act 3 0 plain~act 4 0 plain~act 5 1 plain~act 6 1 plain~act 7 1 plain~act 8 1 receive from 0~act 12 1 plain~act 13 1 plain~act 14 1 plain~act 15 1 plain~act 16 1 plain~act 17 1 plain~act 18 1 plain~act 19 1 plain~act 20 1 plain~act 21 1 receive from 0~act 22 0 plain~act 23 0 plain~act 24 0 plain~close 1 25 22 2~
output=out 1 0 6869~end 0 0 0~
status=9
said=dc: not a run: act 18~
* the acts decide before the lines
words=dc check plan report output
report=dc-report 1~act 0 0 random 0~close 1 1 1 0~
output=end 0 0 0~
status=9
said=dc: not a run: act 0~
* no plan and no report
words=dc check plan report output
plan=none
status=5
said=dc: missing: plan~
* no guest and no report
words=dc check plan report output
old=hi.elf
new=none.elf
report=none
status=5
said=dc: missing: guest 0~
* a bad schedule and no report
words=dc check plan report output
schedule=stop 1~
report=none
status=11
said=dc: schedule line 1 refused: process~
* no report and no output
words=dc check plan report output
report=none
output=none
status=5
said=dc: missing: report~
* no output
words=dc check plan report output
report=%close 0 7 7 2~
output=none
status=5
said=dc: missing: out~
* the library fails at the report
words=dc check plan report output
report=%close 0 7 7 2~
output=out 0 0 6869~end 0 1 0~
fetch=4
status=6
said=dc: library failed: report~
* the library fails at the output
words=dc check plan report output
report=%close 0 7 7 2~
output=out 0 0 6869~end 0 1 0~
fetch=5
status=6
said=dc: library failed: out~
* the output's sink fails
words=dc check plan report output
report=%close 0 7 7 2~
output=out 0 0 6869~end 0 1 0~
write=1
status=8
said=dc: sink failed: out~
* the output's sink takes a front of the line
words=dc check plan report output
report=%close 0 7 7 2~
output=out 0 0 6869~end 0 1 0~
room=4
status=8
said=dc: sink failed: out~
out=ok 7
";
