/// Journals that are written of runs.
pub const WRITTEN: &str = "\
* the journal of a guest that shows hi and ends
words=dc journal plan
out=out 0 0 6869~end 0 1 0~
said=dc: done 7 acts 2 lines~
written=dc-journal 1 1 plain~commit 0~e 0 visible~commit 0~e 0 visible~end~
marks=sss0ss1
* the same on a disk
words=dc journal plan
old=rio
new=disk
out=out 0 0 6869~end 0 1 0~
said=dc: done 7 acts 2 lines~
written=dc-journal 1 1 plain~commit 0~e 0 visible~commit 0~e 0 visible~end~
marks=sss0ss1
* the journal of a run under CAND
words=dc journal plan
protocol=cand
guests=clock
schedule=10 x 0 0 65
out=out 0 0 41~end 0 1 0~
said=dc: done 10 acts 2 lines~
written=dc-journal 1 1 plain~e 0 nd~commit 0~e 0 visible~e 0 visible~end~
marks=ssssss0ss1
* the journal of a run under CAND-LOG
words=dc journal plan
protocol=cand-log
guests=clock
schedule=10 x 0 0 65
out=out 0 0 41~end 0 1 0~
said=dc: done 10 acts 2 lines~
written=dc-journal 1 1 plain~e 0 nd~commit 0~e 0 visible~e 0 visible~end~
marks=ssssss0ss1
* the journal of a run under CPVS
words=dc journal plan
protocol=cpvs
guests=clock
schedule=10 x 0 0 65
out=out 0 0 41~end 0 1 0~
said=dc: done 10 acts 2 lines~
written=dc-journal 1 1 plain~e 0 nd~commit 0~e 0 visible~commit 0~e 0 visible~end~
marks=ssssss0ss1
* the journal of a run under CBNDVS
words=dc journal plan
protocol=cbndvs
guests=clock
schedule=10 x 0 0 65
out=out 0 0 41~end 0 1 0~
said=dc: done 10 acts 2 lines~
written=dc-journal 1 1 plain~e 0 nd~commit 0~e 0 visible~e 0 visible~end~
marks=ssssss0ss1
* the journal of a run under CBNDVS-LOG
words=dc journal plan
protocol=cbndvs-log
guests=clock
schedule=10 x 0 0 65
out=out 0 0 41~end 0 1 0~
said=dc: done 10 acts 2 lines~
written=dc-journal 1 1 plain~e 0 nd~commit 0~e 0 visible~e 0 visible~end~
marks=ssssss0ss1
* the journal of a run under CPV-2PC
words=dc journal plan
protocol=cpv-2pc
guests=clock
schedule=10 x 0 0 65
out=out 0 0 41~end 0 1 0~
said=dc: done 10 acts 2 lines~
written=dc-journal 1 1 plain~e 0 nd~commit 0~e 0 visible~commit 0~e 0 visible~end~
marks=ssssss0ss1
* the journal of a run under CBNDV-2PC
words=dc journal plan
protocol=cbndv-2pc
guests=clock
schedule=10 x 0 0 65
out=out 0 0 41~end 0 1 0~
said=dc: done 10 acts 2 lines~
written=dc-journal 1 1 plain~e 0 nd~commit 0~e 0 visible~e 0 visible~end~
marks=ssssss0ss1
* the journal of a message under CPVS
words=dc journal plan
protocol=cpvs
guests=sender teller
schedule=8 x 0 0 0, 9 x 1 0 0
out=end 0 0 0~out 1 0 6869~
status=1
said=dc: unfinished 17 acts 2 lines~
written=dc-journal 1 2 plain~commit 0~e 0 send 1 0~commit 0~e 0 visible~e 1 receive 0 0 nd~commit 1~e 1 visible~end~
* the journal of a message under CAND
words=dc journal plan
protocol=cand
guests=sender teller
schedule=8 x 0 0 0, 9 x 1 0 0
out=end 0 0 0~out 1 0 6869~
status=1
said=dc: unfinished 17 acts 2 lines~
written=dc-journal 1 2 plain~e 0 send 1 0~e 0 visible~e 1 receive 0 0 nd~commit 1~e 1 visible~end~
* the journal of a message under CBNDVS-LOG
words=dc journal plan
protocol=cbndvs-log
guests=sender teller
schedule=8 x 0 0 0, 9 x 1 0 0
out=end 0 0 0~out 1 0 6869~
status=1
said=dc: unfinished 17 acts 2 lines~
written=dc-journal 1 2 plain~e 0 send 1 0~e 0 visible~e 1 receive 0 0 logged~e 1 visible~end~
* the journal of a message under CPV-2PC
words=dc journal plan
protocol=cpv-2pc
guests=sender teller
schedule=8 x 0 0 0, 9 x 1 0 0
out=end 0 0 0~out 1 0 6869~
status=1
said=dc: unfinished 17 acts 2 lines~
written=dc-journal 1 2 plain~e 0 send 1 0~commit 0,1~e 0 visible~e 1 receive 0 0 nd~commit 0,1~e 1 visible~end~
* an input that is logged
words=dc journal plan
plan=protocol = \"cand-log\"~medium = \"rio\"~memory = 65536~inputs = [[\"6f6b\"]]~guests = [\"hi.elf\"]~schedule = \"schedule\"~
guests=reader
schedule=11 x 0 1 0
out=out 0 0 6f6b~end 0 1 0~
said=dc: done 11 acts 2 lines~
written=dc-journal 1 1 plain~e 0 logged~e 0 visible~e 0 visible~end~
* a receive of nothing could have come otherwise
words=dc journal plan
protocol=cand
guests=sender taker
schedule=4 x 1 0 0
status=1
said=dc: unfinished 4 acts 0 lines~
written=dc-journal 1 2 plain~e 1 nd~commit 1~end~
marks=ssss
* no turn
words=dc journal plan
schedule=
status=1
said=dc: unfinished 0 acts 0 lines~
written=dc-journal 1 1 plain~end~
marks=
* turns of a guest that has ended leave no line
words=dc journal plan
schedule=10 x 0 0 0
out=out 0 0 6869~end 0 1 0~
said=dc: done 7 acts 2 lines~
written=dc-journal 1 1 plain~commit 0~e 0 visible~commit 0~e 0 visible~end~
marks=sss0ss1iii
* a seed would stop processes
words=dc journal plan
old=schedule = \"schedule\"
new=seed = 1~turns = 5
status=3
said=dc: plan refused: range seed~
* a seed without turns is a seed
words=dc journal plan
old=schedule = \"schedule\"
new=seed = 1
status=3
said=dc: plan refused: range seed~
* a halt would leave a journal without its end
words=dc journal plan
old=medium = \"rio\"
new=medium = \"disk\"~halt = 1000000
status=3
said=dc: plan refused: range halt~
* a stop that is planned
words=dc journal plan
stops=0 0 1 0
status=3
said=dc: plan refused: range stop~
* a plan that breaks a rule
words=dc journal plan
protocol=cand-lag
status=3
said=dc: plan refused: range protocol~
* a line of the schedule that stops a process
words=dc journal plan
schedule=0 0 0~stop 0~0 0 0~
status=11
said=dc: schedule line 2 refused: form~
* a line of the schedule that stops all
words=dc journal plan
schedule=power
status=11
said=dc: schedule line 1 refused: form~
* no such plan
words=dc journal another
status=5
said=dc: missing: plan~
* a device that is stopped in its opening
words=dc journal plan
device=stopped 1
out=
status=17
said=dc: device of 0 stopped~
written=dc-journal 1 1 plain~
marks=
* a disk that is
words=dc journal plan
old=rio
new=disk
device=stopped 1
out=
status=17
said=dc: device of 0 stopped~
written=dc-journal 1 1 plain~
marks=
* beside one that is up, which takes no turn
words=dc journal plan
protocol=cand
guests=hi hi
device=stopped 1
schedule=7 x 1 0 0
out=
status=17
said=dc: device of 0 stopped~
written=dc-journal 1 2 plain~
marks=
* a device that is stopped inside a commit
words=dc journal plan
device=stopped after 3
status=17
said=dc: device of 0 stopped~
written=dc-journal 1 1 plain~
marks=sssx
* one that is stopped inside the second commit
words=dc journal plan
device=stopped after 6
out=out 0 0 6869~
status=17
said=dc: device of 0 stopped~
written=dc-journal 1 1 plain~commit 0~e 0 visible~
marks=sss0ssx
* each call that is stopped ends it
words=dc journal plan
device=stopped 1..last
out=out 0 0 6869~end 0 1 0~
written=dc-journal 1 1 plain~commit 0~e 0 visible~commit 0~e 0 visible~end~
ends=17
* each call on a disk that is stopped ends it
words=dc journal plan
old=rio
new=disk
device=stopped 1..last
out=out 0 0 6869~end 0 1 0~
written=dc-journal 1 1 plain~commit 0~e 0 visible~commit 0~e 0 visible~end~
ends=17
* a device that fails
words=dc journal plan
device=failed after 3
status=7
said=dc: device of 0 failed~
written=dc-journal 1 1 plain~
marks=sss
* an output that fails
words=dc journal plan
write=2
out=out 0 0 6869~
status=8
said=dc: sink failed: out~
written=dc-journal 1 1 plain~commit 0~e 0 visible~
marks=sss0ss
* a journal that is cut off
words=dc journal plan
report_room=30
out=out 0 0 6869~end 0 1 0~
status=8
said=dc: sink failed: report~
written=dc-journal 1 1 plain~commit 0~e 0 visible~commit 0~e 0 visible~end~
marks=sss0ss1
* no plan
words=dc journal
status=2
said=dc: usage: dc run PLAN | dc check PLAN REPORT OUT | dc asm SOURCE | dc resume PLAN REPORT | dc journal PLAN | dc audit JOURNAL~
* two plans
words=dc journal plan plan
status=2
said=dc: usage: dc run PLAN | dc check PLAN REPORT OUT | dc asm SOURCE | dc resume PLAN REPORT | dc journal PLAN | dc audit JOURNAL~
* a mistyped word
words=dc journl plan
status=2
said=dc: usage: dc run PLAN | dc check PLAN REPORT OUT | dc asm SOURCE | dc resume PLAN REPORT | dc journal PLAN | dc audit JOURNAL; is journal meant?~
";
