/// What a run shows and reports, and what a failing sink leaves of it.
pub const RUNS: &str = "\
* a guest shows hi and ends
out=out 0 0 6869~end 0 1 0~
said=dc: done 7 acts 2 lines~
acts=0-6
close=close 0 7 7 2
marks=sss0ss1
* a word that codes nothing is a trap
code=0
schedule=0 0 0~
out=trap 0 0 2 00000400~
said=dc: done 1 acts 1 lines~
acts=0
close=close 0 1 1 1
marks=0
* an empty schedule ends nothing
schedule=
status=1
said=dc: unfinished 0 acts 0 lines~
close=close 1 0 0 0
marks=
* turns past the end are idle
schedule=10 x 0 0 0
out=out 0 0 6869~end 0 1 0~
said=dc: done 7 acts 2 lines~
acts=0-6
close=close 0 10 7 2
marks=sss0ss1iii
* the first line is refused
write=1
status=8
said=dc: sink failed: out~
acts=0-3
close=close 8 3 4 0
marks=sss
* the first line is cut off
room=5
out=out 0
status=8
said=dc: sink failed: out~
acts=0-3
close=close 8 3 4 0
marks=sss
* the second line is refused
write=2
out=out 0 0 6869~
status=8
said=dc: sink failed: out~
acts=0-6
close=close 8 6 7 1
marks=sss0ss
* the second line is cut off
room=22
out=out 0 0 6869~end 0 1 0
status=8
said=dc: sink failed: out~
acts=0-6
close=close 8 6 7 1
marks=sss0ss
* output and report fail
room=5
report_room=15
out=out 0
status=8
said=dc: sink failed: out~
acts=0-3
close=close 8 3 4 0
";
