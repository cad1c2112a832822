//! Runs where all processes commit, fall and recover together.

/// Stops between turns, and about the decision of a commit of all.
pub const TOGETHER: &str = "\
* lines that nothing was committed for, together
protocol=cbndv-2pc
guests=twice
schedule=6 x 0 0 0, stop 0, 10 x 0 0 0
out=out 0 0 6869~out 0 1 6869~out 0 0 6869~out 0 1 6869~end 0 2 0~
said=dc: done 9 acts 5 lines~
acts=0-5 14-16
close=close 0 17 9 5
* a stop of one process fells the other
protocol=cbndv-2pc
guests=hi hi
schedule=4 x 0 0 0, stop 1, 8 x 0 0 0, 7 x 1 0 0
out=out 0 0 6869~out 0 0 6869~end 0 1 0~out 1 0 6869~end 1 1 0~
said=dc: done 14 acts 5 lines~
acts=0-3 10-12 1:13-19
close=close 0 20 14 5
marks=sss0mrsss0ss1sss0ss1
* the last call of a prepare, made
protocol=cpv-2pc
guests=clock hi
schedule=7 x 0 0 65, 11 x 0 0 66
stops=6 1 last-2 1
out=out 0 0 42~end 0 1 0~
status=1
said=dc: unfinished 10 acts 2 lines~
acts=8-17
act=9 clock 66
close=close 1 18 10 2
marks=ssssssxrssssss0ss1
* the first call of a finish, not made
protocol=cpv-2pc
guests=clock hi
schedule=7 x 0 0 65, 11 x 0 0 66
stops=6 1 last-1 0
out=out 0 0 41~end 0 1 0~
status=1
said=dc: unfinished 10 acts 2 lines~
acts=0-5 8-11
act=1 clock 65
close=close 1 18 10 2
marks=ssssssxr0ss1iiiiii
* the first call of a finish, made
protocol=cpv-2pc
guests=clock hi
schedule=7 x 0 0 65, 11 x 0 0 66
stops=6 1 last-1 1
out=out 0 0 41~end 0 1 0~
status=1
said=dc: unfinished 10 acts 2 lines~
acts=0-5 8-11
act=1 clock 65
close=close 1 18 10 2
marks=ssssssxr0ss1iiiiii
";

/// Stops at each call of another process than the first in a commit of all.
pub const COMMITTED_TOGETHER: &str = "\
* each call before the decision, not made
protocol=cpv-2pc
guests=clock hi
schedule=7 x 0 0 65, 11 x 0 0 66
stops=6 1 1..last-2 0
out=out 0 0 42~end 0 1 0~
status=1
said=dc: unfinished 10 acts 2 lines~
acts=8-17
act=9 clock 66
close=close 1 18 10 2
marks=ssssssxrssssss0ss1
* each call before the decision, made
protocol=cpv-2pc
guests=clock hi
schedule=7 x 0 0 65, 11 x 0 0 66
stops=6 1 1..last-2 1
out=out 0 0 42~end 0 1 0~
status=1
said=dc: unfinished 10 acts 2 lines~
acts=8-17
act=9 clock 66
close=close 1 18 10 2
marks=ssssssxrssssss0ss1
* each call behind the decision, not made
protocol=cpv-2pc
guests=clock hi
schedule=7 x 0 0 65, 11 x 0 0 66
stops=6 1 last-1..last 0
out=out 0 0 41~end 0 1 0~
status=1
said=dc: unfinished 10 acts 2 lines~
acts=0-5 8-11
act=1 clock 65
close=close 1 18 10 2
marks=ssssssxr0ss1iiiiii
* each call behind the decision, made
protocol=cpv-2pc
guests=clock hi
schedule=7 x 0 0 65, 11 x 0 0 66
stops=6 1 last-1..last 1
out=out 0 0 41~end 0 1 0~
status=1
said=dc: unfinished 10 acts 2 lines~
acts=0-5 8-11
act=1 clock 65
close=close 1 18 10 2
marks=ssssssxr0ss1iiiiii
";

/// Stops at each call of the first process, which decides, in a commit of all.
pub const DECIDED_TOGETHER: &str = "\
* each call up to the decision, not made
protocol=cpv-2pc
guests=clock hi
schedule=7 x 0 0 65, 11 x 0 0 66
stops=6 0 1..last-2 0
out=out 0 0 42~end 0 1 0~
status=1
said=dc: unfinished 10 acts 2 lines~
acts=8-17
act=9 clock 66
close=close 1 18 10 2
marks=ssssssxrssssss0ss1
* each call up to the decision, made, but for it
protocol=cpv-2pc
guests=clock hi
schedule=7 x 0 0 65, 11 x 0 0 66
stops=6 0 1..last-3 1
out=out 0 0 42~end 0 1 0~
status=1
said=dc: unfinished 10 acts 2 lines~
acts=8-17
act=9 clock 66
close=close 1 18 10 2
marks=ssssssxrssssss0ss1
* the decision and each call behind it, made
protocol=cpv-2pc
guests=clock hi
schedule=7 x 0 0 65, 11 x 0 0 66
stops=6 0 last-2..last 1
out=out 0 0 41~end 0 1 0~
status=1
said=dc: unfinished 10 acts 2 lines~
acts=0-5 8-11
act=1 clock 65
close=close 1 18 10 2
marks=ssssssxr0ss1iiiiii
* each call behind the decision, of its process, not made
protocol=cpv-2pc
guests=clock hi
schedule=7 x 0 0 65, 11 x 0 0 66
stops=6 0 last-1..last 0
out=out 0 0 41~end 0 1 0~
status=1
said=dc: unfinished 10 acts 2 lines~
acts=0-5 8-11
act=1 clock 65
close=close 1 18 10 2
marks=ssssssxr0ss1iiiiii
";

/// Stops at each call of a recovery of all, after a stop in a commit of all.
pub const RECOVERED_TOGETHER: &str = "\
* each call of process 0 in a recovery of what was not decided, not made
protocol=cpv-2pc
guests=clock hi
schedule=7 x 0 0 65, 12 x 0 0 66
stops=6 1 last-2 1, 7 0 1..last 0
out=out 0 0 42~end 0 1 0~
status=1
said=dc: unfinished 10 acts 2 lines~
acts=9-18
act=10 clock 66
close=close 1 19 10 2
marks=ssssssxxrssssss0ss1
* each call of process 0 in a recovery of what was decided, not made
protocol=cpv-2pc
guests=clock hi
schedule=7 x 0 0 65, 12 x 0 0 66
stops=6 1 last-1 0, 7 0 1..last 0
out=out 0 0 41~end 0 1 0~
status=1
said=dc: unfinished 10 acts 2 lines~
acts=0-5 9-12
act=1 clock 65
close=close 1 19 10 2
marks=ssssssxxr0ss1iiiiii
* each call of process 0 in a recovery of what was not decided, made
protocol=cpv-2pc
guests=clock hi
schedule=7 x 0 0 65, 12 x 0 0 66
stops=6 1 last-2 1, 7 0 1..last 1
out=out 0 0 42~end 0 1 0~
status=1
said=dc: unfinished 10 acts 2 lines~
acts=9-18
act=10 clock 66
close=close 1 19 10 2
marks=ssssssxxrssssss0ss1
* each call of process 0 in a recovery of what was decided, made
protocol=cpv-2pc
guests=clock hi
schedule=7 x 0 0 65, 12 x 0 0 66
stops=6 1 last-1 0, 7 0 1..last 1
out=out 0 0 41~end 0 1 0~
status=1
said=dc: unfinished 10 acts 2 lines~
acts=0-5 9-12
act=1 clock 65
close=close 1 19 10 2
marks=ssssssxxr0ss1iiiiii
* each call of process 1 in a recovery of what was not decided, not made
protocol=cpv-2pc
guests=clock hi
schedule=7 x 0 0 65, 12 x 0 0 66
stops=6 1 last-2 1, 7 1 1..last 0
out=out 0 0 42~end 0 1 0~
status=1
said=dc: unfinished 10 acts 2 lines~
acts=9-18
act=10 clock 66
close=close 1 19 10 2
marks=ssssssxxrssssss0ss1
* each call of process 1 in a recovery of what was decided, not made
protocol=cpv-2pc
guests=clock hi
schedule=7 x 0 0 65, 12 x 0 0 66
stops=6 1 last-1 0, 7 1 1..last 0
out=out 0 0 41~end 0 1 0~
status=1
said=dc: unfinished 10 acts 2 lines~
acts=0-5 9-12
act=1 clock 65
close=close 1 19 10 2
marks=ssssssxxr0ss1iiiiii
* each call of process 1 in a recovery of what was not decided, made
protocol=cpv-2pc
guests=clock hi
schedule=7 x 0 0 65, 12 x 0 0 66
stops=6 1 last-2 1, 7 1 1..last 1
out=out 0 0 42~end 0 1 0~
status=1
said=dc: unfinished 10 acts 2 lines~
acts=9-18
act=10 clock 66
close=close 1 19 10 2
marks=ssssssxxrssssss0ss1
* each call of process 1 in a recovery of what was decided, made
protocol=cpv-2pc
guests=clock hi
schedule=7 x 0 0 65, 12 x 0 0 66
stops=6 1 last-1 0, 7 1 1..last 1
out=out 0 0 41~end 0 1 0~
status=1
said=dc: unfinished 10 acts 2 lines~
acts=0-5 9-12
act=1 clock 65
close=close 1 19 10 2
marks=ssssssxxr0ss1iiiiii
";
