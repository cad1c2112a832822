//! The cases, by subject. Each begins with `* ` and its name.
//!
//! A schedule is written as its entries. A stop is its turn, or `open` where it comes as the stores are made; its process; the call of the
//! device within the turn, or a range of calls, of which `L` is the last; how many words it keeps; and `failed` where it is a failure. In `marks` a
//! process `s` stepped, `0` to `9` showed the record of that number, `i` was idle for it has ended, `f` for its link is full, `r` recovered, `x` was
//! stopped in its turn, and `m` was stopped between turns; `some` has the marks of some entries in words. `turns` are those of the acts, `has` are
//! lines of the report, and `counts` are those of the marks, the acts and the whole lines.

/// Runs whose processes stop between turns.
pub const ROWS: &str = "\
* a guest shows its text and ends
schedule=7 x 0 0 0
lines=out 0 0 6869~end 0 1 0~
marks=sss0ss1
turns=0-6
counts=7 7 2
ending=Done
* an empty schedule
marks=
counts=0 0 0
ending=Unfinished
* an entry less
schedule=6 x 0 0 0
lines=out 0 0 6869~
marks=sss0ss
turns=0-5
counts=6 6 1
ending=Unfinished
* entries behind the end
schedule=9 x 0 0 0
lines=out 0 0 6869~end 0 1 0~
marks=sss0ss1ii
turns=0-6
counts=9 7 2
ending=Done
* down at the end
schedule=7 x 0 0 0, stop 0
lines=out 0 0 6869~end 0 1 0~
marks=sss0ss1m
turns=0-6
counts=8 7 2
ending=Unfinished
* none, 256 and too many bytes
guests=sizes
schedule=12 x 0 0 0
lines=out 0 0 -~out 0 1 @~end 0 2 4294967293~
counts=12 12 3
ending=Done
* a stop after a line
schedule=4 x 0 0 0, stop 0, 5 x 0 0 0
lines=out 0 0 6869~out 0 0 6869~end 0 1 0~
marks=sss0mr0ss1
some=4 Marked, 5 Recovered(3), 6 Showed(0)
turns=0-3 7-9
counts=10 7 3
ending=Done
* a failure of the power after a line
schedule=4 x 0 0 0, power, 5 x 0 0 0
lines=out 0 0 6869~out 0 0 6869~end 0 1 0~
marks=sss0mr0ss1
some=4 Marked, 5 Recovered(3), 6 Showed(0)
turns=0-3 7-9
counts=10 7 3
ending=Done
* no commit between two lines
protocol=cbndvs
guests=twice
schedule=6 x 0 0 0, stop 0, 10 x 0 0 0
lines=out 0 0 6869~out 0 1 6869~out 0 0 6869~out 0 1 6869~end 0 2 0~
some=7 Recovered(0)
turns=0-5 14-16
counts=17 9 5
ending=Done
";

/// Runs where all processes commit, fall and recover together.
pub const TOGETHER: &str = "\
* no commit between two lines
protocol=cbndv-2pc
guests=twice
schedule=6 x 0 0 0, stop 0, 10 x 0 0 0
lines=out 0 0 6869~out 0 1 6869~out 0 0 6869~out 0 1 6869~end 0 2 0~
some=7 Recovered(0)
turns=0-5 14-16
counts=17 9 5
ending=Done
* a stop of one process fells the other
protocol=cbndv-2pc
guests=hi hi
schedule=4 x 0 0 0, stop 1, 8 x 0 0 0, 7 x 1 0 0
lines=out 0 0 6869~out 0 0 6869~end 0 1 0~out 1 0 6869~end 1 1 0~
some=4 Marked, 5 Recovered(0), 9 Showed(0)
counts=20 14 5
ending=Done
";

/// Stops within a turn of theirs.
pub const TOGETHER_TORN: &str = "\
* the last call of a prepare, kept
protocol=cpv-2pc
guests=clock hi
schedule=7 x 0 0 65, 11 x 0 0 66
stops=6 1 L-2 1
lines=out 0 0 42~end 0 1 0~
some=6 Stopped, 7 Recovered(0)
counts=18 10 2
ending=Unfinished
* the first call of a finish, kept back
protocol=cpv-2pc
guests=clock hi
schedule=7 x 0 0 65, 11 x 0 0 66
stops=6 1 L-1 0
lines=out 0 0 41~end 0 1 0~
some=6 Stopped, 7 Recovered(6)
counts=18 10 2
ending=Unfinished
* each call of a prepare, kept back
protocol=cpv-2pc
guests=clock hi
schedule=7 x 0 0 65, 11 x 0 0 66
stops=6 1 1..L-2 0
lines=out 0 0 42~end 0 1 0~
some=6 Stopped, 7 Recovered(0)
counts=18 10 2
ending=Unfinished
* each call of a finish, kept
protocol=cpv-2pc
guests=clock hi
schedule=7 x 0 0 65, 11 x 0 0 66
stops=6 1 L-1..L 1
lines=out 0 0 41~end 0 1 0~
some=6 Stopped, 7 Recovered(6)
counts=18 10 2
ending=Unfinished
* each call of a recovery of both
protocol=cpv-2pc
guests=clock hi
schedule=7 x 0 0 65, stop 0, 2 x 0 0 65, 11 x 0 0 66
stops=8 1 1..L 0
lines=out 0 0 41~out 0 0 41~end 0 1 0~
some=7 Marked, 8 Stopped, 9 Recovered(6)
counts=21 10 3
ending=Unfinished
* a call of another process in a commit of both
protocol=cbndv-2pc
guests=clock hi
schedule=3 x 1 0 65, 7 x 0 0 65, 8 x 0 0 66, 7 x 1 0 66, 3 x 0 0 66
stops=9 1 1 0
lines=out 0 0 42~out 1 0 6869~end 1 1 0~end 0 1 0~
marks=sssssssssxrssssss0sss0ss1ss1
turns=11-27
counts=28 17 4
ending=Done
";

/// Stops within a turn.
pub const TORN: &str = "\
* the first call of a commit, kept back
guests=clock
schedule=8 x 0 0 65, 10 x 0 0 66
stops=6 0 1 0
lines=out 0 0 42~end 0 1 0~
marks=ssssssxrssssss0ss1
some=6 Stopped, 7 Recovered(0)
turns=8-17
counts=18 10 2
ending=Done
* the first call of a commit, kept
guests=clock
schedule=8 x 0 0 65, 10 x 0 0 66
stops=6 0 1 1
lines=out 0 0 42~end 0 1 0~
some=6 Stopped, 7 Recovered(0)
turns=8-17
counts=18 10 2
ending=Done
* the last call of a commit but one, kept
guests=clock
schedule=8 x 0 0 65, 10 x 0 0 66
stops=6 0 L-1 1
lines=out 0 0 42~end 0 1 0~
some=6 Stopped, 7 Recovered(0)
turns=8-17
counts=18 10 2
ending=Done
* the last call of a commit, kept back
guests=clock
schedule=8 x 0 0 65, 10 x 0 0 66
stops=6 0 L 0
lines=out 0 0 42~end 0 1 0~
some=6 Stopped, 7 Recovered(0)
turns=8-17
counts=18 10 2
ending=Done
* each call of a commit, kept back
guests=clock
schedule=8 x 0 0 65, 10 x 0 0 66
stops=6 0 1..L 0
lines=out 0 0 42~end 0 1 0~
some=6 Stopped, 7 Recovered(0)
turns=8-17
counts=18 10 2
ending=Done
* each call of a commit but the last, kept
guests=clock
schedule=8 x 0 0 65, 10 x 0 0 66
stops=6 0 1..L-1 1
lines=out 0 0 42~end 0 1 0~
some=6 Stopped, 7 Recovered(0)
turns=8-17
counts=18 10 2
ending=Done
* the last call of a commit, kept
guests=clock
schedule=8 x 0 0 65, 10 x 0 0 66
stops=6 0 L 1
lines=out 0 0 41~end 0 1 0~
some=6 Stopped, 7 Recovered(6), 12 Idle(Ended), 17 Idle(Ended)
turns=0-5 8-11
counts=18 10 2
ending=Done
* in the commit after the clock
protocol=cand
guests=clock
schedule=3 x 0 0 65, 10 x 0 0 66
stops=1 0 1 0
lines=out 0 0 42~end 0 1 0~
marks=sxrssssss0ss1
some=1 Stopped, 2 Recovered(0)
turns=3-12
counts=13 10 2
ending=Done
* a stop of a process that is not there
guests=clock
schedule=10 x 0 0 65
stops=6 1 1 0
lines=out 0 0 41~end 0 1 0~
marks=ssssss0ss1
turns=0-9
counts=10 10 2
ending=Done
* two stops in recoveries
guests=clock
schedule=3 x 0 0 65, stop 0, 3 x 0 0 65, 10 x 0 0 66
stops=4 0 1 0, 5 0 1 1
lines=out 0 0 42~end 0 1 0~
marks=sssmxxrssssss0ss1
some=4 Stopped, 5 Stopped, 6 Recovered(0)
turns=7-16
counts=17 10 2
ending=Done
";

/// Logged answers.
pub const LOGS: &str = "\
* a logged record is answered again
protocol=cand-log
guests=echo
inputs=ok
schedule=4 x 0 1 0, stop 0, 12 x 0 0 0
lines=out 0 0 6f6b~end 0 1 0~
some=5 Recovered(0)
turns=0-3 10-16
has=act 3 0 input next
counts=17 11 2
ending=Done
* a record behind the clock is not logged
protocol=cbndvs-log
guests=late
inputs=ok
schedule=6 x 0 1 0, stop 0, 14 x 0 1 0
lines=out 0 0 6f6b~end 0 1 0~
some=7 Recovered(0)
turns=8-20
has=act 13 0 input next
counts=21 13 2
ending=Done
* the 65th record is preceded by a commit
protocol=cand-log
guests=poller
schedule=260 x 0 0 0, stop 0, 1 x 0 0 0
some=261 Recovered(259)
counts=262 260 0
ending=Unfinished
* the 64th is not
protocol=cand-log
guests=poller
schedule=259 x 0 0 0, stop 0, 1 x 0 0 0
some=260 Recovered(0)
counts=261 256 0
ending=Unfinished
";

/// Messages.
pub const MESSAGES: &str = "\
* a number that is sent again
guests=sender teller
schedule=5 x 0 0 0, 4 x 1 0 0, stop 0, 2 x 0 0 0, 10 x 1 0 0, 3 x 0 0 0
lines=out 1 0 6869~end 0 0 0~
marks=sssssssssmrsssss0sssssss0
some=10 Recovered(4), 11 Stepped
turns=0-8 12-24
has=act 8 1 receive from 0, act 21 1 receive none
counts=25 22 2
ending=Unfinished
* a full link
guests=flood taker
schedule=45 x 0 0 0, 28 x 1 0 0, 1 x 0 0 0, 4 x 1 0 0, 1 x 0 0 0
some=44 Idle(LinkFull), 73 Idle(LinkFull), 78 Stepped
counts=79 77 0
ending=Unfinished
* a message
guests=sender teller
schedule=8 x 0 0 0, 9 x 1 0 0
lines=end 0 0 0~out 1 0 6869~
has=act 11 1 receive from 0
counts=17 17 2
ending=Unfinished
* a message that is taken again
guests=sender teller
schedule=8 x 0 0 0, 4 x 1 0 0, stop 1, 10 x 1 0 0
lines=end 0 0 0~out 1 0 6869~
some=13 Recovered(0)
has=act 17 1 receive from 0
counts=23 17 2
ending=Unfinished
* a number that was taken is kept again and not taken
guests=sender taker
schedule=5 x 0 0 0, 4 x 1 0 0, stop 0, 2 x 0 0 0, 4 x 1 0 0
some=11 Stepped
has=act 15 1 receive none
counts=16 13 0
ending=Unfinished
";

/// Each form of an entry in each state of a process.
pub const ENTRIES: &str = "\
* a turn and a stop of one that is up, and of one that is down
schedule=0 0 0, stop 0, stop 0, 0 0 0, 0 0 0
some=0 Stepped, 1 Marked, 2 Marked, 3 Recovered(0), 4 Stepped
turns=4
counts=5 1 0
ending=Unfinished
* a turn and a stop of one that has ended
schedule=8 x 0 0 0, stop 0, 3 x 0 0 0
lines=out 0 0 6869~end 0 1 0~end 0 1 0~
some=6 Showed(1), 7 Idle(Ended), 8 Marked, 9 Recovered(6), 10 Showed(1), 11 Idle(Ended)
turns=0-6
counts=12 7 3
ending=Done
* a turn and a stop of one that waits for room
guests=flood taker
schedule=45 x 0 0 0, stop 0, 7 x 0 0 0
some=44 Idle(LinkFull), 45 Marked, 46 Recovered(39), 47 Stepped, 52 Idle(LinkFull)
turns=0-39 48-51
counts=53 44 0
ending=Unfinished
* failures of the power
guests=hi clock
schedule=0 0 0, 2 x 1 0 65, power, 0 0 0, 1 0 65, power, power, 1 0 66, 0 0 0
some=0 Stepped, 2 Stepped, 3 Marked, 4 Recovered(0), 5 Recovered(0), 6 Marked, 7 Marked, 8 Recovered(0), 9 Recovered(0)
turns=
counts=10 0 0
ending=Unfinished
";

/// Faults that end a run.
pub const FAULTS: &str = "\
* a failing store
schedule=7 x 0 0 0
stops=6 0 1 0 failed
lines=out 0 0 6869~
marks=sss0ss
turns=0-5
counts=6 6 1
ending=Device(0)
* each call of a commit fails
guests=clock
schedule=8 x 0 0 65
stops=6 0 1..L 0 failed
some=5 Stepped
counts=6 6 0
ending=Device(0)
* a sink that fails
schedule=7 x 0 0 0
unwritten=1
marks=sss
turns=0-3
counts=3 4 0
ending=Sink
";

/// Stores that are refused a call as they are made.
pub const OPENINGS: &str = "\
* one of the first two calls of process 0 fails
guests=hi clock
schedule=1 0 0, 0 0 0
stops=open 0 1..2 0 failed
ending=Failed(0)
* one of the last two calls of process 0 fails
guests=hi clock
schedule=1 0 0, 0 0 0
stops=open 0 L-1..L 0 failed
ending=Failed(0)
* one of the first two calls of process 1 fails
guests=hi clock
schedule=1 0 0, 0 0 0
stops=open 1 1..2 0 failed
ending=Failed(1)
* one of the last two calls of process 1 fails
guests=hi clock
schedule=1 0 0, 0 0 0
stops=open 1 L-1..L 0 failed
ending=Failed(1)
* one of the first two calls of process 1 is stopped, so it alone is down
guests=hi clock
schedule=1 0 0, 0 0 0
stops=open 1 1..2 0
marks=rs
some=0 Recovered(0)
counts=2 1 0
ending=Unfinished
* the same where both commit together, so both are down
protocol=cpv-2pc
guests=hi clock
schedule=0 0 0, 1 0 0
stops=open 1 1..2 0
marks=rs
some=0 Recovered(0)
counts=2 1 0
ending=Unfinished
* one of the last two calls of process 1 is stopped, so it alone is down
guests=hi clock
schedule=1 0 0, 0 0 0
stops=open 1 L-1..L 0
marks=rs
some=0 Recovered(0)
counts=2 1 0
ending=Unfinished
* the same where both commit together, so both are down
protocol=cpv-2pc
guests=hi clock
schedule=0 0 0, 1 0 0
stops=open 1 L-1..L 0
marks=rs
some=0 Recovered(0)
counts=2 1 0
ending=Unfinished
* a run to its end behind a stop in the opening
schedule=8 x 0 0 0
stops=open 0 1 0
lines=out 0 0 6869~end 0 1 0~
marks=rsss0ss1
turns=1-7
counts=8 7 2
ending=Done
* the same of two that fall together
protocol=cbndv-2pc
guests=hi hi
schedule=8 x 1 0 0, 7 x 0 0 0
stops=open 0 1 0
lines=out 1 0 6869~end 1 1 0~out 0 0 6869~end 0 1 0~
marks=rsss0ss1sss0ss1
turns=1-14
counts=15 14 4
ending=Done
";

/// A store that is no checkpoint when it is to be read.
pub const SPOILED: &str = "\
a store that another hand changed
schedule=4 x 0 0 0, stop 0, 1 x 0 0 0
lines=out 0 0 6869~
marks=sss0m
turns=0-3
counts=5 4 1
ending=Store(0, Header)
";
