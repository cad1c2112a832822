/// Stops, of processes and of the power, what comes after them, and devices that fail.
pub const STOPS: &str = "\
* a stop after a line was shown
schedule=4 x 0 0 0, stop 0, 5 x 0 0 0
out=out 0 0 6869~out 0 0 6869~end 0 1 0~
said=dc: done 7 acts 3 lines~
acts=0-3 7-9
close=close 0 10 7 3
marks=sss0mr0ss1
* the power goes after a line was shown
schedule=4 x 0 0 0, power, 5 x 0 0 0
out=out 0 0 6869~out 0 0 6869~end 0 1 0~
said=dc: done 7 acts 3 lines~
acts=0-3 7-9
close=close 0 10 7 3
marks=sss0mr0ss1
* a stop at the first call of a commit
guests=clock
schedule=8 x 0 0 65, 10 x 0 0 66
stops=6 0 1 0
out=out 0 0 42~end 0 1 0~
said=dc: done 10 acts 2 lines~
acts=8-17
act=9 clock 66
close=close 0 18 10 2
marks=ssssssxrssssss0ss1
* a stop at the last call of a commit, which is not made
guests=clock
schedule=8 x 0 0 65, 10 x 0 0 66
stops=6 0 last 0
out=out 0 0 42~end 0 1 0~
said=dc: done 10 acts 2 lines~
acts=8-17
act=9 clock 66
close=close 0 18 10 2
marks=ssssssxrssssss0ss1
* a stop at the first call of a commit, which is made
guests=clock
schedule=8 x 0 0 65, 10 x 0 0 66
stops=6 0 1 1
out=out 0 0 42~end 0 1 0~
said=dc: done 10 acts 2 lines~
acts=8-17
act=9 clock 66
close=close 0 18 10 2
marks=ssssssxrssssss0ss1
* a stop at the last call of a commit, which is made
guests=clock
schedule=8 x 0 0 65, 10 x 0 0 66
stops=6 0 last 1
out=out 0 0 41~end 0 1 0~
said=dc: done 10 acts 2 lines~
acts=0-5 8-11
act=1 clock 65
close=close 0 18 10 2
marks=ssssssxr0ss1iiiiii
* a stop at a call that does not come
guests=clock
schedule=10 x 0 0 65
stops=6 0 4000000000 0, 3 0 1 0
out=out 0 0 41~end 0 1 0~
said=dc: done 10 acts 2 lines~
acts=0-9
act=1 clock 65
close=close 0 10 10 2
* a stop in the commit after the clock was read
protocol=cand
guests=clock
schedule=3 x 0 0 65, 10 x 0 0 66
stops=1 0 1 0
out=out 0 0 42~end 0 1 0~
said=dc: done 10 acts 2 lines~
acts=3-12
act=4 clock 66
close=close 0 13 10 2
marks=sxrssssss0ss1
* a stop after lines that nothing was committed for
protocol=cbndvs
guests=twice
schedule=6 x 0 0 0, stop 0, 10 x 0 0 0
out=out 0 0 6869~out 0 1 6869~out 0 0 6869~out 0 1 6869~end 0 2 0~
said=dc: done 9 acts 5 lines~
acts=0-5 14-16
close=close 0 17 9 5
* an input that the log answers
protocol=cand-log
old=memory
new=inputs = [[\"6f6b\"]]~memory
guests=reader
schedule=4 x 0 1 0, stop 0, 12 x 0 0 0
out=out 0 0 6f6b~end 0 1 0~
said=dc: done 11 acts 2 lines~
acts=0-3 10-16
act=3 input next
close=close 0 17 11 2
* an input that was not logged is taken anew
protocol=cbndvs-log
old=memory
new=inputs = [[\"6f6b\"]]~memory
guests=timed
schedule=6 x 0 1 0, stop 0, 14 x 0 1 0
out=out 0 0 6f6b~end 0 1 0~
said=dc: done 13 acts 2 lines~
acts=8-20
act=9 clock 0, 13 input next
close=close 0 21 13 2
* a message that is sent once more
guests=sender teller
schedule=5 x 0 0 0, 4 x 1 0 0, stop 0, 2 x 0 0 0, 10 x 1 0 0, 3 x 0 0 0
out=out 1 0 6869~end 0 0 0~
status=1
said=dc: unfinished 22 acts 2 lines~
acts=0-4 1:5-8 1:12-21 22-24
act=8 receive from 0, 21 receive none
close=close 1 25 22 2
marks=sssssssssmrsssss0sssssss0
* a link of eight messages is full
guests=flooder taker
schedule=45 x 0 0 0, 28 x 1 0 0, 0 0 0, 4 x 1 0 0, 0 0 0
out=
status=1
said=dc: unfinished 77 acts 0 lines~
acts=0-43 1:45-72 1:74-77 78
act=48-72/4 receive from 0, 77 receive from 0
close=close 1 79 77 0
* stops of two recoveries
guests=clock
schedule=3 x 0 0 65, stop 0, 3 x 0 0 65, 10 x 0 0 66
stops=4 0 1 0, 5 0 1 1
out=out 0 0 42~end 0 1 0~
said=dc: done 10 acts 2 lines~
acts=7-16
act=8 clock 66
close=close 0 17 10 2
marks=sssmxxrssssss0ss1
* a message that arrives
guests=sender teller
schedule=8 x 0 0 0, 9 x 1 0 0
out=end 0 0 0~out 1 0 6869~
status=1
said=dc: unfinished 17 acts 2 lines~
acts=0-7 1:8-16
act=11 receive from 0
close=close 1 17 17 2
* a message that is taken once more
guests=sender teller
schedule=8 x 0 0 0, 4 x 1 0 0, stop 1, 10 x 1 0 0
out=end 0 0 0~out 1 0 6869~
status=1
said=dc: unfinished 17 acts 2 lines~
acts=0-7 1:14-22
act=17 receive from 0
close=close 1 23 17 2
* a message that was taken does not come twice
guests=sender taker
schedule=5 x 0 0 0, 4 x 1 0 0, stop 0, 2 x 0 0 0, 4 x 1 0 0
out=
status=1
said=dc: unfinished 13 acts 0 lines~
acts=0-4 1:5-8 1:12-15
act=8 receive from 0, 15 receive none
close=close 1 16 13 0
* a full log is committed before the next event
protocol=cand-log
guests=asker
schedule=260 x 0 0 0, stop 0, 0 0 0
out=
status=1
said=dc: unfinished 260 acts 0 lines~
acts=0-259
act=3-259/4 input none
close=close 1 262 260 0
* a full log is not committed without a next event
protocol=cand-log
guests=asker
schedule=259 x 0 0 0, stop 0, 0 0 0
out=
status=1
said=dc: unfinished 256 acts 0 lines~
acts=0-255
act=3-255/4 input none
close=close 1 261 256 0
* two guests send to each other
guests=passer passer
schedule=8 x 0 0 0, 21 x 1 0 0
out=out 1 0 00000000~
status=1
said=dc: unfinished 29 acts 1 lines~
acts=0-7 1:8-28
act=18 clock 0, 23 receive from 0
close=close 1 29 29 1
* a device that fails at its first call
device=failed 1
out=
status=7
said=dc: device of 0 failed~
* a device that is stopped at its first call
device=stopped 1
schedule=8 x 0 0 0
out=out 0 0 6869~end 0 1 0~
said=dc: done 7 acts 2 lines~
acts=1-7
close=close 0 8 7 2
marks=rsss0ss1
* a device that fails before the last line
device=failed after 6
schedule=7 x 0 0 0
out=out 0 0 6869~
status=7
said=dc: device of 0 failed~
acts=0-5
close=close 7 6 6 1
marks=sss0ss
";
