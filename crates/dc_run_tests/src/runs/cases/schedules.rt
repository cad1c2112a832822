/// Schedules.
pub const SCHEDULES: &str = "\
* a line that is no entry
schedule=0 0 0\r~
status=11
said=dc: schedule line 1 refused: form~
* a line that is no entry
schedule=~
status=11
said=dc: schedule line 1 refused: form~
* a line that is no entry
schedule=0 0 0~~0 0 0~
status=11
said=dc: schedule line 2 refused: form~
* a line that is no entry
schedule=0 0 0~0 0 0 0~
status=11
said=dc: schedule line 2 refused: form~
* a line that is no entry
schedule=0 0 0~0 0~
status=11
said=dc: schedule line 2 refused: form~
* a line that is no entry
schedule=0 0  0~
status=11
said=dc: schedule line 1 refused: form~
* a line that is no entry
schedule=0\t0 0~
status=11
said=dc: schedule line 1 refused: form~
* a line that is no entry
schedule=0 0 00~
status=11
said=dc: schedule line 1 refused: form~
* a line that is no entry
schedule=+0 0 0~
status=11
said=dc: schedule line 1 refused: form~
* a line that is no entry
schedule=1 0 -1~
status=11
said=dc: schedule line 1 refused: form~
* a line that is no entry
schedule=1 4294967296 0~
status=11
said=dc: schedule line 1 refused: form~
* a line that is no entry
schedule=0 0 18446744073709551616~
status=11
said=dc: schedule line 1 refused: form~
* a line that is no entry
schedule=stop~
status=11
said=dc: schedule line 1 refused: form~
* a line that is no entry
schedule=stop 0 0~
status=11
said=dc: schedule line 1 refused: form~
* a line that is no entry
schedule=stop  0~
status=11
said=dc: schedule line 1 refused: form~
* a line that is no entry
schedule=stop 00~
status=11
said=dc: schedule line 1 refused: form~
* a line that is no entry
schedule=power ~
status=11
said=dc: schedule line 1 refused: form~
* a line that is no entry
schedule=0 0 0~power 0~
status=11
said=dc: schedule line 2 refused: form~
* a line that is no entry
schedule=Power~
status=11
said=dc: schedule line 1 refused: form~
* a process that is not there
schedule=0 0 0~1 0 0~
status=11
said=dc: schedule line 2 refused: process~
* a process that is not there
schedule=1234567890123456789012345 0 0
status=11
said=dc: schedule line 1 refused: process~
* a process that is not there
schedule=0 0 5~1 0 4~
status=11
said=dc: schedule line 2 refused: process~
* a stop of a process that is not there
schedule=0 0 0~stop 1~
status=11
said=dc: schedule line 2 refused: process~
* a clock that fell
schedule=0 0 5~0 0 5~0 0 4~x~
status=11
said=dc: schedule line 3 refused: clock fell~
* a clock that fell over a stop
schedule=0 0 5~stop 0~power~0 0 4~
status=11
said=dc: schedule line 4 refused: clock fell~
* stops and the power
schedule=0 0 0~stop 0~power~0 0 0~0 0 0
status=1
said=dc: unfinished 1 acts 0 lines~
acts=4
close=close 1 5 1 0
marks=smmrs
* a stop behind the end
schedule=7 x 0 0 0, stop 0
out=out 0 0 6869~end 0 1 0~
status=1
said=dc: unfinished 7 acts 2 lines~
acts=0-6
close=close 1 8 7 2
marks=sss0ss1m
* words and clocks of any size
schedule=0 1 0~0 4294967295 3~0 0 3~0 7 9~0 0 18446744073709551615~0 0 18446744073709551615~0 0 18446744073709551615
said=dc: done 7 acts 2 lines~
out=out 0 0 6869~end 0 1 0~
acts=0-6
close=close 0 7 7 2
";

/// A long schedule.
pub const LONG: &str = "\
* 200,000 lines
schedule=200000 x 0 0 0
out=out 0 0 6869~end 0 1 0~
said=dc: done 7 acts 2 lines~
acts=0-6
close=close 0 200000 7 2
";

/// A schedule of one line more.
pub const TOO_LONG: &str = "\
* 1,000,001 lines
schedule=1000001 x 0 0 0
status=11
said=dc: schedule line 1000001 refused: too many~
";
