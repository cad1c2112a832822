//! Runs on disks.

/// Stops at the calls of commits on disks, which are those of a record, of a sync, of its gate, and of a sync.
pub const DISKS: &str = "\
* a stop after a line was shown, on a disk
old=rio
new=disk
schedule=4 x 0 0 0, stop 0, 5 x 0 0 0
out=out 0 0 6869~out 0 0 6869~end 0 1 0~
said=dc: done 7 acts 3 lines~
acts=0-3 7-9
close=close 0 10 7 3
marks=sss0mr0ss1
* each call of a commit on a disk before the last, not made
old=rio
new=disk
guests=clock
schedule=8 x 0 0 65, 10 x 0 0 66
stops=6 0 1..last-1 0
out=out 0 0 42~end 0 1 0~
said=dc: done 10 acts 2 lines~
acts=8-17
act=9 clock 66
close=close 0 18 10 2
marks=ssssssxrssssss0ss1
* the last sync of a commit on a disk
old=rio
new=disk
guests=clock
schedule=8 x 0 0 65, 10 x 0 0 66
stops=6 0 last 0
out=out 0 0 41~end 0 1 0~
said=dc: done 10 acts 2 lines~
acts=0-5 8-11
act=1 clock 65
close=close 0 18 10 2
marks=ssssssxr0ss1iiiiii
* the gate of a commit on a disk, filled with the byte that opens it
old=rio
new=disk
guests=clock
schedule=8 x 0 0 65, 10 x 0 0 66
stops=6 0 last-1 0 1
out=out 0 0 41~end 0 1 0~
said=dc: done 10 acts 2 lines~
acts=0-5 8-11
act=1 clock 65
close=close 0 18 10 2
marks=ssssssxr0ss1iiiiii
* the gate of a commit on a disk, filled with another
old=rio
new=disk
guests=clock
schedule=8 x 0 0 65, 10 x 0 0 66
stops=6 0 last-1 0 255
out=out 0 0 42~end 0 1 0~
said=dc: done 10 acts 2 lines~
acts=8-17
act=9 clock 66
close=close 0 18 10 2
marks=ssssssxrssssss0ss1
* the gate of a decision on a disk, filled with the byte that opens it
protocol=cpv-2pc
old=rio
new=disk
guests=clock hi
schedule=7 x 0 0 65, 11 x 0 0 66
stops=6 0 last-1 0 1
out=out 0 0 41~end 0 1 0~
status=1
said=dc: unfinished 10 acts 2 lines~
acts=0-5 8-11
act=1 clock 65
close=close 1 18 10 2
marks=ssssssxr0ss1iiiiii
* the gate of a decision on a disk, filled with another
protocol=cpv-2pc
old=rio
new=disk
guests=clock hi
schedule=7 x 0 0 65, 11 x 0 0 66
stops=6 0 last-1 0 255
out=out 0 0 42~end 0 1 0~
status=1
said=dc: unfinished 10 acts 2 lines~
acts=8-17
act=9 clock 66
close=close 1 18 10 2
marks=ssssssxrssssss0ss1
";
