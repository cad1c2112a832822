//! What is tried, as text.

/// Cases of disks: one disk of 200 bytes for all processes, at turn 0.
///
/// A line is a planned stop (turn, process, call, what it keeps, what it fills with), a refusal of the device at its next call, or a
/// call and its answer.
pub const DISKS: &str = "\
# a torn write keeps its first bytes
stop 0 0 1 2
write 0 0 1 2 3 4 = stopped
read 0 0 4 = 1 2 0 0
# a torn write is filled
stop 0 0 1 2 255
write 0 0 1 2 3 4 = stopped
read 0 0 5 = 1 2 255 255 0
# a long write is torn past its middle
stop 0 0 1 20 9
write 0 10 7*150 = stopped
read 0 0 170 = 0*10 7*20 9*130 0*10
# old bytes stay past the first part
stop 0 0 2 1
write 0 0 3*100 = ok
write 0 0 7*90 = stopped
read 0 0 101 = 7 3*99 0
# a planned stop passes no sync on
stop 0 0 2 1
sync 0 = ok
sync 0 = stopped
syncs = 1
sync 0 = ok
syncs = 2
# no planned stop comes after a stop of the device
refusal stopped
stop 0 0 1 0
read 0 0 1 = stopped
write 0 0 1 = ok
# a refusal of the device is passed on
refusal failed
stop 0 0 1 1
write 0 0 1 2 = failed
write 0 0 1 2 = ok
# a torn write goes on where a part is refused
refusal failed
stop 0 0 1 1 9
write 0 0 7*100 = failed
read 0 0 101 = 0 9*99 0
# a disk is made by the device
stop 0 0 1 0
format 100 = memory
format 200 = ok
size 0 = 200
sync 0 = stopped
# writes and syncs are counted, and no read
stop 0 0 2 0
write 0 0 1 = ok
read 0 0 1 = 1
sync 0 = stopped
sync 1 = ok
calls 0 = 2
calls 1 = 1
calls 32 = 18446744073709551615
";

/// Cases of words: 40 words of 5 for all processes, at turn 0.
pub const WORDS: &str = "\
# a torn store that keeps nothing leaves the word
stop 0 0 2 0
store 0 0 8 = ok
store 0 1 8 = stopped
load 0 0 = 8
load 0 1 = 5
# a torn store that keeps a byte sets the word
stop 0 0 2 1
store 0 0 8 = ok
store 0 1 8 = stopped
load 0 1 = 8
store 0 1 6 = ok
# another turn or process is not stopped
stop 1 0 1 0
stop 0 1 1 0
store 0 0 8 = ok
store 1 0 9 = stopped
turn 1 = ok
store 0 0 9 = stopped
load 0 0 = 8
# the lower call comes alone
stop 0 0 3 0
stop 0 0 2 1
store 0 0 8 = ok
store 0 0 9 = stopped
store 0 0 1 = ok
# the first of one call comes
stop 0 0 1 1
stop 0 0 1 0
store 0 0 8 = stopped
load 0 0 = 8
# a call that does not come stops no other turn
stop 0 0 2 0
store 0 0 8 = ok
turn 1 = ok
store 0 0 8 = ok
store 0 0 8 = ok
# a turn may come again
stop 3 0 1 0
stop 7 0 1 0
turn 5 = ok
store 0 0 8 = ok
turn 3 = ok
store 0 0 8 = stopped
turn 7 = ok
store 0 0 8 = stopped
turn 4294967295 = ok
store 0 0 8 = ok
turn 3 = ok
store 0 0 8 = stopped
# call 0 and process 32 are none
stop 0 0 0 0
stop 0 32 1 0
store 0 0 8 = ok
store 32 0 8 = ok
# a store of words is made by the device
stop 0 0 1 0
format 3 = memory
format 40 = ok
load 0 0 = 0
store 0 0 8 = stopped
# a torn copy keeps the first words of its line
stop 0 0 3 2
store 0 1 7 = ok
store 0 2 8 = ok
copy 0 0 20 = stopped
load 0 21 = 7
load 0 22 = 5
lines = 0
copy 0 0 20 = ok
load 0 22 = 8
lines = 1
calls 0 = 4
# a torn copy that keeps all of its line is one call
stop 0 0 2 99
store 0 1 7 = ok
copy 0 0 20 = stopped
load 0 21 = 7
lines = 1
# a torn copy that keeps nothing makes no call
stop 0 0 2 0
store 0 1 7 = ok
copy 0 0 20 = stopped
load 0 21 = 5
lines = 0
# words in a row are one call where no stop waits
words 0 3 6 7 8 = ok
load 0 2 = 5
load 0 3 = 6
load 0 4 = 7
load 0 5 = 8
load 0 6 = 5
rows = 1
calls 0 = 3
# a stop at the third word keeps the first two
stop 0 0 3 0
words 0 3 6 7 8 9 = stopped
load 0 3 = 6
load 0 4 = 7
load 0 5 = 5
load 0 6 = 5
rows = 0
calls 0 = 3
words 0 5 8 9 = ok
load 0 6 = 9
rows = 1
calls 0 = 5
# a stop at the last word that keeps a byte sets it
stop 0 0 3 1
words 0 3 6 7 8 = stopped
load 0 4 = 7
load 0 5 = 8
load 0 6 = 5
rows = 0
calls 0 = 3
# a stop behind the row comes at its own call
stop 0 0 5 0
words 0 3 6 7 8 = ok
rows = 1
store 0 0 9 = ok
store 0 1 9 = stopped
load 0 0 = 9
load 0 1 = 5
calls 0 = 5
# a row of nothing is no call
stop 0 0 1 0
words 0 3 = ok
rows = 1
calls 0 = 0
store 0 0 8 = stopped
";
