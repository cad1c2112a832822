//! What goes on alike on a segment and on a redo log, as text.

pub const PROGRAMS: &str = "\
# what is loaded and what a mask leaves
segment 1 0 1
load 1023 = 7
store 0 4294967295 65280 = ok
load 0 = 65280
store 0 4660 255 = ok
load 0 = 65332
store 1023 4294967295 0 = ok
load 1023 = 7
store 1023 4294967295 2147483649 = ok
memory = 0 65332 1023 2147483655
fall = ok
state 0 = ok 1 10 0 1023 7
# each call
segment 1 0 1
store 0 5 all = ok
commit 2 = ok
log 21 3 1 0 2 = ok
log 22 7 0 0 0 = ok
decided = 0
store 1 8 all = ok
prepare 3 = ok
load 1 = 8
decide 3 = ok
load 1 = 8
decided = 3
finish = ok
load 1 = 8
store 2 9 all = ok
fall = ok
state 3 = ok 3 30 0 0 5 1 8 1023 7
store 2 6 all = ok
commit 4 = ok
log 41 3 2 0 1 = ok
fall = ok
state 3 = ok 4 40 1 41 3 2 0 0 0 5 1 8 2 6 1023 7
decided = 3
# what was not committed is lost, and the handle goes on
segment 1 0 1
store 0 5 all = ok
commit 4294967294 = ok
store 0 6 all = ok
store 16 6 all = ok
log 1 7 0 0 0 = ok
fall = ok
state 0 = ok 4294967294 4294967295 1 1 7 0 0 0 0 5 1023 7
store 0 8 all = ok
commit 4294967295 = ok
fall = ok
state 0 = ok 4294967295 4294967295 0 0 8 1023 7
# a recovery needs no fall
segment 1 0 1
store 0 5 all = ok
log 11 3 1 0 1 = ok
state 0 = ok 1 10 1 11 3 1 0 1 1023 7
store 0 6 all = ok
commit 2 = ok
state 6 = ok 2 20 0 0 6 1023 7
decided = 0
# a commit ends the log, and so does one that is prepared and finished
segment 1 0 1
log 1 3 1 0 3 = ok
log 2 3 0 0 0 = ok
commit 2 = ok
log 21 7 1 0 4 = ok
fall = ok
state 0 = ok 2 20 1 21 7 1 0 4 1023 7
prepare 9 = ok
decide 9 = ok
finish = ok
log 91 7 1 0 4 = ok
fall = ok
decided = 9
state 9 = ok 9 90 1 91 7 1 0 4 1023 7
# an event that is logged after a recovery follows those before
segment 1 0 1
log 1 3 1 0 3 = ok
fall = ok
recover 0 = ok 1 10 1
log 2 7 1 0 64 = ok
fall = ok
state 0 = ok 1 10 2 1 3 1 0 3 2 7 1 0 64 1023 7
# what is prepared counts once it is decided
segment 1 0 1
store 0 5 all = ok
prepare 2 = ok
fall = ok
state 1 = ok 1 10 0 1023 7
store 0 6 all = ok
prepare 4 = ok
attach = ok
state 3 = ok 1 10 0 1023 7
store 0 8 all = ok
prepare 5 = ok
decide 5 = ok
attach = ok
decided = 5
state 5 = ok 5 50 0 0 8 1023 7
commit 6 = ok
fall = ok
decided = 5
state 5 = ok 6 60 0 0 8 1023 7
# the third process of eight
segment 8 3 1
store 5 6 all = ok
commit 2 = ok
log 21 7 1 7 9 = ok
fall = ok
state 0 = ok 2 20 1 21 7 1 7 9 5 6 1023 7
prepare 3 = ok
finish = ok
fall = ok
state 3 = ok 3 30 0 5 6 1023 7
# many commits and events
segment 1 0 1
64 times log 9 7 0 0 0 = ok
commit 2 = ok
store 0 1 all = ok
64 times log 9 7 0 0 0 = ok
commit 3 = ok
store 16 2 all = ok
64 times log 9 7 0 0 0 = ok
fall = ok
recover 0 = ok 3 30 64
memory = 0 1 1023 7
store 16 2 all = ok
commit 4 = ok
store 32 3 all = ok
64 times log 9 7 0 0 0 = ok
commit 5 = ok
64 times log 9 7 0 0 0 = ok
prepare 6 = ok
decide 6 = ok
finish = ok
64 times log 9 7 0 0 0 = ok
store 32 4 all = ok
commit 7 = ok
fall = ok
decided = 6
state 6 = ok 7 70 0 0 1 16 2 32 4 1023 7
";
