//! Calls and their answers, as text.

/// A case begins with the number of processes, the process's own and the pages of its memory, whose last word is 7 and whose others are 0.
/// Each other line is a call and its answer. A kernel that is committed under a number has ten times that as its position.
pub const CALLS: &str = "\
# a device has a word for each that is stored in the making
segment 1 0 16
calls = 35612
words = 35612
# a larger one
segment 8 0 256
calls = 544505
words = 544505
# one page
segment 1 0 1
calls = 3932
words = 3932
state 0 = ok 1 10 0 1023 7
# a handle that is attached to a store goes on where the store stands
segment 2 1 1
store 0 5 all = ok
commit 2 = ok
log 21 3 1 0 2 = ok
store 1 9 all = ok
calls = 4606
attach = ok
calls = 0
ready = 0
state 0 = ok 2 20 1 21 3 1 0 2 0 5 1023 7
store 1 8 all = ok
commit 3 = ok
attach = ok
state 0 = ok 3 30 0 0 5 1 8 1023 7
# one that is attached to a prepared commit has it where its number is decided
segment 1 0 1
store 0 5 all = ok
prepare 2 = ok
attach = ok
state 1 = ok 1 10 0 1023 7
store 0 6 all = ok
prepare 4 = ok
decide 4 = ok
attach = ok
decided = 4
state 4 = ok 4 40 0 0 6 1023 7
# one that is attached to a store that nobody made stands for its first state
segment 1 0 1
store 0 5 all = ok
commit 2 = ok
put 0 0 = ok
attach = ok
decided = 0
state 0 = ok 1 10 0 1023 7
store 0 6 all = ok
commit 3 = ok
attach = ok
state 0 = ok 3 30 0 0 6 1023 7
# each call
segment 1 0 1
load 1023 = 7
store 0 4294967295 65280 = ok
load 0 = 65280
store 0 4660 255 = ok
load 0 = 65332
memory = 0 65332 1023 7
commit 2 = ok
log 21 3 1 0 2 = ok
log 22 7 0 0 0 = ok
decided = 0
store 1 8 all = ok
prepare 3 = ok
load 1 = 8
decide 3 = ok
load 1 = 8
decided = 3
finish = ok
load 1 = 8
store 2 9 all = ok
fall = ok
state 3 = ok 3 30 0 0 65332 1 8 1023 7
store 2 6 all = ok
commit 4 = ok
log 41 3 2 0 0 = ok
fall = ok
state 3 = ok 4 40 1 41 3 2 0 0 0 65332 1 8 2 6 1023 7
# a line is kept once
segment 1 0 16
store 0 5 all = ok
commit 2 = ok
calls = 35833
store 0 9 all = ok
store 0 11 all = ok
calls = 5
fall = ok
state 0 = ok 2 20 0 0 5 16383 7
# the first undo line of a line counts
segment 1 0 1
put 5 2 = ok
put 2640 0 = ok
put 2641 0 = ok
put 2716 5 = ok
put 2732 9 = ok
put 16 11 = ok
state 0 = ok 1 10 0 0 5 1023 7
get 5 = 0
get 16 = 5
# the calls of the device
segment 1 0 1
calls = 3932
commit 2 = ok
calls = 217
log 21 3 1 0 64 = ok
calls = 22
prepare 3 = ok
calls = 217
decide 3 = ok
calls = 1
finish = ok
calls = 2
state 3 = ok 3 30 0 1023 7
calls = 2
# the last undo line is put back first
segment 1 0 1
store 0 5 all = ok
store 16 6 all = ok
fall = ok
calls = 3940
state 0 = ok 1 10 0 1023 7
calls = 4
# a mask of no bits leaves a word
segment 1 0 1
store 1023 4294967295 0 = ok
load 1023 = 7
store 1023 4294967295 2147483649 = ok
load 1023 = 2147483655
# what was not committed is lost, and the handle goes on
segment 1 0 1
store 0 5 all = ok
commit 4294967294 = ok
store 0 6 all = ok
store 16 6 all = ok
log 1 7 0 0 0 = ok
fall = ok
state 0 = ok 4294967294 4294967295 1 1 7 0 0 0 0 5 1023 7
store 0 8 all = ok
commit 4294967295 = ok
fall = ok
state 0 = ok 4294967295 4294967295 0 0 8 1023 7
# a recovery needs no fall
segment 1 0 1
store 0 5 all = ok
log 11 3 1 0 1 = ok
state 0 = ok 1 10 1 11 3 1 0 1 1023 7
decide 6 = ok
decided = 6
store 0 6 all = ok
commit 2 = ok
state 6 = ok 2 20 0 0 6 1023 7
decided = 6
# a commit ends the log
segment 1 0 1
log 1 3 1 0 3 = ok
log 2 3 0 0 0 = ok
commit 2 = ok
log 21 7 1 0 4 = ok
fall = ok
state 0 = ok 2 20 1 21 7 1 0 4 1023 7
# so does a commit that is prepared and finished
segment 1 0 1
log 1 3 1 0 3 = ok
prepare 9 = ok
decide 9 = ok
finish = ok
log 91 7 1 0 4 = ok
fall = ok
decided = 9
state 9 = ok 9 90 1 91 7 1 0 4 1023 7
# an event that is logged after a recovery follows those before
segment 1 0 1
log 1 3 1 0 3 = ok
fall = ok
recover 0 = ok 1 10 1
log 2 7 1 0 64 = ok
fall = ok
state 0 = ok 1 10 2 1 3 1 0 3 2 7 1 0 64 1023 7
# the third process of eight
segment 8 3 1
calls = 5945
store 5 6 all = ok
commit 2 = ok
log 21 7 1 7 9 = ok
fall = ok
state 0 = ok 2 20 1 21 7 1 7 9 5 6 1023 7
prepare 3 = ok
finish = ok
fall = ok
state 3 = ok 3 30 0 5 6 1023 7
";
