//! What is refused in turn, as text.

/// A case has a segment, calls with their answers, the call that is tried, how many calls of the device that makes, the decided number that the
/// recoveries are under, and what they then read where the last call of the device was not done and where it was.
pub const STOPS: &str = "\
# a store that is the first to its line
segment 1 0 1
store 0 5 all = ok
commit 2 = ok
log 21 3 1 0 1 = ok
try store 3 9 all
calls 4
under 0
old ok 2 20 1 21 3 1 0 1 0 5 1023 7
new ok 2 20 1 21 3 1 0 1 0 5 1023 7
# a store to a line that is kept
segment 1 0 1
store 0 5 all = ok
commit 2 = ok
store 0 9 all = ok
try store 1 11 all
calls 1
under 0
old ok 2 20 0 0 5 1023 7
new ok 2 20 0 0 5 1023 7
# a commit of two lines
segment 1 0 1
store 0 5 all = ok
commit 2 = ok
log 21 3 1 0 1 = ok
store 0 9 all = ok
store 16 11 all = ok
try commit 3
calls 217
under 0
old ok 2 20 1 21 3 1 0 1 0 5 1023 7
new ok 3 30 0 0 9 16 11 1023 7
# an event
segment 1 0 1
log 11 3 1 0 1 = ok
store 0 9 all = ok
try log 12 7 1 0 64
calls 22
under 0
old ok 1 10 1 11 3 1 0 1 1023 7
new ok 1 10 2 11 3 1 0 1 12 7 1 0 64 1023 7
# a prepare that is decided
segment 1 0 1
log 11 3 1 0 1 = ok
store 0 9 all = ok
try prepare 5
calls 217
under 5
old ok 1 10 1 11 3 1 0 1 1023 7
new ok 5 50 0 0 9 1023 7
# a prepare that is not
segment 1 0 1
log 11 3 1 0 1 = ok
store 0 9 all = ok
try prepare 5
calls 217
under 4
old ok 1 10 1 11 3 1 0 1 1023 7
new ok 1 10 1 11 3 1 0 1 1023 7
# a decision
segment 1 0 1
log 11 3 1 0 1 = ok
store 0 9 all = ok
prepare 5 = ok
try decide 5
calls 1
under itself
old ok 1 10 1 11 3 1 0 1 1023 7
new ok 5 50 0 0 9 1023 7
# a decision on what is not prepared
segment 1 0 1
decide 4 = ok
try decide 5
calls 1
under itself
old ok 1 10 0 1023 7
new ok 1 10 0 1023 7
# a finish
segment 1 0 1
log 11 3 1 0 1 = ok
store 0 9 all = ok
prepare 5 = ok
decide 5 = ok
try finish
calls 2
under itself
old ok 5 50 0 0 9 1023 7
new ok 5 50 0 0 9 1023 7
# a recovery that puts lines back
segment 1 0 1
store 0 5 all = ok
store 1023 6 all = ok
commit 2 = ok
log 21 3 1 0 1 = ok
store 0 9 all = ok
store 16 11 all = ok
store 1023 13 all = ok
fall = ok
try recover 0
calls 5
under 0
old ok 2 20 1 21 3 1 0 1 0 5 1023 6
new ok 2 20 1 21 3 1 0 1 0 5 1023 6
# a recovery that puts back what was prepared and not decided
segment 1 0 1
store 0 9 all = ok
prepare 5 = ok
fall = ok
try recover 4
calls 15
under 4
old ok 1 10 0 1023 7
new ok 1 10 0 1023 7
# a recovery that finishes what was decided
segment 1 0 1
log 11 3 1 0 1 = ok
store 0 9 all = ok
prepare 5 = ok
decide 5 = ok
fall = ok
try recover 5
calls 2
under itself
old ok 5 50 0 0 9 1023 7
new ok 5 50 0 0 9 1023 7
";

/// A making, and how many calls of the device it makes.
pub const MAKING: &str = "\
segment 1 0 1
calls 3932
under 0
old ok 1 10 0 1023 7
";
