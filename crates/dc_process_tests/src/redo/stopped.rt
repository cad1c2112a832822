//! What is refused in turn, as text.

/// A case has a redo log, calls with their answers, of which `touch` stores to all 64 lines of memory, so that the third commit behind a whole
/// state has no room; the call that is tried, how many calls of the disk that makes, the decided number that the
/// recoveries are under, about half of the bytes that it writes, and what is then read where the gate of its record is not open and where
/// it is.
pub const STOPS: &str = "\
# a commit of two lines
segment 1 0 1
store 0 5 all = ok
commit 2 = ok
log 21 3 1 0 1 = ok
store 0 9 all = ok
store 16 11 all = ok
try commit 3
calls 4
under 0
half 110
old ok 2 20 1 21 3 1 0 1 0 5 1023 7
new ok 3 30 0 0 9 16 11 1023 7
# a commit as a whole in a half that was not used
segment 1 0 1
touch = ok
commit 2 = ok
touch = ok
store 0 5 all = ok
commit 3 = ok
touch = ok
store 0 6 all = ok
try commit 4
calls 4
under 0
half 2400
old ok 3 30 0 0 5 1023 7
new ok 4 40 0 0 6 1023 7
# an event
segment 1 0 1
log 11 3 1 0 1 = ok
store 0 9 all = ok
try log 12 7 1 0 64
calls 4
under 0
half 48
old ok 1 10 1 11 3 1 0 1 1023 7
new ok 1 10 2 11 3 1 0 1 12 7 1 0 64 1023 7
# lines that are prepared, and decided
segment 1 0 1
log 11 3 1 0 1 = ok
store 0 9 all = ok
try prepare 5
calls 4
under 5
half 78
old ok 1 10 1 11 3 1 0 1 1023 7
new ok 5 50 0 0 9 1023 7
# lines that are prepared, and not decided
segment 1 0 1
log 11 3 1 0 1 = ok
store 0 9 all = ok
try prepare 5
calls 4
under 4
half 78
old ok 1 10 1 11 3 1 0 1 1023 7
new ok 1 10 1 11 3 1 0 1 1023 7
# a whole state that is prepared, and decided
segment 1 0 1
touch = ok
commit 2 = ok
touch = ok
store 0 5 all = ok
commit 3 = ok
touch = ok
store 0 6 all = ok
try prepare 4
calls 4
under 4
half 2400
old ok 3 30 0 0 5 1023 7
new ok 4 40 0 0 6 1023 7
# a decision
segment 1 0 1
log 11 3 1 0 1 = ok
store 0 9 all = ok
prepare 5 = ok
try decide 5
calls 4
under itself
half 8
old ok 1 10 1 11 3 1 0 1 1023 7
new ok 5 50 0 0 9 1023 7
";

/// The same where the other half begins with a state of before.
pub const WHOLES: &str = "\
# a commit as a whole: the other half is closed first
segment 1 0 1
touch = ok
commit 2 = ok
touch = ok
store 0 5 all = ok
commit 3 = ok
touch = ok
commit 4 = ok
touch = ok
commit 5 = ok
touch = ok
store 1 6 all = ok
commit 6 = ok
touch = ok
store 1 8 all = ok
try commit 7
calls 6
under 0
half 2400
old ok 6 60 0 0 5 1 6 1023 7
new ok 7 70 0 0 5 1 8 1023 7
# a whole state that is prepared, and not decided
segment 1 0 1
touch = ok
commit 2 = ok
touch = ok
store 0 5 all = ok
commit 3 = ok
touch = ok
commit 4 = ok
touch = ok
commit 5 = ok
touch = ok
store 1 6 all = ok
commit 6 = ok
touch = ok
store 1 8 all = ok
try prepare 7
calls 6
under 6
half 2400
old ok 6 60 0 0 5 1 6 1023 7
new ok 6 60 0 0 5 1 6 1023 7
";

/// Recoveries, which change no state.
pub const RECOVERIES: &str = "\
# lines that are prepared and not decided
segment 1 0 1
store 0 9 all = ok
prepare 5 = ok
fall = ok
try recover 4
calls 3
under 4
half 1
old ok 1 10 0 1023 7
new ok 1 10 0 1023 7
# a whole state that is prepared and not decided
segment 1 0 1
touch = ok
commit 2 = ok
touch = ok
store 0 5 all = ok
commit 3 = ok
touch = ok
store 0 6 all = ok
prepare 4 = ok
fall = ok
try recover 3
calls 3
under 3
half 1
old ok 3 30 0 0 5 1023 7
new ok 3 30 0 0 5 1023 7
# what was decided
segment 1 0 1
log 11 3 1 0 1 = ok
store 0 9 all = ok
prepare 5 = ok
decide 5 = ok
fall = ok
try recover 5
calls 1
under itself
half 1
old ok 5 50 0 0 9 1023 7
new ok 5 50 0 0 9 1023 7
# a disk on which nobody made a store: the first state is written
segment 1 0 1
blank 44000 = ok
attach = ok
try recover 0
calls 5
under 0
half 2400
old ok 1 10 0 1023 7
new ok 1 10 0 1023 7
";

/// A making, and how many calls of the disk it makes.
pub const MAKING: &str = "\
segment 1 0 1
calls 4
under 0
half 2400
old ok 1 10 0 1023 7
";
