//! Calls and their answers, as text.

/// A case begins with the number of processes, the process's own and the pages of its memory, whose last word is 7 and whose others are 0.
/// Each other line is a call and its answer, `N times` the call where it is made so often. A kernel that is committed under a number has
/// ten times that as its position. `touch` stores to each line of a page, and changes no word. The line that begins with `segment` is that of a
/// segment too.
///
/// A half has 8 bytes for each word of memory and of a kernel's text, of which there are 41 and 139 for each process, and 12368 more.
pub const CALLS: &str = "\
# a making is one record; what it writes behind its gate: three zeros, a length, the kind, the number
segment 1 0 1
calls = 4
size = 44000
bytes 0 20 = 1 0 0 0 216 18 0 0 1 0 0 0 1 0 0 0 1 0 0 0
bytes 4832 1 = 0
bytes 22000 1 = 0
state 0 = ok 1 10 0 1023 7
# a disk for a larger memory
segment 1 0 16
size = 289760
# a larger one for eight processes
segment 8 0 256
size = 4237488
# the calls of the disk: four for a record, one sync for a recovery or a decided number, and none for the rest
segment 1 0 1
calls = 4
store 0 5 all = ok
load 0 = 5
calls = 0
commit 2 = ok
calls = 4
log 21 3 1 0 64 = ok
calls = 4
prepare 3 = ok
calls = 4
decide 3 = ok
calls = 4
finish = ok
calls = 0
decided = 3
calls = 1
fall = ok
calls = 0
state 3 = ok 3 30 0 0 5 1023 7
calls = 1
attach = ok
calls = 0
# a record of lines: the line of a word that was stored to, and that of the commit number behind the memory
segment 1 0 1
store 17 9 all = ok
commit 2 = ok
bytes 4832 24 = 1 0 0 0 148 0 0 0 5 0 0 0 2 0 0 0 2 0 0 0 1 0 0 0
bytes 4856 8 = 0 0 0 0 9 0 0 0
bytes 4920 28 = 64 0 0 0 1 0 0 0 1 0 0 0 0 0 0 0 0 0 0 0 0 0 0 0 2 0 0 0
bytes 4988 1 = 0
# a word that is set to what it was is a store, too
segment 1 0 1
store 17 0 all = ok
commit 2 = ok
bytes 4836 4 = 148 0 0 0
# each line that was stored to; the third such record has no room
segment 1 0 1
touch = ok
commit 2 = ok
bytes 4832 24 = 1 0 0 0 80 17 0 0 5 0 0 0 2 0 0 0 65 0 0 0 0 0 0 0
bytes 9272 1 = 0
touch = ok
commit 3 = ok
bytes 13712 1 = 0
touch = ok
commit 4 = ok
bytes 13712 1 = 0
bytes 22000 16 = 1 0 0 0 216 18 0 0 1 0 0 0 4 0 0 0
state 0 = ok 4 40 0 1023 7
# a recovery leaves no line marked: word 100 is word 4 of line 6, the one line that was stored to since; the text begins with line 64
segment 1 0 1
store 0 5 all = ok
store 17 6 all = ok
store 40 8 all = ok
fall = ok
state 0 = ok 1 10 0 1023 7
store 100 9 all = ok
commit 2 = ok
bytes 4832 24 = 1 0 0 0 148 0 0 0 5 0 0 0 2 0 0 0 2 0 0 0 6 0 0 0
bytes 4856 64 = 0 0 0 0 0 0 0 0 0 0 0 0 0 0 0 0 9 0 0 0 0 0 0 0 0 0 0 0 0 0 0 0 0 0 0 0 0 0 0 0 0 0 0 0 0 0 0 0 0 0 0 0 0 0 0 0 0 0 0 0 0 0 0 0
bytes 4920 68 = 64 0 0 0 1 0 0 0 1 0 0 0 0 0 0 0 0 0 0 0 0 0 0 0 2 0 0 0 20 0 0 0 0 0 0 0 0 0 0 0 0 0 0 0 0 0 0 0 0 0 0 0 0 0 0 0 0 0 0 0 0 0 0 0 0 0 0 0
bytes 4988 1 = 0
# nor does one that writes the first state: a record of one line has 80 bytes behind its length
segment 1 0 1
store 17 6 all = ok
blank 44000 = ok
state 0 = ok 1 10 0 1023 7
commit 2 = ok
bytes 4832 24 = 1 0 0 0 80 0 0 0 5 0 0 0 2 0 0 0 1 0 0 0 64 0 0 0
# an event and its text
segment 1 0 1
log 21 3 1 0 2 = ok
bytes 4832 36 = 1 0 0 0 88 0 0 0 4 0 0 0 21 0 0 0 3 0 0 0 1 0 0 0 0 0 0 0 2 0 0 0 1 2 0 0
bytes 4928 1 = 0
# prepared lines, and a decision
segment 1 0 1
prepare 9 = ok
bytes 4832 24 = 1 0 0 0 80 0 0 0 6 0 0 0 9 0 0 0 1 0 0 0 64 0 0 0
decide 9 = ok
bytes 4920 17 = 1 0 0 0 8 0 0 0 3 0 0 0 9 0 0 0 0
# an undecided record is closed; what follows takes its index
segment 1 0 1
prepare 9 = ok
fall = ok
bytes 4832 1 = 1
calls = 8
state 8 = ok 1 10 0 1023 7
calls = 3
bytes 4832 1 = 0
log 21 3 1 0 2 = ok
bytes 4832 9 = 1 0 0 0 88 0 0 0 4
state 9 = ok 1 10 1 21 3 1 0 2 1023 7
# a half is left where 6168 bytes would not stay; the other one has no open gate at first, and one the next time
segment 1 0 1
64 times log 9 7 0 0 0 = ok
commit 2 = ok
48 times log 9 7 0 0 0 = ok
store 0 5 all = ok
commit 3 = ok
bytes 15828 1 = 0
bytes 22000 1 = 0
calls = 460
commit 4 = ok
calls = 4
bytes 15828 1 = 0
bytes 0 1 = 1
bytes 22000 16 = 1 0 0 0 216 18 0 0 1 0 0 0 4 0 0 0
state 0 = ok 4 40 0 0 5 1023 7
calls = 1
64 times log 9 7 0 0 0 = ok
commit 5 = ok
48 times log 9 7 0 0 0 = ok
store 0 6 all = ok
commit 6 = ok
calls = 456
prepare 7 = ok
calls = 6
bytes 0 16 = 1 0 0 0 216 18 0 0 2 0 0 0 7 0 0 0
bytes 22000 1 = 1
fall = ok
state 6 = ok 6 60 0 0 6 1023 7
calls = 3
bytes 0 1 = 0
commit 8 = ok
calls = 4
bytes 0 16 = 1 0 0 0 216 18 0 0 1 0 0 0 8 0 0 0
state 0 = ok 8 80 0 0 6 1023 7
# a prepared state that is whole, and is decided
segment 1 0 1
64 times log 9 7 0 0 0 = ok
commit 2 = ok
48 times log 9 7 0 0 0 = ok
store 0 5 all = ok
commit 3 = ok
store 1 6 all = ok
prepare 4 = ok
decide 4 = ok
finish = ok
fall = ok
decided = 4
state 4 = ok 4 40 0 0 5 1 6 1023 7
log 41 3 2 0 0 = ok
commit 5 = ok
decided = 4
state 4 = ok 5 50 0 0 5 1 6 1023 7
# an attached handle: over a store that was made
segment 2 1 1
store 0 5 all = ok
commit 2 = ok
log 21 3 1 0 2 = ok
store 1 9 all = ok
calls = 12
attach = ok
calls = 0
ready = 0
state 0 = ok 2 20 1 21 3 1 0 2 0 5 1023 7
calls = 1
store 1 8 all = ok
commit 3 = ok
attach = ok
state 0 = ok 3 30 0 0 5 1 8 1023 7
# over zeros that nobody made a store of
segment 1 0 1
store 0 5 all = ok
commit 2 = ok
blank 44000 = ok
attach = ok
decided = 0
calls = 9
state 0 = ok 1 10 0 1023 7
calls = 5
store 0 6 all = ok
commit 3 = ok
fall = ok
state 0 = ok 3 30 0 0 6 1023 7
calls = 5
# a disk that is shorter than two halves holds none; its decided number is 0
segment 1 0 1
blank 43999 = ok
calls = 4
decided = 0
calls = 1
state 0 = header
calls = 1
ready = 0
attach = ok
state 9 = header
blank 0 = ok
state 0 = header
decided = 0
# one that is longer may
segment 1 0 1
blank 44001 = ok
state 0 = ok 1 10 0 1023 7
commit 2 = ok
fall = ok
state 0 = ok 2 20 0 1023 7
";
