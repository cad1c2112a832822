//! What is tried, as text.

/// Cases of stores: two processes have 40 words each.
///
/// A line is a listed call (process, call, fault, what it keeps, what it fills with), or a call and its answer.
pub const STORES: &str = "\
# keeps what is stored
store 0 1 7 = ok
store 1 1 9 = ok
load 0 0 = 0
load 0 1 = 7
load 1 1 = 9
# stops at a listed store
listed 0 2 stopped 0
store 0 1 7 = ok
store 0 2 9 = stopped
load 0 2 = 0
refused 0 = 1 0
store 0 2 9 = ok
load 0 2 = 9
# may keep the word of a listed store
listed 0 2 stopped 1
store 0 1 7 = ok
store 0 2 9 = stopped
load 0 2 = 9
# fails at a listed store, the first of one call
listed 0 3 failed 1
listed 0 1 failed 0
listed 0 1 stopped 1
store 0 0 5 = failed
store 0 0 6 = ok
store 0 0 7 = failed
load 0 0 = 7
refused 0 = 0 2
# numbers the calls of each process
listed 1 2 stopped 0
store 0 0 1 = ok
store 0 0 2 = ok
store 1 0 3 = ok
store 1 0 4 = stopped
load 1 0 = 3
calls 0 = 2
calls 1 = 2
calls 2 = 0
calls 32 = 18446744073709551615
# makes a store again
store 1 3 6 = ok
format 1 = ok
load 1 3 = 0
calls 1 = 1
# copies a line
store 0 3 7 = ok
store 0 15 8 = ok
store 0 16 9 = ok
copy 0 0 20 = ok
load 0 23 = 7
load 0 35 = 8
load 0 36 = 0
copy 0 20 20 = ok
load 0 23 = 7
calls 0 = 5
# sets words in a row, each by a call
words 0 38 5 6 = ok
words 0 0 7 = ok
words 0 40 = ok
words 1 1 = ok
load 0 38 = 5
load 0 39 = 6
load 0 0 = 7
load 1 1 = 0
calls 0 = 3
calls 1 = 0
# sets the first words of a row in which a call is listed
listed 0 4 stopped 0
listed 0 6 failed 1
listed 1 2 stopped 0
words 0 3 11 12 = ok
words 0 5 13 14 15 = stopped
load 0 5 = 13
load 0 6 = 0
load 0 7 = 0
calls 0 = 4
words 0 6 24 25 26 = failed
load 0 6 = 24
load 0 7 = 25
load 0 8 = 0
calls 0 = 6
refused 0 = 1 1
words 0 0 1 2 3 4 = ok
calls 0 = 10
# sets all words of a row behind which a call is listed
listed 0 3 stopped 1
words 0 1 8 9 = ok
load 0 2 = 9
words 0 3 10 11 = stopped
load 0 3 = 10
load 0 4 = 0
# copies the first words of a line at a listed call
listed 0 3 stopped 3
listed 0 4 failed 99
store 0 1 7 = ok
store 0 3 8 = ok
copy 0 0 20 = stopped
load 0 21 = 7
load 0 23 = 0
copy 0 0 20 = failed
load 0 23 = 8
refused 0 = 1 1
";

/// Cases of disks: process 0 has one of six bytes, which are 1 to 6 and synced by its first two calls.
pub const DISKS: &str = "\
# reads what is written
write 2 9 8 = ok
read 0 6 = 1 2 9 8 5 6
sync = ok
read 0 6 = 1 2 9 8 5 6
calls 0 = 4
size 0 = 6
size 1 = 0
# tears a listed write
listed 0 3 stopped 2
listed 0 4 failed 1 255
write 1 11 12 13 14 = stopped
read 0 6 = 1 11 12 4 5 6
write 2 21 22 23 = failed
read 0 6 = 1 11 21 255 255 6
refused 0 = 1 1
# a refused sync may lose what is pending
listed 0 4 stopped 0
write 1 11 12 = ok
sync = stopped
read 0 6 = 1 2 3 4 5 6
# a refused sync may keep what is pending
listed 0 4 failed 1
write 1 11 12 = ok
sync = failed
read 0 6 = 1 11 12 4 5 6
# a refused sync may fill what is pending
listed 0 3 stopped 1
listed 0 4 stopped 0 7
listed 0 6 stopped 0 8
write 1 11 12 13 = stopped
sync = stopped
read 0 6 = 1 7 7 7 5 6
sync = ok
sync = stopped
read 0 6 = 1 7 7 7 5 6
# keeps apart what is written apart
listed 0 5 stopped 0
write 4 15 = ok
write 0 10 = ok
read 0 6 = 10 2 3 4 15 6
sync = stopped
read 0 6 = 1 2 3 4 5 6
";
