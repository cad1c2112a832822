//! Contents, as text.

/// A row has what is on the disk, a call, its answer, and how many calls of the disk it makes: a recovery one sync, two calls more for each
/// gate that it closes, and four for the first state where no half counts.
/// A line that begins with `#` says what the rows below it try.
pub const FIRST_ROWS: &str = "\
# a whole state in either half, or in none
low whole-2|state 0|ok 2 20 0 1023 7|1
high whole-2|state 0|ok 2 20 0 1023 7|1
|state 0|ok 1 10 0 1023 7|5
|decided|0|1
low whole-2|decided|0|1
low whole-2|state 4294967295|ok 2 20 0 1023 7|1
low whole-4294967295|recover 0|ok 4294967295 4294967295 0|1
# a gate is open where it is 1
low whole-2 low .0|state 0|ok 1 10 0 1023 7|5
low whole-2 low .2|state 0|ok 1 10 0 1023 7|5
low whole-2 low .255|state 0|ok 1 10 0 1023 7|5
low whole-2 lines-3-1 at-4832 .0|state 0|ok 2 20 0 1023 7|1
low whole-2 lines-3-1 at-4832 .2|state 0|ok 2 20 0 1023 7|1
low whole-2 lines-3-1 at-4832 .255|state 0|ok 2 20 0 1023 7|1
low whole-2 lines-3-1 at-4832 .3 .9 .9 .9 4294967295|state 0|ok 2 20 0 1023 7|1
low whole-2 low .0 high whole-3|state 0|ok 3 30 0 1023 7|1
# three zeros stand behind a gate
low whole-2 at-1 .1|state 0|record-0|1
low whole-2 at-2 .1|state 0|record-0|1
low whole-2 at-3 .255|state 0|record-0|1
low whole-2 lines-3-1 at-4833 .1|state 0|record-1|1
low whole-2 lines-3-1 at-4834 .2|state 0|record-1|1
low whole-2 lines-3-1 at-4835 .128|state 0|record-1|1
# the length of a first record: past the half, and not its own
low whole-2 at-4 21984|state 0|record-0|1
low whole-2 at-4 21985|state 0|record-0|1
low whole-2 at-4 4294967295|state 0|record-0|1
low whole-2 at-4 4820|state 0|record-0|1
low whole-2 at-4 4828|state 0|record-0|1
low whole-2 at-4 4825|state 0|record-0|1
low whole-2 at-4 0|state 0|record-0|1
# that of another one: past the half, under a word, and no multiple of four
low whole-2 lines-3-1 at-4836 17153|state 0|record-1|1
low whole-2 lines-3-1 at-4836 17152|state 0|record-1|1
low whole-2 lines-3-1 at-4836 4294967295|state 0|record-1|1
low whole-2 lines-3-1 at-4836 0|state 0|record-1|1
low whole-2 lines-3-1 at-4836 3|state 0|record-1|1
low whole-2 lines-3-1 at-4836 79|state 0|record-1|1
low whole-2 lines-3-1 at-4836 81|state 0|record-1|1
low whole-2 lines-3-1 at-4836 76|state 0|record-1|1
low whole-2 ( )|state 0|record-1|1
low whole-2 ( 3 9 ) at-4836 6|state 0|record-1|1
low whole-2 ( 3 9 ) at-4836 4|state 0|record-1|1
low whole-2 ( 3 9 ) at-4836 12|state 0|record-1|1
low whole-2 ( 3 )|state 0|record-1|1
low whole-2 ( 3 9 0 )|state 0|record-1|1
# a kind that is none
low whole-2 ( 0 9 )|state 0|record-1|1
low whole-2 ( 7 9 )|state 0|record-1|1
low whole-2 ( 259 9 )|state 0|record-1|1
low whole-2 ( 4294967295 9 )|state 0|record-1|1
# a first record that is no state
low ( 3 9 )|state 0|record-0|1
low ( 7 9 )|state 0|record-0|1
low events-1|state 0|record-0|1
low lines-2-1|state 0|record-0|1
low ( 6 2 1 head-2 )|state 0|record-0|1
low ( 3 9 ) high whole-3|state 0|record-0|1
low whole-3 high ( 3 9 )|state 0|record-0|1
low whole-3 high lines-4-1|state 0|record-0|1
high ( 7 )|state 0|record-0|1
# a whole state that has a word more or less, or another number than its kernel
low ( 1 2 text-2 0*1022 7 )|state 0|record-0|1
low ( 1 2 text-2 0*1024 7 )|state 0|record-0|1
low ( 1 3 text-2 memory )|state 0|record-0|1
low ( 2 3 text-2 memory )|state 3|record-0|1
# the words of a memory, and a second whole state
low ( 1 2 text-2 5 0*1021 6 7 )|state 0|ok 2 20 0 0 5 1022 6 1023 7|1
low whole-2 whole-3|state 0|record-1|1
low whole-2 prepared-3|state 3|record-1|1
low whole-2 lines-3-1 whole-4|state 0|record-2|1
# both halves: the greater number counts, and two that are one refuse
low whole-2 high whole-3|state 0|ok 3 30 0 1023 7|1
low whole-3 high whole-2|state 0|ok 3 30 0 1023 7|1
low whole-2 lines-9-1 high whole-3|state 0|ok 3 30 0 1023 7|1
low whole-2 ( 7 ) high whole-3|state 0|ok 3 30 0 1023 7|1
low whole-3 high whole-2 ( 7 )|state 0|ok 3 30 0 1023 7|1
low whole-2 high whole-2|state 0|record-0|1
low whole-2 lines-3-1 high whole-2|state 0|record-0|1
# a text of a kernel that is refused: version, processes, own number, status, address, own entry
low ( 1 2 2 1 0 0 0 2 20 0*173 memory )|state 0|kernel|1
low ( 1 2 0 1 0 0 0 2 20 0*173 memory )|state 0|kernel|1
low ( 1 2 1 2 0 0 0 2 20 0*173 memory )|state 0|kernel|1
low ( 1 2 1 1 1 0 0 2 20 0*173 memory )|state 0|kernel|1
low ( 1 2 1 1 0 3 0 2 20 0*173 memory )|state 0|kernel|1
low ( 1 2 1 1 0 0 1 2 20 0*173 memory )|state 0|kernel|1
low ( 1 2 1 1 0 0 0 2 20 0*2 2 0*170 memory )|state 0|kernel|1
low ( 1 2 1 1 0 0 0 2 20 0*34 1 0*138 memory )|state 0|kernel|1
low ( 1 2 1 1 0 0 0 2 20 0*172 1 memory )|state 0|kernel|1
low whole-2 ( 5 3 1 64 2 1 0 0 0 3 30 0*9 )|state 0|kernel|1
# a text is looked at behind all records: lines may mend it, and a record that is wrong comes first
low ( 1 2 2 1 0 0 0 2 20 0*173 memory ) lines-3-1|state 0|ok 3 30 0 1023 7|1
low ( 1 2 2 1 0 0 0 2 20 0*173 memory ) ( 7 )|state 0|record-1|1
low ( 1 2 2 1 0 0 0 2 20 0*173 memory ) high whole-3|state 0|ok 3 30 0 1023 7|1
";

/// Rows with more records.
pub const LATER_ROWS: &str = "\
# lines, also of the last line with its pad
low whole-2 lines-3-1|state 0|ok 3 30 0 1023 7|1
low whole-2 ( 5 3 2 0 5 0*14 6 head-3 )|state 0|ok 3 30 0 0 5 15 6 1023 7|1
low whole-2 ( 5 3 2 63 8 0*15 head-3 )|state 0|ok 3 30 0 1008 8|1
low whole-2 ( 5 3 2 head-3 75 0*16 )|state 0|ok 3 30 0 1023 7|1
low whole-2 ( 5 9 1 head-9 )|state 0|ok 9 90 0 1023 7|1
low whole-2 ( 5 4294967295 1 head-4294967295 )|recover 0|ok 4294967295 4294967295 0|1
low whole-2 ( 5 3 2 0 5 0*15 head-3 ) ( 5 4 2 0 0 6 0*14 head-4 )|state 0|ok 4 40 0 1 6 1023 7|1
# a count that is not that of the lines
low whole-2 ( 5 3 0 )|state 0|record-1|1
low whole-2 ( 5 3 )|state 0|record-1|1
low whole-2 ( 5 )|state 0|record-1|1
low whole-2 ( 5 3 0 head-3 )|state 0|record-1|1
low whole-2 ( 5 3 2 head-3 )|state 0|record-1|1
low whole-2 ( 5 3 4294967295 head-3 )|state 0|record-1|1
low whole-2 ( 5 3 1 head-3 0 )|state 0|record-1|1
low whole-2 ( 5 3 1 64 1 1 0*3 3 30 0*8 )|state 0|record-1|1
# numbers of lines that fall, stay, or are past the last
low whole-2 ( 5 3 2 head-3 0 0*16 )|state 0|record-1|1
low whole-2 ( 5 3 2 head-3 63 0*16 )|state 0|record-1|1
low whole-2 ( 5 3 2 head-3 head-3 )|state 0|record-1|1
low whole-2 ( 5 3 3 5 0*16 5 0*16 head-3 )|state 0|record-1|1
low whole-2 ( 5 3 3 5 0*16 4 0*16 head-3 )|state 0|record-1|1
low whole-2 ( 5 3 2 head-3 76 0*16 )|state 0|record-1|1
low whole-2 ( 5 3 2 head-3 4294967295 0*16 )|state 0|record-1|1
# words of the pad, and of the text before it
low whole-2 ( 5 3 2 head-3 75 0*4 1 0*11 )|state 0|record-1|1
low whole-2 ( 5 3 2 head-3 75 0*15 1 )|state 0|record-1|1
low whole-2 ( 5 3 2 head-3 75 0*3 1 0*12 )|state 0|kernel|1
# a number that stays, jumps back, or is not that of the text which the lines leave
low whole-2 lines-2-1|state 0|record-1|1
low whole-2 lines-1-1|state 0|record-1|1
low whole-2 lines-3-1 lines-3-1|state 0|record-2|1
low whole-2 lines-4-1 lines-3-1|state 0|record-2|1
low whole-2 ( 5 3 1 head-4 )|state 0|record-1|1
low whole-2 ( 5 4 1 head-3 )|state 0|record-1|1
low whole-2 ( 5 3 1 0 0*16 )|state 0|record-1|1
low whole-2 ( 5 2 1 0 0*16 )|state 0|record-1|1
low whole-2 ( 5 3 2 0 0*5 3 0*10 65 0*16 )|state 0|record-1|1
# decisions: one behind each state, before an event or behind it
low whole-2 ( 3 9 )|state 0|ok 2 20 0 1023 7|1
low whole-2 ( 3 9 )|decided|9|1
low whole-2 ( 3 1 )|decided|1|1
low whole-2 events-1 ( 3 9 )|state 9|ok 2 20 1 1 3 0 0 0 1023 7|1
low whole-2 events-1 ( 3 9 )|decided|9|1
low whole-2 ( 3 9 ) events-1|state 9|ok 2 20 1 1 3 0 0 0 1023 7|1
low whole-2 ( 3 9 ) ( 3 10 )|state 0|record-2|1
low whole-2 ( 3 9 ) ( 3 10 )|decided|9|1
low whole-2 ( 3 9 ) events-1 ( 3 10 )|state 0|record-3|1
low whole-2 ( 3 9 ) lines-3-1 ( 3 10 )|state 0|ok 3 30 0 1023 7|1
low whole-2 ( 3 9 ) lines-3-1 ( 3 10 )|decided|10|1
low whole-2 ( 3 9 ) lines-3-1 ( 3 4 )|decided|9|1
low whole-2 ( 3 9 ) high whole-3 ( 3 5 )|decided|9|1
low whole-2 ( 3 5 ) high whole-3 ( 3 9 )|decided|9|1
# the decided number is steady, which is told by 1, where it stands among what counts under it, in the half that is then read
|steady|1|1
low whole-2 ( 3 9 )|steady|1|1
low whole-2 ( 3 5 ) high whole-3 ( 3 9 )|steady|1|1
low whole-2 ( 3 9 ) high whole-3 ( 3 5 )|steady|0|1
low whole-2 ( 3 9 ) high whole-3|steady|0|1
low whole-2 ( 3 9 ) high whole-2|steady|0|1
low whole-2 ( 3 9 ) high ( 7 )|steady|1|1
low whole-2 ( 3 9 ) high prepared-10|steady|1|1
low whole-2 ( 3 9 ) high prepared-3|steady|0|1
# behind a record that is wrong no decision is read
low whole-2 ( 7 ) ( 3 9 )|decided|0|1
low ( 7 ) ( 3 9 )|decided|0|1
# events: 64 behind each state
low whole-2 events-64|recover 0|ok 2 20 64|1
low whole-2 events-65|recover 0|record-65|1
low whole-2 events-64 ( 3 9 ) events-1|recover 0|record-66|1
low whole-2 events-64 lines-3-1 events-64|recover 0|ok 3 30 64|1
low whole-2 events-64 lines-3-1 events-65|recover 0|record-130|1
# what an event says: position, call, answer, sender, length of its body, and words of it
low whole-2 ( 4 21 3 2 0 0 0*16 )|state 0|ok 2 20 1 21 3 2 0 0 1023 7|1
low whole-2 ( 4 21 7 0 0 0 0*16 )|state 0|ok 2 20 1 21 7 0 0 0 1023 7|1
low whole-2 ( 4 21 7 1 0 2 513 0*15 )|state 0|ok 2 20 1 21 7 1 0 2 1023 7|1
low whole-2 ( 4 21 3 1 0 5 67305985 5 0*14 )|state 0|ok 2 20 1 21 3 1 0 5 1023 7|1
low whole-2 ( 4 21 3 1 0 1 67305985 5 0*14 )|state 0|ok 2 20 1 21 3 1 0 1 1023 7|1
low whole-2 ( 4 21 3 1 0 64 0*16 )|state 0|ok 2 20 1 21 3 1 0 99 1023 7|1
low whole-2 ( 4 21 7 2 0 0 0*16 )|state 0|record-1|1
low whole-2 ( 4 21 3 3 0 0 0*16 )|state 0|record-1|1
low whole-2 ( 4 21 4 0 0 0 0*16 )|state 0|record-1|1
low whole-2 ( 4 21 0 0 0 0 0*16 )|state 0|record-1|1
low whole-2 ( 4 21 7 1 1 0 0*16 )|state 0|record-1|1
low whole-2 ( 4 21 3 0 1 0 0*16 )|state 0|record-1|1
low whole-2 ( 4 21 3 1 0 65 0*16 )|state 0|record-1|1
low whole-2 ( 4 21 3 1 0 4294967295 0*16 )|state 0|record-1|1
low whole-2 ( 4 21 3 1 0 0 0*15 )|state 0|record-1|1
low whole-2 ( 4 21 3 1 0 0 0*17 )|state 0|record-1|1
low whole-2 events-1 ( 4 21 7 2 0 0 0*16 )|state 0|record-2|1
# a prepared state counts from its number on; below it, its gate is closed, and what is behind it is not read
low prepared-2|state 2|ok 2 20 0 1023 7|1
low prepared-2|state 3|ok 2 20 0 1023 7|1
low prepared-2|state 1|ok 1 10 0 1023 7|7
low prepared-2 high prepared-3|state 1|ok 1 10 0 1023 7|9
low prepared-2 high prepared-3|state 2|ok 2 20 0 1023 7|3
low prepared-2 high prepared-3|state 3|ok 3 30 0 1023 7|1
low whole-2 high prepared-3|state 2|ok 2 20 0 1023 7|3
low whole-2 high prepared-3|state 3|ok 3 30 0 1023 7|1
low prepared-3 high whole-2|state 2|ok 2 20 0 1023 7|3
low prepared-3 high whole-2|state 3|ok 3 30 0 1023 7|1
low whole-2 high prepared-2|state 2|record-0|1
low whole-2 high prepared-2|state 1|ok 2 20 0 1023 7|3
low whole-2 ( 6 3 1 head-3 )|state 2|ok 2 20 0 1023 7|3
low whole-2 ( 6 3 1 head-3 )|state 3|ok 3 30 0 1023 7|1
low whole-2 ( 6 3 1 head-3 ) ( 7 )|state 2|ok 2 20 0 1023 7|3
low whole-2 ( 6 3 1 head-3 ) ( 7 )|state 3|record-2|1
low whole-2 ( 6 3 1 head-3 ) events-1|state 3|ok 3 30 1 1 3 0 0 0 1023 7|1
low whole-2 ( 6 4 1 head-4 ) lines-3-1|state 3|ok 2 20 0 1023 7|3
low whole-2 ( 6 2 1 head-2 )|state 0|record-1|1
low whole-2 ( 6 3 1 head-4 )|state 0|record-1|1
low whole-2 ( 6 3 1 head-3 ) high prepared-4|state 2|ok 2 20 0 1023 7|5
low whole-2 ( 6 3 1 head-3 ) high prepared-4|state 3|ok 3 30 0 1023 7|3
low whole-2 ( 6 3 1 head-3 ) ( 3 9 )|decided|9|1
low prepared-2 ( 3 2 )|decided|2|1
low prepared-2 ( 3 2 )|state 2|ok 2 20 0 1023 7|1
# a half that is full: lines that leave 6168 bytes, their events and a decision, and 8 bytes behind these
low whole-2 lines-3-27 lines-4-27 lines-5-27 lines-6-27 lines-7-26 lines-8-26|recover 0|ok 8 80 0|1
low whole-2 lines-3-27 lines-4-27 lines-5-27 lines-6-27 lines-7-26 lines-8-26 events-64 ( 3 9 )|recover 0|ok 8 80 64|1
low whole-2 lines-3-27 lines-4-27 lines-5-27 lines-6-27 lines-7-26 lines-8-26 events-64 ( 3 9 )|decided|9|1
low whole-2 lines-3-27 lines-4-27 lines-5-27 lines-6-27 lines-7-26 lines-8-26 events-64 ( 3 9 ) .1|recover 0|record-72|1
low whole-2 lines-3-27 lines-4-27 lines-5-27 lines-6-27 lines-7-27 lines-8-26|recover 0|record-6|1
low whole-2 lines-3-27 lines-4-27 lines-5-27 lines-6-27 lines-7-26 lines-8-27|recover 0|record-6|1
low whole-2 lines-3-27 lines-4-27 lines-5-27 lines-6-27 lines-7-26 lines-8-26 lines-9-1|recover 0|record-7|1
high whole-2 lines-3-27 lines-4-27 lines-5-27 lines-6-27 lines-7-26 lines-8-26 events-64 ( 3 9 )|recover 0|ok 8 80 64|1
";

/// A case has what is on the disk, a stop in the recovery, as the call of the disk and how much it keeps, and calls with their answers. The
/// disk had five calls before: four of a making, and one that wrote what is said and is not sure of it; so a recovery syncs by the sixth.
pub const CLOSINGS: &str = "\
# two gates are to be closed: the sync before the disk is read loses what was pending
image low whole-2 ( 6 3 1 head-3 ) high prepared-4
stop 6 0
ready = 0
recover 2 = stopped
ready = 0
bytes 4832 1 = 0
bytes 22000 1 = 0
state 2 = ok 1 10 0 1023 7
# it keeps that
image low whole-2 ( 6 3 1 head-3 ) high prepared-4
stop 6 1
ready = 0
recover 2 = stopped
ready = 0
bytes 4832 1 = 1
bytes 22000 1 = 1
state 2 = ok 2 20 0 1023 7
bytes 4832 1 = 0
bytes 22000 1 = 0
# the lower gate is written first, and was not
image low whole-2 ( 6 3 1 head-3 ) high prepared-4
stop 7 0
ready = 0
recover 2 = stopped
ready = 0
bytes 4832 1 = 1
bytes 22000 1 = 1
state 2 = ok 2 20 0 1023 7
bytes 4832 1 = 0
bytes 22000 1 = 0
# it was
image low whole-2 ( 6 3 1 head-3 ) high prepared-4
stop 7 1
ready = 0
recover 2 = stopped
ready = 0
bytes 4832 1 = 0
bytes 22000 1 = 1
state 2 = ok 2 20 0 1023 7
bytes 4832 1 = 0
bytes 22000 1 = 0
# the sync behind it loses it
image low whole-2 ( 6 3 1 head-3 ) high prepared-4
stop 8 0
ready = 0
recover 2 = stopped
ready = 0
bytes 4832 1 = 1
bytes 22000 1 = 1
state 2 = ok 2 20 0 1023 7
bytes 4832 1 = 0
bytes 22000 1 = 0
# the higher gate was not written
image low whole-2 ( 6 3 1 head-3 ) high prepared-4
stop 9 0
ready = 0
recover 2 = stopped
ready = 0
bytes 4832 1 = 0
bytes 22000 1 = 1
state 2 = ok 2 20 0 1023 7
bytes 4832 1 = 0
bytes 22000 1 = 0
# it was
image low whole-2 ( 6 3 1 head-3 ) high prepared-4
stop 9 1
ready = 0
recover 2 = stopped
ready = 0
bytes 4832 1 = 0
bytes 22000 1 = 0
state 2 = ok 2 20 0 1023 7
bytes 4832 1 = 0
bytes 22000 1 = 0
# the sync behind it loses that alone
image low whole-2 ( 6 3 1 head-3 ) high prepared-4
stop 10 0
ready = 0
recover 2 = stopped
ready = 0
bytes 4832 1 = 0
bytes 22000 1 = 1
state 2 = ok 2 20 0 1023 7
bytes 4832 1 = 0
bytes 22000 1 = 0
# the first half waits, and lines of the other one
image low prepared-4 high whole-2 ( 6 3 1 head-3 )
stop 9 0
ready = 0
recover 2 = stopped
ready = 0
bytes 0 1 = 0
bytes 22000 1 = 1
bytes 26832 1 = 1
state 2 = ok 2 20 0 1023 7
bytes 0 1 = 0
bytes 22000 1 = 1
bytes 26832 1 = 0
# both halves wait
image low prepared-3 high prepared-4
stop 9 0
ready = 0
recover 2 = stopped
ready = 0
bytes 0 1 = 0
bytes 22000 1 = 1
state 2 = ok 1 10 0 1023 7
bytes 0 1 = 1
bytes 22000 1 = 0
# both are closed, and the first state is written behind a gate that is closed
image low prepared-3 high prepared-4
stop 11 999999
ready = 0
recover 2 = stopped
ready = 0
bytes 0 1 = 0
bytes 22000 1 = 0
state 2 = ok 1 10 0 1023 7
bytes 0 1 = 1
bytes 22000 1 = 0
# its gate is opened last
image low prepared-3 high prepared-4
stop 13 1
ready = 0
recover 2 = stopped
ready = 0
bytes 0 1 = 1
bytes 22000 1 = 0
state 2 = ok 1 10 0 1023 7
bytes 0 1 = 1
bytes 22000 1 = 0
";
