//! Contents, as text.

/// What the rows write over: memory whose first word is 5 was committed, and one event logged since.
pub const BASE: &str = "\
segment 1 0 1
store 0 5 all = ok
commit 2 = ok
log 21 3 1 0 2 = ok
";

/// A row has the words that are written, each as its part, its index there and its value, with `*` as many from there on; the decided number;
/// and what is read under that.
/// A line that begins with `#` says what the rows below it try.
pub const ROWS: &str = "\
# nothing is wrong; what is behind the decided number is not read
|0|ok 2 20 1 21 3 1 0 2 0 5 1023 7
h8=7 h9=5 h15=4294967295|0|ok 2 20 1 21 3 1 0 2 0 5 1023 7
|4294967295|ok 2 20 1 21 3 1 0 2 0 5 1023 7
# a header that is another's: ready, version, words of memory, n, p
h0=7|0|header
h0=1145263664|0|header
h0=1|0|header
h1=2|0|header
h1=0|0|header
h2=1023|0|header
h2=2048|0|header
h3=2|0|header
h3=0|0|header
h4=1|0|header
# more undo lines than there are lines, and one of no line
h5=77|0|record-76
h5=4294967295|0|record-76
h5=1 n0=76|0|record-0
h5=1 n0=4294967295|0|record-0
h5=3 n1=76 n2=77|0|record-1
h5=3 n2=76|0|record-2
h5=76 n1=0*74 n75=76|0|record-75
h5=1 n1=76|0|ok 2 20 1 21 3 1 0 2 1023 7
# undo lines that count
h5=1 u0=4 u15=6|0|ok 2 20 1 21 3 1 0 2 0 4 15 6 1023 7
h5=2 n1=0 u0=5 u16=9 b0=11|0|ok 2 20 1 21 3 1 0 2 0 5 1023 7
h5=76 n1=0*75|0|ok 2 20 1 21 3 1 0 2 1023 7
h5=1 n0=75|0|ok 2 20 1 21 3 1 0 2 0 5 1023 7
h5=2|0|kernel
h5=2 l0=0|0|ok 1 10 0 1023 7
# an event that is none: event, answer, sender, length; the first of them counts
l2=4|0|record-77
l2=0|0|record-77
l3=3|0|record-77
l2=7 l3=2|0|record-77
l3=2|0|ok 2 20 1 21 3 2 0 0 0 5 1023 7
l2=7|0|ok 2 20 1 21 7 1 0 2 0 5 1023 7
l4=1|0|record-77
l5=65|0|record-77
l5=64|0|ok 2 20 1 21 3 1 0 99 0 5 1023 7
l2=4 l22=2|0|record-77
l22=2|0|record-78
l22=2 l24=7 l23=9|0|ok 2 20 2 21 3 1 0 2 9 7 0 0 0 0 5 1023 7
# behind the last that is tagged nothing counts but its tag
l23=9 l24=4 l27=65|0|ok 2 20 1 21 3 1 0 2 0 5 1023 7
l44=1 l46=9|0|ok 2 20 1 21 3 1 0 2 0 5 1023 7
l1386=1 l1388=4|0|ok 2 20 1 21 3 1 0 2 0 5 1023 7
l44=2|0|kernel
l44=2 l46=3|0|kernel
l22=3|0|kernel
l22=4294967295|0|kernel
l1386=3|0|kernel
l0=3|0|kernel
l0=1|0|ok 2 20 0 0 5 1023 7
# a kernel that is refused: version, n, p, own entry, status, code, address
k0=2|0|kernel
k0=0|0|kernel
k1=2|0|kernel
k2=1|0|kernel
k41=1|0|kernel
k179=1|0|kernel
k3=3|0|kernel
k4=1|0|kernel
k3=2 k4=8|0|kernel
k9=2|0|kernel
k180=1|0|ok 2 20 1 21 3 1 0 2 0 5 1023 7
# its commit number, and that of the last that was finished
h6=3 h7=3|0|kernel
h6=2 h7=2|0|ok 2 20 1 21 3 1 0 2 0 5 1023 7
k5=1|0|kernel
k5=9|0|ok 9 20 0 0 5 1023 7
k5=0|0|kernel
k5=0 l0=0|0|record-78
# a prepared commit that is decided, and one that is not
h6=2|2|ok 2 20 1 21 3 1 0 2 0 5 1023 7
h6=2|1|ok 2 20 1 21 3 1 0 2 0 5 1023 7
h5=1 u0=4 h6=2|2|ok 2 20 1 21 3 1 0 2 0 5 1023 7
h5=1 u0=4 h6=2|1|ok 2 20 1 21 3 1 0 2 0 4 1023 7
h5=1 u0=4 h6=2 h8=9|1|ok 2 20 1 21 3 1 0 2 0 4 1023 7
h6=3|3|kernel
h6=3|2|ok 2 20 1 21 3 1 0 2 0 5 1023 7
h6=3|4294967295|kernel
h6=1 h7=3|1|kernel
h6=1 h7=3|0|kernel
h6=1 h7=2|1|ok 2 20 1 21 3 1 0 2 0 5 1023 7
h6=1 h7=2|0|ok 2 20 1 21 3 1 0 2 0 5 1023 7
h5=1 u0=4 h6=0 h7=2|0|ok 2 20 1 21 3 1 0 2 0 5 1023 7
h5=1 n0=76 h6=2|2|record-0
# a store that is not ready stands for the first state
h0=0|0|ok 1 10 0 1023 7
h0=0 h1=9 h5=99 h6=3 k0=7 b0=3 l0=9 n0=77|9|ok 1 10 0 1023 7
# of more faults than one the first
h1=2 h5=77|0|header
h0=7 h5=77|0|header
h2=0 k0=2|0|header
h5=1 n0=76 l2=4|0|record-0
h5=77 k0=2|0|record-76
l2=4 k0=2|0|record-77
l2=4 h6=3 h7=3|0|record-77
l2=4 l44=2|0|record-77
h5=77 n0=76|0|record-76
";

/// A segment of 16 pages.
pub const LARGE_BASE: &str = "\
segment 1 0 16
commit 2 = ok
";

/// It has 1036 lines.
pub const LARGE_ROWS: &str = "\
h5=1037|0|record-1036
|0|ok 2 20 0 16383 7
";

/// Over a log that was full before the last commit.
pub const FULL_ROWS: &str = "\
k5=2 l0=2 l1388=4|0|record-140
";
