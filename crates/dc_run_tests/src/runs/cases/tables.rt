/// Each call of a turn and of the recovery behind it is stopped, with what it keeps and with what the rest is filled.
pub const STOPPED: &str = "\
* a clock that is shown in memory: each call of its turn
guests=clock
schedule=8 x 0 0 65, 10 x 0 0 66
stops=6 0 1..last EACH
each=0|1
ends=0 1
* a clock that is shown in memory: each call of the recovery behind
guests=clock
schedule=8 x 0 0 65, 10 x 0 0 66
stops=6 0 FIRST 0, 7 0 1..last EACH
first=1|middle|last
each=0|1
ends=0 1
* an input that is logged in memory: each call of its turn
plan=protocol = \"cand-log\"~medium = \"rio\"~memory = 65536~inputs = [[\"6f6b\"]]~guests = [\"hi.elf\"]~schedule = \"schedule\"~
guests=reader
schedule=4 x 0 1 0, stop 0, 12 x 0 0 0
stops=3 0 1..last EACH
each=0|1
ends=0 1
* an input that is logged in memory: each call of the recovery behind
plan=protocol = \"cand-log\"~medium = \"rio\"~memory = 65536~inputs = [[\"6f6b\"]]~guests = [\"hi.elf\"]~schedule = \"schedule\"~
guests=reader
schedule=4 x 0 1 0, stop 0, 12 x 0 0 0
stops=3 0 FIRST 0, 5 0 1..last EACH
first=1|middle|last
each=0|1
ends=0 1
* a commit of all, at who shows in memory: each call of its turn
protocol=cpv-2pc
guests=clock hi
schedule=7 x 0 0 65, 11 x 0 0 66
stops=6 0 1..last EACH
each=0|1
ends=0 1
* a commit of all, at who shows in memory: each call of the recovery behind
protocol=cpv-2pc
guests=clock hi
schedule=7 x 0 0 65, 11 x 0 0 66
stops=6 0 FIRST 0, 7 0 1..last EACH
first=1|middle|last
each=0|1
ends=0 1
* a commit of all, at the other in memory: each call of its turn
protocol=cpv-2pc
guests=clock hi
schedule=7 x 0 0 65, 11 x 0 0 66
stops=6 1 1..last EACH
each=0|1
ends=0 1
* a commit of all, at the other in memory: each call of the recovery behind
protocol=cpv-2pc
guests=clock hi
schedule=7 x 0 0 65, 11 x 0 0 66
stops=6 1 FIRST 0, 7 1 1..last EACH
first=1|middle|last
each=0|1
ends=0 1
* a clock that is shown on a disk: each call of its turn
old=rio
new=disk
guests=clock
schedule=8 x 0 0 65, 10 x 0 0 66
stops=6 0 1..last EACH
each=0|1|0 0|0 1|0 255
ends=0 1
* a clock that is shown on a disk: each call of the recovery behind
old=rio
new=disk
guests=clock
schedule=8 x 0 0 65, 10 x 0 0 66
stops=6 0 FIRST 0, 7 0 1..last EACH
first=1|middle|last
each=0|1|0 0|0 1|0 255
ends=0 1
* an input that is logged on a disk: each call of its turn
old=rio
new=disk
plan=protocol = \"cand-log\"~medium = \"rio\"~memory = 65536~inputs = [[\"6f6b\"]]~guests = [\"hi.elf\"]~schedule = \"schedule\"~
guests=reader
schedule=4 x 0 1 0, stop 0, 12 x 0 0 0
stops=3 0 1..last EACH
each=0|1|0 0|0 1|0 255
ends=0 1
* an input that is logged on a disk: each call of the recovery behind
old=rio
new=disk
plan=protocol = \"cand-log\"~medium = \"rio\"~memory = 65536~inputs = [[\"6f6b\"]]~guests = [\"hi.elf\"]~schedule = \"schedule\"~
guests=reader
schedule=4 x 0 1 0, stop 0, 12 x 0 0 0
stops=3 0 FIRST 0, 5 0 1..last EACH
first=1|middle|last
each=0|1|0 0|0 1|0 255
ends=0 1
* a commit of all, at who shows on a disk: each call of its turn
old=rio
new=disk
protocol=cpv-2pc
guests=clock hi
schedule=7 x 0 0 65, 11 x 0 0 66
stops=6 0 1..last EACH
each=0|1|0 0|0 1|0 255
ends=0 1
* a commit of all, at who shows on a disk: each call of the recovery behind
old=rio
new=disk
protocol=cpv-2pc
guests=clock hi
schedule=7 x 0 0 65, 11 x 0 0 66
stops=6 0 FIRST 0, 7 0 1..last EACH
first=1|middle|last
each=0|1|0 0|0 1|0 255
ends=0 1
* a commit of all, at the other on a disk: each call of its turn
old=rio
new=disk
protocol=cpv-2pc
guests=clock hi
schedule=7 x 0 0 65, 11 x 0 0 66
stops=6 1 1..last EACH
each=0|1|0 0|0 1|0 255
ends=0 1
* a commit of all, at the other on a disk: each call of the recovery behind
old=rio
new=disk
protocol=cpv-2pc
guests=clock hi
schedule=7 x 0 0 65, 11 x 0 0 66
stops=6 1 FIRST 0, 7 1 1..last EACH
first=1|middle|last
each=0|1|0 0|0 1|0 255
ends=0 1
";

/// Each call of a device, of the library and of the output fails once.
pub const FAILING: &str = "\
* each call of a store in memory fails, once it is made
schedule=4 x 0 0 0, stop 0, 5 x 0 0 0
device=failed opened+1..last
ends=7
* some calls fail in the making of a store in memory: in each part of it, the first and the last
schedule=4 x 0 0 0, stop 0, 5 x 0 0 0
device=failed EACH
each=1|2|3|17|16000|16420|17000|17900|18100|20000|opened-2|opened-1|opened
ends=7
* each call of a store on a disk fails
old=rio
new=disk
schedule=4 x 0 0 0, stop 0, 5 x 0 0 0
device=failed 1..last
ends=7
* each fetch of a run fails
guests=clock hi
schedule=4 x 0 0 0, stop 0, 5 x 0 0 0
fetch=EACH
each=1|2|3|4
ends=6
* each fetch of a check fails
words=dc check plan report output
report=%close 0 7 7 2~
output=out 0 0 6869~end 0 1 0~
fetch=EACH
each=1|2|3|4|5
ends=6
* each write of lines fails
schedule=4 x 0 0 0, stop 0, 5 x 0 0 0
write=EACH
each=1|2|3
out=out 0 0 6869~out 0 0 6869~end 0 1 0~
ends=8
";
