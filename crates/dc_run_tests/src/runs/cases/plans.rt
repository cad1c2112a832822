/// Plans, and what a guest has of them.
pub const PLANS: &str = "\
* a plan refused for text
old==
new=
status=3
said=dc: plan refused: text~
* a plan refused for unknown
old=protocol
new=colour
status=3
said=dc: plan refused: unknown~
* a plan refused for missing memory
old=memory = 65536~
new=
status=3
said=dc: plan refused: missing memory~
* a plan refused for kind protocol
old=\"cpvs\"
new=1
status=3
said=dc: plan refused: kind protocol~
* a plan of nine guests
guests=hi hi hi hi hi hi hi hi hi
status=3
said=dc: plan refused: too many guests~
* a plan refused for range memory
old=65536
new=65537
status=3
said=dc: plan refused: range memory~
* a plan refused for range inputs
old=memory
new=inputs = [[\"6F\"]]~memory
status=3
said=dc: plan refused: range inputs~
* a protocol that is misspelt
protocol=cpv-2cp
status=3
said=dc: plan refused: range protocol~
* a medium that is none
old=rio
new=tape
status=3
said=dc: plan refused: range medium~
* the inputs of one guest for two
guests=hi hi
old=memory
new=inputs = [[]]~memory
status=3
said=dc: plan refused: range inputs~
* a stop with a key that no stop has
old=e\"~
new=e\"~[[stop]]~turn = 0~process = 0~call = 1~keep = 0~moment = 0~
status=3
said=dc: plan refused: unknown~
* a stop with no turn
old=e\"~
new=e\"~[[stop]]~process = 0~call = 1~keep = 0~
status=3
said=dc: plan refused: missing stop~
* a second stop with no call
old=e\"~
new=e\"~[[stop]]~turn = 0~process = 0~call = 1~keep = 0~[[stop]]~turn = 0~process = 0~keep = 0~
status=3
said=dc: plan refused: missing stop~
* a stop that is no table
old=e\"~
new=e\"~stop = [1]~
status=3
said=dc: plan refused: kind stop~
* a stop at no number
old=e\"~
new=e\"~[[stop]]~turn = 0~process = 0~call = \"1\"~keep = 0~
status=3
said=dc: plan refused: kind stop~
* a stop past all turns
old=e\"~
new=e\"~[[stop]]~turn = 1000000~process = 0~call = 1~keep = 0~
status=3
said=dc: plan refused: range stop~
* a stop of a process that is not there
old=e\"~
new=e\"~[[stop]]~turn = 0~process = 1~call = 1~keep = 0~
status=3
said=dc: plan refused: range stop~
* a stop at call 0
old=e\"~
new=e\"~[[stop]]~turn = 0~process = 0~call = 0~keep = 0~
status=3
said=dc: plan refused: range stop~
* a stop that keeps too much
old=e\"~
new=e\"~[[stop]]~turn = 0~process = 0~call = 1~keep = 4000000001~
status=3
said=dc: plan refused: range stop~
* a stop with a fill
old=e\"~
new=e\"~[[stop]]~turn = 0~process = 0~call = 1~keep = 0~fill = 0~
status=3
said=dc: plan refused: range stop~
* a seed beside a schedule
old=e\"~
new=e\"~seed = 0~
status=3
said=dc: plan refused: range seed~
* turns beside a schedule
old=e\"~
new=e\"~turns = 1~
status=3
said=dc: plan refused: range turns~
* a seed with no turns
old=schedule = \"schedule\"
new=seed = 0
status=3
said=dc: plan refused: missing turns~
* a seed below 0
old=schedule = \"schedule\"
new=seed = -1~turns = 1
status=3
said=dc: plan refused: range seed~
* too many turns of a seed
old=schedule = \"schedule\"
new=seed = 0~turns = 1000001
status=3
said=dc: plan refused: range turns~
* neither a schedule nor a seed
old=schedule = \"schedule\"
new=
status=3
said=dc: plan refused: missing schedule~
* a second guest that is missing
old=\"hi.elf\"
new=\"hi.elf\", \"none.elf\"
status=5
said=dc: missing: guest 1~
* a second guest that is no guest
old=\"hi.elf\"
new=\"hi.elf\", \"plan\"
status=4
said=dc: guest 1 refused: magic~
* a second guest that is not fetched
guests=hi sender
fetch=3
status=6
said=dc: library failed: guest 1~
* a turn of a seed
old=schedule = \"schedule\"
new=seed = 0~turns = 1
schedule=none
status=1
said=dc: unfinished 1 acts 0 lines~
acts=0
close=close 1 1 1 0
* a turn of a seed with three guests
guests=hi hi hi
old=schedule = \"schedule\"
new=seed = 0~turns = 1
schedule=none
status=1
said=dc: unfinished 1 acts 0 lines~
acts=1:0
close=close 1 1 1 0
* no turn of a seed
old=schedule = \"schedule\"
new=seed = 9223372036854775807~turns = 0
schedule=none
status=1
said=dc: unfinished 0 acts 0 lines~
close=close 1 0 0 0
* eight guests, of which the last ends
guests=hi hi hi hi hi hi hi hi
schedule=7 x 7 0 0
out=out 7 0 6869~end 7 1 0~
status=1
said=dc: unfinished 7 acts 2 lines~
acts=7:0-6
close=close 1 7 7 2
* two guests that end
guests=hi clock
schedule=7 x 0 0 0, 10 x 1 0 65
out=out 0 0 6869~end 0 1 0~out 1 0 41~end 1 1 0~
said=dc: done 17 acts 4 lines~
acts=0-6 1:7-16
act=8 clock 65
close=close 0 17 17 4
* a run under cbndvs
protocol=cbndvs
out=out 0 0 6869~end 0 1 0~
said=dc: done 7 acts 2 lines~
acts=0-6
close=close 0 7 7 2
* a run under cand-log
protocol=cand-log
out=out 0 0 6869~end 0 1 0~
said=dc: done 7 acts 2 lines~
acts=0-6
close=close 0 7 7 2
* a run under cbndvs-log
protocol=cbndvs-log
out=out 0 0 6869~end 0 1 0~
said=dc: done 7 acts 2 lines~
acts=0-6
close=close 0 7 7 2
* a plan with carriage returns
old=~
new=\r~
said=dc: done 7 acts 2 lines~
out=out 0 0 6869~end 0 1 0~
acts=0-6
close=close 0 7 7 2
* a plan with a hexadecimal number and a comment
old=memory = 65536
new=memory=0x1_0000   # 64 kibibytes
said=dc: done 7 acts 2 lines~
out=out 0 0 6869~end 0 1 0~
acts=0-6
close=close 0 7 7 2
* a plan with a literal text
old=\"cpvs\"
new='cand'
said=dc: done 7 acts 2 lines~
out=out 0 0 6869~end 0 1 0~
acts=0-6
close=close 0 7 7 2
* a plan with a quoted key
old=medium
new=inputs = [[\"6f6b\", \"\"]]~\"medium\"
said=dc: done 7 acts 2 lines~
out=out 0 0 6869~end 0 1 0~
acts=0-6
close=close 0 7 7 2
* a plan with no last line feed
old=e\"~
new=e\"
said=dc: done 7 acts 2 lines~
out=out 0 0 6869~end 0 1 0~
acts=0-6
close=close 0 7 7 2
* a name in UTF-8
old=hi.elf
new=guests/größe 1.elf
name=guests/größe 1.elf
said=dc: done 7 acts 2 lines~
out=out 0 0 6869~end 0 1 0~
acts=0-6
close=close 0 7 7 2
* a memory of 69632 bytes
code=00010513 00100893 00000073
old=65536
new=69632
out=end 0 0 69616~
said=dc: done 3 acts 1 lines~
acts=0-2
close=close 0 7 3 1
* a memory of 1048576 bytes
code=00010513 00100893 00000073
old=65536
new=1048576
out=end 0 0 1048560~
said=dc: done 3 acts 1 lines~
acts=0-2
close=close 0 7 3 1
";
