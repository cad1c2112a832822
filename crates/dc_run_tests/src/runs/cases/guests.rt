/// Guests: their files, what they compute and how they trap.
pub const GUESTS: &str = "\
* a file refused for magic
offset=3
byte=69
status=4
said=dc: guest 0 refused: magic~
* a file refused for class
offset=4
byte=2
status=4
said=dc: guest 0 refused: class~
* a file refused for order
offset=5
byte=2
status=4
said=dc: guest 0 refused: order~
* a file refused for file type
offset=16
byte=3
status=4
said=dc: guest 0 refused: file type~
* a file refused for machine
offset=18
byte=242
status=4
said=dc: guest 0 refused: machine~
* a file refused for flags
offset=36
byte=1
status=4
said=dc: guest 0 refused: flags~
* a file refused for headers
offset=42
byte=31
status=4
said=dc: guest 0 refused: headers~
* a file refused for segment 0
offset=68
byte=33
status=4
said=dc: guest 0 refused: segment 0~
* a file refused for entry
offset=24
byte=2
status=4
said=dc: guest 0 refused: entry~
* a guest begins at its entry
offset=24
byte=16
out=end 0 0 0~
said=dc: done 3 acts 1 lines~
acts=0-2
close=close 0 7 3 1
marks=ss0iiii
* 64,512 bytes from 1024 on fill the memory
zeros=16128
out=trap 0 0 2 00000400~
said=dc: done 1 acts 1 lines~
acts=0
close=close 0 7 1 1
* a word more does not fit
zeros=16129
status=4
said=dc: guest 0 refused: segment 0~
* no bytes, 256 and 257 of them, the last refused
code=00200893 20000513 00000593 00000073 20000513 10000593 00000073 20000513 10100593 00000073 00100893 00000073
schedule=12 x 0 0 0
out=out 0 0 -~out 0 1 @~end 0 2 4294967293~
said=dc: done 12 acts 3 lines~
acts=0-11
close=close 0 12 12 3
* sltiu compares with a word that is all ones
code=fff03513 00100893 00000073
schedule=3 x 0 0 0
out=end 0 0 1~
said=dc: done 3 acts 1 lines~
acts=0-2
close=close 0 3 3 1
* srai copies the sign
code=800002b7 41f2d513 00100893 00000073
schedule=4 x 0 0 0
out=end 0 0 4294967295~
said=dc: done 4 acts 1 lines~
acts=0-3
close=close 0 4 4 1
* jalr clears the lowest bit
code=40900293 00028067 0
schedule=3 x 0 0 0
out=trap 0 0 2 00000408~
said=dc: done 3 acts 1 lines~
acts=0-2
close=close 0 3 3 1
* a jump to no multiple of four
code=40600293 00028067 0
schedule=2 x 0 0 0
out=trap 0 0 0 00000404~
said=dc: done 2 acts 1 lines~
acts=0-1
close=close 0 2 2 1
* no word at pc
code=000102b7 00028067
schedule=3 x 0 0 0
out=trap 0 0 1 00010000~
said=dc: done 3 acts 1 lines~
acts=0-2
close=close 0 3 3 1
* a misaligned load
code=00202283
schedule=1 x 0 0 0
out=trap 0 0 4 00000400~
said=dc: done 1 acts 1 lines~
acts=0
close=close 0 1 1 1
* a load past the memory
code=ffc02283
schedule=1 x 0 0 0
out=trap 0 0 5 00000400~
said=dc: done 1 acts 1 lines~
acts=0
close=close 0 1 1 1
* a misaligned store
code=005010a3
schedule=1 x 0 0 0
out=trap 0 0 6 00000400~
said=dc: done 1 acts 1 lines~
acts=0
close=close 0 1 1 1
* a store past the memory
code=fe500fa3
schedule=1 x 0 0 0
out=trap 0 0 7 00000400~
said=dc: done 1 acts 1 lines~
acts=0
close=close 0 1 1 1
* ebreak
code=00100073
schedule=1 x 0 0 0
out=trap 0 0 3 00000400~
said=dc: done 1 acts 1 lines~
acts=0
close=close 0 1 1 1
";
