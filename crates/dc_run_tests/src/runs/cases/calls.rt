/// Calls that show bytes, their bounds, and sums.
pub const CALLS: &str = "\
* 256 bytes shown
code=00200893 00000513 10000593 00000073 00100893 00000073
out=out 0 0 @~end 0 1 256~
said=dc: done 6 acts 2 lines~
acts=0-5
close=close 0 7 6 2
* no bytes shown
code=00200893 00000513 00000593 00000073 00100893 00000073
out=out 0 0 -~end 0 1 0~
said=dc: done 6 acts 2 lines~
acts=0-5
close=close 0 7 6 2
* its own code shown
code=00200893 40000513 00500593 00000073 00100893 00000073
out=out 0 0 9308200013~end 0 1 5~
said=dc: done 6 acts 2 lines~
acts=0-5
close=close 0 7 6 2
* the last byte shown
code=00200893 00f10513 00100593 00000073 00100893 00000073
out=out 0 0 00~end 0 1 1~
said=dc: done 6 acts 2 lines~
acts=0-5
close=close 0 7 6 2
* no bytes at the end shown
code=00200893 01010513 00000593 00000073 00100893 00000073
out=out 0 0 -~end 0 1 0~
said=dc: done 6 acts 2 lines~
acts=0-5
close=close 0 7 6 2
* 257 bytes refused
code=00200893 00000513 10100593 00000073 00100893 00000073
out=end 0 0 4294967293~
said=dc: done 6 acts 1 lines~
acts=0-5
close=close 0 7 6 1
* a byte past the end refused
code=00200893 00f10513 00200593 00000073 00100893 00000073
out=end 0 0 4294967293~
said=dc: done 6 acts 1 lines~
acts=0-5
close=close 0 7 6 1
* no bytes past the end refused
code=00200893 01110513 00000593 00000073 00100893 00000073
out=end 0 0 4294967293~
said=dc: done 6 acts 1 lines~
acts=0-5
close=close 0 7 6 1
* bytes past all addresses refused
code=00200893 fff00513 00200593 00000073 00100893 00000073
out=end 0 0 4294967293~
said=dc: done 6 acts 1 lines~
acts=0-5
close=close 0 7 6 1
* no call 0
code=00000893 00000513 00000593 00000073 00100893 00000073
out=end 0 0 4294967287~
said=dc: done 6 acts 1 lines~
acts=0-5
close=close 0 7 6 1
* no call 9
code=00900893 00000513 00000593 00000073 00100893 00000073
out=end 0 0 4294967287~
said=dc: done 6 acts 1 lines~
acts=0-5
close=close 0 7 6 1
* no call 258
code=10200893 00000513 00000593 00000073 00100893 00000073
out=end 0 0 4294967287~
said=dc: done 6 acts 1 lines~
acts=0-5
close=close 0 7 6 1
* the least immediate
code=80000513 00000593 00100893 00000073 00100893 00000073
out=end 0 0 4294965248~
said=dc: done 4 acts 1 lines~
acts=0-3
close=close 0 7 4 1
* the greatest immediate
code=7ff00513 00000593 00100893 00000073 00100893 00000073
out=end 0 0 2047~
said=dc: done 4 acts 1 lines~
acts=0-3
close=close 0 7 4 1
* a sum past the last word
code=fff00513 00350513 00100893 00000073 00100893 00000073
out=end 0 0 2~
said=dc: done 4 acts 1 lines~
acts=0-3
close=close 0 7 4 1
* x0 stays 0
code=00500013 00000513 00100893 00000073 00100893 00000073
out=end 0 0 0~
said=dc: done 4 acts 1 lines~
acts=0-3
close=close 0 7 4 1
* the stack pointer
code=00010513 00000593 00100893 00000073 00100893 00000073
out=end 0 0 65520~
said=dc: done 4 acts 1 lines~
acts=0-3
close=close 0 7 4 1
";
