/// What a guest is answered.
pub const ANSWERS: &str = "\
* an odd word takes the next input
source=addi x17,x0,3~addi x10,x0,512~addi x11,x0,64~ecall~addi x11,x10,0~addi x10,x0,512~addi x17,x0,2~ecall~addi x17,x0,1~addi x10,x0,0~ecall~
old=memory
new=inputs = [[\"6f6b\"]]~memory
schedule=11 x 0 1 0
out=out 0 0 6f6b~end 0 1 0~
said=dc: done 11 acts 2 lines~
acts=0-10
act=3 input next
close=close 0 11 11 2
* an odd word past the last input
source=addi x17,x0,3~addi x10,x0,512~addi x11,x0,64~ecall~addi x11,x10,0~addi x10,x0,512~addi x17,x0,2~ecall~addi x17,x0,1~addi x10,x0,0~ecall~
old=memory
new=inputs = [[]]~memory
schedule=11 x 0 1 0
out=end 0 0 0~
said=dc: done 11 acts 1 lines~
acts=0-10
act=3 input end
close=close 0 11 11 1
* an even word takes none
source=addi x17,x0,3~addi x10,x0,512~addi x11,x0,64~ecall~addi x11,x10,0~addi x10,x0,512~addi x17,x0,2~ecall~addi x17,x0,1~addi x10,x0,0~ecall~
old=memory
new=inputs = [[\"6f6b\"]]~memory
schedule=11 x 0 0 0
out=end 0 0 0~
said=dc: done 11 acts 1 lines~
acts=0-10
act=3 input none
close=close 0 11 11 1
* only an input's own bytes are put, here into the last 64 bytes of memory
source=lui x10,16~addi x10,x10,-64~addi x11,x0,64~addi x5,x0,7~sb x5,2(x10)~addi x17,x0,3~ecall~addi x12,x10,0~lui x10,16~addi x10,x10,-64~addi x11,x0,4~addi x17,x0,2~ecall~addi x10,x12,0~addi x17,x0,1~ecall~
old=memory
new=inputs = [[\"6f6b\"]]~memory
schedule=16 x 0 1 0
out=out 0 0 6f6b0700~end 0 1 2~
said=dc: done 16 acts 2 lines~
acts=0-15
act=6 input next
close=close 0 16 16 2
* the clock
source=addi x17,x0,4~addi x10,x0,0~addi x11,x0,0~ecall~add x10,x10,x11~addi x17,x0,1~ecall~
schedule=7 x 0 4294967286 18446744069414584325
out=end 0 0 4~
said=dc: done 7 acts 1 lines~
acts=0-6
act=3 clock 18446744069414584325
close=close 0 7 7 1
* a random word
source=addi x17,x0,5~addi x10,x0,0~addi x11,x0,9~ecall~add x10,x10,x11~addi x17,x0,1~ecall~
schedule=7 x 0 4294967286 18446744069414584325
out=end 0 0 4294967295~
said=dc: done 7 acts 1 lines~
acts=0-6
act=3 random 4294967286
close=close 0 7 7 1
* its own number
source=addi x17,x0,8~addi x10,x0,6~addi x11,x0,6~ecall~add x10,x10,x11~addi x17,x0,1~ecall~
schedule=7 x 0 4294967286 18446744069414584325
out=end 0 0 1~
said=dc: done 7 acts 1 lines~
acts=0-6
act=3 plain
close=close 0 7 7 1
* no message came
source=addi x17,x0,7~addi x10,x0,512~addi x11,x0,64~ecall~add x10,x10,x11~addi x17,x0,1~ecall~
schedule=7 x 0 4294967286 18446744069414584325
out=end 0 0 63~
said=dc: done 7 acts 1 lines~
acts=0-6
act=3 receive none
close=close 0 7 7 1
* no room for a message
source=addi x17,x0,7~addi x10,x0,512~addi x11,x0,63~ecall~add x10,x10,x11~addi x17,x0,1~ecall~
schedule=7 x 0 4294967286 18446744069414584325
out=end 0 0 60~
said=dc: done 7 acts 1 lines~
acts=0-6
act=3 plain
close=close 0 7 7 1
* no room for an input
source=addi x17,x0,3~addi x10,x0,512~addi x11,x0,63~ecall~add x10,x10,x11~addi x17,x0,1~ecall~
schedule=7 x 0 4294967286 18446744069414584325
out=end 0 0 60~
said=dc: done 7 acts 1 lines~
acts=0-6
act=3 plain
close=close 0 7 7 1
* no other guest to send to
source=addi x17,x0,6~addi x10,x0,1~addi x11,x0,512~ecall~add x10,x10,x11~addi x17,x0,1~ecall~
schedule=7 x 0 4294967286 18446744069414584325
out=end 0 0 509~
said=dc: done 7 acts 1 lines~
acts=0-6
act=3 plain
close=close 0 7 7 1
* a message to itself
source=addi x17,x0,6~addi x10,x0,0~addi x11,x0,512~ecall~add x10,x10,x11~addi x17,x0,1~ecall~
schedule=7 x 0 4294967286 18446744069414584325
out=end 0 0 509~
said=dc: done 7 acts 1 lines~
acts=0-6
act=3 plain
close=close 0 7 7 1
* a call that there is not
source=addi x17,x0,9~addi x10,x0,1~addi x11,x0,512~ecall~add x10,x10,x11~addi x17,x0,1~ecall~
schedule=7 x 0 4294967286 18446744069414584325
out=end 0 0 503~
said=dc: done 7 acts 1 lines~
acts=0-6
act=3 plain
close=close 0 7 7 1
* the low word of the clock is shown
source=addi x17,x0,4~ecall~sw x10,512(x0)~addi x17,x0,2~addi x10,x0,512~addi x11,x0,1~ecall~addi x17,x0,1~addi x10,x0,0~ecall~
schedule=10 x 0 0 65
out=out 0 0 41~end 0 1 0~
said=dc: done 10 acts 2 lines~
acts=0-9
act=1 clock 65
close=close 0 10 10 2
";
