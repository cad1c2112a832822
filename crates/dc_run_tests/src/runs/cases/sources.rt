/// Sources that are assembled.
pub const SOURCES: &str = "\
* a source is its file
words=dc asm source
source=addi x10,x0,1~
elf=00100513
said=dc: done 88 bytes~
* an assembled guest runs
source=# shows rez, and ends with 7~addi x17,x0,2~addi x10,x0,word~addi x11,x0,3~ecall~addi x17,x0,1~addi x10,x0,7~ecall~word:~.word 8021362 # the bytes of rez, the lowest first~
out=out 0 0 72657a~end 0 1 7~
said=dc: done 7 acts 2 lines~
acts=0-6
close=close 0 7 7 2
* a source refused for word
words=dc asm source
source=add x1,x2
status=14
said=dc: source line 1 refused: word~
* a source refused for register
words=dc asm source
source=~add x1,x2,x32
status=14
said=dc: source line 2 refused: register~
* a source refused for immediate
words=dc asm source
source=addi x10,x0,2048
status=14
said=dc: source line 1 refused: immediate~
* a source refused for label
words=dc asm source
source=jal x0,away
status=14
said=dc: source line 1 refused: label~
* a source refused for twice
words=dc asm source
source=a:~a:
status=14
said=dc: source line 2 refused: twice~
* a source of 16,001 words
words=dc asm source
source=ecall~
copies=16001
status=14
said=dc: source line 16001 refused: too long~
* no source
words=dc asm other
source=ecall~
status=5
said=dc: missing: source~
* a source that is not fetched
words=dc asm source
source=ecall~
fetch=1
status=6
said=dc: library failed: source~
* a file cut off
words=dc asm source
source=ecall~
room=50
elf=73
status=8
said=dc: sink failed: out~
";
