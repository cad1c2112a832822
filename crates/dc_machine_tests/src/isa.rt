//! Words and the instructions that they code. A row is `word assembly|instruction`, the word in hexadecimal; where there is no
//! instruction the word codes nothing. The words of the first six tables are by GNU as and ld 2.40 (binutils),
//! -march=rv32i_zihintpause -mno-relax. Immediates are the bits of the operands.

use crate::holding::holds;
use dc_isa::{decode, encode};
use std::alloc::Global;
use std::test::Fail;

/// Upper immediates and jumps.
const UPPER_AND_JUMPS: &str = "\
00000037 lui x0, 0|Upper { op: Lui, rd: 0, imm: 0 }
000010b7 lui x1, 1|Upper { op: Lui, rd: 1, imm: 1 }
ffffffb7 lui x31, 0xfffff|Upper { op: Lui, rd: 31, imm: 1048575 }
80000837 lui x16, 0x80000|Upper { op: Lui, rd: 16, imm: 524288 }
123452b7 lui x5, 0x12345|Upper { op: Lui, rd: 5, imm: 74565 }
7ffff537 lui x10, 0x7ffff|Upper { op: Lui, rd: 10, imm: 524287 }
00000897 auipc x17, 0|Upper { op: Auipc, rd: 17, imm: 0 }
00001017 auipc x0, 1|Upper { op: Auipc, rd: 0, imm: 1 }
fffff097 auipc x1, 0xfffff|Upper { op: Auipc, rd: 1, imm: 1048575 }
80000f97 auipc x31, 0x80000|Upper { op: Auipc, rd: 31, imm: 524288 }
12345817 auipc x16, 0x12345|Upper { op: Auipc, rd: 16, imm: 74565 }
7ffff297 auipc x5, 0x7ffff|Upper { op: Auipc, rd: 5, imm: 524287 }
8000056f jal x10, .-1048576|Jal { rd: 10, imm: 1048576 }
7ffff8ef jal x17, .+1048574|Jal { rd: 17, imm: 1048574 }
0020006f jal x0, .+2|Jal { rd: 0, imm: 2 }
fffff0ef jal x1, .-2|Jal { rd: 1, imm: 2097150 }
00000fef jal x31, .+0|Jal { rd: 31, imm: 0 }
0010086f jal x16, .+2048|Jal { rd: 16, imm: 2048 }
000012ef jal x5, .+4096|Jal { rd: 5, imm: 4096 }
800ff56f jal x10, .-4096|Jal { rd: 10, imm: 2093056 }
400008ef jal x17, .+1024|Jal { rd: 17, imm: 1024 }
0007f06f jal x0, .+520192|Jal { rd: 0, imm: 520192 }
800f80e7 jalr x1, -2048(x31)|Jalr { rd: 1, rs1: 31, imm: 2048 }
7ff00fe7 jalr x31, 2047(x0)|Jalr { rd: 31, rs1: 0, imm: 2047 }
fff10867 jalr x16, -1(x2)|Jalr { rd: 16, rs1: 2, imm: 4095 }
000782e7 jalr x5, 0(x15)|Jalr { rd: 5, rs1: 15, imm: 0 }
00108567 jalr x10, 1(x1)|Jalr { rd: 10, rs1: 1, imm: 1 }
004f08e7 jalr x17, 4(x30)|Jalr { rd: 17, rs1: 30, imm: 4 }
";

/// Branches.
const BRANCHES: &str = "\
80140063 beq x8, x1, .-4096|Branch { op: Beq, rs1: 8, rs2: 1, imm: 4096 }
7ff80fe3 beq x16, x31, .+4094|Branch { op: Beq, rs1: 16, rs2: 31, imm: 4094 }
000a8163 beq x21, x0, .+2|Branch { op: Beq, rs1: 21, rs2: 0, imm: 2 }
ff058fe3 beq x11, x16, .-2|Branch { op: Beq, rs1: 11, rs2: 16, imm: 8190 }
007200e3 beq x4, x7, .+2048|Branch { op: Beq, rs1: 4, rs2: 7, imm: 2048 }
80cf80e3 beq x31, x12, .-2048|Branch { op: Beq, rs1: 31, rs2: 12, imm: 6144 }
01c00f63 beq x0, x28, .+30|Branch { op: Beq, rs1: 0, rs2: 28, imm: 30 }
81311063 bne x2, x19, .-4096|Branch { op: Bne, rs1: 2, rs2: 19, imm: 4096 }
7e079fe3 bne x15, x0, .+4094|Branch { op: Bne, rs1: 15, rs2: 0, imm: 4094 }
00a09163 bne x1, x10, .+2|Branch { op: Bne, rs1: 1, rs2: 10, imm: 2 }
ff7f1fe3 bne x30, x23, .-2|Branch { op: Bne, rs1: 30, rs2: 23, imm: 8190 }
00e410e3 bne x8, x14, .+2048|Branch { op: Bne, rs1: 8, rs2: 14, imm: 2048 }
806810e3 bne x16, x6, .-2048|Branch { op: Bne, rs1: 16, rs2: 6, imm: 6144 }
021a9063 bne x21, x1, .+32|Branch { op: Bne, rs1: 21, rs2: 1, imm: 32 }
81f5c063 blt x11, x31, .-4096|Branch { op: Blt, rs1: 11, rs2: 31, imm: 4096 }
7e024fe3 blt x4, x0, .+4094|Branch { op: Blt, rs1: 4, rs2: 0, imm: 4094 }
010fc163 blt x31, x16, .+2|Branch { op: Blt, rs1: 31, rs2: 16, imm: 2 }
fe704fe3 blt x0, x7, .-2|Branch { op: Blt, rs1: 0, rs2: 7, imm: 8190 }
00c140e3 blt x2, x12, .+2048|Branch { op: Blt, rs1: 2, rs2: 12, imm: 2048 }
81c7c0e3 blt x15, x28, .-2048|Branch { op: Blt, rs1: 15, rs2: 28, imm: 6144 }
4130c063 blt x1, x19, .+1024|Branch { op: Blt, rs1: 1, rs2: 19, imm: 1024 }
800f5063 bge x30, x0, .-4096|Branch { op: Bge, rs1: 30, rs2: 0, imm: 4096 }
7ea45fe3 bge x8, x10, .+4094|Branch { op: Bge, rs1: 8, rs2: 10, imm: 4094 }
01785163 bge x16, x23, .+2|Branch { op: Bge, rs1: 16, rs2: 23, imm: 2 }
feeadfe3 bge x21, x14, .-2|Branch { op: Bge, rs1: 21, rs2: 14, imm: 8190 }
0065d0e3 bge x11, x6, .+2048|Branch { op: Bge, rs1: 11, rs2: 6, imm: 2048 }
801250e3 bge x4, x1, .-2048|Branch { op: Bge, rs1: 4, rs2: 1, imm: 6144 }
01ffd063 bge x31, x31, .+0|Branch { op: Bge, rs1: 31, rs2: 31, imm: 0 }
80006063 bltu x0, x0, .-4096|Branch { op: Bltu, rs1: 0, rs2: 0, imm: 4096 }
7f016fe3 bltu x2, x16, .+4094|Branch { op: Bltu, rs1: 2, rs2: 16, imm: 4094 }
0077e163 bltu x15, x7, .+2|Branch { op: Bltu, rs1: 15, rs2: 7, imm: 2 }
fec0efe3 bltu x1, x12, .-2|Branch { op: Bltu, rs1: 1, rs2: 12, imm: 8190 }
01cf60e3 bltu x30, x28, .+2048|Branch { op: Bltu, rs1: 30, rs2: 28, imm: 2048 }
813460e3 bltu x8, x19, .-2048|Branch { op: Bltu, rs1: 8, rs2: 19, imm: 6144 }
fe0860e3 bltu x16, x0, .-32|Branch { op: Bltu, rs1: 16, rs2: 0, imm: 8160 }
80aaf063 bgeu x21, x10, .-4096|Branch { op: Bgeu, rs1: 21, rs2: 10, imm: 4096 }
7f75ffe3 bgeu x11, x23, .+4094|Branch { op: Bgeu, rs1: 11, rs2: 23, imm: 4094 }
00e27163 bgeu x4, x14, .+2|Branch { op: Bgeu, rs1: 4, rs2: 14, imm: 2 }
fe6fffe3 bgeu x31, x6, .-2|Branch { op: Bgeu, rs1: 31, rs2: 6, imm: 8190 }
001070e3 bgeu x0, x1, .+2048|Branch { op: Bgeu, rs1: 0, rs2: 1, imm: 2048 }
81f170e3 bgeu x2, x31, .-2048|Branch { op: Bgeu, rs1: 2, rs2: 31, imm: 6144 }
7e07f063 bgeu x15, x0, .+2016|Branch { op: Bgeu, rs1: 15, rs2: 0, imm: 2016 }
";

/// Loads and stores.
const LOADS_AND_STORES: &str = "\
80008003 lb x0, -2048(x1)|Load { op: Lb, rd: 0, rs1: 1, imm: 2048 }
7fff0083 lb x1, 2047(x30)|Load { op: Lb, rd: 1, rs1: 30, imm: 2047 }
fff40f83 lb x31, -1(x8)|Load { op: Lb, rd: 31, rs1: 8, imm: 4095 }
00080803 lb x16, 0(x16)|Load { op: Lb, rd: 16, rs1: 16, imm: 0 }
001a8283 lb x5, 1(x21)|Load { op: Lb, rd: 5, rs1: 21, imm: 1 }
01f58503 lb x10, 31(x11)|Load { op: Lb, rd: 10, rs1: 11, imm: 31 }
80021883 lh x17, -2048(x4)|Load { op: Lh, rd: 17, rs1: 4, imm: 2048 }
7fff9003 lh x0, 2047(x31)|Load { op: Lh, rd: 0, rs1: 31, imm: 2047 }
fff01083 lh x1, -1(x0)|Load { op: Lh, rd: 1, rs1: 0, imm: 4095 }
00011f83 lh x31, 0(x2)|Load { op: Lh, rd: 31, rs1: 2, imm: 0 }
00179803 lh x16, 1(x15)|Load { op: Lh, rd: 16, rs1: 15, imm: 1 }
00209283 lh x5, 2(x1)|Load { op: Lh, rd: 5, rs1: 1, imm: 2 }
800f2503 lw x10, -2048(x30)|Load { op: Lw, rd: 10, rs1: 30, imm: 2048 }
7ff42883 lw x17, 2047(x8)|Load { op: Lw, rd: 17, rs1: 8, imm: 2047 }
fff82003 lw x0, -1(x16)|Load { op: Lw, rd: 0, rs1: 16, imm: 4095 }
000aa083 lw x1, 0(x21)|Load { op: Lw, rd: 1, rs1: 21, imm: 0 }
0015af83 lw x31, 1(x11)|Load { op: Lw, rd: 31, rs1: 11, imm: 1 }
ffc22803 lw x16, -4(x4)|Load { op: Lw, rd: 16, rs1: 4, imm: 4092 }
800fc283 lbu x5, -2048(x31)|Load { op: Lbu, rd: 5, rs1: 31, imm: 2048 }
7ff04503 lbu x10, 2047(x0)|Load { op: Lbu, rd: 10, rs1: 0, imm: 2047 }
fff14883 lbu x17, -1(x2)|Load { op: Lbu, rd: 17, rs1: 2, imm: 4095 }
0007c003 lbu x0, 0(x15)|Load { op: Lbu, rd: 0, rs1: 15, imm: 0 }
0010c083 lbu x1, 1(x1)|Load { op: Lbu, rd: 1, rs1: 1, imm: 1 }
400f4f83 lbu x31, 1024(x30)|Load { op: Lbu, rd: 31, rs1: 30, imm: 1024 }
80045803 lhu x16, -2048(x8)|Load { op: Lhu, rd: 16, rs1: 8, imm: 2048 }
7ff85283 lhu x5, 2047(x16)|Load { op: Lhu, rd: 5, rs1: 16, imm: 2047 }
fffad503 lhu x10, -1(x21)|Load { op: Lhu, rd: 10, rs1: 21, imm: 4095 }
0005d883 lhu x17, 0(x11)|Load { op: Lhu, rd: 17, rs1: 11, imm: 0 }
00125003 lhu x0, 1(x4)|Load { op: Lhu, rd: 0, rs1: 4, imm: 1 }
064fd083 lhu x1, 100(x31)|Load { op: Lhu, rd: 1, rs1: 31, imm: 100 }
81000023 sb x16, -2048(x0)|Store { op: Sb, rs1: 0, rs2: 16, imm: 2048 }
7e710fa3 sb x7, 2047(x2)|Store { op: Sb, rs1: 2, rs2: 7, imm: 2047 }
fec78fa3 sb x12, -1(x15)|Store { op: Sb, rs1: 15, rs2: 12, imm: 4095 }
01c08023 sb x28, 0(x1)|Store { op: Sb, rs1: 1, rs2: 28, imm: 0 }
013f00a3 sb x19, 1(x30)|Store { op: Sb, rs1: 30, rs2: 19, imm: 1 }
00040fa3 sb x0, 31(x8)|Store { op: Sb, rs1: 8, rs2: 0, imm: 31 }
80a81023 sh x10, -2048(x16)|Store { op: Sh, rs1: 16, rs2: 10, imm: 2048 }
7f7a9fa3 sh x23, 2047(x21)|Store { op: Sh, rs1: 21, rs2: 23, imm: 2047 }
fee59fa3 sh x14, -1(x11)|Store { op: Sh, rs1: 11, rs2: 14, imm: 4095 }
00621023 sh x6, 0(x4)|Store { op: Sh, rs1: 4, rs2: 6, imm: 0 }
001f90a3 sh x1, 1(x31)|Store { op: Sh, rs1: 31, rs2: 1, imm: 1 }
03f01023 sh x31, 32(x0)|Store { op: Sh, rs1: 0, rs2: 31, imm: 32 }
80012023 sw x0, -2048(x2)|Store { op: Sw, rs1: 2, rs2: 0, imm: 2048 }
7f07afa3 sw x16, 2047(x15)|Store { op: Sw, rs1: 15, rs2: 16, imm: 2047 }
fe70afa3 sw x7, -1(x1)|Store { op: Sw, rs1: 1, rs2: 7, imm: 4095 }
00cf2023 sw x12, 0(x30)|Store { op: Sw, rs1: 30, rs2: 12, imm: 0 }
01c420a3 sw x28, 1(x8)|Store { op: Sw, rs1: 8, rs2: 28, imm: 1 }
ff382023 sw x19, -32(x16)|Store { op: Sw, rs1: 16, rs2: 19, imm: 4064 }
";

/// Operations on a register and an immediate.
const IMMEDIATES_AND_SHIFTS: &str = "\
800a8f93 addi x31, x21, -2048|Immediate { op: Addi, rd: 31, rs1: 21, imm: 2048 }
7ff58813 addi x16, x11, 2047|Immediate { op: Addi, rd: 16, rs1: 11, imm: 2047 }
fff20293 addi x5, x4, -1|Immediate { op: Addi, rd: 5, rs1: 4, imm: 4095 }
000f8513 addi x10, x31, 0|Immediate { op: Addi, rd: 10, rs1: 31, imm: 0 }
00100893 addi x17, x0, 1|Immediate { op: Addi, rd: 17, rs1: 0, imm: 1 }
80012013 slti x0, x2, -2048|Immediate { op: Slti, rd: 0, rs1: 2, imm: 2048 }
7ff7a093 slti x1, x15, 2047|Immediate { op: Slti, rd: 1, rs1: 15, imm: 2047 }
fff0af93 slti x31, x1, -1|Immediate { op: Slti, rd: 31, rs1: 1, imm: 4095 }
000f2813 slti x16, x30, 0|Immediate { op: Slti, rd: 16, rs1: 30, imm: 0 }
00142293 slti x5, x8, 1|Immediate { op: Slti, rd: 5, rs1: 8, imm: 1 }
80083513 sltiu x10, x16, -2048|Immediate { op: Sltiu, rd: 10, rs1: 16, imm: 2048 }
7ffab893 sltiu x17, x21, 2047|Immediate { op: Sltiu, rd: 17, rs1: 21, imm: 2047 }
fff5b013 sltiu x0, x11, -1|Immediate { op: Sltiu, rd: 0, rs1: 11, imm: 4095 }
00023093 sltiu x1, x4, 0|Immediate { op: Sltiu, rd: 1, rs1: 4, imm: 0 }
001fbf93 sltiu x31, x31, 1|Immediate { op: Sltiu, rd: 31, rs1: 31, imm: 1 }
80004813 xori x16, x0, -2048|Immediate { op: Xori, rd: 16, rs1: 0, imm: 2048 }
7ff14293 xori x5, x2, 2047|Immediate { op: Xori, rd: 5, rs1: 2, imm: 2047 }
fff7c513 xori x10, x15, -1|Immediate { op: Xori, rd: 10, rs1: 15, imm: 4095 }
0000c893 xori x17, x1, 0|Immediate { op: Xori, rd: 17, rs1: 1, imm: 0 }
001f4013 xori x0, x30, 1|Immediate { op: Xori, rd: 0, rs1: 30, imm: 1 }
80046093 ori x1, x8, -2048|Immediate { op: Ori, rd: 1, rs1: 8, imm: 2048 }
7ff86f93 ori x31, x16, 2047|Immediate { op: Ori, rd: 31, rs1: 16, imm: 2047 }
fffae813 ori x16, x21, -1|Immediate { op: Ori, rd: 16, rs1: 21, imm: 4095 }
0005e293 ori x5, x11, 0|Immediate { op: Ori, rd: 5, rs1: 11, imm: 0 }
00126513 ori x10, x4, 1|Immediate { op: Ori, rd: 10, rs1: 4, imm: 1 }
800ff893 andi x17, x31, -2048|Immediate { op: Andi, rd: 17, rs1: 31, imm: 2048 }
7ff07013 andi x0, x0, 2047|Immediate { op: Andi, rd: 0, rs1: 0, imm: 2047 }
fff17093 andi x1, x2, -1|Immediate { op: Andi, rd: 1, rs1: 2, imm: 4095 }
0007ff93 andi x31, x15, 0|Immediate { op: Andi, rd: 31, rs1: 15, imm: 0 }
0010f813 andi x16, x1, 1|Immediate { op: Andi, rd: 16, rs1: 1, imm: 1 }
000f1293 slli x5, x30, 0|Shift { op: Slli, rd: 5, rs1: 30, amount: 0 }
00141513 slli x10, x8, 1|Shift { op: Slli, rd: 10, rs1: 8, amount: 1 }
01f81893 slli x17, x16, 31|Shift { op: Slli, rd: 17, rs1: 16, amount: 31 }
010a9013 slli x0, x21, 16|Shift { op: Slli, rd: 0, rs1: 21, amount: 16 }
0005d093 srli x1, x11, 0|Shift { op: Srli, rd: 1, rs1: 11, amount: 0 }
00125f93 srli x31, x4, 1|Shift { op: Srli, rd: 31, rs1: 4, amount: 1 }
01ffd813 srli x16, x31, 31|Shift { op: Srli, rd: 16, rs1: 31, amount: 31 }
01005293 srli x5, x0, 16|Shift { op: Srli, rd: 5, rs1: 0, amount: 16 }
40015513 srai x10, x2, 0|Shift { op: Srai, rd: 10, rs1: 2, amount: 0 }
4017d893 srai x17, x15, 1|Shift { op: Srai, rd: 17, rs1: 15, amount: 1 }
41f0d013 srai x0, x1, 31|Shift { op: Srai, rd: 0, rs1: 1, amount: 31 }
410f5093 srai x1, x30, 16|Shift { op: Srai, rd: 1, rs1: 30, amount: 16 }
";

/// Operations on two registers.
const REGISTERS: &str = "\
00040fb3 add x31, x8, x0|Register { op: Add, rd: 31, rs1: 8, rs2: 0 }
00a80833 add x16, x16, x10|Register { op: Add, rd: 16, rs1: 16, rs2: 10 }
017a82b3 add x5, x21, x23|Register { op: Add, rd: 5, rs1: 21, rs2: 23 }
00e58533 add x10, x11, x14|Register { op: Add, rd: 10, rs1: 11, rs2: 14 }
406208b3 sub x17, x4, x6|Register { op: Sub, rd: 17, rs1: 4, rs2: 6 }
401f8033 sub x0, x31, x1|Register { op: Sub, rd: 0, rs1: 31, rs2: 1 }
41f000b3 sub x1, x0, x31|Register { op: Sub, rd: 1, rs1: 0, rs2: 31 }
40010fb3 sub x31, x2, x0|Register { op: Sub, rd: 31, rs1: 2, rs2: 0 }
01079833 sll x16, x15, x16|Register { op: Sll, rd: 16, rs1: 15, rs2: 16 }
007092b3 sll x5, x1, x7|Register { op: Sll, rd: 5, rs1: 1, rs2: 7 }
00cf1533 sll x10, x30, x12|Register { op: Sll, rd: 10, rs1: 30, rs2: 12 }
01c418b3 sll x17, x8, x28|Register { op: Sll, rd: 17, rs1: 8, rs2: 28 }
01382033 slt x0, x16, x19|Register { op: Slt, rd: 0, rs1: 16, rs2: 19 }
000aa0b3 slt x1, x21, x0|Register { op: Slt, rd: 1, rs1: 21, rs2: 0 }
00a5afb3 slt x31, x11, x10|Register { op: Slt, rd: 31, rs1: 11, rs2: 10 }
01722833 slt x16, x4, x23|Register { op: Slt, rd: 16, rs1: 4, rs2: 23 }
00efb2b3 sltu x5, x31, x14|Register { op: Sltu, rd: 5, rs1: 31, rs2: 14 }
00603533 sltu x10, x0, x6|Register { op: Sltu, rd: 10, rs1: 0, rs2: 6 }
001138b3 sltu x17, x2, x1|Register { op: Sltu, rd: 17, rs1: 2, rs2: 1 }
01f7b033 sltu x0, x15, x31|Register { op: Sltu, rd: 0, rs1: 15, rs2: 31 }
0000c0b3 xor x1, x1, x0|Register { op: Xor, rd: 1, rs1: 1, rs2: 0 }
010f4fb3 xor x31, x30, x16|Register { op: Xor, rd: 31, rs1: 30, rs2: 16 }
00744833 xor x16, x8, x7|Register { op: Xor, rd: 16, rs1: 8, rs2: 7 }
00c842b3 xor x5, x16, x12|Register { op: Xor, rd: 5, rs1: 16, rs2: 12 }
01cad533 srl x10, x21, x28|Register { op: Srl, rd: 10, rs1: 21, rs2: 28 }
0135d8b3 srl x17, x11, x19|Register { op: Srl, rd: 17, rs1: 11, rs2: 19 }
00025033 srl x0, x4, x0|Register { op: Srl, rd: 0, rs1: 4, rs2: 0 }
00afd0b3 srl x1, x31, x10|Register { op: Srl, rd: 1, rs1: 31, rs2: 10 }
41705fb3 sra x31, x0, x23|Register { op: Sra, rd: 31, rs1: 0, rs2: 23 }
40e15833 sra x16, x2, x14|Register { op: Sra, rd: 16, rs1: 2, rs2: 14 }
4067d2b3 sra x5, x15, x6|Register { op: Sra, rd: 5, rs1: 15, rs2: 6 }
4010d533 sra x10, x1, x1|Register { op: Sra, rd: 10, rs1: 1, rs2: 1 }
01ff68b3 or x17, x30, x31|Register { op: Or, rd: 17, rs1: 30, rs2: 31 }
00046033 or x0, x8, x0|Register { op: Or, rd: 0, rs1: 8, rs2: 0 }
010860b3 or x1, x16, x16|Register { op: Or, rd: 1, rs1: 16, rs2: 16 }
007aefb3 or x31, x21, x7|Register { op: Or, rd: 31, rs1: 21, rs2: 7 }
00c5f833 and x16, x11, x12|Register { op: And, rd: 16, rs1: 11, rs2: 12 }
01c272b3 and x5, x4, x28|Register { op: And, rd: 5, rs1: 4, rs2: 28 }
013ff533 and x10, x31, x19|Register { op: And, rd: 10, rs1: 31, rs2: 19 }
000078b3 and x17, x0, x0|Register { op: And, rd: 17, rs1: 0, rs2: 0 }
";

/// Fences and system instructions.
const FENCES_AND_SYSTEM: &str = "\
0ff0000f fence iorw, iorw|Fence { bits: 261120 }
0230000f fence r, rw|Fence { bits: 35840 }
0110000f fence w, w|Fence { bits: 17408 }
0310000f fence rw, w|Fence { bits: 50176 }
0840000f fence i, o|Fence { bits: 135168 }
0f20000f fence iorw, r|Fence { bits: 247808 }
04f0000f fence o, iorw|Fence { bits: 80896 }
8330000f fence.tso|Fence { bits: 2149376 }
0100000f pause|Fence { bits: 16384 }
0000000f .insn i 0x0f, 0, x0, x0, 0|Fence { bits: 0 }
0ff00f8f .insn i 0x0f, 0, x31, x0, 255|Fence { bits: 261151 }
0fff800f .insn i 0x0f, 0, x0, x31, 255|Fence { bits: 262112 }
ffff8f8f .insn i 0x0f, 0, x31, x31, -1|Fence { bits: 4194303 }
7248008f .insn i 0x0f, 0, x1, x16, 1828|Fence { bits: 1872385 }
0000808f .insn i 0x0f, 0, x1, x1, 0|Fence { bits: 33 }
8000080f .insn i 0x0f, 0, x16, x0, -2048|Fence { bits: 2097168 }
00000073 ecall|Ecall
00100073 ebreak|Ebreak
";

/// Words by GNU as 2.40 (binutils), for the extensions that have them, code nothing.
const EXTENSIONS: &str = "\
0000100f fence.i|
30001073 csrrw x0, mstatus, x0|
34102573 csrrs x10, mepc, x0|
342332f3 csrrc x5, mcause, x6|
305fd073 csrrwi x0, mtvec, 31|
c00060f3 csrrsi x1, cycle, 0|
c010fff3 csrrci x31, time, 1|
00200073 uret|
10200073 sret|
30200073 mret|
10500073 wfi|
12000073 sfence.vma x0, x0|
02b50533 mul x10, x10, x11|
0220ffb3 remu x31, x1, x2|
02009093 slli x1, x1, 32|
0200d093 srli x1, x1, 32|
4200d093 srai x1, x1, 32|
00013083 ld x1, 0(x2)|
00016083 lwu x1, 0(x2)|
00113023 sd x1, 0(x2)|
0000809b addiw x1, x1, 0|
003100bb addw x1, x2, x3|
100120af lr.w x1, (x2)|
00012087 flw f1, 0(x2)|
003170d3 fadd.s f1, f2, f3|
203120b3 sh1add x1, x2, x3|
403170b3 andn x1, x2, x3|
60011093 clz x1, x2|
0010a00f cbo.clean (x1)|
00004505 c.li x10, 1|
00008082 c.jr x1|
90020001 c.nop and c.ebreak|
";

/// By the manual's listing of RV32I: words whose fixed bits would be right but for those that are named code nothing.
const FIXED_BITS: &str = "\
00000000 illegal by design|
ffffffff illegal by design|
00000010 addi with its lowest bits 0|
0000000b an opcode that is left to custom instructions|
000000f3 ecall with rd 1|
00008073 ecall with rs1 1|
001000f3 ebreak with rd 1|
00108073 ebreak with rs1 1|
00001067 jalr with funct3 1|
00007067 jalr with funct3 7|
00002063 a branch with funct3 2|
00003063 a branch with funct3 3|
00007003 a load with funct3 7|
00004023 a store with funct3 4|
00007023 a store with funct3 7|
0000200f fence with funct3 2|
0000700f fence with funct3 7|
40001013 slli with the funct7 of srai|
60005013 srai with funct7 0x30|
c0005013 srai with funct7 0x60|
80005013 srli with funct7 0x40|
04000033 add with funct7 2|
60000033 sub with funct7 0x30|
40001033 sll with the funct7 of sub|
40002033 slt with the funct7 of sub|
40003033 sltu with the funct7 of sub|
40004033 xor with the funct7 of sub|
80005033 srl with funct7 0x40|
40006033 or with the funct7 of sub|
";

/// By hand, from the manual's formats.
const NAMED: &str = "\
00100513 addi x10, x0, 1|Immediate { op: Addi, rd: 10, rs1: 0, imm: 1 }
0000100f fence.i|
00000000 zeros|
00000073 ecall|Ecall
";

/// The text of the instruction that a word codes, empty where it codes none. Fails where the instruction is not encoded as the word.
fn coded(alloc: Global, word: u32) -> Result<String, Fail> {
    match decode(word) {
        Some(instr) => {
            holds(encode(&instr) == word, "encoded")?;
            Ok(format!(in alloc; "{instr:?}")?)
        }
        None => Ok(String::new(alloc)),
    }
}

fn row_holds(alloc: Global, row: &str) -> Result<(), Fail> {
    let Some((left, instr)) = row.split_once('|') else {
        return Err(Fail::new(row));
    };
    let Some((word, _)) = left.split_once(' ') else {
        return Err(Fail::new(row));
    };
    let text = coded(alloc, u32::from_str_radix(word, 16)?)?;
    holds(text.as_str() == instr, row)
}

fn each_row(alloc: Global, rows: &str) -> Result<(), Fail> {
    for row in rows.lines() {
        row_holds(alloc, row)?;
    }
    Ok(())
}

#[test]
fn upper_and_jump_words(rt: HostRuntime) -> Result<(), Fail> {
    each_row(rt.alloc(), UPPER_AND_JUMPS)
}

#[test]
fn branch_words(rt: HostRuntime) -> Result<(), Fail> {
    each_row(rt.alloc(), BRANCHES)
}

#[test]
fn load_and_store_words(rt: HostRuntime) -> Result<(), Fail> {
    each_row(rt.alloc(), LOADS_AND_STORES)
}

#[test]
fn immediate_and_shift_words(rt: HostRuntime) -> Result<(), Fail> {
    each_row(rt.alloc(), IMMEDIATES_AND_SHIFTS)
}

#[test]
fn register_words(rt: HostRuntime) -> Result<(), Fail> {
    each_row(rt.alloc(), REGISTERS)
}

#[test]
fn fence_and_system_words(rt: HostRuntime) -> Result<(), Fail> {
    each_row(rt.alloc(), FENCES_AND_SYSTEM)
}

#[test]
fn words_of_extensions_code_nothing(rt: HostRuntime) -> Result<(), Fail> {
    each_row(rt.alloc(), EXTENSIONS)
}

#[test]
fn words_with_other_fixed_bits_code_nothing(rt: HostRuntime) -> Result<(), Fail> {
    each_row(rt.alloc(), FIXED_BITS)
}

#[test]
fn named_words(rt: HostRuntime) -> Result<(), Fail> {
    each_row(rt.alloc(), NAMED)
}
