//! Calls of `Math`, `Memory`, `String` and `Sys`, small programs, and each error.
use crate::drawing::{Program, all_draw, draws};
use std::test::Fail;

const CALLS: [Program; 13] = [
    // math abs min max
    Program {
        body: "let s[0] = (Math.abs(0)) = 0; let s[1] = (Math.abs(1)) = 1; let s[2] = (Math.abs(2)) = 2;
let s[3] = (Math.abs(3)) = 3; let s[4] = (Math.abs(7)) = 7; let s[5] = (Math.abs(10)) = 10;
let s[6] = (Math.abs(255)) = 255; let s[7] = (Math.abs(256)) = 256; let s[8] = (Math.abs(12345)) = 12345;
let s[9] = (Math.abs(32766)) = 32766; let s[10] = (Math.abs(32767)) = 32767;
let s[11] = (Math.abs((-1))) = 1; let s[12] = (Math.abs((-2))) = 2; let s[13] = (Math.abs((-3))) = 3;
let s[14] = (Math.abs((-10))) = 10; let s[15] = (Math.abs((-256))) = 256;
let s[16] = (Math.abs((-12345))) = 12345; let s[17] = (Math.abs((-32767))) = 32767;
let s[18] = (Math.abs((~32767))) = (~32767); let s[19] = (Math.min(1, 2)) = 1;
let s[20] = (Math.min(2, 1)) = 1; let s[21] = (Math.min((-3), 2)) = (-3); let s[22] = (Math.min(5, 5)) = 5;
let s[23] = (Math.min(32767, (~32767))) = (~32767); let s[24] = (Math.min((~32767), 32767)) = (~32767);
let s[25] = (Math.min((-1), (-2))) = (-2); let s[26] = (Math.max(1, 2)) = 2;
let s[27] = (Math.max(2, 1)) = 2; let s[28] = (Math.max((-3), 2)) = 2; let s[29] = (Math.max(5, 5)) = 5;
let s[30] = (Math.max(32767, (~32767))) = 32767; let s[31] = (Math.max((~32767), 32767)) = 32767;
let s[32] = (Math.max((-1), (-2))) = (-1);",
        moves: 1_000_000,
        keys: "",
        rows: "0..1: 0..512
1..2: 0..16
",
    },
    // math sqrt
    Program {
        body: "let s[0] = (Math.sqrt(0)) = 0; let s[1] = (Math.sqrt(1)) = 1; let s[2] = (Math.sqrt(2)) = 1;
let s[3] = (Math.sqrt(3)) = 1; let s[4] = (Math.sqrt(4)) = 2; let s[5] = (Math.sqrt(8)) = 2;
let s[6] = (Math.sqrt(9)) = 3; let s[7] = (Math.sqrt(15)) = 3; let s[8] = (Math.sqrt(16)) = 4;
let s[9] = (Math.sqrt(17)) = 4; let s[10] = (Math.sqrt(99)) = 9; let s[11] = (Math.sqrt(100)) = 10;
let s[12] = (Math.sqrt(101)) = 10; let s[13] = (Math.sqrt(1023)) = 31; let s[14] = (Math.sqrt(1024)) = 32;
let s[15] = (Math.sqrt(32760)) = 180; let s[16] = (Math.sqrt(32761)) = 181;
let s[17] = (Math.sqrt(32766)) = 181; let s[18] = (Math.sqrt(32767)) = 181;
let s[19] = (Math.sqrt(16383)) = 127; let s[20] = (Math.sqrt(16384)) = 128;",
        moves: 1_000_000,
        keys: "",
        rows: "0..1: 0..336
",
    },
    // math multiply
    Program {
        body: "let s[0] = (3 * 4) = 12; let s[1] = ((-3) * 5) = (-15); let s[2] = (0 * 7) = 0; let s[3] = (7 * 0) = 0;
let s[4] = (1 * (-1)) = (-1); let s[5] = ((-1) * (-1)) = 1; let s[6] = (181 * 181) = 32761;
let s[7] = (256 * 256) = 0; let s[8] = ((~32767) * 1) = (~32767); let s[9] = ((~32767) * (-1)) = (~32767);
let s[10] = ((~32767) * 2) = 0; let s[11] = (32767 * 32767) = 1; let s[12] = (300 * (-77)) = (-23100);
let s[13] = (12345 * 6789) = (-10339);",
        moves: 1_000_000,
        keys: "",
        rows: "0..1: 0..224
",
    },
    // shifts: twice the word, and its half, rounded down
    Program {
        body: "let s[0] = ^5 = 10; let s[1] = #5 = 2; let s[2] = #(-5) = (-3); let s[3] = ^32767 = (-2);
let s[4] = ^(~32767) = 0; let s[5] = #(~32767) = (-16384); let s[6] = #(-1) = (-1); let s[7] = ##12 + ^#7 = 9;",
        moves: 1_000_000,
        keys: "",
        rows: "0..1: 0..128
",
    },
    // math divide
    Program {
        body: "let s[0] = (7 / 2) = 3; let s[1] = ((-7) / 2) = (-3); let s[2] = (7 / (-2)) = (-3);
let s[3] = ((-7) / (-2)) = 3; let s[4] = (0 / 5) = 0; let s[5] = (5 / 7) = 0; let s[6] = ((-5) / 7) = 0;
let s[7] = (32767 / 1) = 32767; let s[8] = ((~32767) / 1) = (~32767);
let s[9] = ((~32767) / (-1)) = (~32767); let s[10] = (32767 / (-1)) = (-32767);
let s[11] = ((~32767) / (~32767)) = 1; let s[12] = (32767 / (~32767)) = 0;
let s[13] = ((~32767) / 32767) = (-1); let s[14] = (32767 / 32767) = 1; let s[15] = (12345 / 10) = 1234;
let s[16] = ((-12345) / 100) = (-123); let s[17] = (1 / (~32767)) = 0; let s[18] = ((-1) / (~32767)) = 0;
let s[19] = (20000 / 3) = 6666;",
        moves: 1_000_000,
        keys: "",
        rows: "0..1: 0..320
",
    },
    // memory
    Program {
        body: "let a = Memory.alloc(3); let s[21] = a = 16092; let b = Memory.alloc(1); let s[0] = (a - b) = 2; do Memory.deAlloc(a);
let c = Memory.alloc(3); let s[1] = (c - b) = 2; let c[0] = 11; let c[2] = 33; let b[0] = 7;
let s[2] = (Memory.peek(c)) = 11; let s[3] = (Memory.peek(c + 2)) = 33; let s[4] = (Memory.peek(b)) = 7;
do Memory.poke(16389, -5); do Memory.poke(c + 1, 22); let s[6] = (c[1]) = 22; do Memory.deAlloc(c);
let d = Memory.alloc(2); let s[7] = (d - b) = 2; let s[8] = (Memory.alloc(5) - b) = (-6);
let e = Memory.alloc(9000); let s[9] = (b - e) = 9007; let s[10] = ((e > 2048) & (e < 16384)) = (-1);
do Memory.deAlloc(e); let s[11] = (Memory.alloc(9000) - e) = 0; do Memory.init();
let s[12] = (Memory.alloc(3)) = 16381; let s[13] = (Memory.alloc(1)) = 16379; do Memory.init();
let s[14] = (Memory.alloc(14335)) = 2049; do Memory.init(); let s[15] = (Memory.alloc(14334)) = 2049;
do Memory.init(); let s[16] = (Memory.alloc(14333)) = 2051; let s[17] = (Memory.alloc(1)) = 2049;
do Memory.init(); let s[18] = (Memory.alloc(1)) = 16383; do Memory.deAlloc(16383);
let s[19] = (Memory.alloc(1)) = 16383; do Memory.init(); let a = Memory.alloc(14335); do Memory.deAlloc(a);
let s[20] = (Memory.alloc(14335)) = a;",
        moves: 1_000_000,
        keys: "",
        rows: "0..1: 0..82 83..352
",
    },
    // string
    Program {
        body: "let t = String.new(5); let s[0] = (t.length()) = 0; let u = t.appendChar(72); do u.appendChar(105);
let s[1] = (t.length()) = 2; let s[2] = (t.charAt(0)) = 72; let s[3] = (t.charAt(1)) = 105;
do t.setCharAt(1, 33); let s[4] = (t.charAt(1)) = 33; let s[5] = (t.length()) = 2; do t.eraseLastChar();
let s[6] = (t.length()) = 1; let s[7] = (t.charAt(0)) = 72; let s[8] = ((t = u) & 1) = 1; let t = \"42\";
let s[9] = (t.intValue()) = 42; let t = \"-42\"; let s[10] = (t.intValue()) = (-42); let t = \"\";
let s[11] = (t.intValue()) = 0; let t = \"-\"; let s[12] = (t.intValue()) = 0; let t = \"12a3\";
let s[13] = (t.intValue()) = 12; let t = \"-12-3\"; let s[14] = (t.intValue()) = (-12); let t = \"40000\";
let s[15] = (t.intValue()) = (-25536); let t = \"-70000\"; let s[16] = (t.intValue()) = (-4464);
let t = \"-32768\"; let s[17] = (t.intValue()) = (~32767); let s[18] = (String.backSpace()) = 129;
let s[19] = (String.doubleQuote()) = 34; let s[20] = (String.newLine()) = 128; let t = \"a b!A\";
let s[21] = (t.length()) = 5; let s[22] = (t.charAt(3)) = 33; let s[23] = (t.charAt(4)) = 65; do t.dispose();
let t = String.new(5); do t.appendChar(1); do t.appendChar(1); do t.appendChar(1); do t.appendChar(1);
do t.appendChar(1); let s[24] = (t.length()) = 5; let a = Array.new(3); let a[0] = 9; let a[1] = 9;
let a[2] = 9; do a.dispose(); let t = String.new(2); let s[25] = (t.length()) = 0; do t.appendChar(7);
let s[26] = (t.length()) = 1; let t = \"1:2\"; let s[27] = (t.intValue()) = 1; let t = \"2/1\";
let s[28] = (t.intValue()) = 2;",
        moves: 1_000_000,
        keys: "",
        rows: "0..1: 0..464
",
    },
    // string set int
    Program {
        body: "let t = String.new(6); do t.setInt(0); let s[0] = t.length() = 1; let s[1] = t.intValue() = 0;
do t.setInt(7); let s[2] = t.length() = 1; let s[3] = t.intValue() = 7; do t.setInt(9);
let s[4] = t.length() = 1; let s[5] = t.intValue() = 9; do t.setInt(10); let s[6] = t.length() = 2;
let s[7] = t.intValue() = 10; do t.setInt(99); let s[8] = t.length() = 2; let s[9] = t.intValue() = 99;
do t.setInt(100); let s[10] = t.length() = 3; let s[11] = t.intValue() = 100; do t.setInt(1234);
let s[12] = t.length() = 4; let s[13] = t.intValue() = 1234; do t.setInt(32767); let s[14] = t.length() = 5;
let s[15] = t.intValue() = 32767; do t.setInt((-1)); let s[16] = t.length() = 2;
let s[17] = t.intValue() = (-1); do t.setInt((-9)); let s[18] = t.length() = 2;
let s[19] = t.intValue() = (-9); do t.setInt((-10)); let s[20] = t.length() = 3;
let s[21] = t.intValue() = (-10); do t.setInt((-100)); let s[22] = t.length() = 4;
let s[23] = t.intValue() = (-100); do t.setInt((-32767)); let s[24] = t.length() = 6;
let s[25] = t.intValue() = (-32767); do t.setInt((~32767)); let s[26] = t.length() = 6;
let s[27] = t.intValue() = (~32767);",
        moves: 3_000_000,
        keys: "",
        rows: "0..1: 0..448
",
    },
    // sys wait
    Program {
        body: "do Sys.wait(0); do Sys.wait(1000); let s[0] = 1;",
        moves: 1_000_000,
        keys: "",
        rows: "0..1: 0..1
",
    },
    // sys halt
    Program {
        body: "let s[0] = 1; do Sys.halt(); let s[0] = 2;",
        moves: 1_000_000,
        keys: "",
        rows: "0..1: 0..1
",
    },
    // sys return
    Program {
        body: "let s[0] = s[0] + 1;",
        moves: 1_000_000,
        keys: "",
        rows: "0..1: 0..1
",
    },
    // sys error number
    Program {
        body: "do Sys.error(~32767);",
        moves: 1_000_000,
        keys: "",
        rows: "1..2: 0..5 8..12 16..20 32..37 41..44 48..53 58..60 65..68
2..3: 0..1 8..9 12..13 16..17 20..21 35..36 40..41 44..45 52..53 57..58 64..65 68..69
3..4: 0..1 8..9 12..13 16..17 20..21 34..35 44..45 51..52 56..57 64..65 68..69
4..5: 0..4 8..12 16..20 24..29 35..36 43..44 50..51 56..60 65..68
5..6: 0..1 8..9 10..11 16..17 18..19 36..37 42..43 49..50 56..57 60..61 64..65 68..69
6..7: 0..1 8..9 11..12 16..17 19..20 32..33 36..37 41..42 49..50 56..57 60..61 64..65 68..69
7..8: 0..5 8..9 12..13 16..17 20..21 33..36 40..45 49..50 57..60 65..68
",
    },
    // error at cursor
    Program {
        body: "do Output.moveCursor(10, 61); let s = 1 / 0;",
        moves: 1_000_000,
        keys: "",
        rows: "111..112: 488..493 496..500 504..508
112..114: 488..489 496..497 500..501 504..505 508..509
114..115: 488..492 496..500 504..508
115..116: 488..489 496..497 498..499 504..505 506..507
116..117: 488..489 496..497 499..500 504..505 507..508
117..118: 488..493 496..497 500..501 504..505 508..509
122..123: 0..5
123..124: 3..4
124..125: 2..3
125..126: 3..4
126..127: 4..5
127..128: 0..1 4..5
128..129: 1..4
",
    },
];

fn calls_table() -> &'static [Program] {
    &CALLS
}

const SMALL: [Program; 10] = [
    // comparisons are those of signed words
    Program {
        body: "let s[0] = 20000 < (-20000); let s[1] = (-20000) < 20000;",
        moves: 100_000,
        keys: "",
        rows: "0..1: 16..32
",
    },
    // one pixel
    Program {
        body: "let s[0] = 1;",
        moves: 100_000,
        keys: "",
        rows: "0..1: 0..1
",
    },
    // operators from left to right
    Program {
        body: "let s[0] = 2+3*4; let s[1] = 2+(3*4);",
        moves: 100_000,
        keys: "",
        rows: "0..1: 2..3 4..5 17..20
",
    },
    // any value but 0 is true
    Program {
        body: "if (2) { let s[0] = 1; } else { let s[0] = 2; } if (~2) { let s[1] = 1; } else { let s[1] = 2; }",
        moves: 100_000,
        keys: "",
        rows: "0..1: 0..1 16..17
",
    },
    // the lowest number
    Program {
        body: "let s[0] = ~32767;",
        moves: 100_000,
        keys: "",
        rows: "0..1: 15..16
",
    },
    // the key that is down
    Program {
        body: "let s[0] = Keyboard.keyPressed();",
        moves: 100_000,
        keys: "0 65
1000000 66
",
        rows: "0..1: 0..1 6..7
",
    },
    // division by 0
    Program {
        body: "let s = 1/0;",
        moves: 250_000,
        keys: "",
        rows: "1..2: 0..5 8..12 16..20 24..29
2..3: 0..1 8..9 12..13 16..17 20..21 27..28
3..4: 0..1 8..9 12..13 16..17 20..21 26..27
4..5: 0..4 8..12 16..20 27..28
5..6: 0..1 8..9 10..11 16..17 18..19 28..29
6..7: 0..1 8..9 11..12 16..17 19..20 24..25 28..29
7..8: 0..5 8..9 12..13 16..17 20..21 25..28
",
    },
    // square root and minimum
    Program {
        body: "let s[0] = Math.sqrt(32767); let s[1] = Math.min(-3, 2);",
        moves: 400_000,
        keys: "",
        rows: "0..1: 0..1 2..3 4..6 7..8 16..17 18..32
",
    },
    // a line and a circle
    Program {
        body: "do Screen.drawLine(0, 0, 3, 1); do Screen.drawCircle(34, 2, 2);",
        moves: 250_000,
        keys: "",
        rows: "0..1: 0..1 34..35
1..2: 0..4 33..36
2..3: 32..37
3..4: 33..36
4..5: 34..35
",
    },
    // a negative number
    Program {
        body: "if (true) { do Output.printInt(-7); }",
        moves: 250_000,
        keys: "",
        rows: "1..2: 8..13
2..3: 12..13
3..4: 11..12
4..5: 0..5 10..11
5..8: 9..10
",
    },
];

fn small_table() -> &'static [Program] {
    &SMALL
}

const ERRORS: [(&str, &[&str]); 18] = [
    // error 1
    (
        "1..2: 0..5 8..12 16..20 26..27\n2..3: 0..1 8..9 12..13 16..17 20..21 25..27\n3..4: 0..1 8..9 12..13 16..17 20..21 26..27\n4..5: 0..4 8..12 16..20 26..27\n5..6: 0..1 8..9 10..11 16..17 18..19 26..27\n6..7: 0..1 8..9 11..12 16..17 19..20 26..27\n7..8: 0..5 8..9 12..13 16..17 20..21 25..28\n",
        &["do Sys.wait(-1);"],
    ),
    // error 2
    (
        "1..2: 0..5 8..12 16..20 25..28\n2..3: 0..1 8..9 12..13 16..17 20..21 24..25 28..29\n3..4: 0..1 8..9 12..13 16..17 20..21 28..29\n4..5: 0..4 8..12 16..20 27..28\n5..6: 0..1 8..9 10..11 16..17 18..19 26..27\n6..7: 0..1 8..9 11..12 16..17 19..20 25..26\n7..8: 0..5 8..9 12..13 16..17 20..21 24..29\n",
        &["let s = Array.new(0);", "let s = Array.new(-3);"],
    ),
    // error 3
    (
        "1..2: 0..5 8..12 16..20 24..29\n2..3: 0..1 8..9 12..13 16..17 20..21 27..28\n3..4: 0..1 8..9 12..13 16..17 20..21 26..27\n4..5: 0..4 8..12 16..20 27..28\n5..6: 0..1 8..9 10..11 16..17 18..19 28..29\n6..7: 0..1 8..9 11..12 16..17 19..20 24..25 28..29\n7..8: 0..5 8..9 12..13 16..17 20..21 25..28\n",
        &["let s = 1/0;"],
    ),
    // error 4
    (
        "1..2: 0..5 8..12 16..20 27..28\n2..3: 0..1 8..9 12..13 16..17 20..21 26..28\n3..4: 0..1 8..9 12..13 16..17 20..21 25..26 27..28\n4..5: 0..4 8..12 16..20 24..25 27..28\n5..6: 0..1 8..9 10..11 16..17 18..19 24..29\n6..7: 0..1 8..9 11..12 16..17 19..20 27..28\n7..8: 0..5 8..9 12..13 16..17 20..21 27..28\n",
        &["let s = Math.sqrt(-1);", "let s = Math.sqrt(~32767);"],
    ),
    // error 5
    (
        "1..2: 0..5 8..12 16..20 24..29\n2..3: 0..1 8..9 12..13 16..17 20..21 24..25\n3..4: 0..1 8..9 12..13 16..17 20..21 24..28\n4..5: 0..4 8..12 16..20 28..29\n5..6: 0..1 8..9 10..11 16..17 18..19 28..29\n6..7: 0..1 8..9 11..12 16..17 19..20 24..25 28..29\n7..8: 0..5 8..9 12..13 16..17 20..21 25..28\n",
        &["let s = Memory.alloc(0);", "let s = Memory.alloc(-1);"],
    ),
    // error 6
    (
        "1..2: 0..5 8..12 16..20 26..28\n2..3: 0..1 8..9 12..13 16..17 20..21 25..26\n3..4: 0..1 8..9 12..13 16..17 20..21 24..25\n4..5: 0..4 8..12 16..20 24..28\n5..6: 0..1 8..9 10..11 16..17 18..19 24..25 28..29\n6..7: 0..1 8..9 11..12 16..17 19..20 24..25 28..29\n7..8: 0..5 8..9 12..13 16..17 20..21 25..28\n",
        &[
            "let s = Memory.alloc(14336);",
            "let s = Memory.alloc(14335);",
            "let s = Memory.alloc(32767);",
            "do Memory.init(); let a = Memory.alloc(14336);",
            "do Memory.init(); let a = Memory.alloc(14335); let a = Memory.alloc(1);",
        ],
    ),
    // error 7
    (
        "1..2: 0..5 8..12 16..20 24..29\n2..3: 0..1 8..9 12..13 16..17 20..21 28..29\n3..4: 0..1 8..9 12..13 16..17 20..21 27..28\n4..5: 0..4 8..12 16..20 26..27\n5..6: 0..1 8..9 10..11 16..17 18..19 25..26\n6..7: 0..1 8..9 11..12 16..17 19..20 25..26\n7..8: 0..5 8..9 12..13 16..17 20..21 25..26\n",
        &[
            "do Screen.drawPixel(512, 0);",
            "do Screen.drawPixel(0, 256);",
            "do Screen.drawPixel(-1, 0);",
            "do Screen.drawPixel(0, -1);",
        ],
    ),
    // error 8
    (
        "1..2: 0..5 8..12 16..20 25..28\n2..4: 0..1 8..9 12..13 16..17 20..21 24..25 28..29\n4..5: 0..4 8..12 16..20 25..28\n5..6: 0..1 8..9 10..11 16..17 18..19 24..25 28..29\n6..7: 0..1 8..9 11..12 16..17 19..20 24..25 28..29\n7..8: 0..5 8..9 12..13 16..17 20..21 25..28\n",
        &[
            "do Screen.drawLine(0, 0, 512, 1);",
            "do Screen.drawLine(0, 256, 0, 0);",
            "do Screen.drawLine(-1, 0, 5, 0);",
            "do Screen.drawLine(3, 3, 3, -1);",
        ],
    ),
    // error 9
    (
        "1..2: 0..5 8..12 16..20 25..28\n2..4: 0..1 8..9 12..13 16..17 20..21 24..25 28..29\n4..5: 0..4 8..12 16..20 25..29\n5..6: 0..1 8..9 10..11 16..17 18..19 28..29\n6..7: 0..1 8..9 11..12 16..17 19..20 27..28\n7..8: 0..5 8..9 12..13 16..17 20..21 25..27\n",
        &[
            "do Screen.drawRectangle(0, 0, 512, 1);",
            "do Screen.drawRectangle(0, 0, 1, 256);",
            "do Screen.drawRectangle(2, 0, 1, 5);",
            "do Screen.drawRectangle(0, 3, 1, 2);",
            "do Screen.drawRectangle(-1, 0, 1, 1);",
        ],
    ),
    // error 12
    (
        "1..2: 0..5 8..12 16..20 26..27 33..36\n2..3: 0..1 8..9 12..13 16..17 20..21 25..27 32..33 36..37\n3..4: 0..1 8..9 12..13 16..17 20..21 26..27 36..37\n4..5: 0..4 8..12 16..20 26..27 35..36\n5..6: 0..1 8..9 10..11 16..17 18..19 26..27 34..35\n6..7: 0..1 8..9 11..12 16..17 19..20 26..27 33..34\n7..8: 0..5 8..9 12..13 16..17 20..21 25..28 32..37\n",
        &[
            "do Screen.drawCircle(512, 0, 0);",
            "do Screen.drawCircle(0, -1, 0);",
            "do Screen.drawCircle(-1, 5, 900);",
        ],
    ),
    // error 13
    (
        "1..2: 0..5 8..12 16..20 26..27 32..37\n2..3: 0..1 8..9 12..13 16..17 20..21 25..27 35..36\n3..4: 0..1 8..9 12..13 16..17 20..21 26..27 34..35\n4..5: 0..4 8..12 16..20 26..27 35..36\n5..6: 0..1 8..9 10..11 16..17 18..19 26..27 36..37\n6..7: 0..1 8..9 11..12 16..17 19..20 26..27 32..33 36..37\n7..8: 0..5 8..9 12..13 16..17 20..21 25..28 33..36\n",
        &[
            "do Screen.drawCircle(9, 9, -1);",
            "do Screen.drawCircle(9, 50, 10);",
            "do Screen.drawCircle(50, 9, 10);",
            "do Screen.drawCircle(502, 50, 10);",
            "do Screen.drawCircle(50, 246, 10);",
            "do Screen.drawCircle(256, 128, 128);",
            "do Screen.drawCircle(256, 128, 181);",
            "do Screen.drawCircle(256, 128, 182);",
            "do Screen.drawCircle(256, 128, 32767);",
            "do Screen.drawCircle(0, 0, ~32767);",
            "do Screen.drawCircle(256, 128, 512);",
            "do Screen.drawCircle(256, 0, 256);",
        ],
    ),
    // error 14
    (
        "1..2: 0..5 8..12 16..20 26..27 35..36\n2..3: 0..1 8..9 12..13 16..17 20..21 25..27 34..36\n3..4: 0..1 8..9 12..13 16..17 20..21 26..27 33..34 35..36\n4..5: 0..4 8..12 16..20 26..27 32..33 35..36\n5..6: 0..1 8..9 10..11 16..17 18..19 26..27 32..37\n6..7: 0..1 8..9 11..12 16..17 19..20 26..27 35..36\n7..8: 0..5 8..9 12..13 16..17 20..21 25..28 35..36\n",
        &["let t = String.new(-1);"],
    ),
    // error 15
    (
        "1..2: 0..5 8..12 16..20 26..27 32..37\n2..3: 0..1 8..9 12..13 16..17 20..21 25..27 32..33\n3..4: 0..1 8..9 12..13 16..17 20..21 26..27 32..36\n4..5: 0..4 8..12 16..20 26..27 36..37\n5..6: 0..1 8..9 10..11 16..17 18..19 26..27 36..37\n6..7: 0..1 8..9 11..12 16..17 19..20 26..27 32..33 36..37\n7..8: 0..5 8..9 12..13 16..17 20..21 25..28 33..36\n",
        &[
            "let t = \"ab\"; let s = t.charAt(2);",
            "let t = \"ab\"; let s = t.charAt(-1);",
            "let t = String.new(3); let s = t.charAt(0);",
        ],
    ),
    // error 16
    (
        "1..2: 0..5 8..12 16..20 26..27 34..36\n2..3: 0..1 8..9 12..13 16..17 20..21 25..27 33..34\n3..4: 0..1 8..9 12..13 16..17 20..21 26..27 32..33\n4..5: 0..4 8..12 16..20 26..27 32..36\n5..6: 0..1 8..9 10..11 16..17 18..19 26..27 32..33 36..37\n6..7: 0..1 8..9 11..12 16..17 19..20 26..27 32..33 36..37\n7..8: 0..5 8..9 12..13 16..17 20..21 25..28 33..36\n",
        &[
            "let t = \"ab\"; do t.setCharAt(2, 1);",
            "let t = \"ab\"; do t.setCharAt(-1, 1);",
        ],
    ),
    // error 17
    (
        "1..2: 0..5 8..12 16..20 26..27 32..37\n2..3: 0..1 8..9 12..13 16..17 20..21 25..27 36..37\n3..4: 0..1 8..9 12..13 16..17 20..21 26..27 35..36\n4..5: 0..4 8..12 16..20 26..27 34..35\n5..6: 0..1 8..9 10..11 16..17 18..19 26..27 33..34\n6..7: 0..1 8..9 11..12 16..17 19..20 26..27 33..34\n7..8: 0..5 8..9 12..13 16..17 20..21 25..28 33..34\n",
        &[
            "let t = \"ab\"; do t.appendChar(1);",
            "let t = String.new(0); do t.appendChar(1);",
        ],
    ),
    // error 18
    (
        "1..2: 0..5 8..12 16..20 26..27 33..36\n2..3: 0..1 8..9 12..13 16..17 20..21 25..27 32..33 36..37\n3..4: 0..1 8..9 12..13 16..17 20..21 26..27 32..33 36..37\n4..5: 0..4 8..12 16..20 26..27 33..36\n5..6: 0..1 8..9 10..11 16..17 18..19 26..27 32..33 36..37\n6..7: 0..1 8..9 11..12 16..17 19..20 26..27 32..33 36..37\n7..8: 0..5 8..9 12..13 16..17 20..21 25..28 33..36\n",
        &[
            "let t = String.new(2); do t.eraseLastChar();",
            "let t = \"\"; do t.eraseLastChar();",
        ],
    ),
    // error 19
    (
        "1..2: 0..5 8..12 16..20 26..27 33..36\n2..3: 0..1 8..9 12..13 16..17 20..21 25..27 32..33 36..37\n3..4: 0..1 8..9 12..13 16..17 20..21 26..27 32..33 36..37\n4..5: 0..4 8..12 16..20 26..27 33..37\n5..6: 0..1 8..9 10..11 16..17 18..19 26..27 36..37\n6..7: 0..1 8..9 11..12 16..17 19..20 26..27 35..36\n7..8: 0..5 8..9 12..13 16..17 20..21 25..28 33..35\n",
        &[
            "let t = String.new(2); do t.setInt(100);",
            "let t = String.new(2); do t.setInt(-10);",
            "let t = String.new(0); do t.setInt(0);",
            "let t = String.new(5); do t.setInt(~32767);",
        ],
    ),
    // error 20
    (
        "1..2: 0..5 8..12 16..20 25..28 33..36\n2..3: 0..1 8..9 12..13 16..17 20..21 24..25 28..29 32..33 36..37\n3..4: 0..1 8..9 12..13 16..17 20..21 28..29 32..33 35..37\n4..5: 0..4 8..12 16..20 27..28 32..33 34..35 36..37\n5..6: 0..1 8..9 10..11 16..17 18..19 26..27 32..34 36..37\n6..7: 0..1 8..9 11..12 16..17 19..20 25..26 32..33 36..37\n7..8: 0..5 8..9 12..13 16..17 20..21 24..29 33..36\n",
        &[
            "do Output.moveCursor(23, 0);",
            "do Output.moveCursor(0, 64);",
            "do Output.moveCursor(-1, 0);",
            "do Output.moveCursor(0, -1);",
        ],
    ),
];

fn errors_table() -> &'static [(&'static str, &'static [&'static str])] {
    &ERRORS
}

#[test]
fn calls_give_words(rt: HostRuntime) -> Result<(), Fail> {
    all_draw(&rt, rt.alloc(), calls_table())
}

#[test]
fn small_programs_draw(rt: HostRuntime) -> Result<(), Fail> {
    all_draw(&rt, rt.alloc(), small_table())
}

#[test]
fn errors_are_told(rt: HostRuntime) -> Result<(), Fail> {
    for (rows, bodies) in errors_table() {
        for body in *bodies {
            draws(&rt, rt.alloc(), body, 250_000, "", rows)?;
        }
    }
    Ok(())
}
