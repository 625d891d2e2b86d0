//! The texts of the operating system (book, chapter 12), a constant for each class.
//!
//! `multiply`, `divide` and the heap of `Memory` are not among them: they are trees that are made (`crate::routines`).

pub const ARRAY: &str = "// Arrays: blocks of the heap. (Book, chapter 12.)
class Array {
    // A block of so many words.
    function Array new(int size) {
        if (size < 1) { do Sys.error(2); }
        return Memory.alloc(size);
    }

    // Gives the block back.
    method void dispose() {
        do Memory.deAlloc(this);
        return;
    }
}
";

pub const KEYBOARD: &str =
    "// The keyboard: the word 24576 is the code of the key that is down, or 0. (Book, chapter 12.)
class Keyboard {
    // Nothing is kept between calls.
    function void init() {
        return;
    }

    // The code of the key that is down, or 0.
    function char keyPressed() {
        return Memory.peek(24576);
    }

    // Waits until a key is down and up again, and prints it.
    function char readChar() {
        var char c;
        let c = Keyboard.key();
        do Output.printChar(c);
        return c;
    }

    // A text of at most 80 characters, up to the key newline; the key backspace takes the last one away.
    function String readLine(String message) {
        var String line;
        var char c;
        do Output.printString(message);
        let line = String.new(80);
        let c = Keyboard.key();
        while (~(c = 128)) {
            if (c = 129) {
                if (line.length()) {
                    do line.eraseLastChar();
                    do Output.backSpace();
                }
            } else {
                if (line.length() < 80) {
                    do line.appendChar(c);
                    do Output.printChar(c);
                }
            }
            let c = Keyboard.key();
        }
        do Output.println();
        return line;
    }

    // The number that such a text begins with.
    function int readInt(String message) {
        var String line;
        var int n;
        let line = Keyboard.readLine(message);
        let n = line.intValue();
        do line.dispose();
        return n;
    }

    // Waits until a key is down and up again.
    function char key() {
        var char c;
        while (c = 0) { let c = Keyboard.keyPressed(); }
        while (Keyboard.keyPressed()) { }
        return c;
    }
}
";

pub const MATH: &str = "// Arithmetic on words, modulo 65536. (Book, chapter 12.)
class Math {
    // Nothing is kept between calls.
    function void init() {
        return;
    }

    // -32768 has no positive counterpart: it stays.
    function int abs(int x) {
        if (x < 0) { return -x; }
        return x;
    }

    // The lesser of the two.
    function int min(int a, int b) {
        if (a < b) { return a; }
        return b;
    }

    // The greater of the two.
    function int max(int a, int b) {
        if (a > b) { return a; }
        return b;
    }

    // The greatest y with y * y at most x. A square is the sum of the first odd numbers: so many of them as x holds are taken off.
    function int sqrt(int x) {
        var int y, odd;
        if (x < 0) { do Sys.error(4); }
        let odd = 1;
        while (~(x < odd)) {
            let x = x - odd;
            let odd = odd + 2;
            let y = y + 1;
        }
        return y;
    }
}
";

pub const MEMORY: &str =
    "// The heap, the words 2048 to 16383. (Book, chapter 12.) It is cut into parts. The first word of a part is its length, this word
// counted. The second word of a free part is the address of the next free part, or 0. A block that is given out begins at the
// second word of its part.
class Memory {
    // the first free part, or 0
    static Array free;

    // The word at the address.
    function int peek(Array address) {
        return address[0];
    }

    // Sets the word at the address.
    function void poke(Array address, int value) {
        let address[0] = value;
        return;
    }
}
";

pub const OUTPUT: &str =
    "// Text on the screen: 23 rows of 64 cells, each 11 pixels high and 8 wide, two cells to a word. (Book, chapter 12.)
class Output {
    // three words for each character, that of c at font + 3*c
    static Array font;

    // The cell of the cursor: its top word, and whether it is the upper half of the word. Each row of cells begins at an address
    // whose five lowest bits are 0.
    static Array place;
    static boolean right;

    // A character has five columns of seven dots, two columns to a word, the left one lower and the top dot lowest. The last
    // character, 127, stands for all codes that have none.
    function void init() {
        let font = Memory.alloc(288);
        do Output.four(0, 0, 0, 0, 95, 0, 896, 896, 0, 16276, 16276, 20);
        do Output.four(5412, 5503, 18, 2467, 12808, 98, 9398, 4437, 80, 640, 3, 0);
        do Output.four(3584, 8354, 0, 8320, 3618, 0, 1044, 1086, 20, 1032, 1086, 8);
        do Output.four(10240, 48, 0, 1032, 1032, 8, 12288, 96, 0, 2080, 520, 2);
        do Output.four(10430, 8905, 62, 8448, 8319, 0, 12482, 9425, 70, 8353, 9669, 49);
        do Output.four(2584, 16274, 16, 8871, 8901, 57, 9532, 9417, 48, 14465, 649, 3);
        do Output.four(9398, 9417, 54, 9350, 5321, 30, 6912, 54, 0, 11008, 54, 0);
        do Output.four(2568, 8354, 0, 2580, 2580, 20, 8320, 2594, 8, 130, 1233, 6);
        do Output.four(9394, 8441, 62, 2302, 2193, 126, 9471, 9417, 54, 8382, 8385, 34);
        do Output.four(8447, 4417, 28, 9471, 9417, 65, 1279, 1161, 1, 8382, 9417, 122);
        do Output.four(1151, 1032, 127, 8320, 8447, 0, 8224, 8129, 1, 1151, 4372, 65);
        do Output.four(8319, 8256, 64, 383, 268, 127, 639, 2056, 127, 8382, 8385, 62);
        do Output.four(1279, 1161, 6, 8382, 4305, 94, 1279, 5273, 70, 9414, 9417, 49);
        do Output.four(129, 255, 1, 8255, 8256, 63, 4127, 4160, 31, 8255, 8248, 63);
        do Output.four(2659, 2568, 99, 1031, 1136, 7, 10465, 8905, 67, 16256, 8385, 0);
        do Output.four(514, 2056, 32, 8320, 16321, 0, 260, 257, 4, 8256, 8256, 64);
        do Output.four(128, 514, 0, 10784, 10836, 120, 9343, 8772, 56, 8760, 8772, 32);
        do Output.four(8760, 9284, 127, 10808, 10836, 24, 16136, 137, 2, 10508, 10578, 62);
        do Output.four(1151, 516, 120, 8704, 8317, 0, 8224, 7876, 0, 2175, 8744, 0);
        do Output.four(8320, 8319, 0, 636, 536, 120, 1148, 516, 120, 8760, 8772, 56);
        do Output.four(2684, 2580, 8, 2568, 3092, 124, 1148, 516, 8, 10824, 10836, 32);
        do Output.four(8068, 8260, 32, 8252, 4160, 124, 4124, 4160, 28, 8252, 8240, 60);
        do Output.four(5188, 5136, 68, 10252, 10320, 60, 12868, 9812, 68, 1024, 8374, 0);
        do Output.four(0, 127, 0, 8320, 1078, 0, 520, 2056, 8, 16383, 16383, 127);
        let font = font - 384;
        let place = 16384;
        let right = false;
        return;
    }

    // Four characters more go into the font.
    function void four(int a1, int a2, int a3, int b1, int b2, int b3, int c1, int c2, int c3, int d1, int d2, int d3) {
        let font[0] = a1;
        let font[1] = a2;
        let font[2] = a3;
        let font[3] = b1;
        let font[4] = b2;
        let font[5] = b3;
        let font[6] = c1;
        let font[7] = c2;
        let font[8] = c3;
        let font[9] = d1;
        let font[10] = d2;
        let font[11] = d3;
        let font = font + 12;
        return;
    }

    // The cursor goes to this row and column. A row of cells has 11 * 32 words, and a word has two columns.
    function void moveCursor(int row, int column) {
        if ((row < 0) | (row > 22) | (column & ~63)) { do Sys.error(20); }
        let place = 16384 + (row * 352) + (column / 2);
        let right = (column & 1) = 1;
        return;
    }

    // Draws the character and goes right. The codes 128 and 129 are newline and backspace.
    function void printChar(char c) {
        if (c = 128) {
            do Output.println();
        } else {
            if (c = 129) {
                do Output.backSpace();
            } else {
                do Output.draw(c);
                let right = ~right;
                if (~right) {
                    if ((place & 31) = 31) { do Output.println(); } else { let place = place + 1; }
                }
            }
        }
        return;
    }

    // Prints the characters in order.
    function void printString(String s) {
        var int j;
        while (j < s.length()) {
            do Output.printChar(s.charAt(j));
            let j = j + 1;
        }
        return;
    }

    // Prints the decimal. From here on the number is negative or 0: -32768 has no positive counterpart.
    function void printInt(int n) {
        var int rest;
        if (n < 0) { do Output.printChar(45); } else { let n = -n; }
        let rest = Output.digit(n, n, 10000);
        let rest = Output.digit(n, rest, 1000);
        let rest = Output.digit(n, rest, 100);
        let rest = Output.digit(n, rest, 10);
        do Output.printChar(48 - rest);
        return;
    }

    // Prints the digit of this unit, and gives what is left of the rest. A number that is less than the unit has no such digit.
    function int digit(int n, int rest, int unit) {
        var char c;
        if (n > -unit) { return rest; }
        let c = 48;
        while (~(rest > -unit)) {
            let rest = rest + unit;
            let c = c + 1;
        }
        do Output.printChar(c);
        return rest;
    }

    // The cursor goes to the first cell of the next row, from the last row to the first one.
    function void println() {
        let place = (place & ~31) + 352;
        let right = false;
        if (place > 24479) { let place = 16384; }
        return;
    }

    // The cursor goes one cell back, and a space is drawn there.
    function void backSpace() {
        if (right) {
            let right = false;
        } else {
            if (place > 16384) {
                let right = true;
                let place = place - 1;
                if ((place & 31) = 31) { let place = place - 320; }
            }
        }
        do Output.draw(32);
        return;
    }

    // Draws a character in the cell of the cursor: the cell becomes white, and then it gets the dots, column by column.
    function void draw(char c) {
        var Array glyph, word;
        var int other, pixel, dots, dot, rows, columns;
        if ((c < 32) | (c > 126)) { let c = 127; }
        let glyph = font + c + c + c;
        let other = ~255;
        let pixel = 1;
        if (right) { let other = 255; let pixel = 256; }
        let word = place;
        let rows = 11;
        while (rows) {
            let word[0] = word[0] & other;
            let word = word + 32;
            let rows = rows - 1;
        }
        let dot = 1;
        let columns = 5;
        while (columns) {
            let dots = glyph[0];
            let word = place + 32;
            let rows = 7;
            while (rows) {
                if (dots & dot) { let word[0] = word[0] | pixel; }
                let word = word + 32;
                let dot = dot + dot;
                let rows = rows - 1;
            }
            if (dot & 16384) { let dot = 1; let glyph = glyph + 1; }
            let pixel = pixel + pixel;
            let columns = columns - 1;
        }
        return;
    }
}
";

pub const SCREEN: &str =
    "// The screen: 256 rows of 512 pixels, from the word 16384 on, 32 words to a row, the lowest bit of a word leftmost. (Book,
// chapter 12.) A point is on the screen where x has no bit outside 511 and y none outside 255.
class Screen {
    // true: pixels are set; false: they are cleared
    static boolean black;

    // What is drawn is black at first.
    function void init() {
        let black = true;
        return;
    }

    // All pixels become white.
    function void clearScreen() {
        var Array screen;
        var int n;
        let screen = 16384;
        let n = 8192;
        while (n) {
            let n = n - 1;
            let screen[n] = 0;
        }
        return;
    }

    // From here on pixels are drawn black, or white.
    function void setColor(boolean b) {
        let black = b;
        return;
    }

    // Paints one pixel.
    function void drawPixel(int x, int y) {
        if ((x & ~511) | (y & ~255)) { do Sys.error(7); }
        do Screen.paint(Screen.place(x, y), Screen.bit(x));
        return;
    }

    // A slanting line goes from the first end towards the second, each step along x or along y. The sign of d tells on which side
    // of the true line the pixel is.
    function void drawLine(int x1, int y1, int x2, int y2) {
        var int dx, dy, stepX, stepY, a, b, d;
        if (((x1 | x2) & ~511) | ((y1 | y2) & ~255)) { do Sys.error(8); }
        if ((x1 = x2) | (y1 = y2)) {
            do Screen.fill(Math.min(x1, x2), Math.min(y1, y2), Math.max(x1, x2), Math.max(y1, y2));
            return;
        }
        let dx = x2 - x1;
        let dy = y2 - y1;
        let stepX = 1;
        let stepY = 1;
        if (dx < 0) { let dx = -dx; let stepX = -1; }
        if (dy < 0) { let dy = -dy; let stepY = -1; }
        while (~((a > dx) | (b > dy))) {
            do Screen.paint(Screen.place(x1, y1), Screen.bit(x1));
            if (d < 0) {
                let a = a + 1;
                let x1 = x1 + stepX;
                let d = d + dy;
            } else {
                let b = b + 1;
                let y1 = y1 + stepY;
                let d = d - dx;
            }
        }
        return;
    }

    // Paints a rectangle by two opposite corners, the upper left one and the lower right one.
    function void drawRectangle(int x1, int y1, int x2, int y2) {
        if (((x1 | x2) & ~511) | ((y1 | y2) & ~255) | (x1 > x2) | (y1 > y2)) { do Sys.error(9); }
        do Screen.fill(x1, y1, x2, y2);
        return;
    }

    // At the distance e from the centre's row the half width w is the greatest whose square is at most r*r - e*e. What is left of
    // r*r - e*e - w*w is d. (A radius over 127 is refused: a point above or below is outside.)
    function void drawCircle(int x, int y, int r) {
        var int e, w, d;
        if ((x & ~511) | (y & ~255)) { do Sys.error(12); }
        if ((r < 0) | (((x - r) | (x + r)) & ~511) | (((y - r) | (y + r)) & ~255)) { do Sys.error(13); }
        let w = r;
        do Screen.fill(x - w, y, x + w, y);
        while (e < r) {
            let e = e + 1;
            let d = d - e - e + 1;
            while (d < 0) {
                let w = w - 1;
                let d = d + w + w + 1;
            }
            do Screen.fill(x - w, y - e, x + w, y - e);
            do Screen.fill(x - w, y + e, x + w, y + e);
        }
        return;
    }

    // Paints the pixels of a rectangle on the screen, row by row, and in a row word by word.
    function void fill(int x1, int y1, int x2, int y2) {
        var Array first, last, word;
        var int left, right, pixels;
        let first = Screen.place(x1, y1);
        let last = Screen.place(x2, y1);
        let left = -Screen.bit(x1);
        let right = Screen.bit(x2);
        let right = right + right - 1;
        while (~(y1 > y2)) {
            let word = first;
            let pixels = left;
            while (~(word = last)) {
                do Screen.paint(word, pixels);
                let word = word + 1;
                let pixels = ~0;
            }
            do Screen.paint(word, pixels & right);
            let first = first + 32;
            let last = last + 32;
            let y1 = y1 + 1;
        }
        return;
    }

    // Sets or clears these pixels of a word.
    function void paint(Array word, int pixels) {
        if (black) { let word[0] = word[0] | pixels; } else { let word[0] = word[0] & ~pixels; }
        return;
    }

    // The word of a pixel, 16384 + 32*y + x/16: y is doubled five times, and each time gets the next of the five upper bits of x.
    function Array place(int x, int y) {
        var int n;
        let n = 5;
        while (n) {
            let y = y + y;
            if (x & 256) { let y = y + 1; }
            let x = x + x;
            let n = n - 1;
        }
        return y + 16384;
    }

    // The bit of a pixel in its word.
    function int bit(int x) {
        var int b;
        let b = 1;
        let x = x & 15;
        while (x) {
            let b = b + b;
            let x = x - 1;
        }
        return b;
    }
}
";

pub const STRING: &str = "// Texts: characters by their key codes. (Book, chapter 12.)
class String {
    // the characters, or null where there is no room for one; how many there are; how many there may be
    field Array characters;
    field int count, room;

    // An empty text with room for so many characters.
    constructor String new(int max) {
        if (max < 0) { do Sys.error(14); }
        let characters = null;
        let count = 0;
        let room = max;
        if (max) { let characters = Array.new(max); }
        return this;
    }

    // Gives the memory of the text back.
    method void dispose() {
        if (room) { do characters.dispose(); }
        do Memory.deAlloc(this);
        return;
    }

    // How many characters there are.
    method int length() {
        return count;
    }

    // The character at the place j, counted from 0.
    method char charAt(int j) {
        if ((j < 0) | ~(j < count)) { do Sys.error(15); }
        return characters[j];
    }

    // Puts another character at the place j.
    method void setCharAt(int j, char c) {
        if ((j < 0) | ~(j < count)) { do Sys.error(16); }
        let characters[j] = c;
        return;
    }

    // One character more. The text itself is given back, so that calls can follow one another.
    method String appendChar(char c) {
        if (count = room) { do Sys.error(17); }
        let characters[count] = c;
        let count = count + 1;
        return this;
    }

    // One character less.
    method void eraseLastChar() {
        if (count = 0) { do Sys.error(18); }
        let count = count - 1;
        return;
    }

    // The number that the text begins with: a `-` where there is one, and the digits up to the first other character.
    method int intValue() {
        if (count) {
            if (characters[0] = 45) { return -digitsFrom(1); }
        }
        return digitsFrom(0);
    }

    // The number of the digits from a place on.
    method int digitsFrom(int j) {
        var int n, digit;
        while (j < count) {
            let digit = characters[j] - 48;
            if ((digit < 0) | (digit > 9)) { return n; }
            let n = n + n + n + n + n;
            let n = n + n + digit;
            let j = j + 1;
        }
        return n;
    }

    // The text becomes the decimal of the number. From here on the number is negative or 0: -32768 has no positive counterpart.
    method void setInt(int n) {
        let count = 0;
        if (n < 0) { do appendDigit(45); } else { let n = -n; }
        do appendDigits(n);
        return;
    }

    // Appends the digits of -n, where n is negative or 0.
    method void appendDigits(int n) {
        var int tens;
        let tens = n / 10;
        if (tens < 0) { do appendDigits(tens); }
        do appendDigit((tens * 10) - n + 48);
        return;
    }

    // One character more of a decimal.
    method void appendDigit(char c) {
        if (count = room) { do Sys.error(19); }
        do appendChar(c);
        return;
    }

    // The code of the key backspace.
    function char backSpace() {
        return 129;
    }

    // The code of a double quote, which no text in quotes has.
    function char doubleQuote() {
        return 34;
    }

    // The code of the key newline.
    function char newLine() {
        return 128;
    }
}
";

pub const SYS: &str =
    "// The system: it starts the other classes, and then the program. (Book, chapter 12.)
class Sys {
    // The start.
    function void init() {
        do Memory.init();
        do Math.init();
        do Screen.init();
        do Output.init();
        do Keyboard.init();
        do Main.main();
        do Sys.halt();
        return;
    }

    // An endless loop.
    function void halt() {
        while (true) { }
        return;
    }

    // Prints ERR and the number at the cursor, and halts.
    function void error(int number) {
        do Output.printChar(69);
        do Output.printChar(82);
        do Output.printChar(82);
        do Output.printInt(number);
        do Sys.halt();
        return;
    }

    // Counts the duration down to 0.
    function void wait(int duration) {
        if (duration < 0) { do Sys.error(1); }
        while (duration) { let duration = duration - 1; }
        return;
    }
}
";
