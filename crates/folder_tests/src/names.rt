//! Folders of classes whose names are refused.
use crate::checks::tried;
use std::test::Fail;

// texts of Main.jack, and their first fault in their names
const REFUSED: &str = "
file prog/Main.jack
:class A { }
$ run prog --level jack --cycles 100
refused
err
|prog/Main.jack:1:7: FileName A

file prog/Main.jack
|
:class  main { }
$ run prog --level jack --cycles 100
refused
err
|prog/Main.jack:2:8: FileName main

file prog/Main.jack
:class Main { static int a; field int a; }
$ run prog --level jack --cycles 100
refused
err
|prog/Main.jack:1:38: MemberTwice a

file prog/Main.jack
:class Main { function void main() { } method int main(int x) { } }
$ run prog --level jack --cycles 100
refused
err
|prog/Main.jack:1:50: MemberTwice main

file prog/Main.jack
:class Main { function void f(int x, char x) { } }
$ run prog --level jack --cycles 100
refused
err
|prog/Main.jack:1:42: VariableTwice x

file prog/Main.jack
:class Main { function void f(int a) { var int b, a; let c = 1; } }
$ run prog --level jack --cycles 100
refused
err
|prog/Main.jack:1:50: VariableTwice a

file prog/Main.jack
:class Main { }
$ run prog --level jack --cycles 100
refused
err
|prog/Main.jack:0:0: NoMain Main.main

file prog/Main.jack
:class Main { function void main(int a) { let b = 1; } }
$ run prog --level jack --cycles 100
refused
err
|prog/Main.jack:0:0: NoMain Main.main

file prog/Main.jack
:class Main { method void main() { } }
$ run prog --level jack --cycles 100
refused
err
|prog/Main.jack:0:0: NoMain Main.main

file prog/Main.jack
:class Main { function void main() { let a = 1; } }
$ run prog --level jack --cycles 100
refused
err
|prog/Main.jack:1:41: UnknownVariable a

file prog/Main.jack
:class Main { function void main() { var Array a; let a[b] = 1; } }
$ run prog --level jack --cycles 100
refused
err
|prog/Main.jack:1:56: UnknownVariable b

file prog/Main.jack
:class Main { function void main() { var int x; do x.f(); } }
$ run prog --level jack --cycles 100
refused
err
|prog/Main.jack:1:51: UnknownClass x

file prog/Main.jack
:class Main { function void main() { do f(); } }
$ run prog --level jack --cycles 100
refused
err
|prog/Main.jack:1:40: UnknownSubroutine f

file prog/Main.jack
:class Main { function void main() { return Main.g(1); } }
$ run prog --level jack --cycles 100
refused
err
|prog/Main.jack:1:49: UnknownSubroutine g

file prog/Main.jack
|class Main {
|  function void main() {
|  do Main.f();
|  }
:  function void f(int a) { } }
$ run prog --level jack --cycles 100
refused
err
|prog/Main.jack:3:11: ArgumentCount f

file prog/Main.jack
:class Main { function void main() { var Main m; do m.f(1); } method void f() { } }
$ run prog --level jack --cycles 100
refused
err
|prog/Main.jack:1:54: ArgumentCount f

file prog/Main.jack
:class Main { function void main() { do Main.f(); } method void f() { } }
$ run prog --level jack --cycles 100
refused
err
|prog/Main.jack:1:45: MethodByClass f

file prog/Main.jack
:class Main { method int f() { return 1; } function void main() { return 1 + Main.f(); } }
$ run prog --level jack --cycles 100
refused
err
|prog/Main.jack:1:82: MethodByClass f

file prog/Main.jack
:class Main { function void main() { do f(); } function void f() { } }
$ run prog --level jack --cycles 100
refused
err
|prog/Main.jack:1:40: FunctionByObject f

file prog/Main.jack
:class Main { function void main() { var Main m; do m.f(); } function void f() { } }
$ run prog --level jack --cycles 100
refused
err
|prog/Main.jack:1:54: FunctionByObject f

file prog/Main.jack
:class Main { method void g() { do f(); } function void f() { } function void main() { } }
$ run prog --level jack --cycles 100
refused
err
|prog/Main.jack:1:35: FunctionByObject f

file prog/Main.jack
:class Main { function void main() { return this; } }
$ run prog --level jack --cycles 100
refused
err
|prog/Main.jack:1:44: ThisInFunction this

file prog/Main.jack
:class Main { function void main() { do Main.f(this); } function void f(Main m) { } }
$ run prog --level jack --cycles 100
refused
err
|prog/Main.jack:1:47: ThisInFunction this

file prog/Main.jack
:class Main { field int x; function void main() { let x = 1; } }
$ run prog --level jack --cycles 100
refused
err
|prog/Main.jack:1:54: FieldInFunction x

file prog/Main.jack
:class Main { field Main m; function void main() { do m.f(); } method void f() { } }
$ run prog --level jack --cycles 100
refused
err
|prog/Main.jack:1:54: FieldInFunction m

file prog/Main.jack
:class Main { function void main() { do f(); } method void f() { } }
$ run prog --level jack --cycles 100
refused
err
|prog/Main.jack:1:40: OwnInFunction f

file prog/Main.jack
:class Main { function int f() { return g(0); } method int g(int a) { } function void main() { } }
$ run prog --level jack --cycles 100
refused
err
|prog/Main.jack:1:40: OwnInFunction g

# at one place the least kind
file prog/Main.jack
:class Main { function void main() { do f(1); } method void f() { } }
$ run prog --level jack --cycles 100
refused
err
|prog/Main.jack:1:40: ArgumentCount f

# what is declared, then Main.main, then what is used, each in the order of the text
file prog/Main.jack
:class A { static int a, a; }
$ run prog --level jack --cycles 100
refused
err
|prog/Main.jack:1:7: FileName A

file prog/Main.jack
:class Main { function void main(int a) { return this; } static int b; }
$ run prog --level jack --cycles 100
refused
err
|prog/Main.jack:1:57: Grammar

file prog/Main.jack
:class Main { function void main() { return this; } function void f() { var int a, a; } }
$ run prog --level jack --cycles 100
refused
err
|prog/Main.jack:1:83: VariableTwice a

file prog/Main.jack
:class Main { function void main() { if (a) { let b = 1; } } }
$ run prog --level jack --cycles 100
refused
err
|prog/Main.jack:1:41: UnknownVariable a

file prog/Main.jack
:class Main { function void main() { let a[this] = b; } }
$ run prog --level jack --cycles 100
refused
err
|prog/Main.jack:1:41: UnknownVariable a

file prog/Main.jack
:class Main { function void main() { do Main.f(this, 1); } function void f(int a) { } }
$ run prog --level jack --cycles 100
refused
err
|prog/Main.jack:1:45: ArgumentCount f
";

// another file beside Main.jack, and the first fault
const SECOND: &str = "
file prog/Sys.jack
:class Sys { }
file prog/Main.jack
:class Main { function void main() { } }
$ run prog --level jack --cycles 100
refused
err
|prog/Sys.jack:1:7: ClassTwice Sys

file prog/Sys.jack
|// s
:class  Sys { field int a, a; }
file prog/Main.jack
:class Main { function void main() { } }
$ run prog --level jack --cycles 100
refused
err
|prog/Sys.jack:2:8: ClassTwice Sys

file prog/A.jack
:class B { }
file prog/Main.jack
:class Main { function void main() { } }
$ run prog --level jack --cycles 100
refused
err
|prog/A.jack:1:7: FileName B

# what is declared in a later class comes before what is used in an earlier one
file prog/Z.jack
:class Z { field int a, a; }
file prog/Main.jack
:class Main { function void main() { return this; } }
$ run prog --level jack --cycles 100
refused
err
|prog/Z.jack:1:24: MemberTwice a

file prog/Z.jack
:class Z { function void f() { let a = 1; } }
file prog/Main.jack
:class Main { }
$ run prog --level jack --cycles 100
refused
err
|prog/Main.jack:0:0: NoMain Main.main

# the classes in order of file name
file prog/A.jack
:class A { function void f() { let a = 1; } }
file prog/Main.jack
:class Main { function void main() { return this; } }
$ run prog --level jack --cycles 100
refused
err
|prog/A.jack:1:35: UnknownVariable a

file prog/Z.jack
:class Z { function void f() { let a = 1; } }
file prog/Main.jack
:class Main { function void main() { return this; } }
$ run prog --level jack --cycles 100
refused
err
|prog/Main.jack:1:44: ThisInFunction this

file prog/A.jack
:class A { method void f() { } }
file prog/Main.jack
:class Main { function void main() { do A.f(); } }
$ run prog --level jack --cycles 100
refused
err
|prog/Main.jack:1:42: MethodByClass f

file prog/A.jack
:class A { function void f() { } }
file prog/Main.jack
:class Main { function void main() { var A a; do a.f(); } }
$ run prog --level jack --cycles 100
refused
err
|prog/Main.jack:1:51: FunctionByObject f

# a text that is no class comes before all names
file prog/Z.jack
:class Z { 
file prog/Main.jack
:class A { }
$ run prog --level jack --cycles 100
refused
err
|prog/Z.jack:1:11: Grammar

file prog/A.jack
:class A { function int f() { return 32768; } }
file prog/Main.jack
:class Main { function void main() { let ; } }
$ run prog --level jack --cycles 100
refused
err
|prog/A.jack:1:37: Range 32768

file prog/Math.jack
:class Math { function int multiply(int a) { return a; } }
file prog/Main.jack
:class Main { function int main() { return 2 * 3; } }
$ run prog --level jack --cycles 100
refused
err
|prog/Math.jack:1:7: ClassTwice Math

file prog/String.jack
:class String { function String new(int n) { return n; } }
file prog/Main.jack
:class Main { function void main() { var int x; let x = \"a\"; } }
$ run prog --level jack --cycles 100
refused
err
|prog/String.jack:1:7: ClassTwice String

no file
$ run prog --level jack --cycles 100
refused
err
|prog/Main.jack:0:0: NoMain Main.main

file prog/A.jack
:class A { }
$ run prog --level jack --cycles 100
refused
err
|prog/Main.jack:0:0: NoMain Main.main
";

#[test]
fn names_are_refused(rt: HostRuntime) -> Result<(), Fail> {
    tried(&rt, rt.alloc(), REFUSED)
}

#[test]
fn a_second_class_is_refused(rt: HostRuntime) -> Result<(), Fail> {
    tried(&rt, rt.alloc(), SECOND)
}
