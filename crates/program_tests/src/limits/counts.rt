//! How much a class may declare, a call pass and a string hold: 16,384 of each, and one more.
use crate::checks::tried;
use std::test::Fail;

const COUNTED: &str = "
# fields
file C.jack
:class C { field int 
16383:a,
:a; }
$ show C.jack
out
|class C {
:field int 
16383:a , 
|a ;
|}

file C.jack
:class C { field int 
16384:a,
:a; }
$ show C.jack
refused
err
|C.jack:1:32789: Range 16385

# statics
file C.jack
:class C { static int 
16383:a,
:a; }
$ show C.jack
out
|class C {
:static int 
16383:a , 
|a ;
|}

file C.jack
:class C { static int 
16384:a,
:a; }
$ show C.jack
refused
err
|C.jack:1:32790: Range 16385

# parameters
file C.jack
:class C { function void f(
16383:int a,
:int a) { } }
$ show C.jack
out
|class C {
:function void f ( 
16383:int a , 
|int a ) {
|}
|}

file C.jack
:class C { function void f(
16384:int a,
:int a) { } }
$ show C.jack
refused
err
|C.jack:1:98335: Range 16385

# locals, in two declarations
file C.jack
:class C { function void f() { var int a; var char 
16382:a,
:a; } }
$ show C.jack
out
|class C {
|function void f ( ) {
|var int a ;
:var char 
16382:a , 
|a ;
|}
|}

file C.jack
:class C { function void f() { var int a; var char 
16383:a,
:a; } }
$ show C.jack
refused
err
|C.jack:1:32817: Range 16385

# arguments
file C.jack
:class C { function int f() { return g(
16383:1,
:1); } }
$ show C.jack
out
|class C {
|function int f ( ) {
:return g ( 
16383:1 , 
|1 ) ;
|}
|}

file C.jack
:class C { function int f() { return g(
16384:1,
:1); } }
$ show C.jack
refused
err
|C.jack:1:32807: Range 16385

# the bytes of a string, whose place is that of its first quote
file C.jack
:class C { function void f() { do g(\"
16384:a
:\"); } }
$ show C.jack
out
|class C {
|function void f ( ) {
:do g ( \"
16384:a
|\" ) ;
|}
|}

file C.jack
:class C { function void f() { do g(\"
16385:a
:\"); } }
$ show C.jack
refused
err
|C.jack:1:36: Range 16385
";

#[test]
fn classes_at_their_counts(rt: HostRuntime) -> Result<(), Fail> {
    tried(&rt, rt.alloc(), COUNTED)
}
