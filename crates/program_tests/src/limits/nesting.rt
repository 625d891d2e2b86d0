//! How deep a class may be nested: 256 levels, of which a statement is one, and one more.
use crate::checks::tried;
use std::test::Fail;

// what is refused stands in 256 others, and its place is that of the first token there
const LEVELS: &str = "
# parentheses
file C.jack
:class C { function int f() { return 
255:(
:1
255:)
:; } }
$ show C.jack
out
|class C {
|function int f ( ) {
:return 
255:( 
:1 
255:) 
|;
|}
|}

file C.jack
:class C { function int f() { return 
256:(
:1
256:)
:; } }
$ show C.jack
refused
err
|C.jack:1:293: Range 257

# brackets
file C.jack
:class C { function int f() { return 
255:a[
:1
255:]
:; } }
$ show C.jack
out
|class C {
|function int f ( ) {
:return 
255:a [ 
:1 
255:] 
|;
|}
|}

file C.jack
:class C { function int f() { return 
256:a[
:1
256:]
:; } }
$ show C.jack
refused
err
|C.jack:1:549: Range 257

# calls, one the argument of the other
file C.jack
:class C { function int f() { return 
255:f(
:1
255:)
:; } }
$ show C.jack
out
|class C {
|function int f ( ) {
:return 
255:f ( 
:1 
255:) 
|;
|}
|}

file C.jack
:class C { function int f() { return 
256:f(
:1
256:)
:; } }
$ show C.jack
refused
err
|C.jack:1:549: Range 257

# operators before a term: 255 of them, and 256
file C.jack
:class C { function int f() { return 
63:-~^#
:-~^1; } }
$ show C.jack
out
|class C {
|function int f ( ) {
:return 
63:- ~ ^ # 
|- ~ ^ 1 ;
|}
|}

file C.jack
:class C { function int f() { return 
64:-~^#
:1; } }
$ show C.jack
refused
err
|C.jack:1:293: Range 257

# loops: what is their condition is a level further in
file C.jack
:class C { function void f() { 
255:while(x){
:return;
255:}
: } }
$ show C.jack
out
|class C {
|function void f ( ) {
255|while ( x ) {
|return ;
255|}
|}
|}

file C.jack
:class C { function void f() { 
256:while(x){
:return;
256:}
: } }
$ show C.jack
refused
err
|C.jack:1:2332: Range 257

# choices
file C.jack
:class C { function void f() { 
255:if(x){}else{
:return;
255:}
: } }
$ show C.jack
out
|class C {
|function void f ( ) {
255#|if ( x ) {~}~else {
|return ;
255|}
|}
|}

file C.jack
:class C { function void f() { 
256:if(x){}else{
:return;
256:}
: } }
$ show C.jack
refused
err
|C.jack:1:3094: Range 257
";

#[test]
fn classes_at_their_depth(rt: HostRuntime) -> Result<(), Fail> {
    tried(&rt, rt.alloc(), LEVELS)
}
