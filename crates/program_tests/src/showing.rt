//! Lines of `show`.
use crate::checks::{begins_with, has_status, holds, tried};
use crate::nand::Nand;
use line_trials::{Fails, Outcome, outcome_over};
use nand_cli::Status;
use outer_world::Name;
use std::alloc::{AllocError, Global};
use std::process::Abort;
use std::test::Fail;

// sources, and their printed forms, which are printed as they are
const SHOWN: &str = "
file C.jack
:class C { field int x; method int get() { return x*(x+1); } }
$ show C.jack
out
|class C {
|field int x ;
|method int get ( ) {
|return x * ( x + 1 ) ;
|}
|}

file C.jack
:class Main { function void main() { } }
$ show C.jack
out
|class Main {
|function void main ( ) {
|}
|}

file C.jack
:/** c */class B{static Array x,y;constructor B new(int a,B b){var char c;if(~(a=1)){let x[0]=-a/007;}else{do b.f(\"a b\",c);}while(true){}return this;}}// d
$ show C.jack
out
|class B {
|static Array x , y ;
|constructor B new ( int a , B b ) {
|var char c ;
|if ( ~ ( a = 1 ) ) {
|let x [ 0 ] = - a / 7 ;
|}
|else {
|do b . f ( \"a b\" , c ) ;
|}
|while ( true ) {
|}
|return this ;
|}
|}

file v/Main.vm
|// the top
|
|  function\tMain.main   002 // two
|\tpush  constant 7
|
| pop this 0//x
|if-goto  END
|  goto L
|label END
|call Math.abs  1
|neg
:return
$ show v/Main.vm
out
|function Main.main 2
|push constant 7
|pop this 0
|if-goto END
|goto L
|label END
|call Math.abs 1
|neg
|return

# commands before the first function, and lines that end in CR and LF
file v/Main.vm
|push  constant 1\r
|\r
|add\r
|function f 0\r
$ show v/Main.vm
out
|push constant 1
|add
|function f 0

file v/Main.vm
|
|// a
|
$ show v/Main.vm

file v/Main.vm
$ show v/Main.vm

file t/F.hdl
:CHIP And{IN a,b;OUT out;PARTS:Nand(a=a,b=b,out=n);Nand(a=n,b=n,out=out);}
$ show t/F.hdl
out
|CHIP And {
|IN a , b ;
|OUT out ;
|PARTS : Nand ( a = a , b = b , out = n ) ;
|Nand ( a = n , b = n , out = out ) ;
|}

file t/F.hdl
|// f
:CHIP F { IN a[8], b; OUT out[016]; PARTS: Not16(in[0..7]=a, in[8]=true, out=out); }
$ show t/F.hdl
out
|CHIP F {
|IN a [ 8 ] , b ;
|OUT out [ 16 ] ;
|PARTS : Not16 ( in [ 0 .. 7 ] = a , in [ 8 ] = true , out = out ) ;
|}

file C.jack
|class C {
|field int x ;
|method int get ( ) {
|return x * ( x + 1 ) ;
|}
|}
$ show C.jack
out
|class C {
|field int x ;
|method int get ( ) {
|return x * ( x + 1 ) ;
|}
|}

file C.jack
|class Main {
|function void main ( ) {
|}
|}
$ show C.jack
out
|class Main {
|function void main ( ) {
|}
|}

file C.jack
|class B {
|static Array x , y ;
|constructor B new ( int a , B b ) {
|var char c ;
|if ( ~ ( a = 1 ) ) {
|let x [ 0 ] = - a / 7 ;
|}
|else {
|do b . f ( \"a b\" , c ) ;
|}
|while ( true ) {
|}
|return this ;
|}
|}
$ show C.jack
out
|class B {
|static Array x , y ;
|constructor B new ( int a , B b ) {
|var char c ;
|if ( ~ ( a = 1 ) ) {
|let x [ 0 ] = - a / 7 ;
|}
|else {
|do b . f ( \"a b\" , c ) ;
|}
|while ( true ) {
|}
|return this ;
|}
|}

file v/Main.vm
|function Main.main 2
|push constant 7
|pop this 0
|if-goto END
|goto L
|label END
|call Math.abs 1
|neg
|return
$ show v/Main.vm
out
|function Main.main 2
|push constant 7
|pop this 0
|if-goto END
|goto L
|label END
|call Math.abs 1
|neg
|return

file v/Main.vm
|push constant 1
|add
|function f 0
$ show v/Main.vm
out
|push constant 1
|add
|function f 0

file v/Main.vm
$ show v/Main.vm

file t/F.hdl
|CHIP And {
|IN a , b ;
|OUT out ;
|PARTS : Nand ( a = a , b = b , out = n ) ;
|Nand ( a = n , b = n , out = out ) ;
|}
$ show t/F.hdl
out
|CHIP And {
|IN a , b ;
|OUT out ;
|PARTS : Nand ( a = a , b = b , out = n ) ;
|Nand ( a = n , b = n , out = out ) ;
|}

file t/F.hdl
|CHIP F {
|IN a [ 8 ] , b ;
|OUT out [ 16 ] ;
|PARTS : Not16 ( in [ 0 .. 7 ] = a , in [ 8 ] = true , out = out ) ;
|}
$ show t/F.hdl
out
|CHIP F {
|IN a [ 8 ] , b ;
|OUT out [ 16 ] ;
|PARTS : Not16 ( in [ 0 .. 7 ] = a , in [ 8 ] = true , out = out ) ;
|}

file C.jack
:class C { function void f() { let x = ; } }
$ show C.jack
refused
err
|C.jack:1:39: Grammar

file C.jack
:/* a
$ show C.jack
refused
err
|C.jack:1:1: Grammar

file C.jack
$ show C.jack
refused
err
|C.jack:1:1: Grammar

file C.jack
|class Main {
|  function void main() {
|  var int x;
|  let x = 32768;
: } }
$ show C.jack
refused
err
|C.jack:4:11: Range 32768

file x.vm
:push pointer 2
$ show x.vm
refused
err
|x.vm:1:14: Range 2

file x.vm
|pop constant 1
$ show x.vm
refused
err
|x.vm:1:5: Grammar

file x.vm
|add
:push constant 32768
$ show x.vm
refused
err
|x.vm:2:15: Range 32768

file x.vm
:add add
$ show x.vm
refused
err
|x.vm:1:5: Grammar

file d/x.vm
:x
$ show d/x.vm
refused
err
|d/x.vm:1:1: Grammar

file F.hdl
:CHIP F { IN a }
$ show F.hdl
refused
err
|F.hdl:1:15: Grammar

file F.hdl
:CHIP F { IN a[17]
$ show F.hdl
refused
err
|F.hdl:1:15: Range 17

# another ending
file a.vm
|add
|not
$ show a.asm
$ show a
$ show vm
$ show a.vm/
usage
err
|usage: nand COMMAND ARGUMENTS

$ show b.vm
read fault
err
|nand: read fault

$ show a.vm
fails shelf 1
read fault
err
|nand: read fault

$ show a.vm
fails out 1 5
write fault
out
|add
:n

# a comment as long as a file may be, and a longer one
file a.vm
1048576:/
$ show a.vm

file a.vm
1048577:/
$ show a.vm
refused
err
|a.vm:0:0: Range 1048577

file a.jack
1048577: 
$ show a.jack
refused
err
|a.jack:0:0: Range 1048577
";

#[test]
fn sources_are_shown(rt: HostRuntime) -> Result<(), Fail> {
    tried(&rt, rt.alloc(), SHOWN)
}

const CLASS: &str =
    "/** c */class B{static Array x,y;constructor B new(int a,B b){var char c;if(~(a=1)){let x[0]=-a/007;}else{do b.f(\"a b\",c);}while(true){}return this;}}";

fn shown(alloc: Global, text: &[u8]) -> Result<Outcome, AllocError> {
    let mut files = Vec::new(alloc);
    files.push((Name::new(alloc, "B.jack")?, text.to_vec(alloc)?))?;
    outcome_over(&Nand, alloc, files, "show B.jack", Fails::never())
}

// Each front of a class but the whole is refused: there the grammar stops, in it or at its end.
fn front_is_refused(
    rt: &impl Abort,
    alloc: Global,
    n: usize,
    text: &[u8],
) -> Result<(), AllocError> {
    let outcome = shown(alloc, text)?;
    let err = outcome.err.bytes();
    has_status(rt, n, "show B.jack", outcome.status, Status::Refused);
    holds(rt, n, "show B.jack", outcome.out.bytes().is_empty());
    begins_with(rt, n, "show B.jack", err, b"B.jack:1:");
    holds(rt, n, "show B.jack", err.ends_with(b": Grammar\n"));
    Ok(())
}

fn class_is_shown(rt: &impl Abort, alloc: Global, text: &[u8]) -> Result<(), AllocError> {
    let outcome = shown(alloc, text)?;
    has_status(rt, 0, "show B.jack", outcome.status, Status::Done);
    Ok(())
}

#[test]
fn each_front_of_a_class_is_refused(rt: HostRuntime) -> Result<(), Fail> {
    let text = CLASS.as_bytes();
    for n in 0..text.len() {
        front_is_refused(&rt, rt.alloc(), n, &text[..n])?;
    }
    Ok(class_is_shown(&rt, rt.alloc(), text)?)
}
