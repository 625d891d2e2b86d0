//! The texts of three programs, written by `tools/generate`.
use soak_program::program;
use std::test::*;

// seeds and numbers, and the texts
const TEXTS: &[(u32, u32, &str)] = &[
    (
        1,
        1,
        "class Main {\nstatic int a , b , c ;\nstatic Array d ;\nfunction void main ( ) {\nlet d = Array . new ( 8 ) ;\nif ( ( ( b - 1 ) - a ) ) {\nlet c = 29162 ;\n}\nelse {\nlet b = ( ( a < 7 ) - ( b & a ) ) ;\n}\nif ( ( ( b - 15098 ) & ( - 2 ) ) ) {\nlet b = b ;\n}\nelse {\nlet a = ( ~ ( a * b ) ) ;\n}\nlet a = ( ( c > 25148 ) + 32355 ) ;\nlet d [ 0 ] = a ;\nlet d [ 1 ] = b ;\nlet d [ 2 ] = c ;\nreturn ;\n}\n}\n",
    ),
    (
        7,
        3,
        "class Main {\nstatic int a , b , c ;\nstatic Array d ;\nfunction void main ( ) {\nlet d = Array . new ( 8 ) ;\nlet c = ( ~ ( b + ( c + c ) ) ) ;\nif ( ( ( 1 & c ) * 9 ) ) {\nlet b = 0 ;\n}\nelse {\nlet c = ( ( a & 11043 ) & ( 4 & b ) ) ;\n}\nlet c = ( b = ( ( a - 19250 ) / ( b / b ) ) ) ;\nlet c = ( ( ( 12929 + b ) > 8 ) > ( ( 6 | b ) | ( a / a ) ) ) ;\nlet d [ 0 ] = a ;\nlet d [ 1 ] = b ;\nlet d [ 2 ] = c ;\nreturn ;\n}\n}\n",
    ),
    (
        1000000,
        1000,
        "class Main {\nstatic int a , b , c ;\nstatic Array d ;\nfunction void main ( ) {\nlet d = Array . new ( 8 ) ;\nif ( ( ( ~ 1 ) = ( 31088 > b ) ) ) {\nlet c = ( ( 7 & c ) / ( 9 - 4 ) ) ;\n}\nelse {\nlet c = 31987 ;\n}\nlet d [ 0 ] = a ;\nlet d [ 1 ] = b ;\nlet d [ 2 ] = c ;\nreturn ;\n}\n}\n",
    ),
];

#[test]
fn texts(rt: HostRuntime) -> Result<(), Fail> {
    for (seed, number, wanted) in TEXTS {
        let text = program(rt.alloc(), *seed, *number)?;
        assert!(rt;
            text.as_slice() == wanted.as_bytes(),
            "seed {seed}, number {number}"
        );
    }
    Ok(())
}
