//! The five subroutines that are made without a text: multiplication and division, and the heap.

ghost use Rattle.std.specs.Prelude.{◌≡◌, IfOk};
ghost use Rattle.jack_tree.specs.Seen.{the_subroutine};
ghost use Rattle.jack_os.specs.Routines as routines;

use crate::making::subroutine;
use crate::sketch::ExpressionSketch::{self, One, Three, Two};
use crate::sketch::StatementSketch::{
    self, Do, If, IfElse, Let, LetElement, Return, ReturnNothing, While,
};
use crate::sketch::TermSketch::{self, Element, Group, Number, Unary, Variable};
use crate::sketch::TypeSketch::{Array, Int};
use crate::sketch::{LocalsSketch, ParameterSketch, Sketch};
use jack_tree::Operator::{And, Equal, Greater, Less, Minus, Plus};
use jack_tree::{Sign, Subroutine};
use std::alloc::{AllocError, Global};

// `(int x, int y)`
const TWO_NUMBERS: &[ParameterSketch] = &[ParameterSketch(Int, "x"), ParameterSketch(Int, "y")];

const X: TermSketch = Variable("x");

const Y: TermSketch = Variable("y");

const I: TermSketch = Variable("i");

const ZERO: TermSketch = Number(0);

const ONE: TermSketch = Number(1);

// `~(i = 16)`
const BEFORE_SIXTEEN: ExpressionSketch = One(Unary(Sign::Not, &Group(&Two(I, Equal, Number(16)))));

// `let i = i + 1;`
const COUNT: StatementSketch = Let("i", Two(I, Plus, ONE));

const SUM: TermSketch = Variable("sum");

const SHIFTED: TermSketch = Variable("shifted");

const BIT: TermSketch = Variable("bit");

// `~((y & bit) = 0)`
const HAS_BIT: ExpressionSketch = One(Unary(
    Sign::Not,
    &Group(&Two(Group(&Two(Y, And, BIT)), Equal, ZERO)),
));

const MULTIPLY: Sketch = Sketch {
    result: Some(Int),
    name: "multiply",
    parameters: TWO_NUMBERS,
    locals: &[LocalsSketch(Int, "sum", &["shifted", "bit", "i"])],
    statements: &[
        Let("shifted", One(X)),
        Let("bit", One(ONE)),
        While(
            BEFORE_SIXTEEN,
            &[
                If(HAS_BIT, &[Let("sum", Two(SUM, Plus, SHIFTED))]),
                Let("shifted", Two(SHIFTED, Plus, SHIFTED)),
                Let("bit", Two(BIT, Plus, BIT)),
                COUNT,
            ],
        ),
        Return(One(SUM)),
    ],
};

/// `Math.multiply`: for each bit of y that is 1 the sum gets x, shifted to the place of the bit.
pub fn multiply(alloc: Global) -> Result<Subroutine, AllocError>
    ensures { IfOk result (λ s. the_subroutine s ≡ routines.multiply) }
{
    subroutine(alloc, &MULTIPLY)
}

const H: TermSketch = Variable("h");

const S: TermSketch = Variable("s");

const Q: TermSketch = Variable("q");

const R: TermSketch = Variable("r");

// `let s = ~s;`
const OTHER_SIGN: StatementSketch = Let("s", One(Unary(Sign::Not, &S)));

// `~((r + h) < (y + h))`
const FITS: ExpressionSketch = One(Unary(
    Sign::Not,
    &Group(&Two(Group(&Two(R, Plus, H)), Less, Group(&Two(Y, Plus, H)))),
));

const DIVIDE: Sketch = Sketch {
    result: Some(Int),
    name: "divide",
    parameters: TWO_NUMBERS,
    locals: &[LocalsSketch(Int, "h", &["s", "q", "r", "i"])],
    statements: &[
        If(Two(Y, Equal, ZERO), &[Do("Sys", "error", One(Number(3)))]),
        Let("h", One(Unary(Sign::Not, &Number(32767)))),
        If(
            Two(X, Less, ZERO),
            &[Let("x", One(Unary(Sign::Minus, &X))), OTHER_SIGN],
        ),
        If(
            Two(Y, Less, ZERO),
            &[Let("y", One(Unary(Sign::Minus, &Y))), OTHER_SIGN],
        ),
        While(
            BEFORE_SIXTEEN,
            &[
                Let("r", Two(R, Plus, R)),
                Let("q", Two(Q, Plus, Q)),
                If(Two(X, Less, ZERO), &[Let("r", Two(R, Plus, ONE))]),
                Let("x", Two(X, Plus, X)),
                If(
                    FITS,
                    &[Let("r", Two(R, Minus, Y)), Let("q", Two(Q, Plus, ONE))],
                ),
                COUNT,
            ],
        ),
        If(One(S), &[Return(One(Unary(Sign::Minus, &Q)))]),
        Return(One(Q)),
    ],
};

/// `Math.divide`: long division of the magnitudes, bit by bit from the top. q is the quotient and r the remainder so far, and s
/// says whether the signs differ. With h added, words compare as numbers without sign.
pub fn divide(alloc: Global) -> Result<Subroutine, AllocError>
    ensures { IfOk result (λ s. the_subroutine s ≡ routines.divide) }
{
    subroutine(alloc, &DIVIDE)
}

const FREE: TermSketch = Variable("free");

const INIT: Sketch = Sketch {
    result: None,
    name: "init",
    parameters: &[],
    locals: &[LocalsSketch(Array, "h", &[])],
    statements: &[
        Let("free", One(Number(2048))),
        Let("h", One(FREE)),
        LetElement("h", One(ZERO), One(Number(14336))),
        LetElement("h", One(ONE), One(ZERO)),
        ReturnNothing,
    ],
};

/// `Memory.init`: the heap is one free part.
pub fn init(alloc: Global) -> Result<Subroutine, AllocError>
    ensures { IfOk result (λ s. the_subroutine s ≡ routines.init) }
{
    subroutine(alloc, &INIT)
}

const SIZE: TermSketch = Variable("size");

const C: TermSketch = Variable("c");

const P: TermSketch = Variable("p");

const N: TermSketch = Variable("n");

// `c[0]`, the length of the part at c
const LENGTH: TermSketch = Element("c", &One(ZERO));

// `c[1]`, the part after it
const NEXT: ExpressionSketch = One(Element("c", &One(ONE)));

// `return c + 1;`
const GIVE: StatementSketch = Return(Two(C, Plus, ONE));

// `do Sys.error(6);`
const NO_ROOM: StatementSketch = Do("Sys", "error", One(Number(6)));

// `if (c[0] - n < 2) { .. }`: where the rest would be too short for a part, the block is the whole part.
const TAKE_WHOLE: StatementSketch = If(
    Three(LENGTH, Minus, N, Less, Number(2)),
    &[
        IfElse(
            Two(P, Equal, ZERO),
            &[Let("free", NEXT)],
            &[LetElement("p", One(ONE), NEXT)],
        ),
        GIVE,
    ],
);

// `if (~(c[0] < n)) { .. }`: a part that is long enough gives its upper end.
const TAKE_END: StatementSketch = If(
    One(Unary(Sign::Not, &Group(&Two(LENGTH, Less, N)))),
    &[
        TAKE_WHOLE,
        LetElement("c", One(ZERO), Two(LENGTH, Minus, N)),
        Let("c", Two(C, Plus, LENGTH)),
        LetElement("c", One(ZERO), One(N)),
        GIVE,
    ],
);

const ALLOC: Sketch = Sketch {
    result: Some(Int),
    name: "alloc",
    parameters: &[ParameterSketch(Int, "size")],
    locals: &[
        LocalsSketch(Array, "c", &["p"]),
        LocalsSketch(Int, "n", &[]),
    ],
    statements: &[
        If(Two(SIZE, Less, ONE), &[Do("Sys", "error", One(Number(5)))]),
        If(Two(SIZE, Greater, Number(14335)), &[NO_ROOM]),
        Let("n", Two(SIZE, Plus, ONE)),
        Let("c", One(FREE)),
        While(
            One(Unary(Sign::Not, &Group(&Two(C, Equal, ZERO)))),
            &[TAKE_END, Let("p", One(C)), Let("c", NEXT)],
        ),
        NO_ROOM,
        Return(One(ZERO)),
    ],
};

/// `Memory.alloc`: a block of this many words, the upper end of the first free part that is long enough. It is all of that part,
/// where the rest would be shorter than two words. The words of the block are as they were.
pub fn alloc_block(alloc: Global) -> Result<Subroutine, AllocError>
    ensures { IfOk result (λ s. the_subroutine s ≡ routines.alloc) }
{
    subroutine(alloc, &ALLOC)
}

const O: TermSketch = Variable("o");

const DE_ALLOC: Sketch = Sketch {
    result: None,
    name: "deAlloc",
    parameters: &[ParameterSketch(Array, "o")],
    locals: &[],
    statements: &[
        Let("o", Two(O, Minus, ONE)),
        LetElement("o", One(ONE), One(FREE)),
        Let("free", One(O)),
        ReturnNothing,
    ],
};

/// `Memory.deAlloc`: the part of the block becomes the first free part.
pub fn de_alloc(alloc: Global) -> Result<Subroutine, AllocError>
    ensures { IfOk result (λ s. the_subroutine s ≡ routines.deAlloc) }
{
    subroutine(alloc, &DE_ALLOC)
}
