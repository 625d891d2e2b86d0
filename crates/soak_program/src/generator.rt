//! Draws, and what is written by them.
ghost use Rattle.std.specs.Prelude.{◌≡◌, ◌<◌, ◌++◌, ◌∷◌, [], IfOk, codes};
ghost use Rattle.soak_program.specs.Generator.{first_state, next, IsChoice, IsExpression, IsLeaf, IsLet, IsNumber, IsProgram, IsProgramText, IsSign, IsStatement, IsStatements, IsVariable};
ghost use Rattle.soak_program.specs.Inner.Written.{Adds, Draws, Writes};

use itoa::Buffer;
use std::alloc::{AllocError, Global};

// The state of the draws, and the text so far.
#[derive(Drop)]
struct Generator {
    state: u32,
    text: Vec<u8>,
}

// The state after a draw.
fn next(state: u32) -> u32
    ensures { result ≡ next state }
{
    ((state as u64 * 1103515245 + 12345) % 2147483648) as u32
}

impl Generator {
    // The state in which the program of this number begins, and no text.
    fn new(alloc: Global, seed: u32, number: u32) -> Generator
        ensures state { result.state ≡ first_state seed number }
        ensures text { result.text.items ≡ [] }
    {
        let state = ((seed as u64 * 1000 + number as u64) % 2147483648) as u32;
        Generator {
            state,
            text: Vec::new(alloc),
        }
    }

    // A number below k is drawn.
    fn draw(&mut self, k: u32) -> u32
        requires { 0 < k }
        ensures { Draws k self.old result self.new }
    {
        self.state = next(self.state);
        self.state / 65536 % k
    }

    fn put(&mut self, piece: &[u8]) -> Result<(), AllocError>
        ensures { IfOk result (λ _. Adds piece.now self.old self.new) }
    {
        self.text.extend_from_slice(piece)
    }

    // A number below k.
    fn put_number(&mut self, k: u32) -> Result<(), AllocError>
        requires { 0 < k }
        ensures { IfOk result (λ _. Writes (IsNumber k) self.old self.new) }
    {
        let number = self.draw(k);
        let mut digits = Buffer::new();
        self.put(digits.format(number).as_bytes())?;
        self.put(b" ")
    }

    fn put_leaf(&mut self) -> Result<(), AllocError>
        ensures { IfOk result (λ _. Writes IsLeaf self.old self.new) }
    {
        let kind = self.draw(5);
        if kind == 3 {
            return self.put_number(32768);
        }
        if kind == 4 {
            return self.put_number(10);
        }
        self.put(&[b'a' + kind as u8, b' '])
    }

    // One of the signs that stand before a term.
    fn put_sign(&mut self) -> Result<(), AllocError>
        ensures { IfOk result (λ _. Writes IsSign self.old self.new) }
    {
        if self.draw(2) == 0 {
            return self.put(b"- ");
        }
        self.put(b"~ ")
    }

    // An expression of at most this depth.
    fn put_expression(&mut self, depth: u8) -> Result<(), AllocError>
        ensures { IfOk result (λ _. Writes (IsExpression depth) self.old self.new) }
    {
        if depth == 0 {
            return self.put_leaf();
        }
        if self.draw(4) == 0 {
            return self.put_leaf();
        }
        let form = self.draw(10);
        self.put(b"( ")?;
        if form < 9 {
            self.put_expression(depth - 1)?;
            self.put(&[b"+-*/&|<>="[form as usize], b' '])?;
            self.put_expression(depth - 1)?;
            return self.put(b") ");
        }
        self.put_sign()?;
        self.put_expression(depth - 1)?;
        self.put(b") ")
    }

    // One of the variables to which something is assigned.
    fn put_variable(&mut self) -> Result<(), AllocError>
        ensures { IfOk result (λ _. Writes IsVariable self.old self.new) }
    {
        let variable = self.draw(3);
        self.put(&[b'a' + variable as u8, b' '])
    }

    fn put_let(&mut self, depth: u8) -> Result<(), AllocError>
        ensures { IfOk result (λ _. Writes (IsLet depth) self.old self.new) }
    {
        self.put(b"let ")?;
        self.put_variable()?;
        self.put(b"= ")?;
        self.put_expression(depth)?;
        self.put(b";\n")
    }

    // A condition with both its ways.
    fn put_choice(&mut self) -> Result<(), AllocError>
        ensures { IfOk result (λ _. Writes IsChoice self.old self.new) }
    {
        self.put(b"if ( ")?;
        self.put_expression(2)?;
        self.put(b") {\n")?;
        self.put_let(2)?;
        self.put(b"}\nelse {\n")?;
        self.put_let(2)?;
        self.put(b"}\n")
    }

    fn put_statement(&mut self) -> Result<(), AllocError>
        ensures { IfOk result (λ _. Writes IsStatement self.old self.new) }
    {
        if self.draw(3) < 2 {
            return self.put_let(3);
        }
        self.put_choice()
    }

    fn put_statements(&mut self, count: u32) -> Result<(), AllocError>
        ensures { IfOk result (λ _. Writes (IsStatements count) self.old self.new) }
    {
        for _place in 0..count {
            self.put_statement()?;
        }
        Ok(())
    }

    fn put_program(&mut self) -> Result<(), AllocError>
        ensures { IfOk result (λ _. Writes IsProgramText self.old self.new) }
    {
        self.put(b"class Main {\nstatic int a , b , c ;\nstatic Array d ;\n")?;
        self.put(b"function void main ( ) {\nlet d = Array . new ( 8 ) ;\n")?;
        let more = self.draw(6);
        self.put_statements(1 + more)?;
        self.put(b"let d [ 0 ] = a ;\nlet d [ 1 ] = b ;\nlet d [ 2 ] = c ;\n")?;
        self.put(b"return ;\n}\n}\n")
    }
}

/// The text of the class Main that a seed has at a number.
pub fn program(alloc: Global, seed: u32, number: u32) -> Result<Vec<u8>, AllocError>
    ensures { IfOk result (λ text. IsProgram seed number text.items) }
{
    let mut generator = Generator::new(alloc, seed, number);
    generator.put_program()?;
    Ok(generator.text)
}
