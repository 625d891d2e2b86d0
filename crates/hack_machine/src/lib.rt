//! The Hack machine: its memory and registers, one instruction at a time. (The book, chapters 4 and 5.)
#![tactic(auto)]

ghost use Rattle.std.specs.Prelude.{if◌then◌else◌, ◌≡◌, ◌+◌, ◌<◌, ◌≤◌, ◌%◌, ◌^◌, ◌++◌, [], ◌∷◌, ℕ, List, length, IfOk, slice_index};
ghost use Rattle.word16.specs.Memory.{keyboard};
ghost use Rattle.word16.specs.Words.{has_bit, word_shift};
ghost use Rattle.hack_isa.specs.Table.{instr_of};
ghost use Rattle.hack_isa.specs.Machine.{read, write, jumps, with_result, step, start, image_words};
ghost use Rattle.hack_machine.specs.Loaded.{LoadedMachine, HasRun, RunsThroughCycles, machine_of, words_of};
ghost use Rattle.hack_machine.specs.Changes.{Change, Press, PutA, PutD, PutPc, PutWord, after, HasChanged};
ghost use Rattle.hack_machine.specs.Turns.{HasTaken};

mod level;

use hack_isa::{Instr, alu, decode};
use machine_io::Moved;
use std::alloc::{AllocError, Global};
use std::marker::Model;
use word16::{KEYBOARD, bit};

/// The machine with its image: the words of the instruction memory, which are 0 past the image.
pub struct Hack {
    a: u16,
    d: u16,
    pc: u16,
    ram: Vec<u16>,
    image: Vec<u16>,
    moves: u64,
}

// By hand, so that whoever drops one calls this.
impl Drop for Hack {
    fn drop(self) {
        let Hack {
            a: _,
            d: _,
            pc: _,
            ram: _,
            image: _,
            moves: _,
        } = self;
    }
}

impl Model for Hack {
    ghost Value = { LoadedMachine };

    ghost view = { λ h. record {
      image = h.image.items;
      a = h.a;
      d = h.d;
      pc = h.pc;
      ram = h.ram.items;
      moves = h.moves;
    } };

    ghost invariant = { λ h. (length h.ram.items ≡ keyboard) × (h.pc < 32768) };
}

// What the ALU takes beside D: A, or the word that A addresses, which from the keyboard's address on is the key.
#[tactic(auto, unfolding(hack_isa::specs::Machine::read))]
fn operand(ram: &[u16], key: u16, memory: bool, a: u16) -> u16
    requires { length ram.now ≡ keyboard }
    ensures { result ≡ (if memory then read (words_of ram.now) key a else a) }
{
    let at = a % 32768;
    if !memory {
        a
    } else if at < KEYBOARD {
        ram[at as usize]
    } else {
        key
    }
}

// What is shifted: D, or what the ALU takes beside it.
fn shift_operand(ram: &[u16], key: u16, memory: bool, of_d: bool, a: u16, d: u16) -> u16
    requires { length ram.now ≡ keyboard }
    ensures { result ≡ (if of_d then d else (if memory then read (words_of ram.now) key a else a)) }
{
    if of_d {
        d
    } else {
        operand(ram, key, memory, a)
    }
}

#[tactic(auto, using(crate::proofs::Memory::stored))]
fn write_at(ram: &mut Vec<u16>, a: u16, v: u16)
    requires { length ram.old.items ≡ keyboard }
    ensures kept { length ram.new.items ≡ length ram.old.items }
    ensures words { words_of ram.new.items ≡ write (words_of ram.old.items) a v }
{
    let at = a % 32768;
    if at < KEYBOARD {
        ram[at as usize] = v;
    }
}

fn store(ram: &mut Vec<u16>, dest: u8, a: u16, v: u16)
    requires { length ram.old.items ≡ keyboard }
    ensures kept { length ram.new.items ≡ length ram.old.items }
    ensures words { words_of ram.new.items
        ≡ (if has_bit dest 0 then write (words_of ram.old.items) a v else words_of ram.old.items) }
{
    if bit(u16::from(dest), 0) {
        write_at(ram, a, v);
    }
}

// The new value of A or D, whose bit of `dest` is k.
fn chosen(dest: u8, k: u16, out: u16, old: u16) -> u16
    requires { k < 3 }
    ensures { result ≡ (if has_bit dest k then out else old) }
{
    if bit(u16::from(dest), k) { out } else { old }
}

// Whether the condition of a jump holds.
#[tactic(auto, unfolding(hack_isa::specs::Machine::jumps))]
fn holds(jump: u8, out: u16) -> bool
    ensures { result ≡ jumps jump out }
{
    let jump = u16::from(jump);
    if out > 32767 {
        bit(jump, 2)
    } else if out == 0 {
        bit(jump, 1)
    } else {
        bit(jump, 0)
    }
}

// One place to the left or to the right.
fn shifted(left: bool, w: u16) -> u16
    ensures { result ≡ word_shift left w }
{
    if left { word16::shl(w) } else { word16::shr(w) }
}

fn landing(jump: u8, out: u16, a: u16, next: u16) -> u16
    requires { next < 32768 }
    ensures below { result < 32768 }
    ensures value { result ≡ (if jumps jump out then a % 32768 else next) }
{
    if holds(jump, out) { a % 32768 } else { next }
}

fn zeros(alloc: Global, n: usize) -> Result<Vec<u16>, AllocError>
    ensures length { IfOk result (λ v. length v.items ≡ n) }
    ensures zeros { IfOk result (λ v. (k : ℕ) → words_of v.items k ≡ 0) }
{
    vec![in alloc; 0; n]
}

impl Hack {
    /// The machine at its start: all registers and words are 0. Fails only where memory is wanted.
    #[tactic(auto, using(crate::proofs::Memory::all_zero))]
    pub fn new(alloc: Global, image: &[u16]) -> Result<Hack, AllocError>
        requires { length image.now ≤ image_words }
        ensures image { IfOk result (λ h. h.image ≡ image.now) }
        ensures start { IfOk result (λ h. machine_of h ≡ start) }
        ensures run { IfOk result (λ h. HasRun h []) }
        ensures turns { IfOk result (λ h. HasTaken h []) }
        ensures changed { IfOk result (λ h. HasChanged h []) }
    {
        Ok(Hack {
            a: 0,
            d: 0,
            pc: 0,
            ram: zeros(alloc, KEYBOARD as usize)?,
            image: Vec::from_slice(alloc, image)?,
            moves: 0,
        })
    }

    fn fetch(&self) -> Instr
        ensures { result ≡ instr_of (slice_index self.now.image self.now.pc) }
    {
        let pc = self.pc as usize;
        if pc < self.image.len() {
            decode(self.image[pc])
        } else {
            decode(0)
        }
    }

    // Where a result goes, and which instruction is next by it.
    #[inline(always)]
    fn put_result(&mut self, out: u16, dest: u8, jump: u8)
        ensures image { self.new.image ≡ self.old.image }
        ensures moves { self.new.moves ≡ self.old.moves }
        ensures state { machine_of self.new ≡ with_result out dest jump (machine_of self.old) }
    {
        let at = self.a;
        let next = (self.pc + 1) % 32768;
        store(&mut self.ram, dest, at, out);
        self.d = chosen(dest, 1, out, self.d);
        self.a = chosen(dest, 2, out, at);
        self.pc = landing(jump, out, at, next);
    }

    // One instruction, which is not counted yet.
    #[inline(always)]
    #[tactic(auto, unfolding(hack_isa::specs::Machine::step))]
    fn perform(&mut self, key: u16)
        ensures image { self.new.image ≡ self.old.image }
        ensures moves { self.new.moves ≡ self.old.moves }
        ensures step { machine_of self.new ≡ step self.old.image key (machine_of self.old) }
    {
        match self.fetch() {
            Instr::Address(n) => {
                self.a = n;
                self.pc = (self.pc + 1) % 32768;
            }
            Instr::Compute {
                memory,
                comp,
                dest,
                jump,
            } => {
                let (out, _, _) = alu(self.d, operand(&self.ram, key, memory, self.a), comp);
                self.put_result(out, dest, jump);
            }
            Instr::Shift {
                memory,
                left,
                of_d,
                dest,
                jump,
            } => {
                let held = shift_operand(&self.ram, key, memory, of_d, self.a, self.d);
                self.put_result(shifted(left, held), dest, jump);
            }
        }
    }

    /// One move: the instruction at the program counter, while `key` is held. There is always one.
    #[inline(always)]
    pub fn step(&mut self, key: u16) -> Moved
        requires { self.old.moves < 2 ^ 63 }
        ensures image { self.new.image ≡ self.old.image }
        ensures moves { self.new.moves ≡ self.old.moves + 1 }
        ensures step { machine_of self.new ≡ step self.old.image key (machine_of self.old) }
        ensures acts { result ≡ Moved.Acted }
        ensures run { (keys : List ℕ) → HasRun self.old keys → HasRun self.new (keys ++ key ∷ []) }
        ensures changed { (changes : List Change) → HasChanged self.old changes
            → HasChanged self.new (changes ++ Press key ∷ []) }
    {
        self.perform(key);
        self.moves += 1;
        Moved::Acted
    }

    /// Puts a value into A, and leaves the rest.
    pub fn set_a(&mut self, value: u16)
        ensures image { self.new.image ≡ self.old.image }
        ensures moves { self.new.moves ≡ self.old.moves }
        ensures put { machine_of self.new
            ≡ after self.old.image (PutA value) (machine_of self.old) }
        ensures changed { (changes : List Change) → HasChanged self.old changes
            → HasChanged self.new (changes ++ PutA value ∷ []) }
    {
        self.a = value;
    }

    /// Puts a value into D, and leaves the rest.
    pub fn set_d(&mut self, value: u16)
        ensures image { self.new.image ≡ self.old.image }
        ensures moves { self.new.moves ≡ self.old.moves }
        ensures put { machine_of self.new
            ≡ after self.old.image (PutD value) (machine_of self.old) }
        ensures changed { (changes : List Change) → HasChanged self.old changes
            → HasChanged self.new (changes ++ PutD value ∷ []) }
    {
        self.d = value;
    }

    /// Puts an address below 32,768 into the program counter, and leaves the rest.
    pub fn set_pc(&mut self, value: u16)
        requires { value < 32768 }
        ensures image { self.new.image ≡ self.old.image }
        ensures moves { self.new.moves ≡ self.old.moves }
        ensures put { machine_of self.new
            ≡ after self.old.image (PutPc value) (machine_of self.old) }
        ensures changed { (changes : List Change) → HasChanged self.old changes
            → HasChanged self.new (changes ++ PutPc value ∷ []) }
    {
        self.pc = value;
    }

    /// Puts a word at an address below that of the keyboard, and leaves the rest.
    pub fn set_ram(&mut self, address: u16, value: u16)
        requires { address < keyboard }
        ensures image { self.new.image ≡ self.old.image }
        ensures moves { self.new.moves ≡ self.old.moves }
        ensures put { machine_of self.new
            ≡ after self.old.image (PutWord address value) (machine_of self.old) }
        ensures changed { (changes : List Change) → HasChanged self.old changes
            → HasChanged self.new (changes ++ PutWord address value ∷ []) }
    {
        self.ram[address as usize] = value;
    }

    /// The register A.
    pub fn a(&self) -> u16
        ensures { result ≡ self.now.a }
    {
        self.a
    }

    /// The register D.
    pub fn d(&self) -> u16
        ensures { result ≡ self.now.d }
    {
        self.d
    }

    /// The program counter, below 32,768.
    pub fn pc(&self) -> u16
        ensures counter { result ≡ self.now.pc }
        ensures below { result < 32768 }
    {
        self.pc
    }

    /// The word at an address below that of the keyboard.
    pub fn ram(&self, k: u16) -> u16
        requires { k < keyboard }
        ensures { result ≡ (machine_of self.now).memory k }
    {
        self.ram[k as usize]
    }

    /// What the machine reads at an address while `key` is held: a word of memory, or from the keyboard's address on the key.
    pub fn word_seen(&self, key: u16, address: u16) -> u16
        ensures { result ≡ read (machine_of self.now).memory key address }
    {
        operand(&self.ram, key, true, address)
    }

    /// The number of moves made.
    pub fn moves(&self) -> u64
        ensures { result ≡ self.now.moves }
    {
        self.moves
    }
}

/// The law of runs and cycles: no code, only the statement.
#[tactic(auto, using(crate::proofs::Runs::runs_through_cycles))]
pub fn cycles_law()
    ensures { RunsThroughCycles }
{}
