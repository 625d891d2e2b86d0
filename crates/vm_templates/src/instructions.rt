// The Hack instructions that the templates are made of, beside their assembly. (The book, chapter 4.)

use hack_isa::Instr;

/// `D=A`
pub const D_IS_A: Instr = Instr::Compute {
    memory: false,
    comp: 0b110000,
    dest: 2,
    jump: 0,
};

/// `D=!A`
pub const D_IS_NOT_A: Instr = Instr::Compute {
    memory: false,
    comp: 0b110001,
    dest: 2,
    jump: 0,
};

/// `D=M`
pub const D_IS_M: Instr = Instr::Compute {
    memory: true,
    comp: 0b110000,
    dest: 2,
    jump: 0,
};

/// `A=M`
pub const A_IS_M: Instr = Instr::Compute {
    memory: true,
    comp: 0b110000,
    dest: 4,
    jump: 0,
};

/// `M=D`
pub const M_IS_D: Instr = Instr::Compute {
    memory: false,
    comp: 0b001100,
    dest: 1,
    jump: 0,
};

/// `M=0`
pub const M_IS_0: Instr = Instr::Compute {
    memory: false,
    comp: 0b101010,
    dest: 1,
    jump: 0,
};

/// `M=-1`
pub const M_IS_MINUS_1: Instr = Instr::Compute {
    memory: false,
    comp: 0b111010,
    dest: 1,
    jump: 0,
};

/// `AM=M-1`
pub const AM_IS_M_MINUS_1: Instr = Instr::Compute {
    memory: true,
    comp: 0b110010,
    dest: 5,
    jump: 0,
};

/// `AM=M+1`
pub const AM_IS_M_PLUS_1: Instr = Instr::Compute {
    memory: true,
    comp: 0b110111,
    dest: 5,
    jump: 0,
};

/// `A=A-1`
pub const A_IS_A_MINUS_1: Instr = Instr::Compute {
    memory: false,
    comp: 0b110010,
    dest: 4,
    jump: 0,
};

/// `A=M-1`
pub const A_IS_M_MINUS_1: Instr = Instr::Compute {
    memory: true,
    comp: 0b110010,
    dest: 4,
    jump: 0,
};

/// `D=M+1`
pub const D_IS_M_PLUS_1: Instr = Instr::Compute {
    memory: true,
    comp: 0b110111,
    dest: 2,
    jump: 0,
};

/// `MD=M+1`
pub const MD_IS_M_PLUS_1: Instr = Instr::Compute {
    memory: true,
    comp: 0b110111,
    dest: 3,
    jump: 0,
};

/// `A=D+M`
pub const A_IS_D_PLUS_M: Instr = Instr::Compute {
    memory: true,
    comp: 0b000010,
    dest: 4,
    jump: 0,
};

/// `D=D+M`
pub const D_IS_D_PLUS_M: Instr = Instr::Compute {
    memory: true,
    comp: 0b000010,
    dest: 2,
    jump: 0,
};

/// `D=D-M`
pub const D_IS_D_MINUS_M: Instr = Instr::Compute {
    memory: true,
    comp: 0b010011,
    dest: 2,
    jump: 0,
};

/// `D=M-D`
pub const D_IS_M_MINUS_D: Instr = Instr::Compute {
    memory: true,
    comp: 0b000111,
    dest: 2,
    jump: 0,
};

/// `A=D-A`
pub const A_IS_D_MINUS_A: Instr = Instr::Compute {
    memory: false,
    comp: 0b010011,
    dest: 4,
    jump: 0,
};

/// `M=D+M`
pub const M_IS_D_PLUS_M: Instr = Instr::Compute {
    memory: true,
    comp: 0b000010,
    dest: 1,
    jump: 0,
};

/// `M=M-D`
pub const M_IS_M_MINUS_D: Instr = Instr::Compute {
    memory: true,
    comp: 0b000111,
    dest: 1,
    jump: 0,
};

/// `D=D&M`
pub const D_IS_D_AND_M: Instr = Instr::Compute {
    memory: true,
    comp: 0b000000,
    dest: 2,
    jump: 0,
};

/// `D=D|M`
pub const D_IS_D_OR_M: Instr = Instr::Compute {
    memory: true,
    comp: 0b010101,
    dest: 2,
    jump: 0,
};

/// `M=D&M`
pub const M_IS_D_AND_M: Instr = Instr::Compute {
    memory: true,
    comp: 0b000000,
    dest: 1,
    jump: 0,
};

/// `M=D|M`
pub const M_IS_D_OR_M: Instr = Instr::Compute {
    memory: true,
    comp: 0b010101,
    dest: 1,
    jump: 0,
};

/// `M=-M`
pub const M_IS_MINUS_M: Instr = Instr::Compute {
    memory: true,
    comp: 0b110011,
    dest: 1,
    jump: 0,
};

/// `M=!M`
pub const M_IS_NOT_M: Instr = Instr::Compute {
    memory: true,
    comp: 0b110001,
    dest: 1,
    jump: 0,
};

/// `M=M<<`
pub const M_IS_M_SHIFTED_LEFT: Instr = Instr::Shift {
    memory: true,
    left: true,
    of_d: false,
    dest: 1,
    jump: 0,
};

/// `M=M>>`
pub const M_IS_M_SHIFTED_RIGHT: Instr = Instr::Shift {
    memory: true,
    left: false,
    of_d: false,
    dest: 1,
    jump: 0,
};

/// `0;JMP`
pub const JUMP: Instr = Instr::Compute {
    memory: false,
    comp: 0b101010,
    dest: 0,
    jump: 7,
};

/// `D;JLT`
pub const IF_D_LESS: Instr = Instr::Compute {
    memory: false,
    comp: 0b001100,
    dest: 0,
    jump: 4,
};

/// `D;JGT`
pub const IF_D_GREATER: Instr = Instr::Compute {
    memory: false,
    comp: 0b001100,
    dest: 0,
    jump: 1,
};

/// `D;JEQ`
pub const IF_D_EQUAL: Instr = Instr::Compute {
    memory: false,
    comp: 0b001100,
    dest: 0,
    jump: 2,
};

/// `D;JGE`
pub const IF_D_NOT_LESS: Instr = Instr::Compute {
    memory: false,
    comp: 0b001100,
    dest: 0,
    jump: 3,
};

/// `D;JNE`
pub const IF_D_NOT_EQUAL: Instr = Instr::Compute {
    memory: false,
    comp: 0b001100,
    dest: 0,
    jump: 5,
};
