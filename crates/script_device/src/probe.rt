//! What an output list shows.

use crate::machine::Register;
use hdl_tree::List;

/// What a name in an output list stands for. It is the time, nodes of a chip, the lowest first, a word of a block, by its block and
/// address, or a register of the machine.
#[derive(Drop)]
pub enum Probe {
    Time,
    Bus(List<u32>),
    Word(u32, u32),
    Register(Register),
}
