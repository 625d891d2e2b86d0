//! The chips from Not to DMux8Way (book, chapter 1): their trees, each with the law that it is its function.
#![tactic(auto)]

mod hdl;
mod laws;
mod table;
mod trees;

pub use hdl::{
    Joint, Origin, Port, add_part, bit_constant, bit_wire, bit_wire_bit, bits_wire, bits_wire_bits,
    builtin, bus, chip, constant, numbered_name, part, pin, wire, wire_bit, wire_bits,
};
pub use laws::{
    and_law, and16_law, basic_texts_law, dmux_law, dmux4way_law, dmux8way_law, mux_law,
    mux4way16_law, mux8way16_law, mux16_law, not_law, not16_law, or_law, or8way_law, or16_law,
    xor_law,
};
pub use table::{Link, Row, parts_of};
pub use trees::{
    and_tree, and16_tree, dmux_tree, dmux4way_tree, dmux8way_tree, mux_tree, mux4way16_tree,
    mux8way16_tree, mux16_tree, nand_tree, not_tree, not16_tree, or_tree, or8way_tree, or16_tree,
    xor_tree,
};
