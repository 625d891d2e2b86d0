//! Nodes that are made one after another, with no two gates alike and no gate that needn't be.

ghost use Rattle.std.specs.Prelude.{◌≡◌, ◌↔◌, ◌-◌, ◌<◌, ◌^◌, [], ◌∷◌, ◌++◌, IfOk, IsTrue, MatchOption, OnOk, Some, length, slice_get};
ghost use Rattle.netlist.specs.declared.node.Node.TheVariants.{Nand, Zero};
ghost use Rattle.net_simplify.specs.Normal.{HasNoTwins, IsConstant, IsOne};
ghost use Rattle.net_simplify.specs.Inner.Gates.{AreNormal, IsMade, IsPlan, IsSource, MayPut, PutsNand, PutsZero};

use crate::table::{Table, paired};
use netlist::Node;
use std::alloc::{AllocError, Global};

/// What stands for a Nand: a node that is there, or a gate with these inputs.
#[derive(Clone, Copy)]
pub(crate) enum Plan {
    Known(u32),
    Gate(u32, u32),
}

// Whether the node is a Zero.
fn is_zero(nodes: &[Node], k: u32) -> bool
    requires { k < length nodes.now }
    ensures { IsTrue result ↔ (slice_get nodes.now k ≡ Some Zero) }
{
    matches!(nodes[k as usize], Node::Zero)
}

// The Zero that a One negates.
fn zero_of_one(nodes: &[Node], k: u32) -> Option<u32>
    requires place { k < length nodes.now }
    requires normal { AreNormal nodes.now }
    ensures { MatchOption result (IsOne nodes.now k → ⊥)
        (λ z. (slice_get nodes.now k ≡ Some (Nand z z)) × (slice_get nodes.now z ≡ Some Zero)) }
{
    if let Node::Nand(i, j) = nodes[k as usize] {
        if i == j && is_zero(nodes, i) {
            return Some(i);
        }
    }
    None
}

// What stands for the negation of a node that is no constant.
fn negation(nodes: &[Node], k: u32) -> Plan
    requires place { k < length nodes.now }
    requires normal { AreNormal nodes.now }
    requires no_constant { IsConstant nodes.now k → ⊥ }
    ensures { IsPlan nodes.now k k result }
{
    if let Node::Nand(i, j) = nodes[k as usize] {
        if i == j {
            return Plan::Known(i);
        }
    }
    Plan::Gate(k, k)
}

// What stands for the Nand of two nodes neither of which is a Zero.
fn plan_without_zero(nodes: &[Node], a: u32, b: u32) -> Plan
    requires first { a < length nodes.now }
    requires second { b < length nodes.now }
    requires normal { AreNormal nodes.now }
    requires no_zero { slice_get nodes.now a ≡ Some Zero → ⊥ }
    requires no_zeros { slice_get nodes.now b ≡ Some Zero → ⊥ }
    ensures { IsPlan nodes.now a b result }
{
    match zero_of_one(nodes, a) {
        Some(z) => match zero_of_one(nodes, b) {
            Some(_) => Plan::Known(z),
            None => negation(nodes, b),
        },
        None => match zero_of_one(nodes, b) {
            Some(_) => negation(nodes, a),
            None => {
                if a == b {
                    negation(nodes, a)
                } else {
                    Plan::Gate(a, b)
                }
            }
        },
    }
}

// What stands for the Nand of two nodes.
fn plan_nand(nodes: &[Node], a: u32, b: u32) -> Plan
    requires first { a < length nodes.now }
    requires second { b < length nodes.now }
    requires normal { AreNormal nodes.now }
    ensures { IsPlan nodes.now a b result }
{
    if is_zero(nodes, a) {
        Plan::Gate(a, a)
    } else if is_zero(nodes, b) {
        Plan::Gate(b, b)
    } else {
        plan_without_zero(nodes, a, b)
    }
}

/// Nodes, the gates among them by their inputs, and the Zero among them.
#[derive(Drop)]
pub(crate) struct Made {
    pub nodes: Vec<Node>,
    table: Table,
    zero: Option<u32>,
}

impl Made {
    pub(crate) fn new(alloc: Global) -> Made
        ensures none { result.nodes.items ≡ [] }
        ensures made { IsMade result }
    {
        Made {
            nodes: Vec::new(alloc),
            table: Table::new(alloc),
            zero: None,
        }
    }

    /// Puts a pin, a flip-flop or a bit of a word.
    pub(crate) fn put_source(&mut self, node: Node) -> Result<u32, AllocError>
        requires made { IsMade self.old }
        requires source { IsSource node }
        requires few { length self.old.nodes.items < 2 ^ 32 - 1 }
        ensures put { IfOk result (λ k. (k ≡ length self.old.nodes.items)
            × (self.new.nodes.items ≡ self.old.nodes.items ++ node ∷ [])) }
        ensures made { OnOk result (IsMade self.new) }
    {
        let k = self.nodes.len() as u32;
        self.nodes.push(node)?;
        Ok(k)
    }

    /// Puts a Zero, where there is no Zero.
    pub(crate) fn put_zero(&mut self) -> Result<u32, AllocError>
        requires made { IsMade self.old }
        requires few { length self.old.nodes.items < 2 ^ 32 - 1 }
        ensures put { IfOk result (λ k. PutsZero self.old.nodes.items self.new.nodes.items k) }
        ensures made { OnOk result (IsMade self.new) }
    {
        match self.zero {
            Some(k) => Ok(k),
            None => {
                let k = self.nodes.len() as u32;
                self.nodes.push(Node::Zero)?;
                self.zero = Some(k);
                Ok(k)
            }
        }
    }

    // Puts a gate, where there is no gate with these inputs.
    fn put_gate(&mut self, x: u32, y: u32) -> Result<u32, AllocError>
        requires made { IsMade self.old }
        requires first { x < length self.old.nodes.items }
        requires second { y < length self.old.nodes.items }
        requires may { MayPut self.old.nodes.items x y }
        requires few { length self.old.nodes.items < 2 ^ 32 - 1 }
        ensures put { IfOk result (λ k. PutsNand self.old.nodes.items self.new.nodes.items x y k) }
        ensures made { OnOk result (IsMade self.new) }
    {
        let inputs = paired(x, y);
        match self.table.find(inputs) {
            Some(k) => Ok(k),
            None => {
                let k = self.nodes.len() as u32;
                self.table.enter(inputs, k)?;
                self.nodes.push(Node::Nand(x, y))?;
                Ok(k)
            }
        }
    }

    /// Puts what stands for the Nand of two nodes.
    pub(crate) fn put_nand(&mut self, a: u32, b: u32) -> Result<u32, AllocError>
        requires made { IsMade self.old }
        requires first { a < length self.old.nodes.items }
        requires second { b < length self.old.nodes.items }
        requires few { length self.old.nodes.items < 2 ^ 32 - 1 }
        ensures put { IfOk result (λ k. PutsNand self.old.nodes.items self.new.nodes.items a b k) }
        ensures made { OnOk result (IsMade self.new) }
    {
        match plan_nand(self.nodes.as_slice(), a, b) {
            Plan::Known(k) => Ok(k),
            Plan::Gate(x, y) => self.put_gate(x, y),
        }
    }

    /// The nodes.
    pub(crate) fn into_nodes(self) -> Vec<Node>
        requires { IsMade self }
        ensures value { result.items ≡ self.nodes.items }
        ensures twins { HasNoTwins self.nodes.items }
    {
        self.nodes
    }
}
