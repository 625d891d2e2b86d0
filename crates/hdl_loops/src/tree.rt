//! What is reached from a bit, and by which ways.

ghost use Rattle.std.specs.Prelude.{◌≡◌, ◌<◌, false, true, List, OnOk, IfOk, MatchOption, Some, length, reverse, slice_get};
ghost use Rattle.hdl_loops.specs.declared.bundle.Bundle.{Bundle};
ghost use Rattle.hdl_loops.specs.declared.hops.Hop.{Hop};
ghost use Rattle.hdl_loops.specs.declared.tree.Node.{Node};
ghost use Rattle.hdl_loops.specs.Inner.Hops.{bit, IsWay};
ghost use Rattle.hdl_loops.specs.Inner.Bundles.{AreDoors, hops_in, Opens};
ghost use Rattle.hdl_loops.specs.Inner.Trees.{is_marked, IsReached, Comes, IsTree, KeepsMarks, IsLeft, LeftBefore, IsClosed, IsGrown, Adds, KeepsPassed, LeadsOut, ArePassed};
ghost use Rattle.hdl_loops.specs.Inner.Ties.{In};

use crate::bundle::{Bundle, hop_by};
use crate::doors::{Door, Doors};
use crate::hops::{BitOf, Hop};
use indexmap::{IndexMap, IndexSet};
use std::alloc::{AllocError, Global};

/// A hop that reaches a bit, and the place of the one before it, if it does not begin at the root.
#[derive(Clone, Copy)]
pub struct Node<'a> {
    pub hop: Hop<'a>,
    pub before: Option<usize>,
}

/// The bits that hops reach from a root, and for each the place of the hop that reached it first. The root is reached only by a way round.
/// What is reached first is left first, so that no hop cuts a way short. A bundle is passed once: then all that it leads to is reached.
pub struct Tree<'a> {
    root: BitOf<'a>,
    places: IndexMap<BitOf<'a>, usize>,
    nodes: Vec<Node<'a>>,
    passed: IndexSet<usize>,
}

// By hand, so that whoever drops one calls this.
impl Drop for Tree<'_> {
    fn drop(self) {
        let Tree {
            root: _,
            places: _,
            nodes: _,
            passed: _,
        } = self;
    }
}

impl<'a> Tree<'a> {
    /// Whether the bit is reached.
    pub(crate) fn has(&self, to: &BitOf<'a>) -> bool
        ensures { result ≡ is_marked self.now (bit to.now) }
    {
        self.places.contains_key(to)
    }

    /// Where a hop from this bit goes on, if it is the root or is reached.
    fn goes_on(&self, from: &BitOf<'a>) -> Option<Option<usize>>
        ensures { MatchOption result (IsReached self.now (bit from.now) → ⊥)
            (λ before. Comes self.now before (bit from.now)) }
    {
        if *from == self.root {
            return Some(None);
        }
        match self.places.get(from) {
            None => None,
            Some(place) => Some(Some(*place)),
        }
    }

    /// Adds a hop to a bit that was not reached.
    fn add(&mut self, hop: Hop<'a>, before: Option<usize>) -> Result<(), AllocError>
        requires { is_marked self.old (bit hop.to) ≡ false }
        ensures { OnOk result (Adds self.old self.new hop.entry before) }
    {
        let place = self.nodes.as_slice().len();
        match self.places.insert(hop.to, place) {
            Err(_) => return Err(AllocError),
            Ok(_) => {}
        }
        self.nodes.push(Node { hop, before })?;
        Ok(())
    }

    /// Follows a hop, if it goes on from what is reached to what is not.
    fn follow(&mut self, hop: Hop<'a>) -> Result<(), AllocError>
        ensures right { OnOk result ((hops : List Hop) → In hop.entry hops → IsTree hops self.old
            → LeftBefore hops self.old (bit hop.entry.from) → IsTree hops self.new) }
        ensures kept { OnOk result (KeepsMarks self.old self.new) }
        ensures passed { OnOk result (KeepsPassed self.old self.new) }
        ensures followed { OnOk result
            (IsReached self.old (bit hop.entry.from) → is_marked self.new (bit hop.entry.to) ≡ true) }
    {
        if self.has(&hop.to) {
            return Ok(());
        }
        match self.goes_on(&hop.from) {
            None => Ok(()),
            Some(before) => {
                self.add(hop, before)?;
                Ok(())
            }
        }
    }

    /// Follows the hops of a bundle that go in by this door, which leaves a bit that is reached.
    fn pass(&mut self, graph: &[Bundle<'a>], door: Door, from: &BitOf<'a>) -> Result<(), AllocError>
        requires opens { Opens graph.now door (bit from.now) }
        requires right { IsTree (hops_in graph.now) self.old }
        requires reached { IsReached self.old (bit from.now) }
        requires before { LeftBefore (hops_in graph.now) self.old (bit from.now) }
        ensures right { OnOk result (IsTree (hops_in graph.now) self.new) }
        ensures kept { OnOk result (KeepsMarks self.old self.new) }
        ensures passed { OnOk result (KeepsPassed self.old self.new) }
        ensures there { OnOk result (LeadsOut graph.now self.new door.bundle) }
    {
        let bundle = &graph[door.bundle];
        let enter = &bundle.enters[door.enter];
        let leaves = bundle.leaves.as_slice();
        for leave in leaves {
            self.follow(hop_by(bundle.chip, enter, leave))?;
        }
        Ok(())
    }

    /// Goes in by a door, which leaves a bit that is reached, unless its bundle is passed.
    fn go_in(
        &mut self,
        graph: &[Bundle<'a>],
        door: Door,
        from: &BitOf<'a>,
    ) -> Result<(), AllocError>
        requires opens { Opens graph.now door (bit from.now) }
        requires right { IsTree (hops_in graph.now) self.old }
        requires passed { ArePassed graph.now self.old }
        requires reached { IsReached self.old (bit from.now) }
        requires before { LeftBefore (hops_in graph.now) self.old (bit from.now) }
        ensures right { OnOk result (IsTree (hops_in graph.now) self.new) }
        ensures passed { OnOk result (ArePassed graph.now self.new) }
        ensures kept { OnOk result (KeepsMarks self.old self.new) }
        ensures there { OnOk result (LeadsOut graph.now self.new door.bundle) }
    {
        if self.passed.contains(&door.bundle) {
            return Ok(());
        }
        self.pass(graph, door, from)?;
        match self.passed.insert(door.bundle) {
            Err(_) => Err(AllocError),
            Ok(_) => Ok(()),
        }
    }

    /// Follows the hops that leave a bit.
    fn follow_from(
        &mut self,
        graph: &[Bundle<'a>],
        doors: &Doors<'a>,
        from: &BitOf<'a>,
    ) -> Result<(), AllocError>
        requires right { IsTree (hops_in graph.now) self.old }
        requires passed { ArePassed graph.now self.old }
        requires linked { AreDoors graph.now doors.now }
        requires reached { IsReached self.old (bit from.now) }
        requires before { LeftBefore (hops_in graph.now) self.old (bit from.now) }
        ensures right { OnOk result (IsTree (hops_in graph.now) self.new) }
        ensures passed { OnOk result (ArePassed graph.now self.new) }
        ensures kept { OnOk result (KeepsMarks self.old self.new) }
        ensures left { OnOk result (IsLeft (hops_in graph.now) self.new (bit from.now)) }
    {
        let mut at = doors.leaving.last(from);
        while let Some(k) = at {
            self.go_in(graph, doors.doors[k], from)?;
            at = doors.leaving.before(k);
        }
        Ok(())
    }

    /// Follows the hops that leave the root, and then those that leave each bit that is reached.
    fn grow(&mut self, graph: &[Bundle<'a>], doors: &Doors<'a>) -> Result<(), AllocError>
        requires right { IsTree (hops_in graph.now) self.old }
        requires passed { ArePassed graph.now self.old }
        requires linked { AreDoors graph.now doors.now }
        ensures right { OnOk result (IsTree (hops_in graph.now) self.new) }
        ensures same { OnOk result (bit self.new.root ≡ bit self.old.root) }
        ensures closed { OnOk result (IsClosed (hops_in graph.now) self.new) }
    {
        let root = self.root;
        self.follow_from(graph, doors, &root)?;
        let mut k = 0;
        while k < self.nodes.len() {
            let at = self.nodes[k].hop.to;
            self.follow_from(graph, doors, &at)?;
            k += 1;
        }
        Ok(())
    }

    fn new(alloc: Global, root: BitOf<'a>) -> Tree<'a>
        ensures right { (hops : List Hop) → IsTree hops result }
        ensures passed { (graph : List Bundle) → ArePassed graph result }
        ensures root { result.root ≡ root.entry }
    {
        Tree {
            root,
            places: IndexMap::new(alloc),
            nodes: Vec::new(alloc),
            passed: IndexSet::new(alloc),
        }
    }

    /// All that hops reach from a bit.
    pub(crate) fn of(
        alloc: Global,
        graph: &[Bundle<'a>],
        doors: &Doors<'a>,
        root: BitOf<'a>,
    ) -> Result<Tree<'a>, AllocError>
        requires { AreDoors graph.now doors.now }
        ensures { IfOk result (λ tree. IsGrown (hops_in graph.now) tree (bit root.entry)) }
    {
        let mut tree = Tree::new(alloc, root);
        tree.grow(graph, doors)?;
        Ok(tree)
    }

    /// The hops that reach the bits, each after the one that it goes on from.
    pub(crate) fn reached(&self) -> &[Node<'a>]
        ensures { result.now ≡ self.now.nodes.items }
    {
        self.nodes.as_slice()
    }

    /// The hops back from the one in this place to the root.
    fn back(
        &self,
        alloc: Global,
        graph: &[Bundle<'a>],
        last: usize,
    ) -> Result<Vec<Hop<'a>>, AllocError>
        requires right { IsTree (hops_in graph.now) self.now }
        requires there { last < length self.now.nodes.items }
        ensures { IfOk result (λ v. (node : Node) → slice_get self.now.nodes.items last ≡ Some node
            → IsWay (hops_in graph.now) (bit self.now.root) (reverse v.items) (bit node.hop.to)) }
    {
        let nodes = self.nodes.as_slice();
        let mut way = Vec::new(alloc);
        let mut at = Some(last);
        while let Some(place) = at {
            let node = &nodes[place];
            way.push(node.hop)?;
            at = node.before;
        }
        Ok(way)
    }

    /// A way from the root to the bit, if it is reached.
    pub(crate) fn way_to(
        &self,
        alloc: Global,
        graph: &[Bundle<'a>],
        to: &BitOf<'a>,
    ) -> Result<Option<Vec<Hop<'a>>>, AllocError>
        requires { IsTree (hops_in graph.now) self.now }
        ensures { IfOk result (λ r. MatchOption r (is_marked self.now (bit to.now) ≡ false)
            (λ v. IsWay (hops_in graph.now) (bit self.now.root) v.items (bit to.now))) }
    {
        match self.places.get(to) {
            None => Ok(None),
            Some(place) => {
                let mut way = self.back(alloc, graph, *place)?;
                way.reverse();
                Ok(Some(way))
            }
        }
    }
}
