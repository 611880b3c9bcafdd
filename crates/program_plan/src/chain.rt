ghost use Rattle.std.specs.Prelude.{◌≡◌, ◌+◌, ◌≤◌, length, All, IfOk};
ghost use Rattle.core_syntax.specs.WellFormed.{IsBelow};
ghost use Rattle.program_plan.specs.Chains.{cond_closed, closed, chain_node, choice_of, PartBelow};
ghost use Rattle.program_plan.specs.Made.{Makes};

use crate::emitter::Emitter;
use crate::frame::Frame;
use core_syntax::{BuildNo, Node, NodeId};
use resolved_forms::number_after;
use std::alloc::Global;
use value_core::{Place, Seq};

/// What a chain of parts is.
#[derive(Clone, Copy)]
pub(crate) enum Chain {
    And,
    Or,
}

/// A part of a chain before the last: its value, the local that tests it, and in an `or` the local that gives it.
#[derive(Clone, Copy)]
pub(crate) enum ChainPart {
    And {
        value: NodeId,
        test: NodeId,
    },
    Or {
        value: NodeId,
        test: NodeId,
        again: NodeId,
    },
}

impl Emitter {
    /// Appends the ifs of a `cond` over its tests and results, from the last to the first, round the last expression.
    pub fn close_cond(&mut self, at: Place, ids: &[NodeId], last: NodeId) -> Result<NodeId, BuildNo>
        requires ids { All (IsBelow (length self.old.rows)) ids.now }
        requires last { IsBelow (length self.old.rows) last }
        ensures makes { Makes (cond_closed at ids.now last) self.old result self.new }
        ensures below { IfOk result (λ id. IsBelow (length self.new.rows) id) }
        ensures kept { length self.old.rows ≤ length self.new.rows }
    {
        let mut others = last;
        let mut left = ids.len() / 2;
        'pairs: while left > 0 {
            left -= 1;
            others = self.push(at, Node::If(ids[2 * left], ids[2 * left + 1], others))?;
        }
        Ok(others)
    }

    /// Appends the lets of a chain over its parts, from the last to the first, round its last part.
    pub fn close_chain(
        &mut self,
        alloc: Global,
        frame: &Frame,
        at: Place,
        level: u32,
        parts: &[ChainPart],
        last: NodeId,
    ) -> Result<NodeId, BuildNo>
        requires parts { All (PartBelow (length self.old.rows)) parts.now }
        requires last { IsBelow (length self.old.rows) last }
        ensures makes { Makes (closed (chain_node at frame.now) level parts.now last) self.old result self.new }
        ensures below { IfOk result (λ id. IsBelow (length self.new.rows) id) }
        ensures kept { length self.old.rows ≤ length self.new.rows }
    {
        let mut rest = last;
        let mut left = parts.len();
        'parts: while left > 0 {
            left -= 1;
            let level = number_after(level, left)?;
            rest = self.push_chain_node(alloc, frame, at, level, parts[left], rest)?;
        }
        Ok(rest)
    }

    fn push_chain_node(
        &mut self,
        alloc: Global,
        frame: &Frame,
        at: Place,
        level: u32,
        part: ChainPart,
        rest: NodeId,
    ) -> Result<NodeId, BuildNo>
        requires part { PartBelow (length self.old.rows) part }
        requires rest { IsBelow (length self.old.rows) rest }
        ensures makes { Makes (chain_node at frame.now level part rest) self.old result self.new }
        ensures below { IfOk result (λ id. IsBelow (length self.new.rows) id) }
        ensures kept { length self.old.rows ≤ length self.new.rows }
    {
        match part {
            ChainPart::And { value, test } => {
                let again = self.push_local(at, frame, level)?;
                self.push_choice(alloc, at, value, test, rest, again)
            }
            ChainPart::Or { value, test, again } => {
                self.push_choice(alloc, at, value, test, again, rest)
            }
        }
    }

    // Appends an if of a test and two branches, and the let that binds the value round it.
    fn push_choice(
        &mut self,
        alloc: Global,
        at: Place,
        value: NodeId,
        test: NodeId,
        taken: NodeId,
        other: NodeId,
    ) -> Result<NodeId, BuildNo>
        requires value { IsBelow (length self.old.rows) value }
        requires test { IsBelow (length self.old.rows) test }
        requires taken { IsBelow (length self.old.rows) taken }
        requires other { IsBelow (length self.old.rows) other }
        ensures makes { Makes (choice_of at value test taken other) self.old result self.new }
        ensures below { IfOk result (λ id. IsBelow (length self.new.rows) id) }
        ensures kept { length self.old.rows ≤ length self.new.rows }
    {
        let choice = self.push(at, Node::If(test, taken, other))?;
        let bound = Seq::from_slice(alloc, [value].as_slice())?;
        self.push(at, Node::Let(bound, choice))
    }
}
