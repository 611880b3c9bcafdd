ghost use Rattle.std.specs.Prelude.{◌≡◌, ◌≤◌, ◌+◌, [], ◌∷◌, ◌++◌, map, length, All, IfOk};
ghost use Rattle.core_syntax.specs.WellFormed.{IsBelow};
ghost use Rattle.program_plan.specs.Emitted.{emitted, each, by_last, let_of, cond_of, loop_of};
ghost use Rattle.program_plan.specs.Chains.{chain_of, chain_part, PartBelow};
ghost use Rattle.program_plan.specs.Made.{Makes, node as node_of, followed, gathered};
ghost use Rattle.program_plan.specs.Applied.{applied as applied_of};
ghost use Rattle.core_syntax.specs.declared.node.Node.TheVariants.{Nil};

use crate::apply::applied;
use crate::chain::{Chain, ChainPart};
use crate::emitter::Emitter;
use crate::end_loop::loop_function;
use crate::frame::Frame;
use core_syntax::{BuildNo, Node, NodeId, NodeIds};
use resolved_forms::{Expr, ExprKind, Head, Looping, number_after};
use std::alloc::Global;
use value_core::lists::add;
use value_core::{Place, Seq};

impl Emitter {
    /// Appends the nodes of the expression in the frame, and gives the id of its root.
    #[cycle(emit)]
    pub fn emit(&mut self, alloc: Global, frame: &Frame, expr: &Expr) -> Result<NodeId, BuildNo>
        ensures makes { Makes (emitted expr.now frame.now) self.old result self.new }
        ensures below { IfOk result (λ id. IsBelow (length self.new.rows) id) }
        ensures kept { length self.old.rows ≤ length self.new.rows }
    {
        let at = expr.at;
        match &expr.kind {
            ExprKind::Nil => self.push(at, Node::Nil),
            ExprKind::Bool(value) => self.push(at, Node::Bool(*value)),
            ExprKind::Int(value) => self.push(at, Node::Int(*value)),
            ExprKind::Str(text) => self.push_str(alloc, at, text),
            ExprKind::Kw(name) => self.push_kw(alloc, at, name),
            ExprKind::Local(level) => self.push_local(at, frame, *level),
            ExprKind::Global(number) => self.push_global(at, frame, *number),
            ExprKind::Apply(head, parts) => self.emit_apply(alloc, frame, at, *head, parts.items()),
            ExprKind::Let(parts) => self.emit_let(alloc, frame, at, parts.items()),
            ExprKind::Cond(parts) => self.emit_cond(alloc, frame, at, parts.items()),
            ExprKind::And(level, parts) => {
                self.emit_chain(alloc, frame, at, Chain::And, *level, parts.items())
            }
            ExprKind::Or(level, parts) => {
                self.emit_chain(alloc, frame, at, Chain::Or, *level, parts.items())
            }
            ExprKind::Loop(looping, parts) => {
                self.emit_loop(alloc, frame, at, looping, parts.items())
            }
        }
    }

    /// Appends the nodes of the parts, one part after another, and gives the ids of their roots.
    #[cycle(emit)]
    pub fn emit_each(
        &mut self,
        alloc: Global,
        frame: &Frame,
        parts: &[Expr],
    ) -> Result<NodeIds, BuildNo>
        ensures makes { Makes (each frame.now (map emitted parts.now)) self.old result self.new }
        ensures below { IfOk result (λ ids. All (IsBelow (length self.new.rows)) ids) }
        ensures kept { length self.old.rows ≤ length self.new.rows }
    {
        let mut ids = Seq::new(alloc);
        for part in parts {
            let id = self.emit(alloc, frame, part)?;
            add(&mut ids, id)?;
        }
        Ok(ids)
    }

    #[cycle(emit)]
    fn emit_apply(
        &mut self,
        alloc: Global,
        frame: &Frame,
        at: Place,
        head: Head,
        parts: &[Expr],
    ) -> Result<NodeId, BuildNo>
        ensures makes { Makes (followed (each frame.now (map emitted parts.now)) (λ ids. node_of at (applied_of frame.now head ids))) self.old result self.new }
        ensures below { IfOk result (λ id. IsBelow (length self.new.rows) id) }
        ensures kept { length self.old.rows ≤ length self.new.rows }
    {
        let ids = self.emit_each(alloc, frame, parts)?;
        let node = applied(alloc, frame, head, ids)?;
        self.push(at, node)
    }

    #[cycle(emit)]
    fn emit_let(
        &mut self,
        alloc: Global,
        frame: &Frame,
        at: Place,
        parts: &[Expr],
    ) -> Result<NodeId, BuildNo>
        ensures makes { Makes (by_last (node_of at Nil) (let_of at frame.now) (map emitted parts.now)) self.old result self.new }
        ensures below { IfOk result (λ id. IsBelow (length self.new.rows) id) }
        ensures kept { length self.old.rows ≤ length self.new.rows }
    {
        let [bound @ .., body] = parts else {
            return self.push(at, Node::Nil);
        };
        let ids = self.emit_each(alloc, frame, bound)?;
        let id = self.emit(alloc, frame, body)?;
        self.push(at, Node::Let(ids, id))
    }

    #[cycle(emit)]
    fn emit_cond(
        &mut self,
        alloc: Global,
        frame: &Frame,
        at: Place,
        parts: &[Expr],
    ) -> Result<NodeId, BuildNo>
        ensures makes { Makes (cond_of at frame.now (map emitted parts.now)) self.old result self.new }
        ensures below { IfOk result (λ id. IsBelow (length self.new.rows) id) }
        ensures kept { length self.old.rows ≤ length self.new.rows }
    {
        let ids = self.emit_each(alloc, frame, parts)?;
        let last = self.push(at, Node::Nil)?;
        self.close_cond(at, ids.items(), last)
    }

    #[cycle(emit)]
    fn emit_chain(
        &mut self,
        alloc: Global,
        frame: &Frame,
        at: Place,
        kind: Chain,
        level: u32,
        parts: &[Expr],
    ) -> Result<NodeId, BuildNo>
        ensures makes { Makes (chain_of kind at frame.now level (map emitted parts.now)) self.old result self.new }
        ensures below { IfOk result (λ id. IsBelow (length self.new.rows) id) }
        ensures kept { length self.old.rows ≤ length self.new.rows }
    {
        let [front @ .., last] = parts else {
            return match kind {
                Chain::And => self.push(at, Node::Bool(true)),
                Chain::Or => self.push(at, Node::Nil),
            };
        };
        let tested = self.emit_chain_parts(alloc, frame, at, kind, level, front)?;
        let rest = self.emit(alloc, frame, last)?;
        self.close_chain(alloc, frame, at, level, tested.items(), rest)
    }

    // Appends each part of a chain before the last, and the locals that test it and give it.
    #[cycle(emit)]
    fn emit_chain_parts(
        &mut self,
        alloc: Global,
        frame: &Frame,
        at: Place,
        kind: Chain,
        level: u32,
        parts: &[Expr],
    ) -> Result<Seq<ChainPart>, BuildNo>
        ensures makes { Makes (gathered (chain_part kind at frame.now) level [] (map emitted parts.now)) self.old result self.new }
        ensures below { IfOk result (λ tested. All (PartBelow (length self.new.rows)) tested) }
        ensures kept { length self.old.rows ≤ length self.new.rows }
    {
        let mut tested = Seq::new(alloc);
        for (index, part) in parts.iter().enumerate() {
            let part = self.emit_part_after(alloc, frame, at, kind, level, index, part)?;
            add(&mut tested, part)?;
        }
        Ok(tested)
    }

    // Appends the part of a chain that stands behind so many others.
    #[cycle(emit)]
    fn emit_part_after(
        &mut self,
        alloc: Global,
        frame: &Frame,
        at: Place,
        kind: Chain,
        level: u32,
        index: usize,
        part: &Expr,
    ) -> Result<ChainPart, BuildNo>
        ensures makes { Makes (chain_part kind at frame.now (level + index) (emitted part.now)) self.old result self.new }
        ensures below { IfOk result (λ tested. PartBelow (length self.new.rows) tested) }
        ensures kept { length self.old.rows ≤ length self.new.rows }
    {
        let level = number_after(level, index)?;
        self.emit_chain_part(alloc, frame, at, kind, level, part)
    }

    #[cycle(emit)]
    fn emit_chain_part(
        &mut self,
        alloc: Global,
        frame: &Frame,
        at: Place,
        kind: Chain,
        level: u32,
        part: &Expr,
    ) -> Result<ChainPart, BuildNo>
        ensures makes { Makes (chain_part kind at frame.now level (emitted part.now)) self.old result self.new }
        ensures below { IfOk result (λ tested. PartBelow (length self.new.rows) tested) }
        ensures kept { length self.old.rows ≤ length self.new.rows }
    {
        let value = self.emit(alloc, frame, part)?;
        let test = self.push_local(at, frame, level)?;
        match kind {
            Chain::And => Ok(ChainPart::And { value, test }),
            Chain::Or => {
                let again = self.push_local(at, frame, level)?;
                Ok(ChainPart::Or { value, test, again })
            }
        }
    }

    #[cycle(emit)]
    fn emit_loop(
        &mut self,
        alloc: Global,
        frame: &Frame,
        at: Place,
        looping: &Looping,
        parts: &[Expr],
    ) -> Result<NodeId, BuildNo>
        ensures makes { Makes (by_last (node_of at Nil) (loop_of at frame.now looping.now) (map emitted parts.now)) self.old result self.new }
        ensures below { IfOk result (λ id. IsBelow (length self.new.rows) id) }
        ensures kept { length self.old.rows ≤ length self.new.rows }
    {
        let [initial @ .., body] = parts else {
            return self.push(at, Node::Nil);
        };
        let index = self.loops();
        let inner = frame.of_loop(looping.number, looping.base)?;
        let values = self.emit_each(alloc, frame, initial)?;
        let root = self.emit(alloc, &inner, body)?;
        let function = loop_function(frame, at, looping, root)?;
        self.insert_loop(index, function)?;
        self.end_loop(alloc, frame, at, looping, values)
    }
}
