ghost use Rattle.std.specs.Prelude.{◌≡◌, ◌≤◌, [], ◌++◌, length, insert, true, All, IfOk, OnOk};
ghost use Rattle.core_syntax.specs.Table.{finished};
ghost use Rattle.core_syntax.specs.Limit.{counts, node_limit};
ghost use Rattle.core_syntax.specs.WellFormed.{IsBelow, IsTurnAt, ChildrenBelow, FunctionsBelow, BehavioursBelow};
ghost use Rattle.core_syntax.specs.declared.node.Node.TheVariants.{Kw, Local, Str};
ghost use Rattle.program_plan.specs.Emitted.{local as local_of};
ghost use Rattle.program_plan.specs.Frame.{global_place};
ghost use Rattle.program_plan.specs.Made.{Makes, node as node_of};

use crate::frame::Frame;
use core_syntax::{
    Behaviours, BuildNo, Builder, Function, Functions, Node, NodeId, Program, Steps, as_number,
};
use std::alloc::{AllocError, Global};
use std::marker::Model;
use value_core::{Place, Text};

/// A table of nodes that grows, and the functions of the loops in it.
#[derive(Drop)]
pub(crate) struct Emitter {
    builder: Builder,
    loops: Vec<Function>,
    /// All functions and behaviours that a node names are among so many first ones.
    functions: u64,
    behaviours: u64,
}

impl Model for Emitter {
    ghost use Rattle.program_plan.specs.Emitted.{local as local_of};
    ghost use Rattle.program_plan.specs.Made.{Draft};
    ghost use Rattle.program_plan.specs.Sound.{IsSound};

    ghost Value = { Draft };

    ghost view = { λ e. record { rows = e.builder; loops = e.loops.items } };

    ghost invariant = { λ e. IsSound e.builder e.loops.items e.functions e.behaviours };
}

impl Emitter {
    /// The empty table. It takes no memory.
    pub fn new(alloc: Global) -> Self
        ensures { result ≡ record { rows = []; loops = [] } }
    {
        Emitter {
            builder: Builder::new(alloc),
            loops: Vec::new(alloc),
            functions: 0,
            behaviours: 0,
        }
    }

    /// Appends the node with its place.
    pub fn push(&mut self, at: Place, node: Node) -> Result<NodeId, BuildNo>
        requires children { ChildrenBelow (length self.old.rows) node }
        requires counts { counts node ≡ true }
        ensures makes { Makes (node_of at node) self.old result self.new }
        ensures below { IfOk result (λ id. IsBelow (length self.new.rows) id) }
        ensures kept { length self.old.rows ≤ length self.new.rows }
    {
        let functions = self.functions.max(functions_named(&node));
        let behaviours = self.behaviours.max(behaviours_named(&node));
        let id = self.builder.push(node, at)?;
        self.functions = functions;
        self.behaviours = behaviours;
        Ok(id)
    }

    /// Appends the local of that level.
    pub fn push_local(&mut self, at: Place, frame: &Frame, level: u32) -> Result<NodeId, BuildNo>
        ensures makes { Makes (local_of at level frame.now) self.old result self.new }
        ensures below { IfOk result (λ id. IsBelow (length self.new.rows) id) }
        ensures kept { length self.old.rows ≤ length self.new.rows }
    {
        let place = frame.local_place(level)?;
        self.push(at, Node::Local(place))
    }

    /// Appends the global with that number.
    pub fn push_global(&mut self, at: Place, frame: &Frame, number: u32) -> Result<NodeId, BuildNo>
        ensures makes { Makes (node_of at (Local (global_place frame.now number))) self.old result self.new }
        ensures below { IfOk result (λ id. IsBelow (length self.new.rows) id) }
        ensures kept { length self.old.rows ≤ length self.new.rows }
    {
        let place = frame.global_place(number)?;
        self.push(at, Node::Local(place))
    }

    /// Appends a copy of the string.
    pub fn push_str(&mut self, alloc: Global, at: Place, text: &Text) -> Result<NodeId, BuildNo>
        ensures makes { Makes (node_of at (Str text.now)) self.old result self.new }
        ensures below { IfOk result (λ id. IsBelow (length self.new.rows) id) }
        ensures kept { length self.old.rows ≤ length self.new.rows }
    {
        let copied = text.copy(alloc)?;
        self.push(at, Node::Str(copied))
    }

    /// Appends a copy of the keyword.
    pub fn push_kw(&mut self, alloc: Global, at: Place, name: &Text) -> Result<NodeId, BuildNo>
        ensures makes { Makes (node_of at (Kw name.now)) self.old result self.new }
        ensures below { IfOk result (λ id. IsBelow (length self.new.rows) id) }
        ensures kept { length self.old.rows ≤ length self.new.rows }
    {
        let copied = name.copy(alloc)?;
        self.push(at, Node::Kw(copied))
    }

    /// How many loops there are.
    pub fn loops(&self) -> usize
        ensures { result ≡ length self.now.loops }
    {
        self.loops.len()
    }

    /// Puts the function of a loop in front of those that begin in it.
    pub fn insert_loop(&mut self, index: usize, function: Function) -> Result<(), AllocError>
        requires index { index ≤ length self.old.loops }
        requires body { IsBelow (length self.old.rows) function.body }
        ensures inserted { OnOk result (self.new ≡ record { rows = self.old.rows; loops = insert self.old.loops index function }) }
        ensures kept { self.new.rows ≡ self.old.rows }
    {
        self.loops.insert(index, function).map_err(|_| AllocError)
    }

    /// The nodes are never more than may be.
    pub fn fits(&self)
        ensures { length self.now.rows ≤ node_limit }
    {
        let _ = &self.builder;
    }

    /// The program of these nodes, with a main of these steps. Its functions are those of the top level, and then those
    /// of loops. A node that names a function or behaviour that is not there counts as want of memory.
    pub fn finish(
        self,
        steps: Steps,
        functions: Functions,
        behaviours: Behaviours,
    ) -> Result<Program, AllocError>
        requires steps { All (λ step. IsBelow (length self.rows) step.node) steps }
        requires bodies { All (λ function. IsBelow (length self.rows) function.body) functions }
        requires turns { All (λ behaviour. IsTurnAt self.rows behaviour.body) behaviours }
        ensures { IfOk result (λ program. program ≡ finished self.rows steps (functions ++ self.loops) (length functions) behaviours) }
    {
        let Ok((all, written)) = joined(functions, self.loops.as_slice()) else {
            drop((self, steps, behaviours));
            return Err(AllocError);
        };
        if self.functions > all.items().len() as u64
            || self.behaviours > behaviours.items().len() as u64
        {
            drop((self, steps, all, behaviours));
            return Err(AllocError);
        }
        self.builder.finish(steps, all, written, behaviours)
    }
}

// The functions with those of loops behind them, and how many there were.
fn joined(mut functions: Functions, loops: &[Function]) -> Result<(Functions, u32), AllocError>
    ensures { IfOk result (λ joined. (joined.0 ≡ functions ++ loops.now) × (joined.1 ≡ length functions)) }
{
    let written = as_number(functions.items().len())?;
    functions.extend(loops)?;
    Ok((functions, written))
}

// All functions that the node names are among so many first ones.
fn functions_named(node: &Node) -> u64
    ensures { FunctionsBelow result node.now }
{
    match node {
        Node::Call(number, _, _) => u64::from(*number) + 1,
        _ => 0,
    }
}

fn behaviours_named(node: &Node) -> u64
    ensures { BehavioursBelow result node.now }
{
    match node {
        Node::Spawn(number, _, _) | Node::Become(number, _, _) => u64::from(*number) + 1,
        _ => 0,
    }
}
