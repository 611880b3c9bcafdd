ghost use Rattle.std.specs.Prelude.{◌≡◌, ◌<◌, ◌≤◌, [], ◌∷◌, ◌++◌, length, count_by, Some, IfOk, OnOk, OnErr};
ghost use Rattle.std.specs.List.{slice_get};
ghost use Rattle.core_syntax.specs.Limit.{counted, node_limit};
ghost use Rattle.core_syntax.specs.Table.{finished, global_count, main_row as main_row_of, node_at, place_at};
ghost use Rattle.core_syntax.specs.WellFormed.{BehavioursBelow, CanFinish, ChildrenBelow, ChildrenFirst, FunctionsBelow, IsBelow, IsTurnAt, IsWellFormed};

use crate::behaviour::{Behaviour, Behaviours};
use crate::function::{Function, Functions};
use crate::node::Node;
use crate::node_id::NodeId;
use crate::number::as_number;
use crate::row::{Row, next_id};
use crate::step::Steps;
use std::alloc::AllocError;
use std::marker::Model;
use value_core::lists::add;
use value_core::{Place, Seq};

/// A program: its nodes with their places, its functions and behaviours, and its main. Children stand before parents,
/// and all that a node, a step, a function or a behaviour names is there.
#[derive(Drop)]
pub struct Program {
    rows: Seq<Row>,
    functions: Functions,
    written: u32,
    behaviours: Behaviours,
    main: NodeId,
    behaviour_count: u32,
    global_count: u32,
}

impl Model for Program {
    ghost use Rattle.std.specs.Prelude.{◌≡◌, length};
    ghost use Rattle.core_syntax.specs.Table.{Table, global_count};
    ghost use Rattle.core_syntax.specs.WellFormed.{IsWellFormed};

    ghost Value = { Table };

    ghost use Rattle.core_syntax.specs.Inside.{table_of, IsSound};

    ghost view = { table_of };

    ghost invariant = { IsSound };
}

impl Program {
    /// The program of these nodes, with a main of these steps behind them.
    pub(crate) fn assemble(
        mut rows: Seq<Row>,
        steps: Steps,
        functions: Functions,
        written: u32,
        behaviours: Behaviours,
    ) -> Result<Self, AllocError>
        requires children_first { ChildrenFirst rows }
        requires within { counted rows ≤ node_limit }
        requires can_finish { CanFinish rows steps functions written behaviours }
        ensures { IfOk result (λ program. program ≡ finished rows steps functions written behaviours) }
    {
        let Ok((main, behaviour_count, global_count)) = counts_of(&rows, &behaviours, &steps) else {
            drop((rows, steps, functions, behaviours));
            return Err(AllocError);
        };
        let row = main_row(steps);
        let Ok(()) = add(&mut rows, row) else {
            drop((rows, functions, behaviours));
            return Err(AllocError);
        };
        Ok(Program {
            rows,
            functions,
            written,
            behaviours,
            main,
            behaviour_count,
            global_count,
        })
    }

    /// The node of main, which is the last one.
    pub fn main(&self) -> NodeId
        ensures value { result ≡ self.now.main }
        ensures well_formed { IsWellFormed self.now }
    {
        self.main
    }

    /// The node with this id.
    pub fn node(&self, id: NodeId) -> &Node
        requires { id.index < length self.now.nodes }
        ensures value { node_at self.now.nodes id ≡ Some result.now }
        ensures children { ChildrenBelow id.index result.now }
        ensures functions { FunctionsBelow (length self.now.functions) result.now }
        ensures behaviours { BehavioursBelow (length self.now.behaviours) result.now }
    {
        &self.rows.items()[id.index as usize].node
    }

    /// The place of the node with this id. That of main is line 1, column 1.
    pub fn place(&self, id: NodeId) -> Place
        requires { id.index < length self.now.nodes }
        ensures { place_at self.now.nodes id ≡ Some result }
    {
        self.rows.items()[id.index as usize].at
    }

    /// The function with this number, from 0: those of the top level, and then those made of loops.
    pub fn function(&self, number: u32) -> &Function
        requires { number < length self.now.functions }
        ensures value { slice_get self.now.functions number ≡ Some result.now }
        ensures body { IsBelow (length self.now.nodes) result.now.body }
    {
        &self.functions.items()[number as usize]
    }

    /// The behaviour with this number, from 0.
    pub fn behaviour(&self, number: u32) -> &Behaviour
        requires { number < length self.now.behaviours }
        ensures value { slice_get self.now.behaviours number ≡ Some result.now }
        ensures body { IsTurnAt self.now.nodes result.now.body }
    {
        &self.behaviours.items()[number as usize]
    }

    /// How many functions the source writes at its top level. Those made of loops don't count.
    pub fn functions(&self) -> u32
        ensures value { result ≡ self.now.written }
        ensures there { result ≤ length self.now.functions }
    {
        self.written
    }

    /// How many behaviours there are.
    pub fn behaviours(&self) -> u32
        ensures { result ≡ length self.now.behaviours }
    {
        self.behaviour_count
    }

    /// How many globals there are: the steps of main that bind.
    pub fn globals(&self) -> u32
        ensures { result ≡ global_count self.now }
    {
        self.global_count
    }
}

// The node that comes behind these, how many behaviours there are, and how many steps bind.
fn counts_of(
    rows: &Seq<Row>,
    behaviours: &Behaviours,
    steps: &Steps,
) -> Result<(NodeId, u32, u32), AllocError>
    ensures main { IfOk result (λ n. n.0.index ≡ length rows.now) }
    ensures behaviours { IfOk result (λ n. n.1 ≡ length behaviours.now) }
    ensures globals { IfOk result (λ n. n.2 ≡ count_by (λ step. step.binds) steps.now) }
{
    let main = next_id(rows)?;
    let behaviour_count = as_number(behaviours.items().len())?;
    Ok((main, behaviour_count, binding_count(steps)?))
}

// How many steps bind.
fn binding_count(steps: &Steps) -> Result<u32, AllocError>
    ensures { IfOk result (λ number. number ≡ count_by (λ step. step.binds) steps.now) }
{
    as_number(steps.items().iter().filter(|step| step.binds).count())
}

// The node of main, at the beginning of the source.
fn main_row(steps: Steps) -> Row
    ensures { result ≡ main_row_of steps }
{
    Row {
        node: Node::Main(steps),
        at: Place::new(1, 1),
    }
}
