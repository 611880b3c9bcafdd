ghost use Rattle.std.specs.Prelude.{◌≡◌, ◌↔◌, [], ◌∷◌, ◌++◌, length, IfOk, OnErr};
ghost use Rattle.core_syntax.specs.Limit.{counted, node_limit};
ghost use Rattle.core_syntax.specs.Table.{finished};
ghost use Rattle.core_syntax.specs.WellFormed.{ChildrenBelow, CanFinish};

use crate::behaviour::Behaviours;
use crate::build_no::BuildNo;
use crate::function::Functions;
use crate::node::Node;
use crate::node_id::NodeId;
use crate::program::Program;
use crate::row::{Row, next_id};
use crate::step::Steps;
use std::alloc::{AllocError, Global};
use std::marker::Model;
use value_core::lists::add;
use value_core::{Place, Seq};

/// The most nodes that a table holds. `Main` doesn't count.
pub const NODE_LIMIT: u32 = 1_000_000;

/// A table of nodes that grows. Contracts see it as its nodes with their places, in their order.
#[derive(Drop)]
pub struct Builder {
    rows: Seq<Row>,
    counted: u32,
}

impl Model for Builder {
    ghost use Rattle.std.specs.Prelude.{List};
    ghost use Rattle.core_syntax.specs.declared.row.Row.{Row};
    ghost use Rattle.core_syntax.specs.WellFormed.{IsBuilt};

    ghost Value = { List Row };

    ghost view = { λ b. b.rows };

    ghost invariant = { λ b. IsBuilt b.rows b.counted };
}

impl Builder {
    /// The empty table. It takes no memory.
    pub fn new(alloc: Global) -> Self
        ensures { result ≡ [] }
    {
        Builder {
            rows: Seq::new(alloc),
            counted: 0,
        }
    }

    /// Appends the node with its place, and gives its id. The table stays as it is after a refusal, which is
    /// `TooManyNodes` exactly where it holds `NODE_LIMIT` nodes.
    pub fn push(&mut self, node: Node, at: Place) -> Result<NodeId, BuildNo>
        requires { ChildrenBelow (length self.old) node }
        ensures pushed { IfOk result (λ id. self.new ≡ self.old ++ record { node = node; at = at } ∷ []) }
        ensures id { IfOk result (λ id. id.index ≡ length self.old) }
        ensures too_many { (result ≡ Err BuildNo.TooManyNodes) ↔ (counted self.old ≡ node_limit) }
        ensures refused { OnErr result (self.new ≡ self.old) }
    {
        if self.counted == NODE_LIMIT {
            drop(node);
            return Err(BuildNo::TooManyNodes);
        }
        let Ok(id) = next_id(&self.rows) else {
            drop(node);
            return Err(BuildNo::Memory);
        };
        let more = u32::from(node.counts());
        add(&mut self.rows, Row { node, at })?;
        self.counted += more;
        Ok(id)
    }

    /// The program of these nodes, with a main of these steps behind them. The first `written` functions are those that
    /// the source writes at its top level.
    pub fn finish(
        self,
        steps: Steps,
        functions: Functions,
        written: u32,
        behaviours: Behaviours,
    ) -> Result<Program, AllocError>
        requires { CanFinish self steps functions written behaviours }
        ensures { IfOk result (λ program. program ≡ finished self steps functions written behaviours) }
    {
        Program::assemble(self.rows, steps, functions, written, behaviours)
    }
}
