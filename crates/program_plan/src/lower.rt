ghost use Rattle.std.specs.Prelude.{◌≡◌, ◌+◌, ◌<◌, ◌≤◌, [], ◌∷◌, ◌++◌, None, Some, length, count_by, if◌then◌else◌, IfOk, IfErr};
ghost use Rattle.std.specs.List.{range_with_len};
ghost use Rattle.core_syntax.specs.declared.build_no.BuildNo.TheVariants.{TooManyNodes};
ghost use Rattle.core_syntax.specs.Limit.{node_limit};
ghost use Rattle.core_syntax.specs.WellFormed.{IsBelow, IsTurnAt};
ghost use Rattle.resolved_forms.specs.declared.top.TopKind.TheVariants.{Function as Defined, Behaviour as Reacts};
ghost use Rattle.program_plan.specs.Emitted.{emitted};
ghost use Rattle.program_plan.specs.Frame.{LayoutRises, frame_of, hidden_at, hidden_count};
ghost use Rattle.program_plan.specs.Lowered.{RefusedAs, behaviour_making, first_past, main_frame, no_parts, program_of, program_of_parts, top_making, with_root, with_step, with_top};
ghost use Rattle.program_plan.specs.Made.{answered, extended};

use crate::emitter::Emitter;
use crate::frame::{Frame, count_hidden, hidden_at};
use core_syntax::{
    Behaviour, Behaviours, BuildNo, Function, Functions, NodeId, Program, Step, Steps, as_number,
    sum_of,
};
use plan_errors::{PlanNo, plan_no};
use resolved_forms::{Expr, Layout, Reacting, Top, TopForms, TopKind};
use std::alloc::{AllocError, Global};
use std::marker::Model;
use value_core::lists::add;
use value_core::{Place, Seq};

/// The program of the top-level forms.
///
/// It is refused with `TooManyNodes`, at the first form up to and with which the nodes are too many, and for want of
/// memory.
pub(crate) fn lower(alloc: Global, tops: &TopForms, layout: &Layout) -> Result<Program, PlanNo>
    requires { LayoutRises layout.now }
    ensures program { IfOk result (λ program. program ≡ program_of layout.now tops.now) }
    ensures within { IfOk result (λ _. first_past layout.now tops.now ≡ None) }
    ensures refused { IfErr result (RefusedAs (λ at. first_past layout.now tops.now ≡ Some at)) }
{
    let mut lowering = Lowering::new(alloc);
    for top in tops.items() {
        lowering = lowering.take(alloc, layout, top)?;
    }
    Ok(lowering.finish()?)
}

/// What is made of the first top-level forms.
#[derive(Drop)]
struct Lowering {
    emitter: Emitter,
    globals: Seq<u32>,
    functions: Functions,
    behaviours: Behaviours,
    steps: Steps,
}

impl Model for Lowering {
    ghost use Rattle.program_plan.specs.Lowered.{Parts};
    ghost use Rattle.program_plan.specs.Sound.{IsLowered};

    ghost Value = { Parts };

    ghost view = { λ l. record { draft = l.emitter; functions = l.functions; behaviours = l.behaviours; steps = l.steps } };

    ghost invariant = { λ l. IsLowered l.emitter.rows l.globals l.functions l.behaviours l.steps };
}

impl Lowering {
    fn new(alloc: Global) -> Self
        ensures { result ≡ no_parts }
    {
        Lowering {
            emitter: Emitter::new(alloc),
            globals: Seq::new(alloc),
            functions: Seq::new(alloc),
            behaviours: Seq::new(alloc),
            steps: Seq::new(alloc),
        }
    }

    /// With the next form.
    fn take(self, alloc: Global, layout: &Layout, top: &Top) -> Result<Self, PlanNo>
        requires { LayoutRises layout.now }
        ensures taken { IfOk result (λ new. new ≡ with_top layout.now self top.now) }
        ensures within { IfOk result (λ new. length new.draft.rows ≤ node_limit) }
        ensures past { IfErr result (RefusedAs (λ at. (at ≡ top.now.at) × (node_limit < length (with_top layout.now self top.now).draft.rows))) }
    {
        match self.take_kind(alloc, layout, top) {
            Ok(lowering) => {
                lowering.emitter.fits();
                Ok(lowering)
            }
            Err(refusal) => Err(plan_no(refusal, top.at)),
        }
    }

    fn take_kind(self, alloc: Global, layout: &Layout, top: &Top) -> Result<Self, BuildNo>
        requires { LayoutRises layout.now }
        ensures taken { IfOk result (λ new. new ≡ with_top layout.now self top.now) }
        ensures past { IfErr result (λ refusal. refusal ≡ TooManyNodes → node_limit < length (with_top layout.now self top.now).draft.rows) }
    {
        match &top.kind {
            TopKind::Global(expr) => self.take_step(alloc, layout, expr, true),
            TopKind::Value(expr) => self.take_step(alloc, layout, expr, false),
            TopKind::Function(params, body) => {
                self.take_function(alloc, layout, top.at, *params, body)
            }
            TopKind::Behaviour(head, body) => self.take_behaviour(alloc, layout, *head, body),
        }
    }

    fn take_step(
        mut self,
        alloc: Global,
        layout: &Layout,
        expr: &Expr,
        binds: bool,
    ) -> Result<Self, BuildNo>
        requires { LayoutRises layout.now }
        ensures taken { let making = emitted expr.now (main_frame layout.now self.steps) in IfOk result (λ new. new ≡ with_step self (extended making self.draft) (answered making self.draft) binds) }
        ensures past { let making = emitted expr.now (main_frame layout.now self.steps) in IfErr result (λ refusal. refusal ≡ TooManyNodes → node_limit < length (extended making self.draft).rows) }
    {
        add_step(
            alloc,
            layout,
            &mut self.emitter,
            &mut self.globals,
            &mut self.steps,
            expr,
            binds,
        )?;
        Ok(self)
    }

    fn take_function(
        mut self,
        alloc: Global,
        layout: &Layout,
        at: Place,
        params: u32,
        expr: &Expr,
    ) -> Result<Self, BuildNo>
        requires { LayoutRises layout.now }
        ensures taken { let kind = Defined params expr.now in let making = top_making layout.now self kind in IfOk result (λ new. new ≡ with_root layout.now at kind self (extended making self.draft) (answered making self.draft)) }
        ensures past { let making = top_making layout.now self (Defined params expr.now) in IfErr result (λ refusal. refusal ≡ TooManyNodes → node_limit < length (extended making self.draft).rows) }
    {
        add_function(
            alloc,
            layout,
            &mut self.emitter,
            &mut self.functions,
            at,
            params,
            expr,
        )?;
        Ok(self)
    }

    fn take_behaviour(
        mut self,
        alloc: Global,
        layout: &Layout,
        head: Reacting,
        expr: &Expr,
    ) -> Result<Self, BuildNo>
        requires { LayoutRises layout.now }
        ensures taken { let kind = Reacts head expr.now in let making = top_making layout.now self kind in IfOk result (λ new. new ≡ with_root layout.now head.at kind self (extended making self.draft) (answered making self.draft)) }
        ensures past { let making = top_making layout.now self (Reacts head expr.now) in IfErr result (λ refusal. refusal ≡ TooManyNodes → node_limit < length (extended making self.draft).rows) }
    {
        add_behaviour(
            alloc,
            layout,
            &mut self.emitter,
            &mut self.behaviours,
            head,
            expr,
        )?;
        Ok(self)
    }

    /// The program.
    fn finish(self) -> Result<Program, AllocError>
        ensures { IfOk result (λ program. program ≡ program_of_parts self) }
    {
        self.emitter
            .finish(self.steps, self.functions, self.behaviours)
    }
}

// Adds the step of main that evaluates the expression, and gives its root. A step that binds has the next global's number.
fn add_step(
    alloc: Global,
    layout: &Layout,
    emitter: &mut Emitter,
    globals: &mut Seq<u32>,
    steps: &mut Steps,
    expr: &Expr,
    binds: bool,
) -> Result<NodeId, BuildNo>
    requires layout { LayoutRises layout.now }
    requires globals { globals.old ≡ range_with_len 0 (count_by (λ step. step.binds) steps.old) }
    ensures made { let making = emitted expr.now (main_frame layout.now steps.old) in IfOk result (λ id. (emitter.new ≡ extended making emitter.old) × (id ≡ answered making emitter.old)) }
    ensures past { let making = emitted expr.now (main_frame layout.now steps.old) in IfErr result (λ refusal. refusal ≡ TooManyNodes → node_limit < length (extended making emitter.old).rows) }
    ensures below { IfOk result (λ id. IsBelow (length emitter.new.rows) id) }
    ensures globals { IfOk result (λ _. globals.new ≡ (if binds then globals.old ++ length globals.old ∷ [] else globals.old)) }
    ensures steps { IfOk result (λ id. steps.new ≡ steps.old ++ record { node = id; binds = binds } ∷ []) }
{
    let frame = Frame::main(layout, globals.items());
    let node = emitter.emit(alloc, &frame, expr)?;
    add(steps, Step { node, binds })?;
    number_next(globals, binds)?;
    Ok(node)
}

// Adds the function with that body, and gives the root of the body.
fn add_function(
    alloc: Global,
    layout: &Layout,
    emitter: &mut Emitter,
    functions: &mut Functions,
    at: Place,
    params: u32,
    expr: &Expr,
) -> Result<NodeId, BuildNo>
    requires { LayoutRises layout.now }
    ensures made { let hidden = hidden_at layout.now.functions (length functions.old) in let making = emitted expr.now (frame_of layout.now hidden 0) in IfOk result (λ id. (emitter.new ≡ extended making emitter.old) × (id ≡ answered making emitter.old)) }
    ensures past { let hidden = hidden_at layout.now.functions (length functions.old) in let making = emitted expr.now (frame_of layout.now hidden 0) in IfErr result (λ refusal. refusal ≡ TooManyNodes → node_limit < length (extended making emitter.old).rows) }
    ensures below { IfOk result (λ id. IsBelow (length emitter.new.rows) id) }
    ensures functions { let hidden = hidden_at layout.now.functions (length functions.old) in IfOk result (λ id. functions.new ≡ functions.old ++ record { at = at; takes = hidden_count hidden + params; body = id } ∷ []) }
{
    let number = as_number(functions.items().len())?;
    let hidden = hidden_at(&layout.functions, number)?;
    let takes = sum_of(count_hidden(hidden)?, params)?;
    let frame = Frame::of_body(layout, hidden, 0);
    let body = emitter.emit(alloc, &frame, expr)?;
    add(functions, Function { at, takes, body })?;
    Ok(body)
}

// Adds the behaviour with that body, and gives the turn round the body.
fn add_behaviour(
    alloc: Global,
    layout: &Layout,
    emitter: &mut Emitter,
    behaviours: &mut Behaviours,
    head: Reacting,
    expr: &Expr,
) -> Result<NodeId, BuildNo>
    requires { LayoutRises layout.now }
    ensures made { let making = behaviour_making layout.now (length behaviours.old) head expr.now in IfOk result (λ id. (emitter.new ≡ extended making emitter.old) × (id ≡ answered making emitter.old)) }
    ensures past { let making = behaviour_making layout.now (length behaviours.old) head expr.now in IfErr result (λ refusal. refusal ≡ TooManyNodes → node_limit < length (extended making emitter.old).rows) }
    ensures turn { IfOk result (λ id. IsTurnAt emitter.new.rows id) }
    ensures behaviours { let hidden = hidden_at layout.now.behaviours (length behaviours.old) in IfOk result (λ id. behaviours.new ≡ behaviours.old ++ record { at = head.at; hidden = hidden_count hidden; state = head.state; message = head.message; body = id } ∷ []) }
{
    let number = as_number(behaviours.items().len())?;
    let hidden = hidden_at(&layout.behaviours, number)?;
    let count = count_hidden(hidden)?;
    let takes = sum_of(sum_of(count, head.state)?, head.message)?;
    let frame = Frame::of_body(layout, hidden, 0);
    let body = emitter.emit_turn(alloc, &frame, head.at, takes, expr)?;
    let behaviour = Behaviour {
        at: head.at,
        hidden: count,
        state: head.state,
        message: head.message,
        body,
    };
    add(behaviours, behaviour)?;
    Ok(body)
}

// Adds the number of the next global, where one is bound.
fn number_next(globals: &mut Seq<u32>, binds: bool) -> Result<(), AllocError>
    ensures { IfOk result (λ _. globals.new ≡ (if binds then globals.old ++ length globals.old ∷ [] else globals.old)) }
{
    if !binds {
        return Ok(());
    }
    let number = as_number(globals.items().len())?;
    add(globals, number)
}
