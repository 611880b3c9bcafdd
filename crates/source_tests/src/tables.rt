ghost use Rattle.std.specs.Prelude.{◌≡◌, ◌<◌, ◌≤◌, [], ◌∷◌, length, All, IfOk};
ghost use Rattle.core_syntax.specs.WellFormed.{BehavioursBelow, FunctionsBelow, IsTurnAt};

use core_syntax::{Behaviour, BuildNo, Builder, Function, Node, NodeId, NodeIds, Program, Step};
use std::alloc::{AllocError, Global};
use std::test::Fail;
use value_core::{Place, Seq};

fn at(column: u32) -> Place
    requires { 1 ≤ column }
    ensures column { result.column ≡ column }
    ensures line { result.line ≡ 1 }
{
    Place::new(1, column)
}

fn one(alloc: Global, id: NodeId) -> Result<NodeIds, AllocError>
    ensures { IfOk result (λ ids. ids ≡ id ∷ []) }
{
    Seq::from_slice(alloc, [id].as_slice())
}

// The nodes of the sample: 7, the body of f, the turn of b, and the two expressions.
fn push_nodes(alloc: Global, builder: &mut Builder) -> Result<(), BuildNo>
    requires { builder.old ≡ [] }
    ensures all { IfOk result (λ _. 4 < length builder.new) }
    ensures turn { IfOk result (λ _. IsTurnAt builder.new (record { index = 2 })) }
    ensures functions { IfOk result (λ _. All (λ row. FunctionsBelow 1 row.node) builder.new) }
    ensures behaviours { IfOk result (λ _. All (λ row. BehavioursBelow 1 row.node) builder.new) }
{
    let seven = builder.push(Node::Int(7), at(8))?;
    let local = builder.push(Node::Local(0), at(23))?;
    builder.push(Node::Turn(1, local), at(33))?;
    let called = Node::Call(0, Seq::new(alloc), one(alloc, seven)?);
    builder.push(called, at(54))?;
    let spawned = Node::Spawn(0, Seq::new(alloc), Seq::new(alloc));
    builder.push(spawned, at(60))?;
    Ok(())
}

fn step(index: u32, binds: bool) -> Step
    ensures { result.node.index ≡ index }
{
    Step {
        node: NodeId { index },
        binds,
    }
}

fn function(column: u32, takes: u32, index: u32) -> Function
    requires { 1 ≤ column }
    ensures { result.body.index ≡ index }
{
    Function {
        at: at(column),
        takes,
        body: NodeId { index },
    }
}

// The program of these nodes.
fn finished(alloc: Global, builder: Builder) -> Result<Program, AllocError>
    requires all { 4 < length builder }
    requires turn { IsTurnAt builder (record { index = 2 }) }
    requires functions { All (λ row. FunctionsBelow 1 row.node) builder }
    requires behaviours { All (λ row. BehavioursBelow 1 row.node) builder }
{
    let behaviour = Behaviour {
        at: at(33),
        hidden: 0,
        state: 0,
        message: 1,
        body: NodeId { index: 2 },
    };
    let steps = [step(0, true), step(3, false), step(4, false)];
    let functions = [function(11, 1, 1), function(12, 0, 0)];
    let steps = Seq::from_slice(alloc, steps.as_slice())?;
    let functions = Seq::from_slice(alloc, functions.as_slice())?;
    let behaviours = Seq::from_slice(alloc, [behaviour].as_slice())?;
    builder.finish(steps, functions, 1, behaviours)
}

// (def n 7) (defn f [x] x) (def b (behavior [] [m] m)) (f n) (spawn b)
fn sample(alloc: Global) -> Result<Program, BuildNo> {
    let mut builder = Builder::new(alloc);
    push_nodes(alloc, &mut builder)?;
    Ok(finished(alloc, builder)?)
}

fn name_of(node: &Node) -> &'static str {
    match node {
        Node::Int(7) => "7",
        Node::Local(0) => "local 0",
        Node::Turn(1, _) => "turn",
        Node::Call(0, _, _) => "call",
        Node::Spawn(0, _, _) => "spawn",
        Node::Main(_) => "main",
        _ => "another",
    }
}

// The number of the last of the nodes that stand in a list of the node, or that it names alone.
fn last_child(node: &Node) -> Option<u32> {
    match node {
        Node::Turn(_, body) => Some(body.index),
        Node::Call(_, _, ids) => ids.items().last().map(|id| id.index),
        Node::Main(steps) => steps.items().last().map(|step| step.node.index),
        _ => None,
    }
}

fn moved<T: Send>(value: T) -> T {
    value
}

// A node's name, the column of its place, and its last child.
type NodeRow = (&'static str, u32, Option<u32>);

fn is_node(program: &Program, index: u32, row: &NodeRow) -> bool
    requires { index < length program.now.nodes }
{
    let id = NodeId { index };
    let node = program.node(id);
    name_of(node) == row.0 && program.place(id).column() == row.1 && last_child(node) == row.2
}

fn is_function(function: &Function, column: u32, takes: u32, body: u32) -> bool {
    function.at.column() == column && function.takes == takes && function.body.index == body
}

fn is_behaviour(behaviour: &Behaviour, message: u32, body: u32) -> bool {
    behaviour.hidden == 0
        && behaviour.state == 0
        && behaviour.message == message
        && behaviour.body.index == body
}

// How many of the program's first nodes are as the rows say.
fn nodes_that_are(program: &Program, rows: &[NodeRow]) -> usize {
    for index in 0..=program.main().index {
        match rows.get(index as usize) {
            Some(row) if is_node(program, index, row) => {}
            _ => return index as usize,
        }
    }
    program.main().index as usize + 1
}

// What is built is read back, by a program that was moved as into a thread.
#[test]
fn nodes_are_read_back(rt: HostRuntime) -> Result<(), Fail> {
    let rows: [NodeRow; 6] = [
        ("7", 8, None),
        ("local 0", 23, None),
        ("turn", 33, Some(1)),
        ("call", 54, Some(0)),
        ("spawn", 60, None),
        ("main", 1, Some(4)),
    ];
    let program = moved(sample(rt.alloc())?);
    assert_eq!(rt; nodes_that_are(&program, &rows), rows.len());
    Ok(())
}

fn functions_are_so(program: &Program) -> bool {
    for number in 0..program.functions() {
        if !is_function(program.function(number), 11, 1, 1) {
            return false;
        }
    }
    program.functions() == 1
}

fn behaviours_are_so(program: &Program) -> bool {
    for number in 0..program.behaviours() {
        if !is_behaviour(program.behaviour(number), 1, 2) {
            return false;
        }
    }
    program.behaviours() == 1
}

#[test]
fn functions_and_behaviours_are_read_back(rt: HostRuntime) -> Result<(), Fail> {
    let program = sample(rt.alloc())?;
    assert!(rt; functions_are_so(&program));
    assert!(rt; behaviours_are_so(&program));
    assert_eq!(rt; program.globals(), 1);
    Ok(())
}

fn counts_to(builder: &mut Builder, number: u32) -> Result<bool, BuildNo> {
    for index in 0..number {
        if builder.push(Node::SelfActor, at(1))?.index != index {
            return Ok(false);
        }
    }
    Ok(true)
}

// The table takes 1,000,000 nodes and no more, and after a refusal it is as before.
#[test]
fn a_table_is_full(rt: HostRuntime) -> Result<(), Fail> {
    let mut builder = Builder::new(rt.alloc());
    assert!(rt; counts_to(&mut builder, 1_000_000)?);
    for _ in 0..2 {
        let refusal = builder.push(Node::Nil, at(1)).err();
        assert_eq!(rt; refusal, Some(BuildNo::TooManyNodes));
    }
    Ok(())
}
