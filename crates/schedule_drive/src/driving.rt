ghost use Rattle.std.specs.Prelude.{◌≡◌, [], IfOk, OnErr};
ghost use Rattle.schedule_drive.specs.Drive.{Abandons, IsLater, IsReported};
ghost use Rattle.schedule_drive.specs.UnderWay.{IsDrivenSo};

use crate::lines::do_line;
use core_syntax::Program;
use interleave_core::World;
use schedule_report::{Told, push_report};
use schedule_text::Lines;
use std::alloc::{AllocError, Global};
use std::collections::BTreeMap;
use value_core::{Name, Text};
use world_claim::Done;

/// Drives the world by the lines, and gives the report of what came of each. The program is the world's. The claims of
/// results that are kept to the end are abandoned. For want of memory the history has grown by whole entries.
pub fn drive(
    world: &mut World,
    alloc: Global,
    program: &Program,
    lines: &Lines,
) -> Result<Text, AllocError>
    requires { program.now ≡ world.old.setup.program }
    ensures reported { IfOk result (λ text. IsReported lines.now world.old text world.new) }
    ensures later { OnErr result (IsLater world.old world.new) }
{
    let mut kept = BTreeMap::new(alloc);
    let report = do_lines(world, &mut kept, alloc, program, lines)?;
    abandon_all(world, &kept);
    Ok(report)
}

/// Does the lines, and gives the report of what came of each.
fn do_lines(
    world: &mut World,
    kept: &mut BTreeMap<Name, Done>,
    alloc: Global,
    program: &Program,
    lines: &Lines,
) -> Result<Text, AllocError>
    requires program { program.now ≡ world.old.setup.program }
    requires empty { kept.old.entries ≡ [] }
    ensures driven { IfOk result (λ text. IsDrivenSo lines.now world.old text world.new kept.new.entries) }
    ensures later { OnErr result (IsLater world.old world.new) }
{
    let mut report = Text::new(alloc);
    let mut number = 1;
    for line in lines.items() {
        let told = do_line(world, kept, alloc, program, line)?;
        push_report(alloc, &mut report, number, &told)?;
        told_goes(told);
        number += 1;
    }
    Ok(report)
}

/// Drops what came of a line.
fn told_goes(_told: Told) {}

/// Abandons the claims of the results that are kept.
fn abandon_all(world: &mut World, kept: &BTreeMap<Name, Done>)
    ensures { Abandons kept.now.entries world.old world.new }
{
    for (_, done) in kept {
        world.abandon(done.ticket());
    }
}
