ghost use Rattle.std.specs.Prelude.{◌≡◌, ◌≤◌};
ghost use Rattle.sexpr_reader.specs.Cursor.{start};
ghost use Rattle.command_phases.specs.Load.{Loads, GivesFile, GivesForms, GivesText, load_error, scope_error};

use crate::fetch::{FetchNo, Fetched, fetch};
use core_syntax::Program;
use scope_check::{ScopeKind, ScopeNo, check};
use sexpr_reader::{Forms, ReadKind, ReadNo, SOURCE_LIMIT, read};
use std::alloc::Global;
use thiserror::Error;
use value_core::{Place, Text};
use world_io::Files;

/// Why a file gives no program.
#[derive(Debug, Drop, Error)]
pub enum LoadNo {
    /// Nothing is held under the name, or the files counted a fault.
    #[error("the file was not read")]
    NotRead,
    /// The source is refused, with the kind of the refusal and its place.
    #[error("the source is refused")]
    Refused { kind: ReadKind, at: Place },
    /// The forms of the source are refused, with the kind of the refusal and its place.
    #[error("the forms of the source are refused")]
    OutOfScope { kind: ScopeKind, at: Place },
    /// There is no memory.
    #[error("out of memory")]
    Memory,
}

/// The program of the file under that name: its source is read, and the forms are checked.
pub fn load_program<F: Files>(alloc: Global, files: &mut F, name: &Text) -> Result<Program, LoadNo>
    ensures loads { Loads name.now (F.seen files.old) (F.seen files.new) result }
    ensures later { (F.seen files.old).read_faults ≤ (F.seen files.new).read_faults }
    ensures writes { (F.seen files.new).write_faults ≡ (F.seen files.old).write_faults }
    ensures same { (F.seen files.new).held ≡ (F.seen files.old).held }
{
    match fetch(alloc, files, name, SOURCE_LIMIT) {
        Ok(file) => program_of(alloc, &file),
        Err(FetchNo::NotRead) => Err(LoadNo::NotRead),
        Err(FetchNo::Memory) => Err(LoadNo::Memory),
    }
}

/// The program of a file that was read.
pub(crate) fn program_of(alloc: Global, file: &Fetched) -> Result<Program, LoadNo>
    ensures { GivesFile file.now result }
{
    match file {
        Fetched::Bytes(bytes) => program_in(alloc, bytes.as_slice()),
        Fetched::TooLong => Err(too_long()),
    }
}

/// The program of the source with these bytes. It reads no file, so `NotRead` never comes.
pub fn program_in(alloc: Global, bytes: &[u8]) -> Result<Program, LoadNo>
    ensures { GivesText bytes.now result }
{
    match read(alloc, bytes) {
        Ok(forms) => checked(alloc, &forms),
        Err(error) => Err(load_error(error)),
    }
}

/// The program of the forms.
fn checked(alloc: Global, forms: &Forms) -> Result<Program, LoadNo>
    ensures { GivesForms forms.now result }
{
    match check(alloc, forms) {
        Ok(program) => Ok(program),
        Err(error) => Err(scope_error(error)),
    }
}

fn load_error(error: ReadNo) -> LoadNo
    ensures { result ≡ load_error error }
{
    match error {
        ReadNo::Refused { kind, at } => LoadNo::Refused { kind, at },
        ReadNo::Memory => LoadNo::Memory,
    }
}

fn scope_error(error: ScopeNo) -> LoadNo
    ensures { result ≡ scope_error error }
{
    match error {
        ScopeNo::Refused { kind, at } => LoadNo::OutOfScope { kind, at },
        ScopeNo::Memory => LoadNo::Memory,
    }
}

fn too_long() -> LoadNo
    ensures { result ≡ LoadNo.Refused ReadKind.TooLong start }
{
    LoadNo::Refused {
        kind: ReadKind::TooLong,
        at: Place::new(1, 1),
    }
}
