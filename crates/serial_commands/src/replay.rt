ghost use Rattle.std.specs.Prelude.{◌≡◌, ◌↔◌, [], length, take, IfOk, IfSome, IsSome, IsTrue};
ghost use Rattle.serial_model.specs.Replay.{IsOver};
ghost use Rattle.serial_machine.specs.Progress.{state_of};
ghost use Rattle.serial_commands.specs.Replayed.{ReplaysTo, FindsEnd};

use command_phases::is_same_end;
use core_syntax::Program;
use serial_machine::{Serial, SerialNo};
use serial_model::{End, Limits, Trace};
use std::alloc::{AllocError, Global};
use std::sync::Arc;

/// How a replay comes out.
#[derive(Drop)]
pub enum Replayed {
    /// Each entry was replayed, and led to the stated end.
    Agrees,
    /// The next entry is not enabled, or the end is another. This is the end found, where the run is over.
    Differs(Option<End>),
}

/// The run of the program under these limits, before its first entry.
pub fn opened(alloc: Global, program: Program, limits: Limits) -> Result<Serial, AllocError>
    ensures setup { IfOk result (λ serial. serial.setup ≡ record { program = program; limits = limits }) }
    ensures history { IfOk result (λ serial. serial.history ≡ []) }
{
    Serial::new(alloc, Arc::new(alloc, program)?, limits)
}

/// Replays the entries of the trace up to the first that is not enabled, and compares the end. It stops for want of
/// memory.
pub fn replay(alloc: Global, serial: &mut Serial, trace: &Trace) -> Option<Replayed>
    requires { serial.old.history ≡ [] }
    ensures setup { serial.new.setup ≡ serial.old.setup }
    ensures replays { IsSome (state_of serial.new) }
    ensures first_entries { serial.new.history ≡ take (length serial.new.history) trace.now.history.items }
    ensures replayed { IfSome result (ReplaysTo serial.old.setup trace.now serial.new.history) }
{
    for entry in trace.history.entries() {
        match serial.step(alloc, entry) {
            Ok(()) => {}
            Err(SerialNo::NotEnabled) => return differs(alloc, serial),
            Err(SerialNo::Memory) => return None,
        }
    }
    if ends_so(serial, &trace.end) {
        Some(Replayed::Agrees)
    } else {
        differs(alloc, serial)
    }
}

/// Whether the run is over with this end.
fn ends_so(serial: &Serial, stated: &End) -> bool
    ensures over { IfSome (state_of serial.now) (λ s. IsTrue result ↔ IsOver serial.now.setup s stated.now) }
    ensures replays { IsSome (state_of serial.now) }
{
    match serial.end() {
        Some(end) => is_same_end(end, stated),
        None => false,
    }
}

/// The replay differs, with the end found, where there is memory for it.
fn differs(alloc: Global, serial: &Serial) -> Option<Replayed>
    ensures found { IfSome result (λ replayed. IfSome (state_of serial.now) (λ s. FindsEnd serial.now.setup s replayed)) }
    ensures replays { IsSome (state_of serial.now) }
{
    match serial.end() {
        Some(end) => Some(Replayed::Differs(Some(end.copy(alloc).ok()?))),
        None => Some(Replayed::Differs(None)),
    }
}
