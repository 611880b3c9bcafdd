ghost use Rattle.std.specs.Prelude.{◌≡◌};
ghost use Rattle.scope_names.specs.Finding.{find, found_reserved, is_reserved};
ghost use Rattle.scope_names.specs.Names.{defined};

use crate::definition::What;
use crate::names::Names;
use crate::reserved::is_reserved;
use scope_locals::Locals;

/// What a name stands for where it is used.
#[derive(Clone, Copy, Debug, PartialEq, Eq)]
pub enum Found {
    /// The local with that level.
    Local(u32),
    /// A reserved word.
    Reserved,
    Defined(What),
    Nothing,
}

/// What the name stands for where these names are defined and these locals are bound.
#[tactic(auto, unfolding(crate::specs::Finding::find))]
pub fn find(definitions: &Names, locals: &Locals, name: &[u8]) -> Found
    ensures { result ≡ find definitions.now locals.now name.now }
{
    match locals.find(name) {
        Some(level) => Found::Local(level),
        None => find_outside(definitions, name),
    }
}

// What the name stands for where it is no local.
fn find_outside(definitions: &Names, name: &[u8]) -> Found
    ensures { result ≡ found_reserved (is_reserved name.now) (defined definitions.now name.now) }
{
    if is_reserved(name) {
        return Found::Reserved;
    }
    match definitions.find(name) {
        Some(what) => Found::Defined(what),
        None => Found::Nothing,
    }
}
