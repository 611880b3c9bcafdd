ghost use Rattle.std.specs.Prelude.{◌≡◌, [], ◌∷◌, codes, IfOk};
ghost use Rattle.sugar.specs.Meaning.{core_at};
ghost use Rattle.sugar.specs.Sugar.{call, word};
ghost use Rattle.sugar.specs.declared.core_form.CoreKind.TheVariants.{Sym as SymKind, Fresh as FreshKind, List as ListKind, Vector as VectorKind};

use crate::core_form::{Core, CoreKind, Cores};
use std::alloc::{AllocError, Global};
use value_core::lists::add;
use value_core::{Place, Seq, Text};

/// The symbol with this name.
pub fn symbol(alloc: Global, at: Place, name: &[u8]) -> Result<Core, AllocError>
    ensures { IfOk result (λ core. core ≡ core_at at (SymKind name.now)) }
{
    Ok(Core::new(at, CoreKind::Sym(Text::from_bytes(alloc, name)?)))
}

/// The first part of a list: the symbol with this name.
pub fn headed(alloc: Global, at: Place, name: &[u8]) -> Result<Cores, AllocError>
    ensures { IfOk result (λ parts. parts ≡ core_at at (SymKind name.now) ∷ []) }
{
    let mut parts = Seq::new(alloc);
    add(&mut parts, symbol(alloc, at, name)?)?;
    Ok(parts)
}

/// The head of a call, and before its other arguments `(deref t)`, where `t` is the made name of this number.
pub fn call_of(alloc: Global, at: Place, head: Core, name: u32) -> Result<Cores, AllocError>
    ensures { IfOk result (λ parts. parts ≡ head ∷ call at (word at (codes "deref")) (core_at at (FreshKind name) ∷ []) ∷ []) }
{
    let mut parts = Seq::new(alloc);
    add(&mut parts, head)?;
    let mut dereferenced = headed(alloc, at, b"deref")?;
    add(&mut dereferenced, Core::new(at, CoreKind::Fresh(name)))?;
    add(&mut parts, Core::new(at, CoreKind::List(dereferenced)))?;
    Ok(parts)
}

/// `(let [bindings..] (ref-set t (parts..)))`, where `t` is the made name of this number.
pub fn let_of(
    alloc: Global,
    at: Place,
    name: u32,
    bindings: Cores,
    parts: Cores,
) -> Result<Core, AllocError>
    ensures { IfOk result (λ core. core ≡ call at (word at (codes "let")) (core_at at (VectorKind bindings) ∷ call at (word at (codes "ref-set")) (core_at at (FreshKind name) ∷ core_at at (ListKind parts) ∷ []) ∷ [])) }
{
    let mut whole = headed(alloc, at, b"let")?;
    add(&mut whole, Core::new(at, CoreKind::Vector(bindings)))?;
    add(&mut whole, set_of(alloc, at, name, parts)?)?;
    Ok(Core::new(at, CoreKind::List(whole)))
}

/// `(ref-set t (parts..))`, where `t` is the made name of this number.
fn set_of(alloc: Global, at: Place, name: u32, parts: Cores) -> Result<Core, AllocError>
    ensures { IfOk result (λ core. core ≡ call at (word at (codes "ref-set")) (core_at at (FreshKind name) ∷ core_at at (ListKind parts) ∷ [])) }
{
    let mut setting = headed(alloc, at, b"ref-set")?;
    add(&mut setting, Core::new(at, CoreKind::Fresh(name)))?;
    add(&mut setting, Core::new(at, CoreKind::List(parts)))?;
    Ok(Core::new(at, CoreKind::List(setting)))
}
