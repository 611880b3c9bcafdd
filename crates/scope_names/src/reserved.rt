ghost use Rattle.std.specs.Prelude.{◌≡◌};
ghost use Rattle.scope_names.specs.Finding.{is_reserved};
ghost use Rattle.scope_names.specs.Ops.{op_of};

use sugar::is_form_word;
use value_core::Op;
use value_ops::op_named;

/// Whether the word is that of a form or a primitive.
pub fn is_reserved(word: &[u8]) -> bool
    ensures { result ≡ is_reserved word.now }
{
    is_form_word(word) || op_with(word).is_some()
}

/// The primitive that has this word, where there is one.
pub fn op_with(word: &[u8]) -> Option<Op>
    ensures { result ≡ op_of word.now }
{
    op_named(word)
}
