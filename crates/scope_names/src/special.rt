ghost use Rattle.std.specs.Prelude.{◌≡◌};
ghost use Rattle.scope_names.specs.Special.{special_of, special_behind, plain_special, effect_special, actor_special, chain_special, no_expression};

/// The forms that are neither calls nor primitives, by their words.
#[derive(Clone, Copy, Debug, PartialEq, Eq)]
pub enum Special {
    Do,
    If,
    Let,
    Loop,
    Recur,
    Println,
    Ref,
    Deref,
    RefSet,
    Fork,
    Join,
    Dosync,
    Spawn,
    Become,
    Send,
    SelfActor,
    Cond,
    And,
    Or,
    /// A form that is no expression: a definition, or a shorthand that is already written out.
    NoExpression,
}

/// The special form that has this word, if there is one. It takes no memory.
#[tactic(auto, unfolding(crate::specs::Special::special_of))]
pub fn special_named(word: &[u8]) -> Option<Special>
    ensures { result ≡ special_of word.now }
{
    match plain_special(word) {
        Some(special) => Some(special),
        None => special_behind(word),
    }
}

fn special_behind(word: &[u8]) -> Option<Special>
    ensures { result ≡ special_behind word.now }
{
    match effect_special(word) {
        Some(special) => Some(special),
        None => chain_special(word),
    }
}

// The forms that bind names or choose what is evaluated.
fn plain_special(word: &[u8]) -> Option<Special>
    ensures { result ≡ plain_special word.now }
{
    if word == b"do".as_slice() {
        Some(Special::Do)
    } else if word == b"if".as_slice() {
        Some(Special::If)
    } else if word == b"let".as_slice() {
        Some(Special::Let)
    } else if word == b"loop".as_slice() {
        Some(Special::Loop)
    } else if word == b"recur".as_slice() {
        Some(Special::Recur)
    } else {
        None
    }
}

// The forms that ask for something.
fn effect_special(word: &[u8]) -> Option<Special>
    ensures { result ≡ effect_special word.now }
{
    if word == b"println".as_slice() {
        Some(Special::Println)
    } else if word == b"ref".as_slice() {
        Some(Special::Ref)
    } else if word == b"deref".as_slice() {
        Some(Special::Deref)
    } else if word == b"ref-set".as_slice() {
        Some(Special::RefSet)
    } else if word == b"fork".as_slice() {
        Some(Special::Fork)
    } else if word == b"join".as_slice() {
        Some(Special::Join)
    } else if word == b"dosync".as_slice() {
        Some(Special::Dosync)
    } else {
        actor_special(word)
    }
}

// The forms of actors.
fn actor_special(word: &[u8]) -> Option<Special>
    ensures { result ≡ actor_special word.now }
{
    if word == b"spawn".as_slice() {
        Some(Special::Spawn)
    } else if word == b"become".as_slice() {
        Some(Special::Become)
    } else if word == b"send".as_slice() {
        Some(Special::Send)
    } else if word == b"self".as_slice() {
        Some(Special::SelfActor)
    } else {
        None
    }
}

// The forms that are chains of choices, and those that are no expressions.
fn chain_special(word: &[u8]) -> Option<Special>
    ensures { result ≡ chain_special word.now }
{
    if word == b"cond".as_slice() {
        Some(Special::Cond)
    } else if word == b"and".as_slice() {
        Some(Special::And)
    } else if word == b"or".as_slice() {
        Some(Special::Or)
    } else {
        no_expression(word)
    }
}

fn no_expression(word: &[u8]) -> Option<Special>
    ensures { result ≡ no_expression word.now }
{
    if word == b"def".as_slice()
        || word == b"defn".as_slice()
        || word == b"behavior".as_slice()
        || word == b"when".as_slice()
        || word == b"alter".as_slice()
    {
        Some(Special::NoExpression)
    } else {
        None
    }
}
