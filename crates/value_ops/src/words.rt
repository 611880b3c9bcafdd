ghost use Rattle.std.specs.Prelude.{◌≡◌, ◌≢◌, MatchOption};
ghost use Rattle.value_core.specs.primitives.Words.{op_word, takes_of};

use value_core::Op;

/// The primitives, in the order of their table.
const ALL: [Op; 45] = [
    Op::Add,
    Op::Multiply,
    Op::Subtract,
    Op::Inc,
    Op::Dec,
    Op::Max,
    Op::Min,
    Op::Quot,
    Op::Rem,
    Op::Mod,
    Op::Below,
    Op::AtMost,
    Op::Above,
    Op::AtLeast,
    Op::Same,
    Op::NotSame,
    Op::Not,
    Op::IsZero,
    Op::IsPositive,
    Op::IsNegative,
    Op::IsNil,
    Op::IsSome,
    Op::IsInt,
    Op::IsString,
    Op::IsKeyword,
    Op::IsBoolean,
    Op::IsVector,
    Op::IsMap,
    Op::Vector,
    Op::Count,
    Op::Get,
    Op::Nth,
    Op::Conj,
    Op::Assoc,
    Op::Dissoc,
    Op::Contains,
    Op::Keys,
    Op::Vals,
    Op::First,
    Op::Last,
    Op::Rest,
    Op::IsEmpty,
    Op::Subvec,
    Op::Into,
    Op::Str,
];

/// The primitive that has this word, if there is one. It takes no memory.
pub fn op_named(word: &[u8]) -> Option<Op>
    ensures { MatchOption result ((op : Op) → op_word op ≢ word.now) (λ op. op_word op ≡ word.now) }
{
    for op in ALL {
        if word_of(op) == word {
            return Some(op);
        }
    }
    None
}

/// Whether the primitive takes this number of arguments. It takes no memory.
pub fn takes(op: Op, count: usize) -> bool
    ensures { result ≡ takes_of op count }
{
    match op {
        Op::Add | Op::Multiply | Op::Vector | Op::Str => true,
        Op::Inc
        | Op::Dec
        | Op::Not
        | Op::IsZero
        | Op::IsPositive
        | Op::IsNegative
        | Op::IsNil
        | Op::IsSome
        | Op::IsInt
        | Op::IsString
        | Op::IsKeyword
        | Op::IsBoolean
        | Op::IsVector
        | Op::IsMap
        | Op::Count
        | Op::Keys
        | Op::Vals
        | Op::First
        | Op::Last
        | Op::Rest
        | Op::IsEmpty => count == 1,
        Op::Quot | Op::Rem | Op::Mod | Op::Contains | Op::Into => count == 2,
        Op::Get | Op::Nth | Op::Subvec => count == 2 || count == 3,
        Op::Subtract
        | Op::Max
        | Op::Min
        | Op::Below
        | Op::AtMost
        | Op::Above
        | Op::AtLeast
        | Op::Same
        | Op::NotSame
        | Op::Conj
        | Op::Dissoc => count >= 1,
        Op::Assoc => count >= 3 && count % 2 == 1,
    }
}

// The word of the primitive.
fn word_of(op: Op) -> &'static [u8]
    ensures { result.now ≡ op_word op }
{
    match op {
        Op::Add => b"+",
        Op::Multiply => b"*",
        Op::Subtract => b"-",
        Op::Inc => b"inc",
        Op::Dec => b"dec",
        Op::Max => b"max",
        Op::Min => b"min",
        Op::Quot => b"quot",
        Op::Rem => b"rem",
        Op::Mod => b"mod",
        Op::Below => b"<",
        Op::AtMost => b"<=",
        Op::Above => b">",
        Op::AtLeast => b">=",
        Op::Same => b"=",
        Op::NotSame => b"not=",
        Op::Not => b"not",
        Op::IsZero => b"zero?",
        Op::IsPositive => b"pos?",
        Op::IsNegative => b"neg?",
        Op::IsNil => b"nil?",
        Op::IsSome => b"some?",
        Op::IsInt => b"int?",
        Op::IsString => b"string?",
        Op::IsKeyword => b"keyword?",
        Op::IsBoolean => b"boolean?",
        Op::IsVector => b"vector?",
        Op::IsMap => b"map?",
        Op::Vector => b"vector",
        Op::Count => b"count",
        Op::Get => b"get",
        Op::Nth => b"nth",
        Op::Conj => b"conj",
        Op::Assoc => b"assoc",
        Op::Dissoc => b"dissoc",
        Op::Contains => b"contains?",
        Op::Keys => b"keys",
        Op::Vals => b"vals",
        Op::First => b"first",
        Op::Last => b"last",
        Op::Rest => b"rest",
        Op::IsEmpty => b"empty?",
        Op::Subvec => b"subvec",
        Op::Into => b"into",
        Op::Str => b"str",
    }
}
