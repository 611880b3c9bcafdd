/// The primitives of the language.
#[derive(Clone, Copy, Debug, PartialEq, Eq)]
pub enum Op {
    /// `+`
    Add,
    /// `*`
    Multiply,
    /// `-`
    Subtract,
    /// `inc`
    Inc,
    /// `dec`
    Dec,
    /// `max`
    Max,
    /// `min`
    Min,
    /// `quot`
    Quot,
    /// `rem`
    Rem,
    /// `mod`
    Mod,
    /// `<`
    Below,
    /// `<=`
    AtMost,
    /// `>`
    Above,
    /// `>=`
    AtLeast,
    /// `=`
    Same,
    /// `not=`
    NotSame,
    /// `not`
    Not,
    /// `zero?`
    IsZero,
    /// `pos?`
    IsPositive,
    /// `neg?`
    IsNegative,
    /// `nil?`
    IsNil,
    /// `some?`
    IsSome,
    /// `int?`
    IsInt,
    /// `string?`
    IsString,
    /// `keyword?`
    IsKeyword,
    /// `boolean?`
    IsBoolean,
    /// `vector?`
    IsVector,
    /// `map?`
    IsMap,
    /// `vector`
    Vector,
    /// `count`
    Count,
    /// `get`
    Get,
    /// `nth`
    Nth,
    /// `conj`
    Conj,
    /// `assoc`
    Assoc,
    /// `dissoc`
    Dissoc,
    /// `contains?`
    Contains,
    /// `keys`
    Keys,
    /// `vals`
    Vals,
    /// `first`
    First,
    /// `last`
    Last,
    /// `rest`
    Rest,
    /// `empty?`
    IsEmpty,
    /// `subvec`
    Subvec,
    /// `into`
    Into,
    /// `str`
    Str,
}
