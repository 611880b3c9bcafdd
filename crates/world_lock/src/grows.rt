/// A value that only grows: its setup never changes, and its history only gets longer.
///
/// `IsLater` of the specs says when one value is a later one of another: it has the same setup, and its history begins with
/// the other's.
pub trait Grows: Send {
    ghost use Rattle.std.specs.Prelude.{List};

    /// What stays the same for as long as the value lives.
    type Setup;

    /// What a history is a list of.
    type Item;

    ghost setup: { Self → Self.Setup };

    ghost history: { Self → List Self.Item };
}
