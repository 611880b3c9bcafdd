use value_core::Seq;

/// The hidden arguments of a function or behaviour: first globals, by their numbers, and then locals of what is round
/// a loop, by their levels. Both rise.
#[derive(Drop)]
pub struct Hidden {
    pub globals: Seq<u32>,
    pub levels: Seq<u32>,
}

/// The hidden arguments of all functions, by their numbers in the program, and of all behaviours.
#[derive(Drop)]
pub struct Layout {
    pub functions: Seq<Hidden>,
    pub behaviours: Seq<Hidden>,
}
