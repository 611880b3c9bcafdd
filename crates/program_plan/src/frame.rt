ghost use Rattle.std.specs.Prelude.{◌≡◌, ◌+◌, ◌-◌, ◌≤◌, [], ◌∷◌, ◌++◌, map, length, nat_lt, if◌then◌else◌, All, IfOk};
ghost use Rattle.std.specs.List.Sorted.{IsNonDecreasing};
ghost use Rattle.program_plan.specs.Frame.{LayoutRises, Rises, frame_of, loop_frame, position_of, global_place, local_place, hidden_at, hidden_places, hidden_count};

use core_syntax::{Locals, as_number};
use resolved_forms::{Hidden, Layout};
use std::alloc::{AllocError, Global};
use std::marker::Model;
use value_core::Seq;
use value_core::lists::add;

/// Which values lie where: first the listed globals, then the outer locals of the listed levels, and then the locals of
/// level `base` and on.
#[derive(Drop)]
pub(crate) struct Frame<'a> {
    layout: &'a Layout,
    globals: &'a [u32],
    levels: &'a [u32],
    base: u32,
}

impl<'a> Model for Frame<'a> {
    ghost use Rattle.program_plan.specs.Frame.{Frame as Places, FrameRises};

    ghost Value = { Places };

    ghost view = { λ f. record { layout = f.layout.now; globals = f.globals.now; levels = f.levels.now; base = f.base } };

    ghost invariant = { λ f. FrameRises (record { layout = f.layout.now; globals = f.globals.now; levels = f.levels.now; base = f.base }) };
}

impl<'a> Frame<'a> {
    /// Main's frame, where these globals are bound.
    pub fn main(layout: &'a Layout, globals: &'a [u32]) -> Self
        requires layout { LayoutRises layout.now }
        requires globals { IsNonDecreasing globals.now }
        ensures { result ≡ record { layout = layout.now; globals = globals.now; levels = []; base = 0 } }
    {
        Frame {
            layout,
            globals,
            levels: &[],
            base: 0,
        }
    }

    /// Where the global with that number lies.
    pub fn global_place(&self, number: u32) -> Result<u32, AllocError>
        ensures { IfOk result (λ place. place ≡ global_place self.now number) }
    {
        as_number(position(self.globals, number))
    }

    /// Where the local of that level lies.
    pub fn local_place(&self, level: u32) -> Result<u32, AllocError>
        ensures { IfOk result (λ place. place ≡ local_place self.now level) }
    {
        as_number(self.globals.len() + self.place_of_level(level))
    }

    /// Where the hidden arguments lie.
    pub fn hidden_places(&self, alloc: Global, hidden: &Hidden) -> Result<Locals, AllocError>
        ensures { IfOk result (λ places. places ≡ hidden_places self.now hidden.now) }
    {
        let mut places = Seq::new(alloc);
        self.push_globals(&mut places, &hidden.globals)?;
        self.push_levels(&mut places, &hidden.levels)?;
        Ok(places)
    }

    /// The hidden arguments of the function with that number.
    pub fn function(&self, number: u32) -> Result<&'a Hidden, AllocError>
        ensures value { IfOk result (λ hidden. hidden.now ≡ hidden_at self.now.layout.functions number) }
        ensures rises { IfOk result (λ hidden. Rises hidden.now) }
    {
        let layout = self.layout;
        hidden_at(&layout.functions, number)
    }

    /// The hidden arguments of the behaviour with that number.
    pub fn behaviour(&self, number: u32) -> Result<&'a Hidden, AllocError>
        ensures value { IfOk result (λ hidden. hidden.now ≡ hidden_at self.now.layout.behaviours number) }
        ensures rises { IfOk result (λ hidden. Rises hidden.now) }
    {
        let layout = self.layout;
        hidden_at(&layout.behaviours, number)
    }

    /// Where the hidden arguments of the function with that number lie.
    pub fn function_places(&self, alloc: Global, number: u32) -> Result<Locals, AllocError>
        ensures { IfOk result (λ places. places ≡ hidden_places self.now (hidden_at self.now.layout.functions number)) }
    {
        self.hidden_places(alloc, self.function(number)?)
    }

    /// Where the hidden arguments of the behaviour with that number lie.
    pub fn behaviour_places(&self, alloc: Global, number: u32) -> Result<Locals, AllocError>
        ensures { IfOk result (λ places. places ≡ hidden_places self.now (hidden_at self.now.layout.behaviours number)) }
    {
        self.hidden_places(alloc, self.behaviour(number)?)
    }

    /// The frame of the body of the loop with that function, whose own locals begin at level `base`.
    pub fn of_loop(&self, number: u32, base: u32) -> Result<Self, AllocError>
        ensures { IfOk result (λ frame. frame ≡ loop_frame self.now number base) }
    {
        Ok(Frame::of_body(self.layout, self.function(number)?, base))
    }

    /// The frame of a body with these hidden arguments, whose own locals begin at level `base`.
    pub fn of_body(layout: &'a Layout, hidden: &'a Hidden, base: u32) -> Self
        requires layout { LayoutRises layout.now }
        requires hidden { Rises hidden.now }
        ensures { result ≡ frame_of layout.now hidden.now base }
    {
        Frame {
            layout,
            globals: hidden.globals.items(),
            levels: hidden.levels.items(),
            base,
        }
    }

    // Where the local lies behind the globals.
    fn place_of_level(&self, level: u32) -> usize
        ensures value { result ≡ (if nat_lt level self.now.base then position_of level self.now.levels else length self.now.levels + (level - self.now.base)) }
        ensures bound { result ≤ length self.now.levels + level }
    {
        if level < self.base {
            position(self.levels, level)
        } else {
            self.levels.len() + (level - self.base) as usize
        }
    }

    fn push_globals(&self, places: &mut Locals, numbers: &Seq<u32>) -> Result<(), AllocError>
        ensures { IfOk result (λ _. places.new ≡ places.old ++ map (global_place self.now) numbers.now) }
    {
        for number in numbers.items() {
            add(places, self.global_place(*number)?)?;
        }
        Ok(())
    }

    fn push_levels(&self, places: &mut Locals, levels: &Seq<u32>) -> Result<(), AllocError>
        ensures { IfOk result (λ _. places.new ≡ places.old ++ map (local_place self.now) levels.now) }
    {
        for level in levels.items() {
            add(places, self.local_place(*level)?)?;
        }
        Ok(())
    }
}

/// How many hidden arguments there are.
pub(crate) fn count_hidden(hidden: &Hidden) -> Result<u32, AllocError>
    ensures { IfOk result (λ count. count ≡ hidden_count hidden.now) }
{
    as_number(hidden.globals.items().len() + hidden.levels.items().len())
}

/// The hidden arguments with that number. One that is not there counts as want of memory.
pub(crate) fn hidden_at(all: &Seq<Hidden>, number: u32) -> Result<&Hidden, AllocError>
    requires { All Rises all.now }
    ensures value { IfOk result (λ hidden. hidden.now ≡ hidden_at all.now number) }
    ensures rises { IfOk result (λ hidden. Rises hidden.now) }
{
    let Some(hidden) = all.items().get(number as usize) else {
        return Err(AllocError);
    };
    Ok(hidden)
}

/// How many of the numbers are below `number`.
fn position(numbers: &[u32], number: u32) -> usize
    requires { IsNonDecreasing numbers.now }
    ensures value { result ≡ position_of number numbers.now }
    ensures bound { result ≤ length numbers.now }
{
    numbers.partition_point(
        |other| -> bool
            ensures { result ≡ nat_lt other.now number }
        { *other < number },
    )
}
