ghost use Rattle.std.specs.Prelude.{◌≡◌, [], ◌∷◌, ◌++◌, IsTrue, OnOk, OnErr, IfOk};
ghost use Rattle.value_ops.specs.Depths.{FirstIsShallow, IsShallow};
ghost use Rattle.serial_model.specs.Operation.{local_value};
ghost use Rattle.eval_frames.specs.Frame.{shorter};
ghost use Rattle.eval_frames.specs.Agreeing.{AgreeBut};

use crate::values::{copy_values, local};
use known_values::Known;
use smallvec::SmallVec;
use std::alloc::{AllocError, Global};
use std::marker::Model;
use std::mem;
use value_core::{Value, Values};

/// The values that are bound where a node is evaluated. Contracts see them in their order. Beside them stand marks, which
/// say of the first of them, mostly all, which are known to be at most 200 deep.
pub struct Frame {
    values: Vec<Value>,
    marks: SmallVec<bool, 8>,
}

impl Model for Frame {
    ghost use Rattle.std.specs.Prelude.{List};
    ghost use Rattle.std.specs.Coded.{coded_list};
    ghost use Rattle.value_core.specs.contracts.value.Value as value;
    ghost use Rattle.value_core.specs.declared.value.Value.{Value as Datum};
    ghost use Rattle.eval_frames.specs.Known.{AreMarks};

    ghost Value = { List Datum };

    ghost coded = { coded_list (value.the_row).coded };

    ghost view = { λ f. f.values.items };

    ghost invariant = { λ f. AreMarks f.marks.items f.values.items };
}

impl Drop for Frame {
    fn drop(self) {
        let Frame {
            values: _values,
            marks: _marks,
        } = self;
    }
}

impl Frame {
    /// The frame with no values. It takes no memory.
    pub fn new(alloc: Global) -> Self
        ensures { result ≡ [] }
    {
        Frame {
            values: Vec::new(alloc),
            marks: SmallVec::new(alloc),
        }
    }

    /// A frame of equal values.
    pub fn copied(alloc: Global, values: &Values) -> Result<Self, AllocError>
        ensures { IfOk result (λ frame. frame ≡ values.now) }
    {
        let mut frame = Frame::new(alloc);
        frame.reserve(values.len())?;
        for value in values.iter() {
            frame.push(Known::unseen(value.copy(alloc)?))?;
        }
        Ok(frame)
    }

    /// An equal frame, of whose values the same is known.
    pub fn copy(&self, alloc: Global) -> Result<Self, AllocError>
        ensures { IfOk result (λ frame. frame ≡ self.now) }
    {
        let marks = SmallVec::from_slice(alloc, self.marks.as_slice())?;
        let values = copy_values(alloc, &self.values)?;
        Ok(Frame { values, marks })
    }

    /// The values in order.
    pub fn values(&self) -> &[Value]
        ensures { result.now ≡ self.now }
    {
        self.values.as_slice()
    }

    /// The values in order, which are given away.
    pub fn into_values(self) -> Vec<Value>
        ensures { result.items ≡ self }
    {
        let Frame {
            values,
            marks: _marks,
        } = self;
        values
    }

    /// Appends the value. For want of memory the frame stays.
    pub fn push(&mut self, value: Known) -> Result<(), AllocError>
        ensures ok { OnOk result (self.new ≡ self.old ++ value ∷ []) }
        ensures err { OnErr result (self.new ≡ self.old) }
    {
        let is_shallow = value.is_shallow();
        let is_marked = self.marks.len() == self.values.len();
        self.values
            .push(value.into_value())
            .map_err(|_| AllocError)?;
        if is_marked {
            let _ = self.marks.push(is_shallow);
        }
        Ok(())
    }

    /// Whether the value at that place is a collection or a text.
    pub fn owns_memory(&self, place: u32) -> bool {
        matches!(
            self.values.get(place as usize),
            Some(Value::Vector(_) | Value::Map(_) | Value::Str(_) | Value::Kw(_))
        )
    }

    /// The value at that place, and nil outside the frame.
    pub fn local(&self, alloc: Global, place: u32) -> Result<Known, AllocError>
        ensures { IfOk result (λ value. value ≡ local_value self.now place) }
    {
        let value = local(alloc, &self.values, place)?;
        Ok(Known::new(value, self.is_shallow(place)))
    }

    /// Takes the value at that place out, which leaves nil there. Outside the frame it is nil.
    pub fn take(&mut self, place: u32) -> Known
        ensures value { result ≡ local_value self.old place }
        ensures others { AgreeBut place self.old self.new }
    {
        let is_shallow = self.is_shallow(place);
        let index = place as usize;
        if index < self.values.len() {
            let value = mem::replace(&mut self.values[index], Value::Nil);
            Known::new(value, is_shallow)
        } else {
            Known::unseen(Value::Nil)
        }
    }

    /// Whether the first value, if there is one, is known to be at most 200 deep.
    pub fn first_is_shallow(&self) -> bool
        ensures { IsTrue result → FirstIsShallow self.now }
    {
        self.is_shallow(0)
    }

    // Whether the value at that place is known to be at most 200 deep.
    fn is_shallow(&self, place: u32) -> bool
        ensures { IsTrue result → IsShallow (local_value self.now place) }
    {
        match self.marks.as_slice().get(place as usize) {
            Some(mark) => *mark,
            None => false,
        }
    }

    // Makes room for so many further values. The values stay.
    fn reserve(&mut self, more: usize) -> Result<(), AllocError>
        ensures { self.new ≡ self.old }
    {
        self.values.reserve_exact(more)
    }

    /// Drops all values, and gives their room back.
    pub fn free(&mut self)
        ensures { self.new ≡ [] }
    {
        let alloc = *self.values.allocator();
        *self = Frame::new(alloc);
    }

    /// Drops all values, and keeps their room.
    pub fn clear(&mut self)
        ensures { self.new ≡ [] }
    {
        self.marks.truncate(0);
        self.values.truncate(0);
    }

    /// Drops so many of the last values.
    pub fn shrink(&mut self, count: usize)
        ensures { self.new ≡ shorter count self.old }
    {
        let kept = self.values.len().saturating_sub(count);
        self.marks.truncate(kept);
        self.values.truncate(kept);
    }
}
