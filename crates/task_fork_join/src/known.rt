ghost use Rattle.std.specs.Prelude.{◌≡◌, [], IfOk, OnOk};
ghost use Rattle.task_fork_join.specs.Knowledge.{no_names, HasLearned, IsTaught};
ghost use Rattle.value_core.specs.Named.{is_among};

use shared_map::SharedNames;
use std::alloc::{AllocError, Global};
use std::marker::Model;
use value_core::Name;

/// The futures whose results a task knows, and which of them it came to know since it was forked. Copies share the names.
#[derive(Drop)]
pub(crate) struct Known {
    all: SharedNames,
    since: SharedNames,
}

impl Model for Known {
    ghost use Rattle.task_fork_join.specs.Knowledge.{knowledge_code, IsSinceKnown, Knowledge};

    ghost Value = { Knowledge };

    ghost coded = { knowledge_code };

    ghost view = { λ k. record { keys = k.all; since = k.since } };

    ghost invariant = { λ k. IsSinceKnown k.all k.since };
}

impl Known {
    /// No futures. It takes no memory.
    pub(crate) fn new(alloc: Global) -> Self
        ensures { result ≡ no_names }
    {
        Known {
            all: SharedNames::new(alloc),
            since: SharedNames::new(alloc),
        }
    }

    /// The same, shared. It takes no memory, and fails only where there are too many copies to count.
    pub(crate) fn copy(&self) -> Result<Self, AllocError>
        ensures { IfOk result (λ copied. copied ≡ self.now) }
    {
        Ok(Known {
            all: self.all.copy()?,
            since: self.since.copy()?,
        })
    }

    /// What a child knows that is forked now: the same, of which it came to know none since.
    pub(crate) fn for_child(&self, alloc: Global) -> Result<Self, AllocError>
        ensures { IfOk result (λ child. child ≡ record { keys = self.now.keys; since = [] }) }
    {
        Ok(Known {
            all: self.all.copy()?,
            since: SharedNames::new(alloc),
        })
    }

    /// Whether the task knows the result of the future. It takes no memory.
    pub(crate) fn contains(&self, future: &Name) -> bool
        ensures { result ≡ is_among future.now self.now.keys }
    {
        self.all.contains(future)
    }

    /// The task comes to know the result of the future.
    pub(crate) fn learn(&mut self, alloc: Global, future: &Name) -> Result<(), AllocError>
        ensures { OnOk result (HasLearned future.now self.old self.new) }
    {
        let name = future.copy(alloc)?;
        self.all.add(future.copy(alloc)?)?;
        self.since.add(name)
    }

    /// The task comes to know what another one came to know since that was forked.
    pub(crate) fn learn_from(&mut self, other: &Known) -> Result<(), AllocError>
        ensures { OnOk result (IsTaught other.now self.old self.new) }
    {
        let mut all = self.all.copy()?;
        all.add_all(&other.since)?;
        let mut since = self.since.copy()?;
        since.add_all(&other.since)?;
        self.all = all;
        self.since = since;
        Ok(())
    }
}
