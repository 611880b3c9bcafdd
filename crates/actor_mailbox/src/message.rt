ghost use Rattle.std.specs.Prelude.{◌≡◌};
ghost use Rattle.value_core.specs.Named.{same_name};

use value_core::{Name, Values};

/// A message: the unit that sent it, its arguments, and the name of the transaction or turn that it depends on. It is
/// definite where it depends on nothing.
#[derive(Drop)]
pub struct Message {
    pub sender: Name,
    pub args: Values,
    pub depends: Option<Name>,
}

impl Message {
    ghost use Rattle.std.specs.Ordering.{is_gt};
    ghost use Rattle.value_core.specs.Name.{after_cmp};
    ghost use Rattle.actor_mailbox.specs.Messages.{depends_on, is_from, settle_one};
    ghost use Rattle.actor_mailbox.specs.Unsettled.{is_unsettled};

    /// Whether that unit sent it.
    pub(crate) fn is_from(&self, sender: &Name) -> bool
        ensures { result ≡ is_from sender.now self.now }
    {
        *sender == self.sender
    }

    /// Whether its sender comes after that one in after-order.
    pub(crate) fn comes_after(&self, sender: &Name) -> bool
        ensures { result ≡ is_gt (after_cmp self.now.sender sender.now) }
    {
        self.sender.cmp_after(sender).is_gt()
    }

    /// Whether it depends on that name.
    pub(crate) fn depends_on(&self, name: &Name) -> bool
        ensures { result ≡ depends_on (same_name name.now) self.now }
    {
        match &self.depends {
            Some(on) => name == on,
            None => false,
        }
    }

    /// Makes it definite where it depends on that name.
    pub(crate) fn settle(&mut self, name: &Name)
        ensures { self.new ≡ settle_one (same_name name.now) self.old }
    {
        if self.depends_on(name) {
            self.depends = None;
        }
    }

    /// Whether it depends on a name.
    pub(crate) fn is_unsettled(&self) -> bool
        ensures { result ≡ is_unsettled self.now }
    {
        match &self.depends {
            Some(_) => true,
            None => false,
        }
    }
}
