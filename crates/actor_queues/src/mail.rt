ghost use Rattle.std.specs.Prelude.{◌≡◌, ◌∷◌, ◌++◌, [], OnErr, OnOk, false, unwrap_or};
ghost use Rattle.std.specs.Option.{option_copied};
ghost use Rattle.value_core.specs.Named.{named, with_named};
ghost use Rattle.value_core.specs.NameSet.{holds_at, HasJust};
ghost use Rattle.serial_model.specs.First.{first_sender};
ghost use Rattle.actor_queues.specs.Waiting.{has_first, mail_of, waits, IsTakenFrom};

use std::alloc::{AllocError, Global};
use std::collections::{BTreeMap, BTreeSet, VecDeque};
use std::marker::Model;
use value_core::name_map::{find, put};
use value_core::name_set::{first, mark, remove};
use value_core::{Name, Values};

type BySender = BTreeMap<Name, VecDeque<Values>>;

/// The messages that wait for an actor, by the unit that sent them, each in the order in which it was sent. It finds the
/// first sender with a message.
#[derive(Drop)]
pub(crate) struct Mail {
    queues: BySender,
    waiting: BTreeSet<Name>,
}

impl Model for Mail {
    ghost use Rattle.std.specs.Prelude.{List};
    ghost use Rattle.value_core.specs.declared.value.Value.{Value as Datum};
    ghost use Rattle.value_core.specs.Named.{Named};
    ghost use Rattle.value_core.specs.NameSet.{HasJust};
    ghost use Rattle.actor_queues.specs.Waiting.{has_first, mail_code, mail_of};

    ghost Value = { Named (List (List Datum)) };

    ghost coded = { mail_code };

    ghost view = { λ m. mail_of m.queues };

    ghost invariant = { λ m. HasJust has_first m.waiting (mail_of m.queues) };
}

impl Mail {
    /// No messages.
    pub(crate) fn new(alloc: Global) -> Self
        ensures { result ≡ [] }
    {
        Mail {
            queues: BTreeMap::new(alloc),
            waiting: BTreeSet::new(alloc),
        }
    }

    /// The first sender that has a message.
    pub(crate) fn first(&self) -> Option<&Name>
        ensures { option_copied result ≡ first_sender self.now }
    {
        // tells that the names rise
        let _count = self.queues.len();
        first(&self.waiting)
    }

    /// Whether a message waits.
    pub(crate) fn has_message(&self) -> bool
        ensures { result ≡ waits self.now }
    {
        self.first().is_some()
    }

    /// Whether a message of that sender waits.
    pub(crate) fn has_message_of(&self, sender: &Name) -> bool
        ensures { result ≡ holds_at has_first (named sender.now self.now) }
    {
        self.waiting.contains(sender)
    }

    /// Appends the message behind those of its sender.
    pub(crate) fn append(
        &mut self,
        alloc: Global,
        sender: Name,
        message: Values,
    ) -> Result<(), AllocError>
        ensures appended { OnOk result (self.new ≡ with_named self.old sender (unwrap_or (named sender self.old) [] ++ message ∷ [])) }
        ensures same { OnErr result (self.new ≡ self.old) }
    {
        if self.has_message_of(&sender) {
            return append(&mut self.queues, alloc, sender, message);
        }
        append_first(&mut self.queues, &mut self.waiting, alloc, sender, message)
    }

    /// Takes the first message of that sender.
    pub(crate) fn take(&mut self, sender: &Name) -> Option<Values>
        ensures { IsTakenFrom self.old sender.now (unwrap_or (named sender.now self.old) []) self.new result }
    {
        let taken = take_from(&mut self.queues, sender);
        if !has_message(&self.queues, sender) {
            remove(&mut self.waiting, sender);
        }
        taken
    }
}

/// Appends a message of a sender that has none, and marks it. Where there is no memory, the mark is taken back.
fn append_first(
    queues: &mut BySender,
    waiting: &mut BTreeSet<Name>,
    alloc: Global,
    sender: Name,
    message: Values,
) -> Result<(), AllocError>
    requires none { holds_at has_first (named sender (mail_of queues.old)) ≡ false }
    requires marked { HasJust has_first waiting.old (mail_of queues.old) }
    ensures appended { OnOk result (mail_of queues.new ≡ with_named (mail_of queues.old) sender (unwrap_or (named sender (mail_of queues.old)) [] ++ message ∷ [])) }
    ensures same { OnErr result (mail_of queues.new ≡ mail_of queues.old) }
    ensures marked { HasJust has_first waiting.new (mail_of queues.new) }
{
    let marked = mark(waiting, alloc, &sender)?;
    match append(queues, alloc, sender, message) {
        Ok(()) => Ok(()),
        Err(error) => {
            remove(waiting, &marked);
            Err(error)
        }
    }
}

fn append(
    queues: &mut BySender,
    alloc: Global,
    sender: Name,
    message: Values,
) -> Result<(), AllocError>
    ensures appended { OnOk result (mail_of queues.new ≡ with_named (mail_of queues.old) sender (unwrap_or (named sender (mail_of queues.old)) [] ++ message ∷ [])) }
    ensures same { OnErr result (mail_of queues.new ≡ mail_of queues.old) }
{
    match queues.get_mut(&sender) {
        Some(queue) => push(queue, message),
        None => {
            let mut queue = VecDeque::new(alloc);
            push(&mut queue, message)?;
            put(queues, sender, queue)
        }
    }
}

fn push(queue: &mut VecDeque<Values>, message: Values) -> Result<(), AllocError>
    ensures pushed { OnOk result (queue.new.items ≡ queue.old.items ++ message ∷ []) }
    ensures same { OnErr result (queue.new.items ≡ queue.old.items) }
{
    match queue.push_back(message) {
        Ok(()) => Ok(()),
        Err(_) => Err(AllocError),
    }
}

fn take_from(queues: &mut BySender, sender: &Name) -> Option<Values>
    ensures { IsTakenFrom (mail_of queues.old) sender.now (unwrap_or (named sender.now (mail_of queues.old)) []) (mail_of queues.new) result }
{
    match queues.get_mut(sender) {
        Some(queue) => queue.pop_front(),
        None => None,
    }
}

fn has_message(queues: &BySender, sender: &Name) -> bool
    ensures { result ≡ holds_at has_first (named sender.now (mail_of queues.now)) }
{
    match find(queues, sender) {
        Some(queue) => !queue.is_empty(),
        None => false,
    }
}
