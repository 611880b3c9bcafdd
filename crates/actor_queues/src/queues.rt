ghost use Rattle.std.specs.Prelude.{◌≡◌, ◌∷◌, ◌++◌, [], OnErr, OnOk, false};
ghost use Rattle.std.specs.Option.{option_map};
ghost use Rattle.value_core.specs.Named.{named};
ghost use Rattle.value_core.specs.NameSet.{holds_at, HasJust};
ghost use Rattle.serial_model.specs.declared.entry.Entry.TheVariants as entry;
ghost use Rattle.serial_model.specs.First.{first_message};
ghost use Rattle.serial_model.specs.Step.{queue_of, with_queue};
ghost use Rattle.actor_queues.specs.Waiting.{has_first, waits, IsTaken};

use crate::mail::Mail;
use std::alloc::{AllocError, Global};
use std::collections::{BTreeMap, BTreeSet};
use std::marker::Model;
use value_core::name_map::{find, put};
use value_core::name_set::{first, mark, remove};
use value_core::{Name, Values};

/// The messages that wait, by the actor that they were sent to. It finds the first actor with a message.
#[derive(Drop)]
pub struct Queues {
    mails: BTreeMap<Name, Mail>,
    waiting: BTreeSet<Name>,
}

impl Model for Queues {
    ghost use Rattle.serial_model.specs.State.{Queues as Waiting};
    ghost use Rattle.value_core.specs.NameSet.{HasJust};
    ghost use Rattle.actor_queues.specs.Waiting.{queues_code, waits};

    ghost Value = { Waiting };

    ghost coded = { queues_code };

    ghost view = { λ q. q.mails.entries };

    ghost invariant = { λ q. HasJust waits q.waiting q.mails.entries };
}

impl Queues {
    /// No messages.
    pub fn new(alloc: Global) -> Self
        ensures { result ≡ [] }
    {
        Queues {
            mails: BTreeMap::new(alloc),
            waiting: BTreeSet::new(alloc),
        }
    }

    /// The first actor with a message, and the first of its senders.
    pub fn first(&self) -> Option<(&Name, &Name)>
        ensures { option_map (λ found. entry.Take found.0.now found.1.now) result ≡ first_message self.now }
    {
        // tells that the names rise
        let _count = self.mails.len();
        match first(&self.waiting) {
            Some(actor) => match find(&self.mails, actor) {
                Some(mail) => match mail.first() {
                    Some(sender) => Some((actor, sender)),
                    None => None,
                },
                None => None,
            },
            None => None,
        }
    }

    /// Whether that sender has a message there.
    pub fn has_message(&self, actor: &Name, sender: &Name) -> bool
        ensures { result ≡ has_first (queue_of self.now actor.now sender.now) }
    {
        match find(&self.mails, actor) {
            Some(mail) => mail.has_message_of(sender),
            None => false,
        }
    }

    /// Appends the message behind those of its sender.
    pub fn send(
        &mut self,
        alloc: Global,
        actor: Name,
        sender: Name,
        message: Values,
    ) -> Result<(), AllocError>
        ensures { OnOk result (self.new ≡ with_queue self.old actor sender (queue_of self.old actor sender ++ message ∷ [])) }
    {
        if self.waiting.contains(&actor) {
            return send(&mut self.mails, alloc, actor, sender, message);
        }
        send_first(
            &mut self.mails,
            &mut self.waiting,
            alloc,
            actor,
            sender,
            message,
        )
    }

    /// Takes the first message of that sender.
    pub fn take(&mut self, actor: &Name, sender: &Name) -> Option<Values>
        ensures { IsTaken self.old actor.now sender.now (queue_of self.old actor.now sender.now) self.new result }
    {
        let taken = take_first(&mut self.mails, actor, sender);
        if !has_mail(&self.mails, actor) {
            remove(&mut self.waiting, actor);
        }
        taken
    }
}

/// Appends a message to an actor that has none, and marks it. Where there is no memory, the mark is taken back.
fn send_first(
    mails: &mut BTreeMap<Name, Mail>,
    waiting: &mut BTreeSet<Name>,
    alloc: Global,
    actor: Name,
    sender: Name,
    message: Values,
) -> Result<(), AllocError>
    requires none { holds_at waits (named actor mails.old.entries) ≡ false }
    requires marked { HasJust waits waiting.old mails.old.entries }
    ensures sent { OnOk result (mails.new.entries ≡ with_queue mails.old.entries actor sender (queue_of mails.old.entries actor sender ++ message ∷ [])) }
    ensures marked { HasJust waits waiting.new mails.new.entries }
{
    let marked = mark(waiting, alloc, &actor)?;
    match send(mails, alloc, actor, sender, message) {
        Ok(()) => Ok(()),
        Err(error) => {
            remove(waiting, &marked);
            Err(error)
        }
    }
}

fn send(
    mails: &mut BTreeMap<Name, Mail>,
    alloc: Global,
    actor: Name,
    sender: Name,
    message: Values,
) -> Result<(), AllocError>
    ensures sent { OnOk result (mails.new.entries ≡ with_queue mails.old.entries actor sender (queue_of mails.old.entries actor sender ++ message ∷ [])) }
    ensures same { OnErr result (mails.new.entries ≡ mails.old.entries) }
{
    match mails.get_mut(&actor) {
        Some(mail) => mail.append(alloc, sender, message),
        None => {
            let mut mail = Mail::new(alloc);
            mail.append(alloc, sender, message)?;
            put(mails, actor, mail)
        }
    }
}

fn take_first(mails: &mut BTreeMap<Name, Mail>, actor: &Name, sender: &Name) -> Option<Values>
    ensures { IsTaken mails.old.entries actor.now sender.now (queue_of mails.old.entries actor.now sender.now) mails.new.entries result }
{
    match mails.get_mut(actor) {
        Some(mail) => mail.take(sender),
        None => None,
    }
}

fn has_mail(mails: &BTreeMap<Name, Mail>, actor: &Name) -> bool
    ensures { result ≡ holds_at waits (named actor.now mails.now.entries) }
{
    match find(mails, actor) {
        Some(mail) => mail.has_message(),
        None => false,
    }
}
