ghost use Rattle.std.specs.Prelude.{◌≡◌, if◌then◌else◌, ◌↔◌, ◌+◌, ◌<◌, ◌≤◌, [], ◌∷◌, ◌++◌, length, IfOk, IsOk, IsTrue, MatchOption, None, OnErr, OnOk, Some, slice_get, true};
ghost use Rattle.std.specs.List.{list_any};
ghost use Rattle.std.specs.Option.{option_copied};
ghost use Rattle.std.specs.Range.Bound.{bound_map};
ghost use Rattle.actor_mailbox.specs.BySender.{IsBySender};
ghost use Rattle.actor_mailbox.specs.Messages.{depends_on, settle_first, without};
ghost use Rattle.actor_mailbox.specs.Unsettled.{unsettled_of};
ghost use Rattle.value_core.specs.Named.{named, same_name, Name as Called, Rises};
ghost use Rattle.actor_mails.specs.Mails.{held, mail_at, room_at, IsMailed, KeepsRoom, KeepsRoomBut, NoMail, SameMailBut};
ghost use Rattle.actor_mails.specs.Firsts.{bound_with, start_bound, IsBounded, IsFirstWithMail};

use actor_mailbox::{Mailbox, Message};
use std::alloc::{AllocError, Global};
use std::collections::{BTreeMap, Bound};
use std::marker::Model;
use value_core::{Name, name_map};

/// The mail of each actor, by its name. Contracts see the messages that wait for an actor, in order of arrival until they
/// are sorted, and for how many more there is room.
#[derive(Drop)]
pub struct Mails {
    boxes: BTreeMap<Name, Mailbox>,
    // no actor that comes before it in after-order has mail
    start: Option<Name>,
}

impl Model for Mails {
    ghost use Rattle.actor_mails.specs.Firsts.{IsBounded};
    ghost use Rattle.actor_mails.specs.Mails.{boxes_code, Boxes};

    ghost Value = { Boxes };

    ghost coded = { boxes_code };

    ghost view = { λ m. m.boxes.entries };

    ghost invariant = { λ m. IsBounded m.start m.boxes.entries };
}

impl Mails {
    /// Nobody has mail. It takes no memory.
    pub fn new(alloc: Global) -> Self
        ensures { held result ≡ [] }
    {
        Mails {
            boxes: BTreeMap::new(alloc),
            start: None,
        }
    }

    /// Makes room for `more` further messages to that actor, or finds no memory; where there is room it takes none. All
    /// mail stays, and no actor has less room.
    pub fn reserve(&mut self, alloc: Global, to: &Name, more: usize) -> Result<(), AllocError>
        ensures mail { held self.new ≡ held self.old }
        ensures room { OnOk result (more ≤ room_at self.new to.now) }
        ensures kept { KeepsRoom self.old self.new }
        ensures succeeds { more ≤ room_at self.old to.now → IsOk result }
    {
        reserve(&mut self.boxes, alloc, to, more)
    }

    /// Puts the message behind those that wait for that actor, for which there must be room. The mail and the room of the
    /// others stay. It takes no memory.
    pub fn put(&mut self, to: &Name, message: Message)
        requires { 0 < room_at self.old to.now }
        ensures mail { IsMailed to.now (mail_at (held self.old) to.now ++ message ∷ []) (held self.old) (held self.new) }
        ensures room { room_at self.old to.now ≤ room_at self.new to.now + 1 }
        ensures kept { KeepsRoomBut to.now self.old self.new }
    {
        put(&mut self.boxes, to, message);
        move_bound(&mut self.start, to);
    }

    /// Puts the message before those that wait for that actor, for which there must be room. The mail and the room of the
    /// others stay. It takes no memory.
    pub fn put_first(&mut self, to: &Name, message: Message)
        requires { 0 < room_at self.old to.now }
        ensures mail { IsMailed to.now (message ∷ mail_at (held self.old) to.now) (held self.old) (held self.new) }
        ensures room { room_at self.old to.now ≤ room_at self.new to.now + 1 }
        ensures kept { KeepsRoomBut to.now self.old self.new }
    {
        put_first(&mut self.boxes, to, message);
        move_bound(&mut self.start, to);
    }

    /// Puts the message behind those that wait for that actor, or finds no memory. The mail of the others stays, and all
    /// mail does for want of memory; no other actor has less room.
    pub fn push(&mut self, alloc: Global, to: &Name, message: Message) -> Result<(), AllocError>
        ensures mail { OnOk result (IsMailed to.now (mail_at (held self.old) to.now ++ message ∷ []) (held self.old) (held self.new)) }
        ensures same { OnErr result (held self.new ≡ held self.old) }
        ensures room { room_at self.old to.now ≤ room_at self.new to.now + 1 }
        ensures kept { KeepsRoomBut to.now self.old self.new }
    {
        self.reserve(alloc, to, 1)?;
        self.put(to, message);
        Ok(())
    }

    /// Puts the messages of a mailbox, in their order, behind those that wait for that actor, for which there must be room.
    /// The mail and the room of the others stay. It takes no memory.
    pub fn append(&mut self, to: &Name, more: Mailbox)
        requires { length more.items ≤ room_at self.old to.now }
        ensures mail { IsMailed to.now (mail_at (held self.old) to.now ++ more.items) (held self.old) (held self.new) }
        ensures room { room_at self.old to.now ≤ room_at self.new to.now + length more.items }
        ensures kept { KeepsRoomBut to.now self.old self.new }
    {
        append(&mut self.boxes, to, more);
        move_bound(&mut self.start, to);
    }

    /// The message that has waited longest for that actor, and none exactly where none waits. It takes no memory.
    pub fn front(&self, actor: &Name) -> Option<&Message>
        ensures { MatchOption result (mail_at (held self.now) actor.now ≡ []) (λ message. slice_get (mail_at (held self.now) actor.now) 0 ≡ Some message.now) }
    {
        match name_map::find(&self.boxes, actor) {
            Some(mailbox) => mailbox.front(),
            None => None,
        }
    }

    /// Whether no message waits for anybody. It takes no memory.
    pub fn is_empty(&self) -> bool
        ensures { IsTrue result ↔ NoMail (held self.now) }
    {
        are_empty(&self.boxes)
    }

    /// The first actor in after-order for which a message waits. None exactly where nobody has mail. All mail and room stay,
    /// also for want of memory. It takes few steps over a run: each box is passed once until mail comes to an actor before
    /// it.
    pub fn first_with_mail(&mut self, alloc: Global) -> Result<Option<Name>, AllocError>
        ensures kept { self.new ≡ self.old }
        ensures first { IfOk result (λ found. MatchOption found (NoMail (held self.old)) (IsFirstWithMail (held self.old))) }
    {
        match copy_first(&self.boxes, alloc, self.start.as_ref())? {
            Some(first) => {
                self.start = Some(first.copy(alloc)?);
                Ok(Some(first))
            }
            None => Ok(None),
        }
    }

    /// Takes the message that has waited longest for that actor, and none exactly where none waits. The mail of the others
    /// stays, and no actor has less room. It takes no memory.
    pub fn take(&mut self, actor: &Name) -> Option<Message>
        ensures taken { MatchOption result ((mail_at (held self.old) actor.now ≡ []) × (held self.new ≡ held self.old)) (λ message. (mail_at (held self.old) actor.now ≡ message ∷ mail_at (held self.new) actor.now) × SameMailBut actor.now (held self.old) (held self.new)) }
        ensures room { KeepsRoom self.old self.new }
    {
        take(&mut self.boxes, actor)
    }

    /// Puts the messages that wait for that actor in the after-order of their senders; those of one sender stay in their
    /// order. The mail of the others stays, and no actor has less room. It takes no memory, and touches a few words where
    /// the messages stand so already.
    pub fn sort(&mut self, actor: &Name)
        ensures mail { IsBySender (mail_at (held self.old) actor.now) (mail_at (held self.new) actor.now) }
        ensures others { SameMailBut actor.now (held self.old) (held self.new) }
        ensures room { KeepsRoom self.old self.new }
    {
        sort(&mut self.boxes, actor);
    }

    /// The boxes by name; the mail is given up for them.
    pub fn into_boxes(self) -> BTreeMap<Name, Mailbox>
        ensures boxes { result.entries ≡ self }
        ensures rises { Rises result.entries }
    {
        self.boxes
    }

    /// Makes the first message that waits for that actor and depends on that name definite, in its place. It is false, with
    /// nothing changed, exactly where there is none. The mail of the others stays, and no actor has less room. It takes no
    /// memory.
    pub fn settle_first(&mut self, to: &Name, on: &Name) -> bool
        ensures found { result ≡ list_any (depends_on (same_name on.now)) (mail_at (held self.old) to.now) }
        ensures mail { IsMailed to.now (settle_first (same_name on.now) (mail_at (held self.old) to.now)) (held self.old) (held self.new) }
        ensures room { KeepsRoom self.old self.new }
    {
        settle_in(&mut self.boxes, to, on)
    }

    /// Removes the messages that wait for that actor and depend on that name. The mail of the others stays, and no actor has
    /// less room. It takes no memory.
    pub fn drop_of(&mut self, to: &Name, on: &Name)
        ensures mail { IsMailed to.now (without (same_name on.now) (mail_at (held self.old) to.now)) (held self.old) (held self.new) }
        ensures room { KeepsRoom self.old self.new }
    {
        drop_in(&mut self.boxes, to, on);
    }

    /// Removes the messages that are not settled, whoever they wait for. No actor has less room. It takes no memory.
    pub fn drop_unsettled(&mut self)
        ensures mail { (actor : Called) → mail_at (held self.new) actor ≡ without (λ on. true) (mail_at (held self.old) actor) }
        ensures room { KeepsRoom self.old self.new }
    {
        drop_unsettled(&mut self.boxes);
    }

    /// How many of the messages that wait for that actor are of the sender and not settled.
    pub fn unsettled_of(&self, actor: &Name, sender: &Name) -> usize
        ensures { result ≡ length (unsettled_of sender.now (mail_at (held self.now) actor.now)) }
    {
        match name_map::find(&self.boxes, actor) {
            Some(mailbox) => mailbox.unsettled_of(sender),
            None => 0,
        }
    }
}

fn reserve(
    boxes: &mut BTreeMap<Name, Mailbox>,
    alloc: Global,
    to: &Name,
    more: usize,
) -> Result<(), AllocError>
    ensures mail { held boxes.new.entries ≡ held boxes.old.entries }
    ensures room { OnOk result (more ≤ room_at boxes.new.entries to.now) }
    ensures kept { KeepsRoom boxes.old.entries boxes.new.entries }
    ensures succeeds { more ≤ room_at boxes.old.entries to.now → IsOk result }
    ensures rises { Rises boxes.old.entries → Rises boxes.new.entries }
{
    match boxes.get_mut(to) {
        Some(mailbox) => mailbox.reserve(more),
        None => {
            if more == 0 {
                return Ok(());
            }
            add_box(boxes, alloc, to, more)
        }
    }
}

/// Gives the actor a box of its own, with room for so many messages.
fn add_box(
    boxes: &mut BTreeMap<Name, Mailbox>,
    alloc: Global,
    to: &Name,
    room: usize,
) -> Result<(), AllocError>
    requires { named to.now boxes.old.entries ≡ None }
    ensures mail { held boxes.new.entries ≡ held boxes.old.entries }
    ensures room { OnOk result (room ≤ room_at boxes.new.entries to.now) }
    ensures kept { KeepsRoom boxes.old.entries boxes.new.entries }
    ensures rises { Rises boxes.old.entries → Rises boxes.new.entries }
{
    let mut mailbox = Mailbox::new(alloc);
    mailbox.reserve(room)?;
    name_map::put(boxes, to.copy(alloc)?, mailbox)
}

fn put(boxes: &mut BTreeMap<Name, Mailbox>, to: &Name, message: Message)
    requires { 0 < room_at boxes.old.entries to.now }
    ensures mail { IsMailed to.now (mail_at (held boxes.old.entries) to.now ++ message ∷ []) (held boxes.old.entries) (held boxes.new.entries) }
    ensures room { room_at boxes.old.entries to.now ≤ room_at boxes.new.entries to.now + 1 }
    ensures kept { KeepsRoomBut to.now boxes.old.entries boxes.new.entries }
    ensures rises { Rises boxes.old.entries → Rises boxes.new.entries }
{
    if let Some(mailbox) = boxes.get_mut(to) {
        put_last(mailbox, message);
    }
}

/// Puts the message behind those of the mailbox, which has room for it.
fn put_last(mailbox: &mut Mailbox, message: Message)
    requires { 0 < mailbox.old.room }
    ensures items { mailbox.new.items ≡ mailbox.old.items ++ message ∷ [] }
    ensures room { mailbox.old.room ≤ mailbox.new.room + 1 }
{
    let _ = mailbox.put(message);
}

fn put_first(boxes: &mut BTreeMap<Name, Mailbox>, to: &Name, message: Message)
    requires { 0 < room_at boxes.old.entries to.now }
    ensures mail { IsMailed to.now (message ∷ mail_at (held boxes.old.entries) to.now) (held boxes.old.entries) (held boxes.new.entries) }
    ensures room { room_at boxes.old.entries to.now ≤ room_at boxes.new.entries to.now + 1 }
    ensures kept { KeepsRoomBut to.now boxes.old.entries boxes.new.entries }
    ensures rises { Rises boxes.old.entries → Rises boxes.new.entries }
{
    if let Some(mailbox) = boxes.get_mut(to) {
        put_before(mailbox, message);
    }
}

/// Puts the message before those of the mailbox, which has room for it.
fn put_before(mailbox: &mut Mailbox, message: Message)
    requires { 0 < mailbox.old.room }
    ensures items { mailbox.new.items ≡ message ∷ mailbox.old.items }
    ensures room { mailbox.old.room ≤ mailbox.new.room + 1 }
{
    let _ = mailbox.put_first(message);
}

/// Removes what is not settled from each box.
fn drop_unsettled(boxes: &mut BTreeMap<Name, Mailbox>)
    ensures mail { (actor : Called) → mail_at (held boxes.new.entries) actor ≡ without (λ on. true) (mail_at (held boxes.old.entries) actor) }
    ensures room { KeepsRoom boxes.old.entries boxes.new.entries }
    ensures rises { Rises boxes.old.entries → Rises boxes.new.entries }
{
    boxes.retain(|_, mailbox| {
        mailbox.drop_unsettled();
        true
    });
}

fn append(boxes: &mut BTreeMap<Name, Mailbox>, to: &Name, more: Mailbox)
    requires { length more.items ≤ room_at boxes.old.entries to.now }
    ensures mail { IsMailed to.now (mail_at (held boxes.old.entries) to.now ++ more.items) (held boxes.old.entries) (held boxes.new.entries) }
    ensures room { room_at boxes.old.entries to.now ≤ room_at boxes.new.entries to.now + length more.items }
    ensures kept { KeepsRoomBut to.now boxes.old.entries boxes.new.entries }
    ensures rises { Rises boxes.old.entries → Rises boxes.new.entries }
{
    if let Some(mailbox) = boxes.get_mut(to) {
        move_into(mailbox, more);
    }
}

/// Moves all messages of the one mailbox behind those of the other, which has room for them.
fn move_into(mailbox: &mut Mailbox, mut more: Mailbox)
    requires { length more.items ≤ mailbox.old.room }
    ensures items { mailbox.new.items ≡ mailbox.old.items ++ more.items }
    ensures room { mailbox.old.room ≤ mailbox.new.room + length more.items }
{
    while let Some(message) = more.take() {
        put_last(mailbox, message);
    }
}

/// Whether no box has a message.
fn are_empty(boxes: &BTreeMap<Name, Mailbox>) -> bool
    ensures { IsTrue result ↔ NoMail (held boxes.now.entries) }
{
    for mailbox in boxes.values() {
        if mailbox.front().is_some() {
            return false;
        }
    }
    true
}

/// A copy of the first actor whose box has a message, where none has one before the bound.
fn copy_first(
    boxes: &BTreeMap<Name, Mailbox>,
    alloc: Global,
    start: Option<&Name>,
) -> Result<Option<Name>, AllocError>
    requires { IsBounded (option_copied start) boxes.now.entries }
    ensures { IfOk result (λ found. MatchOption found (NoMail (held boxes.now.entries)) (IsFirstWithMail (held boxes.now.entries))) }
{
    match first_from(boxes, start) {
        Some(first) => Ok(Some(first.copy(alloc)?)),
        None => Ok(None),
    }
}

/// The first actor whose box has a message, where none has one before the bound.
fn first_from<'a>(boxes: &'a BTreeMap<Name, Mailbox>, start: Option<&Name>) -> Option<&'a Name>
    requires { IsBounded (option_copied start) boxes.now.entries }
    ensures { MatchOption (option_copied result) (NoMail (held boxes.now.entries)) (IsFirstWithMail (held boxes.now.entries)) }
{
    for (next, mailbox) in boxes.range((bound_of(start), Bound::Unbounded)) {
        if mailbox.front().is_some() {
            return Some(next);
        }
    }
    None
}

/// From where on the names don't come before the bound.
fn bound_of(start: Option<&Name>) -> Bound<&Name>
    ensures { bound_map (λ q. q.now) result ≡ start_bound (option_copied start.entry) }
{
    match start {
        Some(actor) => Bound::Included(actor),
        None => Bound::Unbounded,
    }
}

/// Gives the bound up where the actor comes before it.
fn move_bound(start: &mut Option<Name>, to: &Name)
    ensures { start.new ≡ bound_with to.now start.old }
{
    if is_before(start, to) {
        *start = None;
    }
}

/// Whether the actor comes before the bound.
fn is_before(start: &Option<Name>, to: &Name) -> bool
    ensures { bound_with to.now start.now ≡ if result then None else start.now }
{
    match start {
        Some(actor) => to.cmp_after(actor).is_lt(),
        None => false,
    }
}

fn sort(boxes: &mut BTreeMap<Name, Mailbox>, actor: &Name)
    ensures mail { IsBySender (mail_at (held boxes.old.entries) actor.now) (mail_at (held boxes.new.entries) actor.now) }
    ensures others { SameMailBut actor.now (held boxes.old.entries) (held boxes.new.entries) }
    ensures room { KeepsRoom boxes.old.entries boxes.new.entries }
    ensures rises { Rises boxes.old.entries → Rises boxes.new.entries }
{
    if let Some(mailbox) = boxes.get_mut(actor) {
        mailbox.sort();
    }
}

fn take(boxes: &mut BTreeMap<Name, Mailbox>, actor: &Name) -> Option<Message>
    ensures taken { MatchOption result ((mail_at (held boxes.old.entries) actor.now ≡ []) × (held boxes.new.entries ≡ held boxes.old.entries)) (λ message. (mail_at (held boxes.old.entries) actor.now ≡ message ∷ mail_at (held boxes.new.entries) actor.now) × SameMailBut actor.now (held boxes.old.entries) (held boxes.new.entries)) }
    ensures room { KeepsRoom boxes.old.entries boxes.new.entries }
    ensures rises { Rises boxes.old.entries → Rises boxes.new.entries }
{
    match boxes.get_mut(actor) {
        Some(mailbox) => mailbox.take(),
        None => None,
    }
}

fn settle_in(boxes: &mut BTreeMap<Name, Mailbox>, to: &Name, on: &Name) -> bool
    ensures found { result ≡ list_any (depends_on (same_name on.now)) (mail_at (held boxes.old.entries) to.now) }
    ensures mail { IsMailed to.now (settle_first (same_name on.now) (mail_at (held boxes.old.entries) to.now)) (held boxes.old.entries) (held boxes.new.entries) }
    ensures room { KeepsRoom boxes.old.entries boxes.new.entries }
    ensures rises { Rises boxes.old.entries → Rises boxes.new.entries }
{
    match boxes.get_mut(to) {
        Some(mailbox) => mailbox.settle_first(on),
        None => false,
    }
}

fn drop_in(boxes: &mut BTreeMap<Name, Mailbox>, to: &Name, on: &Name)
    ensures mail { IsMailed to.now (without (same_name on.now) (mail_at (held boxes.old.entries) to.now)) (held boxes.old.entries) (held boxes.new.entries) }
    ensures room { KeepsRoom boxes.old.entries boxes.new.entries }
    ensures rises { Rises boxes.old.entries → Rises boxes.new.entries }
{
    if let Some(mailbox) = boxes.get_mut(to) {
        mailbox.drop_of(on);
    }
}
