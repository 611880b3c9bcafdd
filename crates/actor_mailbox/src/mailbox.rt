ghost use Rattle.std.specs.Prelude.{◌≡◌, ◌&&◌, ◌+◌, ◌<◌, ◌≤◌, [], ◌∷◌, ◌++◌, IsOk, OnOk, MatchOption, MatchResult, Some, count_by, length, position, slice_get, take, true};
ghost use Rattle.std.specs.List.{list_any};
ghost use Rattle.value_core.specs.Named.{same_name, Name as Called};
ghost use Rattle.actor_mailbox.specs.BySender.{may_follow, may_lead, AreSortedTo, IsBySender, IsPlaceFor, SendersRise};
ghost use Rattle.actor_mailbox.specs.Messages.{depends_on, from, is_from, settle, settle_first, without, without_first};
ghost use Rattle.actor_mailbox.specs.Unsettled.{is_unsettled, unsettled_of};

use crate::message::Message;
use std::alloc::{AllocError, Global};
use std::collections::VecDeque;
use std::marker::Model;
use value_core::Name;

/// The messages that have arrived at an actor, in the order in which they arrived until they are sorted. Contracts see them
/// with the room: so many messages more can be put and no memory is taken.
#[derive(Drop)]
pub struct Mailbox {
    messages: VecDeque<Message>,
    // The senders of so many messages from the front rise.
    sorted: usize,
}

impl Model for Mailbox {
    ghost use Rattle.std.specs.Prelude.{◌-◌};
    ghost use Rattle.std.specs.VecDeque.{deque_capacity, deque_len};
    ghost use Rattle.value_core.specs.Roomy.{Roomy, roomy_code};
    ghost use Rattle.actor_mailbox.specs.BySender.{AreSortedTo};
    ghost use Rattle.actor_mailbox.specs.contracts.message.Message as message;
    ghost use Rattle.actor_mailbox.specs.declared.message.Message.{Message};

    ghost Value = { Roomy Message };

    ghost coded = { roomy_code (message.the_row).coded };

    ghost view = { λ m. record { items = m.messages.items; room = deque_capacity m.messages - deque_len m.messages } };

    ghost invariant = { λ m. AreSortedTo m.sorted m.messages.items };
}

impl Mailbox {
    /// No messages. It takes no memory.
    pub fn new(alloc: Global) -> Self
        ensures { result.items ≡ [] }
    {
        Mailbox {
            messages: VecDeque::new(alloc),
            sorted: 0,
        }
    }

    /// Makes room for `more` further messages, or finds no memory. The messages stay, and the room does not shrink.
    pub fn reserve(&mut self, more: usize) -> Result<(), AllocError>
        ensures items { self.new.items ≡ self.old.items }
        ensures room { OnOk result (more ≤ self.new.room) }
        ensures kept { self.old.room ≤ self.new.room }
        ensures succeeds { more ≤ self.old.room → IsOk result }
    {
        self.messages.reserve(more)
    }

    /// Appends the message. Where there is room it takes no memory, and succeeds. For want of memory it hands the
    /// message back, and the messages stay.
    pub fn put(&mut self, message: Message) -> Result<(), Message>
        ensures put { MatchResult result (λ _. self.new.items ≡ self.old.items ++ message ∷ []) (λ back. (self.new.items ≡ self.old.items) × (back ≡ message)) }
        ensures room { 0 < self.old.room → IsOk result × (self.old.room ≤ self.new.room + 1) }
    {
        let rises = self.sorted == self.messages.len() && follows(&self.messages, &message.sender);
        self.messages
            .push_back(message)
            .map_err(|refused| refused.value)?;
        if rises {
            self.sorted += 1;
        }
        Ok(())
    }

    /// Puts the message before the others. Where there is room it takes no memory, and succeeds. For want of memory it
    /// hands the message back, and the messages stay.
    pub fn put_first(&mut self, message: Message) -> Result<(), Message>
        ensures put { MatchResult result (λ _. self.new.items ≡ message ∷ self.old.items) (λ back. (self.new.items ≡ self.old.items) × (back ≡ message)) }
        ensures room { 0 < self.old.room → IsOk result × (self.old.room ≤ self.new.room + 1) }
    {
        let rises = leads(&self.messages, &message.sender);
        self.messages
            .push_front(message)
            .map_err(|refused| refused.value)?;
        self.sorted = if rises { self.sorted + 1 } else { 1 };
        Ok(())
    }

    /// The message that arrived first, and none exactly where there is none.
    pub fn front(&self) -> Option<&Message>
        ensures { MatchOption result (self.now.items ≡ []) (λ message. slice_get self.now.items 0 ≡ Some message.now) }
    {
        self.messages.front()
    }

    /// Takes the message that arrived first, and none exactly where there is none. It takes no memory.
    pub fn take(&mut self) -> Option<Message>
        ensures taken { MatchOption result ((self.old.items ≡ []) × (self.new.items ≡ [])) (λ message. self.old.items ≡ message ∷ self.new.items) }
        ensures room { self.old.room ≤ self.new.room }
    {
        self.sorted = self.sorted.saturating_sub(1);
        self.messages.pop_front()
    }

    /// Takes the first message of that sender, and none exactly where there is none. The others stay. It takes no memory.
    pub fn take_of(&mut self, sender: &Name) -> Option<Message>
        ensures taken { MatchOption result (from sender.now self.old.items ≡ []) (λ message. from sender.now self.old.items ≡ message ∷ from sender.now self.new.items) }
        ensures items { self.new.items ≡ without_first (is_from sender.now) self.old.items }
        ensures room { self.old.room ≤ self.new.room }
    {
        match place_of(&self.messages, sender) {
            Some(place) => {
                self.sorted = self.sorted.saturating_sub(1);
                self.messages.remove(place)
            }
            None => None,
        }
    }

    /// Makes the messages that depend on that name definite, in their places. It takes no memory.
    pub fn settle(&mut self, name: &Name)
        ensures items { self.new.items ≡ settle (same_name name.now) self.old.items }
        ensures room { self.new.room ≡ self.old.room }
    {
        settle_all(self.messages.make_contiguous(), name);
    }

    /// Makes the first message that depends on that name definite, in its place. It is false, with nothing changed,
    /// exactly where there is none. It takes no memory.
    pub fn settle_first(&mut self, name: &Name) -> bool
        ensures found { result ≡ list_any (depends_on (same_name name.now)) self.old.items }
        ensures items { self.new.items ≡ settle_first (same_name name.now) self.old.items }
        ensures room { self.new.room ≡ self.old.room }
    {
        settle_one_of(self.messages.make_contiguous(), name)
    }

    /// Removes the messages that depend on that name. It takes no memory.
    pub fn drop_of(&mut self, name: &Name)
        ensures items { self.new.items ≡ without (same_name name.now) self.old.items }
        ensures room { self.old.room ≤ self.new.room }
    {
        let rise = self.sorted == self.messages.len();
        self.messages.retain(|message| !message.depends_on(name));
        self.sorted = if rise { self.messages.len() } else { 0 };
    }

    /// Removes the messages that are not settled. It takes no memory.
    pub fn drop_unsettled(&mut self)
        ensures items { self.new.items ≡ without (λ on. true) self.old.items }
        ensures room { self.old.room ≤ self.new.room }
    {
        let rise = self.sorted == self.messages.len();
        self.messages.retain(|message| !message.is_unsettled());
        self.sorted = if rise { self.messages.len() } else { 0 };
    }

    /// Puts the messages in the after-order of their senders; those of one sender stay in their order. It takes no memory,
    /// and touches a few words where they stand so already.
    pub fn sort(&mut self)
        ensures sorted { IsBySender self.old.items self.new.items }
        ensures room { self.new.room ≡ self.old.room }
    {
        if self.sorted < self.messages.len() {
            sort_behind(self.messages.make_contiguous(), self.sorted);
            self.sorted = self.messages.len();
        }
    }

    /// How many messages of that sender are not settled.
    pub fn unsettled_of(&self, sender: &Name) -> usize
        ensures { result ≡ length (unsettled_of sender.now self.now.items) }
    {
        count_unsettled(&self.messages, sender)
    }
}

/// How many messages of that sender are not settled.
fn count_unsettled(messages: &VecDeque<Message>, sender: &Name) -> usize
    ensures { result ≡ count_by (λ m. is_from sender.now m && is_unsettled m) messages.now.items }
{
    messages
        .iter()
        .filter(|message| message.is_from(sender) && message.is_unsettled())
        .count()
}

/// The place of the first message of that sender.
fn place_of(messages: &VecDeque<Message>, sender: &Name) -> Option<usize>
    ensures { result ≡ position (is_from sender.now) messages.now.items }
{
    messages.iter().position(|message| message.is_from(sender))
}

fn settle_all(messages: &mut [Message], name: &Name)
    ensures { messages.new ≡ settle (same_name name.now) messages.old }
{
    for message in messages.iter_mut() {
        message.settle(name);
    }
}

/// The place of the first message that depends on that name.
fn place_on(messages: &[Message], name: &Name) -> Option<usize>
    ensures { result ≡ position (depends_on (same_name name.now)) messages.now }
{
    messages.iter().position(|message| message.depends_on(name))
}

fn settle_one_of(messages: &mut [Message], name: &Name) -> bool
    ensures found { result ≡ list_any (depends_on (same_name name.now)) messages.old }
    ensures items { messages.new ≡ settle_first (same_name name.now) messages.old }
{
    match place_on(messages, name) {
        Some(place) => {
            messages[place].depends = None;
            true
        }
        None => false,
    }
}

/// Whether a message of that sender may stand before the messages.
fn leads(messages: &VecDeque<Message>, sender: &Name) -> bool
    ensures { result ≡ may_lead sender.now messages.now.items }
{
    match messages.front() {
        Some(next) => !sender.cmp_after(&next.sender).is_gt(),
        None => true,
    }
}

/// Whether a message of that sender may stand behind the messages.
fn follows(messages: &VecDeque<Message>, sender: &Name) -> bool
    ensures { result ≡ may_follow messages.now.items sender.now }
{
    match messages.back() {
        Some(last) => !last.comes_after(sender),
        None => true,
    }
}

/// Puts each message behind the first `sorted`, which stand by sender, at its place among those before it.
fn sort_behind(messages: &mut [Message], sorted: usize)
    requires { AreSortedTo sorted messages.old }
    ensures { IsBySender messages.old messages.new }
{
    for at in sorted..messages.len() {
        insert(messages, at);
    }
}

/// Puts the message there at its place among those before it, which stand by sender: behind those of its own sender.
fn insert(messages: &mut [Message], at: usize)
    requires within { at < length messages.old }
    requires rises { SendersRise (take at messages.old) }
    ensures same { (sender : Called) → from sender messages.new ≡ from sender messages.old }
    ensures rises { SendersRise (take (at + 1) messages.new) }
    ensures length { length messages.new ≡ length messages.old }
{
    let all = &messages[..];
    let place = place_for(&all[..at], &all[at].sender);
    messages[place..=at].rotate_right(1);
}

/// Where a message of that sender comes among the messages: behind those of the same sender.
fn place_for(sorted: &[Message], sender: &Name) -> usize
    ensures { IsPlaceFor sender.now sorted.now result }
{
    let mut place = sorted.len();
    while place > 0 && sorted[place - 1].comes_after(sender) {
        place -= 1;
    }
    place
}
