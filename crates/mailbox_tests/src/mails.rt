ghost use Rattle.std.specs.Prelude.{◌≡◌, length, IfOk};

use crate::messages::{message, name, number_of};
use actor_mailbox::Mailbox;
use actor_mails::Mails;
use std::alloc::{AllocError, Global};
use std::test::Fail;

/// Messages 1 and 3 for actor 0, and message 2 for actor 1.
fn mail_of_two(alloc: Global) -> Result<Mails, AllocError> {
    let mut mails = Mails::new(alloc);
    for (to, number) in [(0, 1), (1, 2), (0, 3)] {
        mails.push(alloc, &name(alloc, to)?, message(alloc, 7, number, None)?)?;
    }
    Ok(mails)
}

/// Messages 4 and 5 in a mailbox.
fn two_more(alloc: Global) -> Result<Mailbox, AllocError>
    ensures { IfOk result (λ more. length more.items ≡ 2) }
{
    let mut more = Mailbox::new(alloc);
    more.put(message(alloc, 7, 4, None)?)
        .map_err(|_| AllocError)?;
    more.put(message(alloc, 7, 5, None)?)
        .map_err(|_| AllocError)?;
    Ok(more)
}

/// Whether messages with these numbers wait for the actor, and no others. It takes them.
fn has_mail(
    alloc: Global,
    mails: &mut Mails,
    actor: u32,
    expected: &[i64],
) -> Result<bool, AllocError> {
    let actor = name(alloc, actor)?;
    for number in expected {
        if mails.take(&actor).as_ref().and_then(number_of) != Some(*number) {
            return Ok(false);
        }
    }
    Ok(mails.take(&actor).is_none())
}

#[test]
fn each_actor_takes_its_mail_in_the_order_of_arrival(rt: HostRuntime) -> Result<(), Fail> {
    let mut mails = mail_of_two(rt.alloc())?;
    assert!(rt; has_mail(rt.alloc(), &mut mails, 1, &[2])?);
    assert!(rt; has_mail(rt.alloc(), &mut mails, 0, &[1, 3])?);
    assert!(rt; has_mail(rt.alloc(), &mut mails, 2, &[])?);
    Ok(())
}

#[test]
fn the_front_is_what_has_waited_longest(rt: HostRuntime) -> Result<(), Fail> {
    let mut mails = mail_of_two(rt.alloc())?;
    let actor = name(rt.alloc(), 0)?;
    assert_eq!(rt; mails.front(&actor).and_then(number_of), Some(1));
    assert!(rt; mails.take(&actor).is_some());
    assert_eq!(rt; mails.front(&actor).and_then(number_of), Some(3));
    assert!(rt; mails.front(&name(rt.alloc(), 2)?).is_none());
    Ok(())
}

#[test]
fn nobody_has_mail_once_all_is_taken(rt: HostRuntime) -> Result<(), Fail> {
    let mut mails = mail_of_two(rt.alloc())?;
    assert!(rt; has_mail(rt.alloc(), &mut mails, 0, &[1, 3])?);
    assert!(rt; !mails.is_empty());
    assert!(rt; has_mail(rt.alloc(), &mut mails, 1, &[2])?);
    assert!(rt; mails.is_empty());
    Ok(())
}

#[test]
fn a_mailbox_is_appended_in_its_order(rt: HostRuntime) -> Result<(), Fail> {
    let mut mails = mail_of_two(rt.alloc())?;
    let more = two_more(rt.alloc())?;
    let actor = name(rt.alloc(), 1)?;
    mails.reserve(rt.alloc(), &actor, 2)?;
    mails.append(&actor, more);
    assert!(rt; has_mail(rt.alloc(), &mut mails, 1, &[2, 4, 5])?);
    assert!(rt; has_mail(rt.alloc(), &mut mails, 0, &[1, 3])?);
    Ok(())
}

#[test]
fn what_is_put_where_room_was_made_is_there(rt: HostRuntime) -> Result<(), Fail> {
    let mut mails = Mails::new(rt.alloc());
    let actor = name(rt.alloc(), 3)?;
    mails.reserve(rt.alloc(), &actor, 1)?;
    assert!(rt; mails.front(&actor).is_none());
    mails.put(&actor, message(rt.alloc(), 7, 1, None)?);
    let boxes = mails.into_boxes();
    assert_eq!(rt; boxes.len(), 1);
    assert_eq!(rt;
        boxes
            .get(&actor)
            .and_then(|mailbox| mailbox.front())
            .and_then(number_of),
        Some(1)
    );
    Ok(())
}

#[test]
fn the_first_actor_is_one_that_has_mail(rt: HostRuntime) -> Result<(), Fail> {
    let mut mails = mail_of_two(rt.alloc())?;
    assert!(rt; is_first(rt.alloc(), &mut mails, 0)?);
    assert!(rt; has_mail(rt.alloc(), &mut mails, 0, &[1, 3])?);
    assert!(rt; is_first(rt.alloc(), &mut mails, 1)?);
    let zero = name(rt.alloc(), 0)?;
    mails.push(rt.alloc(), &zero, message(rt.alloc(), 4, 4, None)?)?;
    assert!(rt; is_first(rt.alloc(), &mut mails, 0)?);
    assert!(rt; has_mail(rt.alloc(), &mut mails, 0, &[4])?);
    assert!(rt; has_mail(rt.alloc(), &mut mails, 1, &[2])?);
    assert!(rt; mails.first_with_mail(rt.alloc())?.is_none());
    Ok(())
}

fn is_first(alloc: Global, mails: &mut Mails, number: u32) -> Result<bool, AllocError> {
    let first = mails.first_with_mail(alloc)?;
    Ok(first == Some(name(alloc, number)?))
}

#[test]
fn the_mail_of_an_actor_is_sorted(rt: HostRuntime) -> Result<(), Fail> {
    let mut mails = mail_of_two(rt.alloc())?;
    let actor = name(rt.alloc(), 0)?;
    mails.push(rt.alloc(), &actor, message(rt.alloc(), 5, 4, None)?)?;
    mails.sort(&actor);
    assert!(rt; has_mail(rt.alloc(), &mut mails, 0, &[4, 1, 3])?);
    assert!(rt; has_mail(rt.alloc(), &mut mails, 1, &[2])?);
    Ok(())
}
