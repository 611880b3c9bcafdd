use crate::messages::{message, name, number_of};
use actor_mailbox::Mailbox;
use std::alloc::{AllocError, Global};
use std::test::Fail;

/// Messages 1 to 5: 1 and 4 of sender 0, the others of sender 1; 1, 3 and 4 depend on 7, and 5 on 8.
fn five_messages(alloc: Global) -> Result<Mailbox, AllocError> {
    let mut mailbox = Mailbox::new(alloc);
    let table = [
        (0, 1, Some(7)),
        (1, 2, None),
        (1, 3, Some(7)),
        (0, 4, Some(7)),
        (1, 5, Some(8)),
    ];
    for (sender, number, depends) in table {
        mailbox
            .put(message(alloc, sender, number, depends)?)
            .map_err(|_| AllocError)?;
    }
    Ok(mailbox)
}

/// Whether the mailbox holds messages with these numbers, each definite or not, and no others. It takes them.
fn holds(mailbox: &mut Mailbox, expected: &[(i64, bool)]) -> bool {
    for (number, is_definite) in expected {
        match mailbox.take() {
            Some(message) => {
                if number_of(&message) != Some(*number)
                    || message.depends.is_none() != *is_definite
                {
                    return false;
                }
            }
            None => return false,
        }
    }
    mailbox.front().is_none()
}

#[test]
fn messages_are_taken_in_the_order_of_arrival(rt: HostRuntime) -> Result<(), Fail> {
    let mut mailbox = five_messages(rt.alloc())?;
    assert_eq!(rt; mailbox.front().and_then(number_of), Some(1));
    assert!(rt;
        holds(
            &mut mailbox,
            &[(1, false), (2, true), (3, false), (4, false), (5, false)],
        )
    );
    assert!(rt; mailbox.take().is_none());
    Ok(())
}

#[test]
fn all_that_depend_on_a_name_are_settled(rt: HostRuntime) -> Result<(), Fail> {
    let mut mailbox = five_messages(rt.alloc())?;
    mailbox.settle(&name(rt.alloc(), 7)?);
    assert!(rt;
        holds(
            &mut mailbox,
            &[(1, true), (2, true), (3, true), (4, true), (5, false)],
        )
    );
    Ok(())
}

#[test]
fn the_first_that_depends_on_a_name_is_settled(rt: HostRuntime) -> Result<(), Fail> {
    let mut mailbox = five_messages(rt.alloc())?;
    let seven = name(rt.alloc(), 7)?;
    assert!(rt; mailbox.settle_first(&seven));
    assert!(rt; mailbox.settle_first(&seven));
    assert!(rt; !mailbox.settle_first(&name(rt.alloc(), 9)?));
    assert!(rt;
        holds(
            &mut mailbox,
            &[(1, true), (2, true), (3, true), (4, false), (5, false)],
        )
    );
    Ok(())
}

#[test]
fn what_depends_on_a_name_is_dropped(rt: HostRuntime) -> Result<(), Fail> {
    let mut mailbox = five_messages(rt.alloc())?;
    mailbox.drop_of(&name(rt.alloc(), 7)?);
    assert!(rt; holds(&mut mailbox, &[(2, true), (5, false)]));
    Ok(())
}

#[test]
fn the_first_message_of_a_sender_is_taken(rt: HostRuntime) -> Result<(), Fail> {
    let mut mailbox = five_messages(rt.alloc())?;
    let sender = name(rt.alloc(), 1)?;
    assert_eq!(rt;
        mailbox.take_of(&sender).as_ref().and_then(number_of),
        Some(2)
    );
    assert_eq!(rt;
        mailbox.take_of(&sender).as_ref().and_then(number_of),
        Some(3)
    );
    assert!(rt; mailbox.take_of(&name(rt.alloc(), 2)?).is_none());
    assert!(rt; holds(&mut mailbox, &[(1, false), (4, false), (5, false)]));
    Ok(())
}

#[test]
fn a_message_is_put_before_the_others(rt: HostRuntime) -> Result<(), Fail> {
    let mut mailbox = five_messages(rt.alloc())?;
    mailbox.drop_of(&name(rt.alloc(), 7)?);
    mailbox.reserve(1)?;
    assert!(rt; mailbox.put_first(message(rt.alloc(), 0, 6, None)?).is_ok());
    assert!(rt; holds(&mut mailbox, &[(6, true), (2, true), (5, false)]));
    Ok(())
}

#[test]
fn messages_are_put_in_the_order_of_their_senders(rt: HostRuntime) -> Result<(), Fail> {
    let mut mailbox = five_messages(rt.alloc())?;
    mailbox.sort();
    mailbox.reserve(1)?;
    assert!(rt; mailbox.put(message(rt.alloc(), 0, 6, None)?).is_ok());
    mailbox.sort();
    assert!(rt;
        holds(
            &mut mailbox,
            &[
                (1, false),
                (4, false),
                (6, true),
                (2, true),
                (3, false),
                (5, false)
            ],
        )
    );
    Ok(())
}
