// Checks that any outbox over a hundred places passes, with clients that are sessions.
use clients::{Session, Subscriber, Token};
use outbox::{Content, Message, Outbox};
use protocol::{Code, Handle, Number, Refusal};
use std::array;
use std::process::Abort;
use std::test::Fail;

pub(crate) fn subscriber(session: u32) -> Result<Subscriber<Session>, Fail> {
    Ok(Subscriber {
        client: Session(session),
        token: Token::new(b"tk")?,
    })
}

pub(crate) fn content(number: u32) -> Content {
    Content {
        handle: Handle(1),
        code: Code::Content,
        number: Number(number),
        format: 50,
    }
}

// What a taker gets of a batch that was posted for a session.
fn message(session: u32, number: u32, len: usize) -> Result<Message<Session>, Fail> {
    Ok(Message {
        subscriber: subscriber(session)?,
        content: content(number),
        len,
    })
}

// Posts a batch for a number of equal subscribers, with a payload of equal bytes.
pub(crate) fn post<O: Outbox<Session>>(
    rt: &impl Abort,
    outbox: &mut O,
    number: u32,
    count: usize,
    len: usize,
) -> Result<Result<(), Refusal>, Fail> {
    let to = [subscriber(number)?; 101];
    let payload = [7u8; 257];
    assert!(rt; count <= 101 && len <= 257);
    Ok(outbox.post(content(number), &to[0..count], &payload[0..len]))
}

// Takes the oldest message, which is of this batch and has a payload of so many bytes; the rest of the buffer stays.
pub(crate) fn take<O: Outbox<Session>>(
    rt: &impl Abort,
    outbox: &mut O,
    number: u32,
    len: usize,
) -> Result<(), Fail> {
    let mut out = [1u8; 260];
    let taken = outbox.take(&mut out)?.ok_or("nothing waits")?;
    assert_eq!(rt; taken, message(number, number, len)?);
    assert_eq!(rt; out, array::from_fn(|i| if i < len { 7 } else { 1 }));
    Ok(())
}

// Takes so many messages of a batch.
pub(crate) fn take_all<O: Outbox<Session>>(
    rt: &impl Abort,
    outbox: &mut O,
    number: u32,
    count: usize,
    len: usize,
) -> Result<(), Fail> {
    for _ in 0..count {
        take(rt, outbox, number, len)?;
    }
    Ok(())
}

// A buffer of 255 bytes is refused, and stays as it is.
pub(crate) fn refuses_short<O: Outbox<Session>>(rt: &impl Abort, outbox: &mut O) {
    let mut out = [1u8; 255];
    assert_eq!(rt; outbox.take(&mut out), Err(Refusal::BadBatch));
    assert_eq!(rt; out, [1; 255]);
}

// Nothing waits: a take refuses a short buffer all the same, and leaves a long one as it is.
pub(crate) fn is_empty<O: Outbox<Session>>(rt: &impl Abort, outbox: &mut O) -> Result<(), Fail> {
    refuses_short(rt, outbox);
    let mut out = [1u8; 256];
    assert_eq!(rt; outbox.take(&mut out), Ok(None));
    assert_eq!(rt; out, [1; 256]);
    Ok(())
}

// Batches by their size: at an outbox where nothing waits the proper ones are taken, and the others are refused.
pub(crate) fn takes_by_size<O: Outbox<Session>>(
    rt: &impl Abort,
    outbox: &mut O,
) -> Result<(), Fail> {
    let table = [
        (0, 0, false),
        (0, 257, false),
        (1, 0, true),
        (1, 1, true),
        (1, 255, true),
        (1, 256, true),
        (1, 257, false),
        (99, 1, true),
        (100, 256, true),
        (100, 257, false),
        (101, 0, false),
    ];
    for (count, len, proper) in table {
        assert_eq!(rt; outbox.has_room(count, len), proper);
        let answer = post(rt, outbox, 5, count, len)?;
        if proper {
            assert_eq!(rt; answer, Ok(()));
            take_all(rt, outbox, 5, count, len)?;
        } else {
            assert_eq!(rt; answer, Err(Refusal::BadBatch));
        }
        is_empty(rt, outbox)?;
    }
    Ok(())
}

// The subscribers of a batch are served in their order, and a later batch behind them.
pub(crate) fn keeps_order<O: Outbox<Session>>(rt: &impl Abort, outbox: &mut O) -> Result<(), Fail> {
    let to = [subscriber(3)?, subscriber(1)?, subscriber(2)?];
    assert_eq!(rt; outbox.post(content(9), &to, b"ab"), Ok(()));
    assert_eq!(rt; post(rt, outbox, 4, 1, 0)?, Ok(()));
    for session in [3, 1, 2] {
        let mut out = [1u8; 256];
        let taken = outbox.take(&mut out)?.ok_or("nothing waits")?;
        assert_eq!(rt; taken, message(session, 9, 2)?);
        assert!(rt; out.starts_with(b"ab\x01"));
    }
    take(rt, outbox, 4, 0)?;
    is_empty(rt, outbox)
}

// A full outbox refuses a batch, after a look at its size, and has room again for as many as are taken.
pub(crate) fn fills<O: Outbox<Session>>(rt: &impl Abort, outbox: &mut O) -> Result<(), Fail> {
    assert_eq!(rt; post(rt, outbox, 1, 100, 1)?, Ok(()));
    assert!(rt; !outbox.has_room(1, 0));
    assert_eq!(rt; post(rt, outbox, 2, 1, 0)?, Err(Refusal::OutboxFull));
    assert_eq!(rt; post(rt, outbox, 2, 0, 0)?, Err(Refusal::BadBatch));
    assert_eq!(rt; post(rt, outbox, 2, 101, 0)?, Err(Refusal::BadBatch));
    assert_eq!(rt; post(rt, outbox, 2, 1, 257)?, Err(Refusal::BadBatch));
    refuses_short(rt, outbox);
    take(rt, outbox, 1, 1)?;
    assert_eq!(rt; post(rt, outbox, 2, 2, 0)?, Err(Refusal::OutboxFull));
    assert_eq!(rt; post(rt, outbox, 2, 1, 0)?, Ok(()));
    take_all(rt, outbox, 1, 99, 1)?;
    take(rt, outbox, 2, 0)?;
    is_empty(rt, outbox)
}

// Batches of sixty, one behind the other, go over the end of a hundred places.
pub(crate) fn goes_round<O: Outbox<Session>>(rt: &impl Abort, outbox: &mut O) -> Result<(), Fail> {
    for number in [1, 2, 3, 4, 5] {
        assert_eq!(rt; post(rt, outbox, number, 60, 2)?, Ok(()));
        assert!(rt; outbox.has_room(40, 256));
        assert!(rt; !outbox.has_room(41, 256));
        take_all(rt, outbox, number, 60, 2)?;
    }
    is_empty(rt, outbox)
}

// What any outbox over a hundred places does, where at least two contents fit at a time.
pub(crate) fn behaves<O: Outbox<Session>>(rt: &impl Abort, outbox: &mut O) -> Result<(), Fail> {
    is_empty(rt, outbox)?;
    takes_by_size(rt, outbox)?;
    keeps_order(rt, outbox)?;
    fills(rt, outbox)?;
    goes_round(rt, outbox)
}
