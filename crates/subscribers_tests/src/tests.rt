// The subscriber list and the evictions at their edges, for every kind of client.
use clients::{Client, Endpoint, Session, Subscriber, Token};
use protocol::{Handle, Refusal};
use std::process::Abort;
use std::test::Fail;
use subscribers::{Eviction, Joined, Newest, Oldest, Subscribers, Subscription};

const FIRST: Handle = Handle(1);

const LAST: Handle = Handle(4_294_967_295);

// Tokens of 0, 1, 7 and 8 bytes, some of which differ only in length.
const TOKENS: [&[u8]; 8] = [
    b"",
    b"\0",
    b"\0\0",
    b"\x01",
    b"\x01\x02\x03\x04\x05\x06\x07",
    b"\x01\x02\x03\x04\x05\x06\x07\0",
    b"\x01\x02\x03\x04\x05\x06\x07\x08",
    b"\xff\xff\xff\xff\xff\xff\xff\xff",
];

fn subscriber<C: Client>(client: C, token: &[u8]) -> Result<Subscriber<C>, Fail> {
    let token = Token::new(token)?;
    Ok(Subscriber { client, token })
}

fn pair<C: Client>(handle: Handle, subscriber: Subscriber<C>) -> Subscription<C> {
    Subscription { handle, subscriber }
}

// What places hold before they are used.
fn unused<C: Client>(client: C) -> Result<Subscription<C>, Fail> {
    let subscriber = subscriber(client, b"")?;
    Ok(pair(FIRST, subscriber))
}

fn endpoint() -> Endpoint {
    Endpoint::new([255; 16], 5683)
}

fn none<C: Client>(rt: &impl Abort, places: &mut [Subscription<C>], client: C) -> Result<(), Fail> {
    let one = subscriber(client, b"a")?;
    let mut list = Subscribers::new(places);
    assert_eq!(rt; list.places(), 0);
    assert_eq!(rt; list.add(pair(FIRST, one)), Joined::NoPlace);
    assert_eq!(rt; list.len(), 0);
    assert_eq!(rt; list.find(&pair(FIRST, one)), None);
    assert_eq!(rt; list.count(FIRST), 0);
    assert!(rt; !list.remove(&pair(FIRST, one)));
    assert_eq!(rt; list.remove_all(FIRST), 0);
    Ok(())
}

#[test]
fn no_places(rt: HostRuntime) -> Result<(), Fail> {
    let mut sessions: [Subscription<Session>; 0] = [];
    none(&rt, &mut sessions, Session(0))?;
    let mut endpoints: [Subscription<Endpoint>; 0] = [];
    none(&rt, &mut endpoints, endpoint())
}

fn single<C: Client>(
    rt: &impl Abort,
    places: &mut [Subscription<C>],
    a: C,
    b: C,
) -> Result<(), Fail> {
    let one = subscriber(a, b"a")?;
    let other = subscriber(b, b"a")?;
    let mut list = Subscribers::new(places);
    assert_eq!(rt; list.find(&pair(LAST, one)), None);
    assert_eq!(rt; list.add(pair(LAST, one)), Joined::Added);
    assert_eq!(rt; list.add(pair(LAST, one)), Joined::Standing);
    assert_eq!(rt; list.add(pair(LAST, other)), Joined::NoPlace);
    assert_eq!(rt; list.add(pair(FIRST, one)), Joined::NoPlace);
    assert_eq!(rt; list.find(&pair(FIRST, one)), None);
    assert!(rt; !list.remove(&pair(LAST, other)));
    assert!(rt; list.remove(&pair(LAST, one)));
    assert_eq!(rt; list.add(pair(LAST, other)), Joined::Added);
    assert_eq!(rt; list.find(&pair(LAST, other)), Some(0));
    Ok(())
}

#[test]
fn one_place(rt: HostRuntime) -> Result<(), Fail> {
    let session = unused(Session(0))?;
    single(&rt, &mut [session; 1], Session(0), Session(4_294_967_295))?;
    let end = unused(endpoint())?;
    single(
        &rt,
        &mut [end; 1],
        endpoint(),
        Endpoint::new([255; 16], 5684),
    )
}

// Fills a topic.
fn fill<C: Client>(rt: &impl Abort, list: &mut Subscribers<'_, C>, client: C) -> Result<(), Fail> {
    for i in 0u8..100 {
        let one = subscriber(client, &[i])?;
        assert_eq!(rt; list.add(pair(FIRST, one)), Joined::Added);
    }
    Ok(())
}

fn hundred<C: Client>(
    rt: &impl Abort,
    places: &mut [Subscription<C>],
    client: C,
) -> Result<(), Fail> {
    let late = subscriber(client, b"late")?;
    let first = subscriber(client, &[0])?;
    let mut list = Subscribers::new(places);
    fill(rt, &mut list, client)?;
    assert_eq!(rt; list.count(FIRST), 100);
    assert_eq!(rt; list.add(pair(FIRST, late)), Joined::NoPlace);
    assert_eq!(rt; list.len(), 100);
    assert_eq!(rt; list.add(pair(FIRST, first)), Joined::Standing);
    assert_eq!(rt; list.find(&pair(FIRST, first)), Some(0));
    assert_eq!(rt; list.add(pair(LAST, late)), Joined::Added);
    assert_eq!(rt; list.find(&pair(LAST, late)), Some(100));
    assert!(rt; list.remove(&pair(FIRST, first)));
    assert_eq!(rt; list.add(pair(FIRST, late)), Joined::Added);
    assert_eq!(rt; list.find(&pair(FIRST, late)), Some(100));
    Ok(())
}

#[test]
fn hundred_of_a_topic(rt: HostRuntime) -> Result<(), Fail> {
    let session = unused(Session(7))?;
    hundred(&rt, &mut [session; 150], Session(7))?;
    let end = unused(endpoint())?;
    hundred(&rt, &mut [end; 150], endpoint())
}

// One subscriber at the topics 1, 2 and 3.
fn spread<C: Client>(rt: &impl Abort, list: &mut Subscribers<'_, C>, one: Subscriber<C>) {
    for h in 1u32..4 {
        assert_eq!(rt; list.add(pair(Handle(h), one)), Joined::Added);
    }
}

fn full<C: Client>(rt: &impl Abort, places: &mut [Subscription<C>], client: C) -> Result<(), Fail> {
    let one = subscriber(client, b"a")?;
    let mut list = Subscribers::new(places);
    spread(rt, &mut list, one);
    assert_eq!(rt; list.len(), list.places());
    assert_eq!(rt; list.joining(&pair(Handle(4), one)), Joined::NoPlace);
    assert_eq!(rt; list.add(pair(Handle(4), one)), Joined::NoPlace);
    assert_eq!(rt; list.add(pair(Handle(2), one)), Joined::Standing);
    assert_eq!(rt; list.find(&pair(Handle(2), one)), Some(1));
    assert_eq!(rt; list.remove_all(Handle(2)), 1);
    assert_eq!(rt; list.joining(&pair(Handle(4), one)), Joined::Added);
    assert_eq!(rt; list.add(pair(Handle(2), one)), Joined::Added);
    assert_eq!(rt; list.find(&pair(Handle(2), one)), Some(2));
    Ok(())
}

#[test]
fn list_full(rt: HostRuntime) -> Result<(), Fail> {
    let session = unused(Session(1))?;
    full(&rt, &mut [session; 3], Session(1))?;
    let end = unused(endpoint())?;
    full(&rt, &mut [end; 3], endpoint())
}

fn tokens<C: Client>(
    rt: &impl Abort,
    list: &mut Subscribers<'_, C>,
    client: C,
) -> Result<(), Fail> {
    for token in TOKENS {
        let one = subscriber(client, token)?;
        assert_eq!(rt; list.add(pair(FIRST, one)), Joined::Added);
    }
    for (i, token) in TOKENS.iter().enumerate() {
        let one = subscriber(client, token)?;
        assert_eq!(rt; list.find(&pair(FIRST, one)), Some(i));
    }
    assert_eq!(rt; list.count(FIRST), 8);
    Ok(())
}

#[test]
fn tokens_differ(rt: HostRuntime) -> Result<(), Fail> {
    let session = unused(Session(2))?;
    let mut places = [session; 8];
    tokens(&rt, &mut Subscribers::new(&mut places), Session(2))?;
    let end = unused(endpoint())?;
    let mut places = [end; 8];
    tokens(&rt, &mut Subscribers::new(&mut places), endpoint())
}

// a, b and c at one topic, with a at another one between them.
fn mixed<C: Client>(
    rt: &impl Abort,
    list: &mut Subscribers<'_, C>,
    a: Subscriber<C>,
    b: Subscriber<C>,
    c: Subscriber<C>,
) {
    assert_eq!(rt; list.add(pair(FIRST, a)), Joined::Added);
    assert_eq!(rt; list.add(pair(LAST, a)), Joined::Added);
    assert_eq!(rt; list.add(pair(FIRST, b)), Joined::Added);
    assert_eq!(rt; list.add(pair(FIRST, c)), Joined::Added);
}

fn leaving<C: Client>(
    rt: &impl Abort,
    places: &mut [Subscription<C>],
    client: C,
) -> Result<(), Fail> {
    let a = subscriber(client, b"a")?;
    let b = subscriber(client, b"b")?;
    let c = subscriber(client, b"c")?;
    let mut list = Subscribers::new(places);
    mixed(rt, &mut list, a, b, c);
    assert!(rt; list.remove(&pair(FIRST, b)));
    assert!(rt; !list.remove(&pair(FIRST, b)));
    assert_eq!(rt; list.len(), 3);
    assert_eq!(rt; list.find(&pair(FIRST, a)), Some(0));
    assert_eq!(rt; list.find(&pair(LAST, a)), Some(1));
    assert_eq!(rt; list.find(&pair(FIRST, c)), Some(2));
    assert_eq!(rt; list.remove_all(FIRST), 2);
    assert_eq!(rt; list.count(FIRST), 0);
    assert_eq!(rt; list.len(), 1);
    assert_eq!(rt; list.find(&pair(LAST, a)), Some(0));
    Ok(())
}

#[test]
fn order_is_kept(rt: HostRuntime) -> Result<(), Fail> {
    let session = unused(Session(3))?;
    leaving(&rt, &mut [session; 5], Session(3))?;
    let end = unused(endpoint())?;
    leaving(&rt, &mut [end; 5], endpoint())
}

fn refused<C: Client + Eq>(
    rt: &impl Abort,
    list: &Subscribers<'_, C>,
    work: &mut [Subscriber<C>],
    other: &Subscriber<C>,
) {
    assert!(rt; work.len() == 99);
    assert_eq!(rt; list.collect(FIRST, work), Err(Refusal::ShortBuffers));
    assert!(rt; work[0] == *other);
}

fn collecting<C: Client + Eq>(
    rt: &impl Abort,
    places: &mut [Subscription<C>],
    short: &mut [Subscriber<C>],
    work: &mut [Subscriber<C>],
    other: Subscriber<C>,
) -> Result<(), Fail> {
    let a = subscriber(other.client, b"a")?;
    let b = subscriber(other.client, b"b")?;
    let c = subscriber(other.client, b"c")?;
    let mut list = Subscribers::new(places);
    mixed(rt, &mut list, a, b, c);
    refused(rt, &list, short, &other);
    assert!(rt; work.len() == 100);
    assert_eq!(rt; list.collect(FIRST, work), Ok(3));
    for (got, wanted) in work.iter().zip(&[a, b, c, other]) {
        assert!(rt; got == wanted);
    }
    assert_eq!(rt; list.remove_all(FIRST), 3);
    assert_eq!(rt; list.collect(FIRST, work), Ok(0));
    Ok(())
}

#[test]
fn work_lists(rt: HostRuntime) -> Result<(), Fail> {
    let session = unused(Session(4))?;
    let one = session.subscriber;
    collecting(&rt, &mut [session; 5], &mut [one; 99], &mut [one; 100], one)?;
    let end = unused(endpoint())?;
    let one = end.subscriber;
    collecting(&rt, &mut [end; 5], &mut [one; 99], &mut [one; 100], one)
}

fn evicting<C: Client, E: Eviction<C>>(
    rt: &impl Abort,
    topic: &[Subscriber<C>],
    eviction: &E,
    places: [usize; 3],
) {
    assert!(rt; topic.len() == 100);
    assert_eq!(rt; eviction.choose(&topic[0..0]), None);
    assert_eq!(rt; eviction.choose(&topic[0..1]), Some(places[0]));
    assert_eq!(rt; eviction.choose(&topic[0..2]), Some(places[1]));
    assert_eq!(rt; eviction.choose(topic), Some(places[2]));
}

#[test]
fn evictions(rt: HostRuntime) -> Result<(), Fail> {
    let session = [subscriber(Session(5), b"a")?; 100];
    evicting(&rt, &session, &Newest, [0, 1, 99]);
    evicting(&rt, &session, &Oldest, [0, 0, 0]);
    let end = [subscriber(endpoint(), b"a")?; 100];
    evicting(&rt, &end, &Newest, [0, 1, 99]);
    evicting(&rt, &end, &Oldest, [0, 0, 0]);
    Ok(())
}
