// Ranges of values, at every edge.
use maps::{Properties, check_range, read};
use protocol::Refusal;
use std::process::Abort;
use std::test::Fail;

// A map of nothing.
const EMPTY: &[u8] = b"\xa0";

// A number, and whether it is in the range of content formats, of max subscribers, and of seconds.
#[derive(Clone, Copy)]
struct Number(u64, bool, bool, bool);

const NUMBERS: [Number; 9] = [
    Number(0, true, true, true),
    Number(1, true, true, true),
    Number(100, true, true, true),
    Number(101, true, false, true),
    Number(65535, true, false, true),
    Number(65536, false, false, true),
    Number(4294967295, false, false, true),
    Number(4294967296, false, false, false),
    Number(18446744073709551615, false, false, false),
];

fn fits(properties: Properties<'_>) -> bool {
    check_range(&properties).is_ok()
}

// The number in each place, with nothing else given.
fn check_number(rt: &impl Abort, i: usize, row: Number, nothing: Properties<'_>) {
    let number = Some(row.0);
    assert_eq!(rt;
        fits(Properties {
            content_format: number,
            ..nothing
        }),
        row.1,
        "row {i}"
    );
    assert_eq!(rt;
        fits(Properties {
            max_subscribers: number,
            ..nothing
        }),
        row.2,
        "row {i}"
    );
    assert_eq!(rt;
        fits(Properties {
            expiration: number,
            ..nothing
        }),
        row.3,
        "row {i}"
    );
    assert_eq!(rt;
        fits(Properties {
            observer_check: number,
            ..nothing
        }),
        row.3,
        "row {i}"
    );
}

#[test]
fn numbers(rt: HostRuntime) -> Result<(), Fail> {
    let nothing = read(EMPTY)?;
    for (i, row) in NUMBERS.iter().enumerate() {
        check_number(&rt, i, *row, nothing);
    }
    Ok(())
}

// What is said of a name, of a topic type, and of the two texts that have no range.
fn check_text(rt: &impl Abort, text: &[u8], name: bool, topic_type: bool) -> Result<(), Fail> {
    let text = Some(text);
    let nothing = read(EMPTY)?;
    assert_eq!(rt;
        fits(Properties {
            name: text,
            ..nothing
        }),
        name
    );
    assert_eq!(rt;
        fits(Properties {
            topic_type: text,
            ..nothing
        }),
        topic_type
    );
    assert!(rt;
        fits(Properties {
            data_address: text,
            resource_type: text,
            ..nothing
        })
    );
    Ok(())
}

#[test]
fn texts(rt: HostRuntime) -> Result<(), Fail> {
    let bytes = [b't'; 300];
    check_text(&rt, &bytes[0..0], false, true)?;
    check_text(&rt, &bytes[0..1], true, true)?;
    check_text(&rt, &bytes[0..255], true, true)?;
    check_text(&rt, &bytes[0..256], true, true)?;
    check_text(&rt, &bytes[0..257], false, false)?;
    check_text(&rt, &bytes, false, false)
}

// One value out of its range is enough.
#[test]
fn one_of_all(rt: HostRuntime) -> Result<(), Fail> {
    let all = Properties {
        name: Some(b"n"),
        data_address: Some(b"a"),
        resource_type: Some(b"r"),
        content_format: Some(65535),
        topic_type: Some(b"t"),
        expiration: Some(1),
        max_subscribers: Some(100),
        observer_check: Some(1),
    };
    let out = [
        Properties {
            name: Some(b""),
            ..all
        },
        Properties {
            content_format: Some(65536),
            ..all
        },
        Properties {
            expiration: Some(4294967296),
            ..all
        },
        Properties {
            max_subscribers: Some(101),
            ..all
        },
        Properties {
            observer_check: Some(4294967296),
            ..all
        },
    ];
    assert_eq!(rt; check_range(&read(EMPTY)?), Ok(()));
    assert_eq!(rt; check_range(&all), Ok(()));
    for (i, properties) in out.iter().enumerate() {
        assert_eq!(rt; check_range(properties), Err(Refusal::BadValue), "row {i}");
    }
    Ok(())
}
