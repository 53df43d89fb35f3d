// Defaults where nothing is given, and the data address.
use map_writer::{addressed, with_defaults};
use maps::Properties;

// Max-subscribers and observer check as given, and as completed.
#[derive(Clone, Copy)]
struct Row(Option<u64>, Option<u64>, u64, u64);

const ROWS: [Row; 4] = [
    Row(None, None, 100, 86400),
    Row(Some(0), None, 0, 86400),
    Row(None, Some(0), 100, 0),
    Row(
        Some(99),
        Some(18446744073709551615),
        99,
        18446744073709551615,
    ),
];

#[test]
fn defaults(rt: HostRuntime) {
    for (i, row) in ROWS.iter().enumerate() {
        let p = Properties {
            name: Some(b"a"),
            max_subscribers: row.0,
            observer_check: row.1,
            ..Properties::default()
        };
        let completed = Properties {
            max_subscribers: Some(row.2),
            observer_check: Some(row.3),
            ..p
        };
        assert_eq!(rt; with_defaults(p), completed, "row {i}");
    }
}

#[test]
fn addresses(rt: HostRuntime) {
    let p = Properties {
        name: Some(b"a"),
        ..Properties::default()
    };
    let q = Properties {
        data_address: Some(b"/ps/data/00000001"),
        ..p
    };
    assert_eq!(rt; addressed(p, b"/ps/data/00000001"), q);
    assert_eq!(rt;
        addressed(
            Properties {
                data_address: Some(b"/old"),
                ..p
            },
            b"/ps/data/00000001",
        ),
        q
    );
}
