// Whole maps: the empty one, one as a client sees it, one with every key, and the largest of a topic.
use crate::helpers::{BEFORE, fits, has_bytes};
use map_writer::write;
use maps::Properties;

// Properties with no more than a content format.
fn bare(content_format: Option<u64>) -> Properties<'static> {
    Properties {
        content_format,
        ..Properties::default()
    }
}

#[test]
fn nothing_given(rt: HostRuntime) {
    let p = bare(None);
    has_bytes(&rt, 0, &p, b"\xa0");
    let mut none = [BEFORE; 0];
    assert_eq!(rt; write(&p, &mut none), None);
}

#[test]
fn as_a_client_sees_it(rt: HostRuntime) {
    let p = Properties {
        name: Some(b"a"),
        data_address: Some(b"/ps/data/00000001"),
        resource_type: Some(b"core.ps.data"),
        max_subscribers: Some(100),
        observer_check: Some(86400),
        ..Properties::default()
    };
    let bytes =
        b"\xa5\x00\x61a\x01\x71/ps/data/00000001\x02\x6ccore.ps.data\x06\x18\x64\x07\x1a\x00\x01\x51\x80";
    assert_eq!(rt; bytes.len(), 46);
    has_bytes(&rt, 0, &p, bytes);
}

#[test]
fn every_key(rt: HostRuntime) {
    let p = Properties {
        name: Some(b""),
        data_address: Some(b"d"),
        resource_type: Some(b"r"),
        content_format: Some(0),
        topic_type: Some(b"t"),
        expiration: Some(24),
        max_subscribers: Some(1),
        observer_check: Some(256),
    };
    has_bytes(
        &rt,
        0,
        &p,
        b"\xa8\x00\x60\x01\x61d\x02\x61r\x03\x00\x04\x61t\x05\xc1\x18\x18\x06\x01\x07\x19\x01\x00",
    );
}

#[test]
fn largest_of_a_topic(rt: HostRuntime) {
    let text = [b'x'; 256];
    let p = Properties {
        name: Some(&text),
        data_address: Some(b"/ps/data/ffffffff"),
        resource_type: Some(b"core.ps.data"),
        content_format: Some(65535),
        topic_type: Some(&text),
        expiration: Some(4294967295),
        max_subscribers: Some(100),
        observer_check: Some(4294967295),
    };
    let mut out = [BEFORE; 576];
    fits(&rt, 0, &p, 574, &mut out);
}
