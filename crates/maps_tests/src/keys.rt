// Keys by their numbers, both ways.
use maps::Key;
use protocol::Fault;

const KEYS: [Key; 8] = [
    Key::Name,
    Key::DataAddress,
    Key::ResourceType,
    Key::ContentFormat,
    Key::TopicType,
    Key::Expiration,
    Key::MaxSubscribers,
    Key::ObserverCheck,
];

#[test]
fn numbers_of_keys(rt: HostRuntime) {
    for (i, key) in KEYS.iter().enumerate() {
        assert_eq!(rt; u64::from(*key), i as u64, "row {i}");
        assert_eq!(rt; Key::try_from(i as u64), Ok(*key), "row {i}");
    }
    assert_eq!(rt; Key::try_from(8), Err(Fault::UnknownKey));
    assert_eq!(rt; Key::try_from(18446744073709551615), Err(Fault::UnknownKey));
}
