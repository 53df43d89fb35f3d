// The subscriber list: pairs in the caller's memory, none twice, never more than 100 of one handle.
ghost use Rattle.std.specs.Prelude.{◌≤◌, length, take};
ghost use Rattle.subscribers.specs.Pairs.{Few, standings_of};
ghost use Rattle.subscribers.specs.Standing.{Once, Once-prop};

use crate::subscription::Subscription;
use clients::Client;

mod asks;
mod changes;
mod scan;

// Not a Model: its value would be a record of the same pairs and room, and each clause would name the list and the part as now.
// A length beside the places: they are the caller's, and there is no heap.
#[derive(Drop)]
pub struct Subscribers<'a, C: Client> {
    places: &'a mut [Subscription<C>],
    len: usize,
    ghost within: { len ≤ length places.now },
    ghost few: { Few (take len places.now) },
    ghost once: { Once (standings_of C.Client.identity (take len places.now)) } by { Once-prop _ },
}
