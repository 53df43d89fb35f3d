// A reader of data items: the bytes that are still to be read, from which heads and texts are taken in turn.
ghost use Rattle.std.specs.Prelude.{◌≡◌, ℕ, ◌≤◌, List, length, OnErr, ◌==◌};
ghost use Rattle.std.specs.Borrow.{Bor};
ghost use Rattle.protocol.specs.Bytes.{be_number};
ghost use Rattle.maps.specs.Heads.{head_meant, head_of, long_head, major_number};
ghost use Rattle.maps.specs.Reading.{outcome, parted, taken};

use crate::head::{Head, Major};
use protocol::Fault;
use std::marker::Model;

#[derive(Drop)]
pub struct Reader<'a> {
    rest: &'a [u8],
}

// A reader is the bytes that are still to be read, and where they lie.
impl<'a> Model for Reader<'a> {
    ghost Value = { Bor (List ℕ) };

    ghost view = { λ r. r.rest };
}

// The number that up to eight bytes stand for, most significant byte first.
fn number(bytes: &[u8]) -> u64
    requires { length bytes.now ≤ 8 }
    ensures { result ≡ be_number bytes.now }
{
    bytes.iter().fold(0, |n, b| n << 8 | u64::from(*b))
}

// A head whose argument stands in the next bytes, up to eight.
fn long_head(major: Major, width: usize, bytes: &[u8]) -> Result<(Head, &[u8]), Fault>
    requires { width ≤ 8 }
    ensures { parted head_meant result ≡ long_head (major_number major) width bytes.now }
{
    let (argument, rest) = bytes.split_at_checked(width).ok_or(Fault::Ends)?;
    let argument = number(argument);
    Ok((Head { major, argument }, rest))
}

// The head that bytes begin with, and the bytes behind it.
fn head_of(bytes: &[u8]) -> Result<(Head, &[u8]), Fault>
    ensures { parted head_meant result ≡ head_of bytes.now }
{
    let (first, rest) = bytes.split_first().ok_or(Fault::Ends)?;
    let major = Major::of_first(*first);
    let information = *first % 32;
    match information {
        0..=23 => Ok((
            Head {
                major,
                argument: u64::from(information),
            },
            rest,
        )),
        24 => long_head(major, 1, rest),
        25 => long_head(major, 2, rest),
        26 => long_head(major, 4, rest),
        27 => long_head(major, 8, rest),
        _ => Err(Fault::WrongType),
    }
}

impl<'a> Reader<'a> {
    // A reader that has all the bytes before it.
    pub fn new(bytes: &'a [u8]) -> Reader<'a>
        ensures { result ≡ bytes.entry }
    {
        Reader { rest: bytes }
    }

    // Whether all the bytes are read.
    pub fn is_done(&self) -> bool
        ensures { result ≡ (length self.now.now == 0) }
    {
        self.rest.is_empty()
    }

    // The next head; where there is none, nothing is taken.
    pub fn head(&mut self) -> Result<Head, Fault>
        ensures answer { outcome head_meant result self.new.now ≡ head_of self.old.now }
        ensures same { OnErr result (self.new ≡ self.old) }
    {
        let (head, behind) = head_of(self.rest)?;
        self.rest = behind;
        Ok(head)
    }

    // The next bytes, as many as asked for; where there are fewer, nothing is taken.
    pub fn text(&mut self, len: u64) -> Result<&'a [u8], Fault>
        ensures answer { outcome (λ x. x.now) result self.new.now ≡ taken len self.old.now }
        ensures same { OnErr result (self.new ≡ self.old) }
    {
        let (text, rest) = self.rest.split_at_checked(len as usize).ok_or(Fault::Ends)?;
        self.rest = rest;
        Ok(text)
    }
}
