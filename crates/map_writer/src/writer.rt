// The writer of maps: the one form of the properties, at the front of a lent buffer.
ghost use Rattle.std.specs.Prelude.{◌≡◌, ◌^◌, length, if◌then◌else◌, take, IfSome, Some, None, Ok, nat_lt};
ghost use Rattle.map_writer.specs.Buffers.{len_if_fits, placed_if_fits};
ghost use Rattle.map_writer.specs.Laws.{Laws};
ghost use Rattle.maps.specs.Maps.{meant, written, read_map};

use crate::buffer::Writer;
use crate::count::Counter;
use crate::form::put_map;
use maps::Properties;

// The length of the written form, unless it is beyond what memory can hold.
pub fn written_len(p: &Properties<'_>) -> Option<usize>
    ensures answer { result ≡ (if nat_lt (length (written (meant p.now))) (2 ^ 64) then Some (length (written (meant p.now))) else None) }
{
    let mut counter = Counter { len: 0 };
    put_map(&mut counter, p);
    if counter.len <= usize::MAX as u128 {
        Some(counter.len as usize)
    } else {
        None
    }
}

// Writes the one form of the properties to the front of the buffer and gives its length;
// where it is longer than the buffer there is none, and the buffer stays as it was.
pub fn write(p: &Properties<'_>, out: &mut [u8]) -> Option<usize>
    ensures answer { result ≡ len_if_fits (written (meant p.now)) out.old }
    ensures buffer { out.new ≡ placed_if_fits (written (meant p.now)) out.old }
    ensures reads_back { IfSome result (λ n. read_map (take n out.new) ≡ Ok (meant p.now)) }
    ensures laws { Laws }
{
    let len = written_len(p)?;
    if len > out.len() {
        return None;
    }
    let mut writer = Writer { out, at: 0 };
    put_map(&mut writer, p);
    Some(len)
}
