// Bytes written into a lent buffer that has room for them.
ghost use Rattle.map_writer.specs.Writers.{HasRoom, Wrote, writer_laws};

use crate::sink::Sink;

// A buffer, and the place that the next byte goes to: two fields, since the memory is the caller's.
#[derive(Drop)]
pub(crate) struct Writer<'a> {
    pub(crate) out: &'a mut [u8],
    pub(crate) at: usize,
}

impl Sink for Writer<'_> {
    ghost Fits = { HasRoom };

    ghost Takes = { Wrote };

    fn put(&mut self, bytes: &[u8]) {
        let end = self.at + bytes.len();
        self.out[self.at..end].copy_from_slice(bytes);
        self.at = end;
    }

    ghost laws = { writer_laws };
}
