//! An output that is gathered and written in large pieces.
ghost use Rattle.std.specs.Prelude.{◌≡◌, ◌+◌, ◌≤◌, min, length, IfOk, MatchResult};

use crate::buffer::{Buffer, CAPACITY};
use std::io;
use std::io::Write;

/// How many bytes a line of text may need.
const LINE: usize = 256;

/// A target, and the bytes for it that are not yet written, which lie before the end in the buffer.
#[derive(Drop)]
pub(crate) struct Output<W> {
    target: W,
    buffer: Buffer,
    end: usize,
    ghost within: { end ≤ 65536 },
}

impl<W: Write> Output<W> {
    /// The output to a target, with nothing gathered yet.
    pub(crate) fn new(target: W) -> Output<W> {
        Output {
            target,
            buffer: Buffer::new(),
            end: 0,
        }
    }

    /// Room of 256 bytes at least behind those that are gathered, which are written first where too little is left.
    pub(crate) fn room(&mut self) -> io::Result<&mut [u8]>
        ensures { IfOk result (λ room. 256 ≤ length room.now) }
    {
        if CAPACITY - self.end < LINE {
            self.flush()?;
        }
        let end = self.end;
        Ok(self.buffer.part_mut(end, CAPACITY))
    }

    /// Gathers the first so many bytes of the room.
    pub(crate) fn gather(&mut self, count: usize)
        ensures { self.new.end ≡ min (self.old.end + count) 65536 }
    {
        self.end += count.min(CAPACITY - self.end);
    }

    /// Writes the bytes that are gathered.
    pub(crate) fn flush(&mut self) -> io::Result<()>
        ensures { MatchResult result (λ _. self.new.end ≡ 0) (λ _. self.new.end ≡ self.old.end) }
    {
        let end = self.end;
        self.target.write_all(self.buffer.part(0, end))?;
        self.end = 0;
        Ok(())
    }
}
