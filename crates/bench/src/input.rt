//! An input that is read ahead in large pieces.
ghost use Rattle.std.specs.Prelude.{◌≡◌, ◌-◌, ◌≤◌, length, take, drop, IfOk};

use crate::buffer::{Buffer, CAPACITY};
use crate::stop::Stop;
use faults::{Fault, Refusal};
use std::io;
use std::io::{ErrorKind, Read};

/// A source, and the bytes read from it that are not yet taken, which lie from the start to the end in the buffer.
#[derive(Drop)]
pub(crate) struct Input<R> {
    source: R,
    buffer: Buffer,
    start: usize,
    end: usize,
    ghost ordered: { start ≤ end },
    ghost within: { end ≤ 65536 },
}

impl<R: Read> Input<R> {
    /// The input from a source of which nothing is read yet.
    pub(crate) fn new(source: R) -> Input<R> {
        Input {
            source,
            buffer: Buffer::new(),
            start: 0,
            end: 0,
        }
    }

    /// Whether every byte up to the end of the source is taken.
    pub(crate) fn is_at_end(&mut self) -> io::Result<bool> {
        Ok(self.fill(1)? == 0)
    }

    /// Takes the next so many bytes, or refuses an input that ends before them with 5 and the count of those that are left.
    pub(crate) fn take(&mut self, count: usize) -> Result<&mut [u8], Stop>
        ensures { IfOk result (λ bytes. length bytes.now ≡ count) }
    {
        let held = self.fill(count)?;
        if held < count {
            return Err(Fault::new(Refusal::Length, held as u64).into());
        }
        let start = self.start;
        let end = start + count;
        self.start = end;
        Ok(self.buffer.part_mut(start, end))
    }

    /// Reads until so many bytes are held or the source ends, and answers how many are held.
    fn fill(&mut self, count: usize) -> io::Result<usize>
        ensures { IfOk result (λ held. held ≡ self.new.end - self.new.start) }
    {
        for _ in 0..u64::MAX {
            if self.end - self.start >= count || !self.read_more()? {
                break;
            }
        }
        Ok(self.end - self.start)
    }

    /// Reads once more behind the bytes that are held, after moving them to the front of the buffer, and answers whether
    /// the source may go on.
    fn read_more(&mut self) -> io::Result<bool> {
        self.move_to_front();
        let end = self.end;
        match self.source.read(self.buffer.part_mut(end, CAPACITY)) {
            Ok(count) => {
                self.end = end + count;
                Ok(count > 0)
            }
            Err(error) if error.kind() == ErrorKind::Interrupted => Ok(true),
            Err(error) => Err(error),
        }
    }

    /// Moves the bytes that are held to the front of the buffer.
    fn move_to_front(&mut self)
        ensures start { self.new.start ≡ 0 }
        ensures end { self.new.end ≡ self.old.end - self.old.start }
        ensures held { take self.new.end self.new.buffer.bytes ≡ take (self.old.end - self.old.start) (drop self.old.start self.old.buffer.bytes) }
    {
        let start = self.start;
        let end = self.end;
        self.buffer.move_to_front(start, end);
        self.start = 0;
        self.end = end - start;
    }
}
