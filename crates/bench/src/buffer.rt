//! The bytes between the program and a stream.
ghost use Rattle.std.specs.Prelude.{◌≡◌, ◌-◌, ◌≤◌, length, take, drop};

/// How many bytes a buffer has.
pub const CAPACITY: usize = 65536;

/// The bytes between the program and a stream.
#[derive(Drop)]
pub(crate) struct Buffer {
    bytes: [u8; CAPACITY],
}

impl Buffer {
    /// A buffer of zeros.
    pub(crate) fn new() -> Buffer {
        Buffer {
            bytes: [0; CAPACITY],
        }
    }

    /// The bytes from one place up to another.
    pub(crate) fn part(&self, start: usize, end: usize) -> &[u8]
        requires { (start ≤ end) × (end ≤ 65536) }
        ensures { result.now ≡ take (end - start) (drop start self.now.bytes) }
    {
        let all = &self.bytes[..];
        &all[start..end]
    }

    /// The bytes from one place up to another, to be altered.
    pub(crate) fn part_mut(&mut self, start: usize, end: usize) -> &mut [u8]
        requires { (start ≤ end) × (end ≤ 65536) }
        ensures bytes { result.now ≡ take (end - start) (drop start self.old.bytes) }
        ensures len { length result.now ≡ end - start }
    {
        &mut self.bytes[start..end]
    }

    /// Moves the bytes from one place up to another to the front.
    pub(crate) fn move_to_front(&mut self, start: usize, end: usize)
        requires { (start ≤ end) × (end ≤ 65536) }
        ensures { take (end - start) self.new.bytes ≡ take (end - start) (drop start self.old.bytes) }
    {
        self.bytes.copy_within(start..end, 0);
    }
}
