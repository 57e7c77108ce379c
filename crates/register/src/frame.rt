//! The frame in which cards speak.
ghost use Rattle.std.specs.Prelude.{◌≡◌, true};

use faults::Fault;

/// A frame that a register opened. It bears the register's mark. Only opening makes one, none is copied, and it may be
/// given up only once it is closed.
pub struct Frame {
    pub(crate) mark: u32,
    // A flag, since the drop has to demand that closing spent the frame, and can demand only what a field says.
    pub(crate) spent: bool,
}

impl Drop for Frame {
    /// Gives up a frame that is closed.
    fn drop(self)
        requires { self.spent ≡ true }
    {
        let Frame { mark: _, spent: _ } = self;
    }
}

/// A refused close: why, and the same frame.
pub struct Refused {
    pub fault: Fault,
    pub frame: Frame,
}
