//! The descriptors of open sockets.

ghost use Rattle.std.specs.Prelude.{◌≡◌};

/// An open socket of this network's own. It isn't copied, and is closed where it is dropped.
pub struct Descriptor {
    number: i32,
}

impl Descriptor {
    /// The descriptor that the system made just now.
    pub(crate) fn new(number: i32) -> Descriptor
        ensures { result.number ≡ number }
    {
        Descriptor { number }
    }

    /// Its number, by which each call names it.
    pub(crate) fn number(&self) -> i32
        ensures { result ≡ self.now.number }
    {
        self.number
    }
}

impl Drop for Descriptor {
    fn drop(self) {
        let Descriptor { number } = self;
        libc::close(number);
    }
}
