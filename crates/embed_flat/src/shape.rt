//! What a call gives, and how it lies in the guest's memory.

ghost use Rattle.std.specs.Prelude.{◌≡◌, ◌≤◌};
ghost use Rattle.embed_flat.specs.Abi.{size};
ghost use Rattle.embed_flat.specs.Answers.{result_type, payload_in, has_code, has_list, has_stream_error};

/// What a call gives where it is done.
#[derive(Clone, Copy, Debug, PartialEq, Eq)]
pub enum Shape {
    /// Nothing, or one number that is returned.
    Flat,
    /// A family, which is returned.
    Family,
    /// Nothing, or an `error-code`.
    Unit,
    /// A truth value, or an `error-code`.
    Truth,
    /// A number of 8 bits, or an `error-code`.
    Byte,
    /// A handle or a number of 32 bits, or an `error-code`.
    Word,
    /// Two handles, or an `error-code`.
    Pair,
    /// Three handles, or an `error-code`.
    Triple,
    /// A number of 64 bits, or an `error-code`.
    Wide,
    /// An address with a port, or an `error-code`.
    Address,
    /// An address with no port, or none, or an `error-code`.
    MaybeIp,
    /// Datagrams, or an `error-code`.
    Datagrams,
    /// Nothing, or a `stream-error`.
    StreamUnit,
    /// Bytes, or a `stream-error`.
    StreamBytes,
    /// A number of 64 bits, or a `stream-error`.
    StreamWide,
    /// Places in a list.
    Places,
    /// An `error-code`, or none.
    MaybeCode,
}

impl Shape {
    /// How many bytes it takes in the guest's memory.
    pub fn size(self) -> usize
        ensures size { result ≡ size (result_type self) }
        ensures most { result ≤ 36 }
    {
        match self {
            Shape::Flat | Shape::Family => 0,
            Shape::Unit | Shape::Truth | Shape::Byte | Shape::MaybeCode => 2,
            Shape::Word | Shape::Places => 8,
            Shape::Pair | Shape::Datagrams => 12,
            Shape::StreamUnit | Shape::StreamBytes => 12,
            Shape::Triple | Shape::Wide | Shape::StreamWide => 16,
            Shape::Address => 36,
            Shape::MaybeIp => 22,
        }
    }

    /// Where what it has besides its case lies in it: what is given, an `error-code` or a
    /// `stream-error`.
    pub fn payload(self) -> usize
        ensures place { result ≡ payload_in self }
        ensures most { result ≤ 8 }
    {
        match self {
            Shape::Word | Shape::Pair | Shape::Triple => 4,
            Shape::Address | Shape::Datagrams | Shape::StreamUnit | Shape::StreamBytes => 4,
            Shape::Wide | Shape::StreamWide => 8,
            Shape::MaybeIp => 2,
            _ => 1,
        }
    }

    /// Whether it gives a list.
    pub fn has_list(self) -> bool
        ensures { result ≡ has_list self }
    {
        matches!(self, Shape::Datagrams | Shape::StreamBytes | Shape::Places)
    }

    /// Whether it may be an `error-code`.
    pub fn has_code(self) -> bool
        ensures { result ≡ has_code self }
    {
        !matches!(
            self,
            Shape::Flat | Shape::Family | Shape::Places | Shape::MaybeCode
        ) && !self.has_stream_error()
    }

    /// Whether it may be a `stream-error`.
    pub fn has_stream_error(self) -> bool
        ensures { result ≡ has_stream_error self }
    {
        matches!(
            self,
            Shape::StreamUnit | Shape::StreamBytes | Shape::StreamWide
        )
    }
}
