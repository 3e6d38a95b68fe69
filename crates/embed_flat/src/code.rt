//! The number of an `error-code`.

ghost use Rattle.std.specs.Prelude.{◌≡◌};
ghost use Rattle.embed_flat.specs.Answers.{code_value};

use wasi_steps::CodeWord;

/// The number of a code in 0.2's `error-code`. The two that 0.2 lacks have the nearest one's.
pub fn code_number(code: CodeWord) -> u8
    ensures { result ≡ (code_value code).0 }
{
    match code {
        CodeWord::Unknown | CodeWord::Other => 0,
        CodeWord::AccessDenied => 1,
        CodeWord::NotSupported => 2,
        CodeWord::InvalidArgument => 3,
        CodeWord::OutOfMemory => 4,
        CodeWord::Timeout => 5,
        CodeWord::ConcurrencyConflict => 6,
        CodeWord::NotInProgress => 7,
        CodeWord::WouldBlock => 8,
        CodeWord::InvalidState => 9,
        CodeWord::NewSocketLimit => 10,
        CodeWord::AddressNotBindable => 11,
        CodeWord::AddressInUse => 12,
        CodeWord::RemoteUnreachable => 13,
        CodeWord::ConnectionRefused => 14,
        CodeWord::ConnectionReset | CodeWord::ConnectionBroken => 15,
        CodeWord::ConnectionAborted => 16,
        CodeWord::DatagramTooLarge => 17,
        CodeWord::NameUnresolvable => 18,
        CodeWord::TemporaryResolverFailure => 19,
        CodeWord::PermanentResolverFailure => 20,
    }
}
