//! The one later call that a world was armed for, and the code that answers it.

ghost use Rattle.std.specs.Prelude.{◌≡◌};
ghost use Rattle.world_scripted.specs.Armed.{code_fits, falls, armed_after};

use crate::lists::kind_of;
use wasi_addr::ErrorCode;
use wasi_world::{Call, Planned};

/// Whether a code may answer the call. No code answers a check, nor a call that is always done.
pub fn code_fits(call: &Call, code: ErrorCode) -> bool
    ensures { result ≡ code_fits code call.now }
{
    match kind_of(call) {
        Some(kind) => kind.takes(&Planned::Code(code)),
        None => false,
    }
}

/// The later call that a code answers, counted over the calls that the code fits.
#[derive(Clone, Copy, Debug, PartialEq, Eq)]
pub struct Arming {
    /// How many such calls come up to it, itself counted; 0 where there is none.
    pub nth: u32,
    /// The code that answers it.
    pub code: ErrorCode,
}

impl Arming {
    /// Whether this call is the one.
    pub(crate) fn falls(&self, call: &Call) -> bool
        ensures { result ≡ falls self.now call.now }
    {
        self.nth == 1 && code_fits(call, self.code)
    }

    /// What is left of it after a call.
    pub(crate) fn after(self, call: &Call) -> Arming
        ensures { result ≡ armed_after self call.now }
    {
        if code_fits(call, self.code) {
            return Arming {
                nth: self.nth.saturating_sub(1),
                code: self.code,
            };
        }
        self
    }
}
