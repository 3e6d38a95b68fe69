//! A host as the pointer that a program in C keeps between calls.

ghost use Rattle.std.specs.Prelude.{◌≡◌};
ghost use Rattle.wasi_embed.specs.declared.host.Host.{Host};
ghost use Rattle.wasi_embed.specs.Held.{held_owns, held_coded};

use crate::host::Host;
use crate::parts::Parts;
use std::alloc::{AllocError, Global};
use std::marker::Model;

/// A host as the pointer that C keeps: to C it is that pointer alone. What C passes is one that
/// [`put_host`] gave, of a host that wasn't freed, and none that another call has at the time.
#[repr(C)]
pub struct Held {
    at: *mut u8,
    alloc: Global,
    ghost value: { Host } by { held_coded },
}

impl Model for Held {
    ghost also_owns = { λ h. held_owns h.alloc h.at h.value };
}

impl Held {
    fn into_parts(self) -> Parts<Host, Global>
        ensures { result.value ≡ self.value }
    {
        let Held { at, alloc } = self;
        Parts {
            ptr: at as *mut Host,
            alloc,
        }
    }

    /// The host.
    pub fn into_box(self) -> Box<Host>
        ensures { result.value ≡ self.value }
    {
        self.into_parts().into_box()
    }
}

/// Puts a host on the heap, and its pointer there.
pub fn put_host(alloc: Global, host: Host, out: &mut *mut u8) -> Result<(), AllocError> {
    *out = Box::into_raw(Box::new(alloc, host)?) as *mut u8;
    Ok(())
}
