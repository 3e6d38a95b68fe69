//! How many bytes the writers of each context hold, added up as they change.

ghost use Rattle.std.specs.Prelude.{◌≡◌, ◌≤◌, ◌+◌, ℕ, true};
ghost use Rattle.std.specs.Prelude.{OnOk};
ghost use Rattle.wasi_records.specs.Totals.{total_of, share_by, Adds, Takes, IsSame};

use std::alloc::{AllocError, Global};
use std::collections::HashMap;

/// What one record counts for: so many bytes of this context.
#[derive(Clone, Copy)]
pub(crate) struct Share {
    pub(crate) context: u32,
    pub(crate) bytes: u64,
}

impl Share {
    /// That of a record that counts for nothing.
    pub(crate) fn none() -> Share
        ensures { (context : ℕ) → share_by result context ≡ 0 }
    {
        Share {
            context: 0,
            bytes: 0,
        }
    }

    /// What it counts for this context.
    pub(crate) fn of(&self, context: u32) -> u64
        ensures { result ≡ share_by self.now context }
    {
        if self.context == context {
            self.bytes
        } else {
            0
        }
    }
}

/// The bytes of each context.
#[derive(Drop)]
pub(crate) struct Totals {
    by_context: HashMap<u32, u64>,
    /// Whether they are right. They are no more once a share had no total, or a total went past
    /// what a `u64` has.
    pub(crate) exact: bool,
}

impl Totals {
    /// No context has any. Takes no memory.
    pub(crate) fn new(alloc: Global) -> Totals
        ensures none { (context : ℕ) → total_of result context ≡ 0 }
    {
        Totals {
            by_context: HashMap::new(alloc),
            exact: true,
        }
    }

    /// The total of a context.
    pub(crate) fn of(&self, context: u32) -> u64
        ensures { result ≡ total_of self.now context }
    {
        self.by_context.get(&context).copied().unwrap_or(0)
    }

    /// Makes room for the total of a context.
    pub(crate) fn reserve(&mut self, context: u32) -> Result<(), AllocError>
        ensures { IsSame self.old self.new }
    {
        self.by_context.entry(context)?.or_insert(0);
        Ok(())
    }

    /// Adds a share. Takes no memory.
    pub(crate) fn add(&mut self, share: Share)
        ensures { Adds self.old self.new (share_by share) }
    {
        if share.bytes == 0 {
            return;
        }
        let Some(total) = self.by_context.get_mut(&share.context) else {
            self.exact = false;
            return;
        };
        let Some(sum) = total.checked_add(share.bytes) else {
            self.exact = false;
            return;
        };
        *total = sum;
    }

    /// Takes a share out. Takes no memory.
    pub(crate) fn take(&mut self, share: Share)
        requires { self.old.exact ≡ true → (context : ℕ) →
            share_by share context ≤ total_of self.old context }
        ensures { Takes self.old self.new (share_by share) }
    {
        if share.bytes == 0 || !self.exact {
            return;
        }
        if let Some(total) = self.by_context.get_mut(&share.context) {
            *total -= share.bytes;
        }
    }
}
