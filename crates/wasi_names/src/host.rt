//! The host that the library `url` reads out of a text.

ghost use Rattle.std.specs.Prelude.{◌≡◌, ◌++◌, IfOk, codes, option_map, string_bytes};
ghost use Rattle.url.specs.Host.{borrowed_host, owned_host};
ghost use Rattle.wasi_names.specs.Names.{host_in};

use std::alloc::{AllocError, Global};
use url::{Host, ParseError, Url};

/// The host of the URL; None where `url` refuses it.
fn host_of(alloc: Global, text: &str) -> Result<Option<Host<String>>, AllocError>
    ensures { IfOk result (λ host. option_map owned_host host ≡ host_in text.now) }
{
    match Url::parse(alloc, text) {
        Ok(url) => match url.host() {
            Some(host) => {
                let owned = host.to_owned(alloc)?;
                Ok(Some(owned))
            }
            None => Ok(None),
        },
        Err(ParseError::OutOfMemory) => Err(AllocError),
        Err(ParseError::Overflow) => Err(AllocError),
        Err(_) => Ok(None),
    }
}

/// The name with these texts around it.
fn between(alloc: Global, before: &str, name: &str, after: &str) -> Result<String, AllocError>
    ensures { IfOk result (λ text. string_bytes text ≡ before.now ++ name.now ++ after.now) }
{
    let mut text = String::new(alloc);
    text.push_str(before)?;
    text.push_str(name)?;
    text.push_str(after)?;
    Ok(text)
}

/// The host of `http://[NAME]/`.
pub(crate) fn host_in_brackets(
    alloc: Global,
    name: &str,
) -> Result<Option<Host<String>>, AllocError>
    ensures { IfOk result (λ host. option_map owned_host host
        ≡ host_in (codes "http://[" ++ name.now ++ codes "]/")) }
{
    let text = between(alloc, "http://[", name, "]/")?;
    host_of(alloc, text.as_str())
}

/// The host of `http://NAME/`.
pub(crate) fn host_as_written(alloc: Global, name: &str) -> Result<Option<Host<String>>, AllocError>
    ensures { IfOk result (λ host. option_map owned_host host
        ≡ host_in (codes "http://" ++ name.now ++ codes "/")) }
{
    let text = between(alloc, "http://", name, "/")?;
    host_of(alloc, text.as_str())
}
