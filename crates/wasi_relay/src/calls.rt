//! The steps of the guest, and what it takes from their replies.

ghost use Rattle.std.specs.Prelude.{◌≡◌, List, slice_get, option_map};
ghost use Rattle.wasi_relay.specs.Guest.{call, one};
ghost use Rattle.wasi_relay.specs.Went.{Went};
ghost use Rattle.wasi_relay.specs.Replies.{number_at, handle_at, handle_of, bytes_at};
ghost use Rattle.wasi_relay.specs.Replies.{field_number, field_bytes};
ghost use Rattle.wasi_relay.specs.Setup.{handle_in};

use wasi_session::{Field, GuestCall, Reply, Session, Step, StepError};
use wasi_world::{Handle, World};

/// Makes a step.
pub(crate) fn step<W: World>(session: &mut Session<W>, step: Step) -> Result<Reply, StepError>
    ensures { Went (one step) session.old session.new result }
{
    session.step(step)
}

/// Makes a call, in context 0.
pub(crate) fn call<W: World>(
    session: &mut Session<W>,
    request: GuestCall,
) -> Result<Reply, StepError>
    ensures { Went (call request) session.old session.new result }
{
    step(
        session,
        Step::Call {
            context: 0,
            call: request,
        },
    )
}

/// The number of a field; 0 where it is none.
fn field_number(field: &Field) -> u64
    ensures { result ≡ field_number field.now }
{
    match field {
        Field::Number(number) => *number,
        _ => 0,
    }
}

/// The bytes of a field; none where it has none.
fn field_bytes(field: &Field) -> &[u8]
    ensures { result.now ≡ field_bytes field.now }
{
    match field {
        Field::Bytes(bytes) => bytes.as_slice(),
        _ => &[],
    }
}

/// The number at a place of a reply; 0 where there is none.
pub(crate) fn number_at(fields: &[Field], place: usize) -> u64
    ensures { result ≡ number_at fields.now place }
{
    match fields.get(place) {
        Some(field) => field_number(field),
        None => 0,
    }
}

/// The bytes at a place of a reply; none where there are none.
pub(crate) fn bytes_at(fields: &[Field], place: usize) -> &[u8]
    ensures { result.now ≡ bytes_at fields.now place }
{
    match fields.get(place) {
        Some(field) => field_bytes(field),
        None => &[],
    }
}

/// The handle at a place of a reply; 0, which is no handle, where there is none.
pub(crate) fn handle_at(fields: &[Field], place: usize) -> Handle
    ensures { result ≡ handle_at fields.now place }
{
    let number = number_at(fields, place);
    if number > u64::from(u32::MAX) {
        return 0;
    }
    number as Handle
}

/// The handle that a reply gives first; 0, which is no handle, where it gives none.
pub(crate) fn handle_in(reply: &Reply) -> Handle
    ensures { result ≡ handle_in reply.now }
{
    match reply {
        Reply::Ok(fields) => handle_at(fields.as_slice(), 0),
        _ => 0,
    }
}
