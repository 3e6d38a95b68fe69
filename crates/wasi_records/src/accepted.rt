//! Keeps the record of a socket that was accepted.

ghost use Rattle.std.specs.Prelude.{◌≡◌, true, Ok};
ghost use Rattle.record_common.specs.Stops.{host_outcome};
ghost use Rattle.wasi_records.specs.Accepted.{with_accepted_in};

use crate::record_list::{RecordId, RecordList};
use crate::records::Record;
use record_common::SocketError;
use tcp_records::TcpRecord;
use wasi_tcp::TcpSocket;

/// Adds the record of an accepted socket, for which `reserve` took room, and returns its number. A
/// socket that failed has no record: its code is returned.
pub fn keep_accepted(records: &mut RecordList, socket: TcpSocket) -> Result<RecordId, SocketError>
    requires { records.old.room ≡ true }
    ensures told { host_outcome result ≡ Ok (with_accepted_in records.old.items socket).0 }
    ensures records { records.new.items ≡ (with_accepted_in records.old.items socket).1 }
{
    let place = records.len();
    let mut accepted = TcpRecord::new(socket);
    accepted.open_streams()?;
    records.push_reserved(Record::Tcp(accepted));
    Ok(place)
}
