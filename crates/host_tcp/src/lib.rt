//! The calls on TCP sockets of both generations, by the number of a record: functions over the store.
#![tactic(auto)]

mod binding;
mod cancelling;
mod connecting;
mod connection_ends;
mod creating;
mod end_polls;
mod listening;
mod options;
mod releasing;
mod tcp_calls;

pub use binding::{bind_tcp, tcp_rebind};
pub use cancelling::{cancel_listen, tcp_cancel_bind};
pub use connecting::{connect_tcp, reconnect_tcp};
pub use connection_ends::{drop_end, drop_slot, take_receive_end, take_send_end};
pub use creating::{make_tcp, tcp_create_socket};
pub use end_polls::{not_yet, poll_read_end, poll_write_end};
pub use listening::{accept_tcp, listen_tcp, look_accept, relisten_tcp};
pub use options::{set_backlog, tcp_get_option, tcp_set_option};
pub use releasing::{drop_listener, drop_output, tcp_drop, tcp_release};
pub use tcp_calls::{
    accept, is_listening, relisten, shutdown, start_listen, tcp_address_family, tcp_finish,
    tcp_finish_connect, tcp_local_address, tcp_remote_address, tcp_start_bind, tcp_start_connect,
};
