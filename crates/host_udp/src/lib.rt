//! The calls on UDP sockets and their datagrams, by the number of a record: functions over the store.
#![tactic(auto)]

mod cancelling;
mod datagram_calls;
mod socket_datagrams;
mod udp_binding;
mod udp_calls;
mod udp_connecting;

pub use cancelling::{cancel_create, cancel_drop_outgoing, cancel_udp_bind, cancel_udp_connect};
pub use datagram_calls::{
    check_send, drop_incoming, drop_outgoing, incoming_ready, make_streams, outgoing_ready,
    receive_datagrams, remake_streams, send_datagrams,
};
pub use socket_datagrams::{
    drop_datagram, drop_udp, receive_datagram, rereceive, resend, send_datagram,
};
pub use udp_binding::{bind_udp, rebind_udp};
pub use udp_calls::{
    create_on, create_udp, create_udp_socket, finish_udp_bind, get_udp_option, release_udp,
    set_udp_option, start_udp_bind, udp_address_family, udp_local_address, udp_remote_address,
    udp_side,
};
pub use udp_connecting::{connect_udp, reconnect_udp};
