//! The numbers of the calls.

pub const INSTANCE_NETWORK: u32 = 0;

pub const CREATE_TCP_SOCKET: u32 = 1;

pub const CREATE_UDP_SOCKET: u32 = 2;

pub const TCP_START_BIND: u32 = 10;

pub const TCP_FINISH_BIND: u32 = 11;

pub const TCP_START_CONNECT: u32 = 12;

pub const TCP_FINISH_CONNECT: u32 = 13;

pub const TCP_START_LISTEN: u32 = 14;

pub const TCP_FINISH_LISTEN: u32 = 15;

pub const TCP_ACCEPT: u32 = 16;

pub const TCP_LOCAL_ADDRESS: u32 = 17;

pub const TCP_REMOTE_ADDRESS: u32 = 18;

pub const TCP_IS_LISTENING: u32 = 19;

pub const TCP_ADDRESS_FAMILY: u32 = 20;

pub const TCP_SHUTDOWN: u32 = 21;

pub const TCP_KEEP_ALIVE_ENABLED: u32 = 30;

pub const TCP_KEEP_ALIVE_IDLE_TIME: u32 = 31;

pub const TCP_KEEP_ALIVE_INTERVAL: u32 = 32;

pub const TCP_KEEP_ALIVE_COUNT: u32 = 33;

pub const TCP_HOP_LIMIT: u32 = 34;

pub const TCP_RECEIVE_BUFFER_SIZE: u32 = 35;

pub const TCP_SEND_BUFFER_SIZE: u32 = 36;

pub const TCP_SET_KEEP_ALIVE_ENABLED: u32 = 40;

pub const TCP_SET_KEEP_ALIVE_IDLE_TIME: u32 = 41;

pub const TCP_SET_KEEP_ALIVE_INTERVAL: u32 = 42;

pub const TCP_SET_KEEP_ALIVE_COUNT: u32 = 43;

pub const TCP_SET_HOP_LIMIT: u32 = 44;

pub const TCP_SET_RECEIVE_BUFFER_SIZE: u32 = 45;

pub const TCP_SET_SEND_BUFFER_SIZE: u32 = 46;

pub const TCP_SET_LISTEN_BACKLOG_SIZE: u32 = 47;

pub const UDP_START_BIND: u32 = 50;

pub const UDP_FINISH_BIND: u32 = 51;

pub const UDP_STREAM: u32 = 52;

pub const UDP_LOCAL_ADDRESS: u32 = 53;

pub const UDP_REMOTE_ADDRESS: u32 = 54;

pub const UDP_ADDRESS_FAMILY: u32 = 55;

pub const UDP_RECEIVE: u32 = 56;

pub const UDP_CHECK_SEND: u32 = 57;

pub const UDP_SEND: u32 = 58;

pub const UDP_UNICAST_HOP_LIMIT: u32 = 60;

pub const UDP_RECEIVE_BUFFER_SIZE: u32 = 61;

pub const UDP_SEND_BUFFER_SIZE: u32 = 62;

pub const UDP_SET_UNICAST_HOP_LIMIT: u32 = 65;

pub const UDP_SET_RECEIVE_BUFFER_SIZE: u32 = 66;

pub const UDP_SET_SEND_BUFFER_SIZE: u32 = 67;

pub const RESOLVE_ADDRESSES: u32 = 70;

pub const RESOLVE_NEXT_ADDRESS: u32 = 71;

pub const SUBSCRIBE: u32 = 80;

pub const READY: u32 = 81;

pub const BLOCK: u32 = 82;

pub const POLL: u32 = 83;

pub const RESOURCE_DROP: u32 = 84;

pub const NETWORK_ERROR_CODE: u32 = 85;

pub const READ: u32 = 90;

pub const BLOCKING_READ: u32 = 91;

pub const SKIP: u32 = 92;

pub const BLOCKING_SKIP: u32 = 93;

pub const CHECK_WRITE: u32 = 94;

pub const WRITE: u32 = 95;

pub const BLOCKING_WRITE_AND_FLUSH: u32 = 96;

pub const FLUSH: u32 = 97;

pub const BLOCKING_FLUSH: u32 = 98;

pub const WRITE_ZEROES: u32 = 99;

pub const BLOCKING_WRITE_ZEROES_AND_FLUSH: u32 = 100;

pub const SPLICE: u32 = 101;

pub const BLOCKING_SPLICE: u32 = 102;
