//! Laws of how much one poll does. Each is a function that does nothing, whose contract is the law.

ghost use Rattle.std.specs.Prelude.{ℕ, ◌+◌, ◌≤◌, List};
ghost use Rattle.wasi_world.specs.declared.call.Entry.{Entry};
ghost use Rattle.wasi_world.specs.Asks.{Asks, Left};
ghost use Rattle.wasi_world.specs.Operation.{Item, End, Operation};
ghost use Rattle.wasi_tcp.specs.Accept.{IsAccept};
ghost use Rattle.wasi_udp.specs.Receive.{IsReceive};
ghost use Rattle.wasi_laws.specs.Order.{operation_polled};
ghost use Rattle.wasi_laws.specs.Bounds.{datagrams_held, received_in, senders_checked_in};
ghost use Rattle.wasi_laws.specs.Bounds.{wanted_sender, dropped_in, IsReceiving, MayDrop};
ghost use Rattle.wasi_laws.specs.Bounds.{arrivals_held, arrived_in, refused_in, IsRefusing};
ghost use Rattle.wasi_laws.specs.Bounds.{MayRefuse};

/// One poll of a receive, at any of its stages, deals with at most 64 datagrams.
///
/// - `received`: it receives at most 64, and one fewer where it has one in hand already.
/// - `checked`: it checks at most 64 senders.
/// - `dropped`: it drops at most 64 datagrams: those whose sender's check said no, or that come
///   from another sender than the one that is wanted.
/// - `reached`: 64 is reached. Where it has anything to ask, the network can answer so that it
///   drops 64, and then is pending.
pub fn receives_drop_at_most_64()
    ensures received { (op : Operation) (entries : List Entry) (rest : Asks (End × List Item))
        → IsReceive op → Left (operation_polled op) entries rest
        → datagrams_held op.left + received_in entries ≤ 64 }
    ensures checked { (op : Operation) (entries : List Entry) (rest : Asks (End × List Item))
        → IsReceive op → Left (operation_polled op) entries rest → senders_checked_in entries ≤ 64 }
    ensures dropped { (op : Operation) (entries : List Entry) (rest : Asks (End × List Item))
        → IsReceive op → Left (operation_polled op) entries rest
        → dropped_in (wanted_sender op.left) entries ≤ 64 }
    ensures reached { (op : Operation) → IsReceive op → IsReceiving op.left → MayDrop 64 op }
{}

/// One poll of an accept, at any of its stages, deals with at most 64 arrivals.
///
/// - `arrived`: at most 64 arrive, and one fewer where it has one in hand already.
/// - `refused`: it refuses at most 64.
/// - `reached`: 64 is reached. Where it has anything to ask but the hand-over of an arrival that
///   was allowed, the network can answer so that it refuses 64, and then is pending.
pub fn accepts_refuse_at_most_64()
    ensures arrived { (op : Operation) (entries : List Entry) (rest : Asks (End × List Item))
        → IsAccept op → Left (operation_polled op) entries rest
        → arrivals_held op.left + arrived_in entries ≤ 64 }
    ensures refused { (op : Operation) (entries : List Entry) (rest : Asks (End × List Item))
        → IsAccept op → Left (operation_polled op) entries rest → refused_in entries ≤ 64 }
    ensures reached { (op : Operation) → IsAccept op → IsRefusing op.left → MayRefuse 64 op }
{}
