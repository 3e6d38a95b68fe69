//! Where the answers of gets and sets of options and of the backlog come from: laws over the
//! definitions of specs/. Each is a function that does nothing, whose contract is the law.

ghost use Rattle.std.specs.Prelude.{◌≡◌, ℕ, List};
ghost use Rattle.wasi_world.specs.declared.call.Entry.{Entry};
ghost use Rattle.wasi_world.specs.declared.call.Opt.{Opt};
ghost use Rattle.wasi_world.specs.declared.outcome.WasiSocketsCtx.{WasiSocketsCtx};
ghost use Rattle.host_store.specs.declared.machine.Machine.{Machine};
ghost use Rattle.host_store.specs.Machine.{own_of};
ghost use Rattle.wasi_steps.specs.declared.reply.CodeWord.{CodeWord};
ghost use Rattle.wasi_steps.specs.declared.reply.Field.{Field};
ghost use Rattle.wasi_steps.specs.declared.reply.Reply.{Reply};
ghost use Rattle.wasi_steps.specs.declared.reply.Reply.TheVariants as Reply;
ghost use Rattle.wasi_steps.specs.declared.setting.TcpSetting.{TcpSetting};
ghost use Rattle.wasi_steps.specs.declared.guest_call.GuestCall.TheVariants as GuestCall;
ghost use Rattle.wasi_steps.specs.declared.guest_call.TcpCall.TheVariants as TcpCall;
ghost use Rattle.wasi_steps.specs.declared.step.Step.TheVariants as Step;
ghost use Rattle.wasi_walks.specs.Answered.{Answered, OfRecord};
ghost use Rattle.wasi_causes.specs.Options.{RefusedGet, RefusedSet, GetsOption, SetsChosen};
ghost use Rattle.wasi_steps.specs.Reply.{no_fields};
ghost use Rattle.wasi_steps.specs.Settings.{chosen};

/// Why a get of an option is refused.
///
/// - `cause`: a get of an option is refused with `invalid-state` while the socket connects, or with
///   the code with which it is closed, and nothing is asked then; with the code that its one call
///   was answered; or with `not-supported` where that gave a value too large for the option.
/// - `stays`: whatever the answer is, the machine is unchanged.
pub fn get_option_refusals()
    ensures cause { (contexts : List WasiSocketsCtx) (m : Machine) (line ctx handle : ℕ)
        (option : Opt) (entries : List Entry) (word : CodeWord) (after : Machine)
        → Answered contexts m line (Step.Call ctx (GuestCall.Tcp (TcpCall.Get handle option))) entries
        (Reply.Err word) after
        → RefusedGet m (own_of line) handle option entries word after }
    ensures stays { (contexts : List WasiSocketsCtx) (m : Machine) (line ctx handle : ℕ)
        (option : Opt) (entries : List Entry) (reply : Reply) (after : Machine)
        → Answered contexts m line (Step.Call ctx (GuestCall.Tcp (TcpCall.Get handle option))) entries reply
        after → after ≡ m }
{}

/// Why a set is refused (`cause`); the machine is unchanged then (`stays`).
///
/// - An option: `invalid-argument` for 0 where the option has no such value, before the state is
///   looked at or after it, as the option has it; `invalid-state` while the socket connects; the
///   code with which it is closed; or the code that its one call was answered.
/// - The backlog: `invalid-argument` for 0 in any state; `invalid-state` where the socket connects
///   or is connected; the code with which it is closed; or `not-supported` where its one call, on
///   the listener, was answered with a code.
///
/// Only in the last case of each is anything asked.
pub fn set_option_refusals()
    ensures cause { (contexts : List WasiSocketsCtx) (m : Machine) (line ctx handle : ℕ)
        (setting : TcpSetting) (entries : List Entry) (word : CodeWord) (after : Machine)
        → Answered contexts m line (Step.Call ctx (GuestCall.Tcp (TcpCall.Set handle setting))) entries
        (Reply.Err word) after
        → RefusedSet m (own_of line) handle setting entries word after }
    ensures stays { (contexts : List WasiSocketsCtx) (m : Machine) (line ctx handle : ℕ)
        (setting : TcpSetting) (entries : List Entry) (word : CodeWord) (after : Machine)
        → Answered contexts m line (Step.Call ctx (GuestCall.Tcp (TcpCall.Set handle setting))) entries
        (Reply.Err word) after
        → after ≡ m }
{}

/// What gets and sets that are done asked and answered.
///
/// - `read`: a get answers with what its one call for the option was answered, as the option reads
///   it: a size is halved, and for whether probes are sent any number but 0 is 1. It is at most the
///   option's largest value.
/// - `nothing`: a set answers with no value.
/// - `written`, for an option: its one call set it to the value brought into its range, and was
///   answered done; the machine is unchanged.
/// - `written`, for the backlog: it isn't 0, and the socket keeps it, brought into its range. In
///   the state Default nothing was asked; else the one call was on the listener, and was answered
///   done.
pub fn options_are_read_and_set()
    ensures read { (contexts : List WasiSocketsCtx) (m : Machine) (line ctx handle : ℕ)
        (option : Opt) (fields : List Field) (entries : List Entry) (after : Machine)
        → Answered contexts m line (Step.Call ctx (GuestCall.Tcp (TcpCall.Get handle option))) entries
        (Reply.Ok fields) after
        → OfRecord m handle (λ place r. GetsOption (own_of line) option r fields entries) }
    ensures nothing { (contexts : List WasiSocketsCtx) (m : Machine) (line ctx handle : ℕ)
        (setting : TcpSetting) (fields : List Field) (entries : List Entry) (after : Machine)
        → Answered contexts m line (Step.Call ctx (GuestCall.Tcp (TcpCall.Set handle setting))) entries
        (Reply.Ok fields) after
        → fields ≡ no_fields }
    ensures written { (contexts : List WasiSocketsCtx) (m : Machine) (line ctx handle : ℕ)
        (setting : TcpSetting) (fields : List Field) (entries : List Entry) (after : Machine)
        → Answered contexts m line (Step.Call ctx (GuestCall.Tcp (TcpCall.Set handle setting))) entries
        (Reply.Ok fields) after
        → OfRecord m handle (λ place r. SetsChosen m (own_of line) (chosen setting) place r entries
        after) }
{}
