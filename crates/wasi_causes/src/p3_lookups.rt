//! Where the answers of the lookups of 0.3 come from, and what is left then: laws over the
//! definitions of specs/. Each is a function that does nothing, whose contract is the law.

ghost use Rattle.std.specs.Prelude.{◌≡◌, ◌↔◌, ℕ, true, false, List, Some, None};
ghost use Rattle.wasi_names.specs.Names.{name_is};
ghost use Rattle.wasi_world.specs.declared.call.Entry.{Entry};
ghost use Rattle.wasi_world.specs.declared.outcome.WasiSocketsCtx.{WasiSocketsCtx};
ghost use Rattle.host_store.specs.declared.beside.BesideCall.{BesideCall};
ghost use Rattle.host_store.specs.declared.machine.Machine.{Machine};
ghost use Rattle.host_store.specs.Beside.{beside_as, beside_of};
ghost use Rattle.host_store.specs.Machine.{own_of};
ghost use Rattle.wasi_machine.specs.Machine.{context_at};
ghost use Rattle.wasi_steps.specs.declared.guest_call.GuestCall.{GuestCall};
ghost use Rattle.wasi_steps.specs.declared.guest_call.P3NameCall.{P3NameCall};
ghost use Rattle.wasi_steps.specs.declared.reply.CodeWord.{CodeWord};
ghost use Rattle.wasi_steps.specs.declared.reply.Field.{Field};
ghost use Rattle.wasi_steps.specs.declared.reply.Reply.{Reply};
ghost use Rattle.wasi_steps.specs.declared.step.Step.{Step};
ghost use Rattle.wasi_walks.specs.Answered.{Answered};
ghost use Rattle.wasi_causes.specs.Lookups.{ResolveRefusal};
ghost use Rattle.wasi_causes.specs.P3Connects.{IsBeside};
ghost use Rattle.wasi_causes.specs.P3Lookups.{FindsAddresses, LookupPolled, LookupStands};

/// What a lookup of 0.3 asks, answers and leaves.
///
/// - `forbidden`: it is refused with `permanent-resolver-failure` exactly where the context may not
///   look names up; that is said where no call is pending.
/// - `unnamed`: with `invalid-argument` exactly where it may, and the name is refused; that is said
///   where no call is pending.
/// - `refused`: in both cases nothing is asked. Any other refusal is `name-unresolvable`: the name
///   is a domain, and the network, which was asked for it once, answered with a code.
/// - `stays`: after a refusal the machine is unchanged.
/// - `done`: one that is done gives the name, where that is an address, and nothing was asked; or
///   the addresses that the network, which was asked for the domain once, answered, in their order
///   and each in its canonical form. The machine is unchanged.
/// - `pending`: of one that is pending the network was asked for the domain once, and answered so;
///   the call stands beside others under its line's number.
pub fn p3_lookups()
    ensures forbidden { (contexts : List WasiSocketsCtx) (m : Machine) (line ctx : ℕ)
        (name : List ℕ) (entries : List Entry) (reply : Reply) (after : Machine)
        → m.store.standing ≡ None
        → Answered contexts m line (Step.Call ctx (GuestCall.P3Names (P3NameCall.Resolve name))) entries reply after
        → (reply ≡ Reply.Err CodeWord.PermanentResolverFailure)
        ↔ ((context_at contexts ctx).ip_name_lookup ≡ false) }
    ensures unnamed { (contexts : List WasiSocketsCtx) (m : Machine) (line ctx : ℕ)
        (name : List ℕ) (entries : List Entry) (reply : Reply) (after : Machine)
        → m.store.standing ≡ None
        → Answered contexts m line (Step.Call ctx (GuestCall.P3Names (P3NameCall.Resolve name))) entries reply after
        → (reply ≡ Reply.Err CodeWord.InvalidArgument)
        ↔ (((context_at contexts ctx).ip_name_lookup ≡ true) × (name_is name ≡ None)) }
    ensures refused { (contexts : List WasiSocketsCtx) (m : Machine) (line ctx : ℕ)
        (name : List ℕ) (entries : List Entry) (word : CodeWord) (after : Machine)
        → Answered contexts m line (Step.Call ctx (GuestCall.P3Names (P3NameCall.Resolve name))) entries
        (Reply.Err word) after
        → ResolveRefusal (own_of line) (context_at contexts ctx) name entries word }
    ensures stays { (contexts : List WasiSocketsCtx) (m : Machine) (line ctx : ℕ)
        (name : List ℕ) (entries : List Entry) (word : CodeWord) (after : Machine)
        → Answered contexts m line (Step.Call ctx (GuestCall.P3Names (P3NameCall.Resolve name))) entries
        (Reply.Err word) after
        → after ≡ m }
    ensures done { (contexts : List WasiSocketsCtx) (m : Machine) (line ctx : ℕ)
        (name : List ℕ) (entries : List Entry) (fields : List Field) (after : Machine)
        → Answered contexts m line (Step.Call ctx (GuestCall.P3Names (P3NameCall.Resolve name))) entries
        (Reply.Ok fields) after
        → FindsAddresses m (own_of line) (context_at contexts ctx) name entries fields after }
    ensures pending { (contexts : List WasiSocketsCtx) (m : Machine) (line ctx : ℕ)
        (name : List ℕ) (entries : List Entry) (number : ℕ) (after : Machine)
        → Answered contexts m line (Step.Call ctx (GuestCall.P3Names (P3NameCall.Resolve name))) entries
        (Reply.Pending number) after
        → LookupStands m line (context_at contexts ctx) name entries after }
{}

/// What a poll of a lookup that stands beside others answers, unless it is busy: the network is
/// asked again, by the name of the call's line. It is pending still, and nothing changed; or it
/// gives the addresses that were answered; or the network answered with a code, and it is
/// `name-unresolvable`. After these two the call is over. A cancel of one is a clause of
/// `polls_of_connects`.
pub fn polls_of_lookups()
    ensures { (contexts : List WasiSocketsCtx) (m : Machine) (line n : ℕ) (host : List ℕ)
        (entries : List Entry) (reply : Reply) (after : Machine)
        → IsBeside m n → beside_of m.store n ≡ Some (beside_as n (BesideCall.Resolve host))
        → (reply ≡ Reply.Busy → ⊥) → Answered contexts m line (Step.Poll n) entries reply after
        → LookupPolled m n host entries reply after }
{}
