//! REGISTERs and lists of users, counted from the first event on.

ghost use Rattle.std.specs.Prelude.{◌≡◌, ℕ, Err, List, Ok, Some};
ghost use Rattle.event_rows.specs.Rows.{row};
ghost use Rattle.event_rows.specs.State.{Contents, IsNew, moment_at, rules_by};
ghost use Rattle.event_rows.specs.Trace.{AreEntries, Entry, after_entries};
ghost use Rattle.configuration.specs.declared.config.Config.{Config};
ghost use Rattle.events.specs.declared.event.Event.{Event};
ghost use Rattle.registrar.specs.Bound.{Event as RegistrarEvent, answer_after};
ghost use Rattle.registrar.specs.Registering.{Rules};
ghost use Rattle.registrar.specs.Registrar.{StandsAfter};
ghost use Rattle.registrar.specs.declared.binding.Binding.{Binding};
ghost use Rattle.registrar.specs.declared.refusal.Refusal.{Refusal};
ghost use Rattle.responses.specs.Registering.{register_of};
ghost use Rattle.sip_message.specs.declared.message.Request.{Request};
ghost use Rattle.sip_uri.specs.declared.uri.Addr.{Addr};
ghost use Rattle.step_laws.specs.Registering.{AreRegistrations, BringsUsers, ListsBound, Refuses, Registers, TakesUsers, registration_at};

/// After any events of a new agent its registrar has what the REGISTERs and the lists of users among them leave, in
/// their order, and nothing else changes it (`stands`). Where a registrar is so, an arriving REGISTER is answered by
/// the fold over that list. Where it is not refused, the one response is a 200 that lists what its user is bound to
/// at its moment, itself counted, each binding with the rest of its life (`lists`). Where it is refused, the one
/// response has the status of the refusal, and the registrar stays (`refused`). A list of users is taken: the
/// registrar then has it, nothing is sent, and all calls are as they were (`listed`). Whether an event brings a
/// REGISTER or a list can be decided, so there is such a list of any events (`exact`).
pub fn registers_are_counted()
    ensures stands { (config : Config) (s : Contents) (entries : List Entry) (history : List RegistrarEvent) → IsNew config s → AreEntries s entries →
        AreRegistrations (rules_by config) s entries history → StandsAfter (after_entries s entries).registrar (rules_by config) history }
    ensures lists { (s : Contents) (rules : Rules) (history : List RegistrarEvent) → StandsAfter s.registrar rules history →
        (event : Event) (source : Addr) (r : Request) (id : ℕ) → Registers s event source r id →
        (user : List ℕ) → (register_of rules r).user ≡ Some user → (bindings : List Binding) →
        answer_after rules history (register_of rules r) (moment_at s event.now) ≡ Ok bindings →
        ListsBound rules history (registration_at rules s event r) (moment_at s event.now) source r user (row s event) }
    ensures refused { (s : Contents) (rules : Rules) (history : List RegistrarEvent) → StandsAfter s.registrar rules history →
        (event : Event) (source : Addr) (r : Request) (id : ℕ) → Registers s event source r id →
        (refusal : Refusal) → answer_after rules history (register_of rules r) (moment_at s event.now) ≡ Err refusal →
        Refuses source r s.least refusal (row s event) }
    ensures listed { (s : Contents) (rules : Rules) (history : List RegistrarEvent) → StandsAfter s.registrar rules history →
        (event : Event) (users : List (List ℕ)) → BringsUsers s event users → TakesUsers rules history users s event }
    ensures exact { (rules : Rules) (entries : List Entry) (s : Contents) → (history : List RegistrarEvent) × AreRegistrations rules s entries history }
{}
