//! What follows from the definition of bindings, for whatever REGISTERs and lists of users came.

ghost use Rattle.registrar.specs.BindingLaws.{EightStand, NeverTooMany, NoneLeaves, NoneOutlasts, OldestLeave};
ghost use Rattle.registrar.specs.Bound.{FewBound, GoneIsUnbound, KnownKeepsBindings, LastContactIsTarget, QueryKeepsTarget};

/// A user has at most eight bindings. A call goes to the last contact of a REGISTER, where that is bound by it, and
/// goes where it went, after a REGISTER without contacts. A list of users leaves the bindings of those on it, and no
/// others.
pub fn laws_of_bindings()
    ensures few { FewBound }
    ensures last { LastContactIsTarget }
    ensures query { QueryKeepsTarget }
    ensures gone { GoneIsUnbound }
    ensures known { KnownKeepsBindings }
{}

/// No binding outlasts the greatest lifetime. Where the oldest bindings are dropped, eight remain, none that is
/// dropped was refreshed after one that stays, and B5 never comes; where there is room for all, none is dropped.
pub fn laws_of_binding_rules()
    ensures lasting { NoneOutlasts }
    ensures eight { EightStand }
    ensures oldest { OldestLeave }
    ensures few { NeverTooMany }
    ensures room { NoneLeaves }
{}
