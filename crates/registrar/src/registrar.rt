//! The registrar.

ghost use Rattle.std.specs.Prelude.{◌≡◌, ◌≢◌, ℕ, List, [], ◌∷◌, ◌++◌, ◌≤◌, ◌<◌, ◌^◌, length, None, Some, Err, OnOk, OnErr, IfOk, IfSome, IsTrue};
ghost use Rattle.std.specs.Option.{option_copied};
ghost use Rattle.registrar.specs.Limits.{max_users, max_min_expires};
ghost use Rattle.registrar.specs.Registering.{Rules, AllLast, bindings_by, bindings_after_one, is_own_host, user_of, are_distinct, is_known, whole_refusal};
ghost use Rattle.registrar.specs.Bound.{Event, Listed, bound, target_of, answer_after};
ghost use Rattle.registrar.specs.Changes.{after_change, listed, listing_of, user_of_change};
ghost use Rattle.registrar.specs.Registrar.{Gives, Counts, Plans};
ghost use Rattle.registrar.specs.declared.refusal.Refusal.TheVariants as Refusal;

use crate::binding::Binding;
use crate::binding_rules::BindingRules;
use crate::change::{Listing, RegistrarChange};
use crate::contact_rules::{with_contacts, within_limit};
use crate::copies::{copy_all, present};
use crate::draft::{drafts_of, first_number};
use crate::entries::Entries;
use crate::plan::Plan;
use crate::refusal::Refusal;
use crate::register::Register;
use crate::register_rules::{all_bindable, is_star_misused, is_star_stale};
use crate::targets::target;
use crate::user_bindings::UserBindings;
use index::PrintKey;
use sip_uri::{Host, Uri};
use std::alloc::{AllocError, Global};
use std::marker::Model;
use text::{Text, Texts};

/// The bindings of each user of the office (RFC 3261 section 10.3).
pub struct Registrar {
    alloc: Global,
    entries: Entries,
    ip: [u8; 4],
    sip_port: u16,
    domain: Text<'static>,
    binding_rules: BindingRules,
}

impl Drop for Registrar {
    fn drop(self) {
        let Registrar {
            alloc: _,
            entries: _,
            ip: _,
            sip_port: _,
            domain: _,
            binding_rules: _,
        } = self;
    }
}

impl Model for Registrar {
    ghost use Rattle.registrar.specs.Registrar.{Contents};

    ghost Value = { Contents };

    ghost view = { λ r. record { entries = r.entries.entries; ip = r.ip; sip_port = r.sip_port; domain = r.domain; binding_rules = r.binding_rules; key = r.entries.key } };
}

impl Registrar {
    ghost use Rattle.registrar.specs.Registrar.{StandsAfter, Contents, rules_of, answer_of, refusal_of, after_plan, bindings_of, bindings_at, event, registered, rules_given};

    /// A registrar without bindings for these users of a server at this address, port and domain, which binds by
    /// these rules. It looks users up by prints under this key, and no other, for good. No other result depends on it.
    pub fn new(
        alloc: Global,
        key: PrintKey,
        users: Texts<'static>,
        ip: [u8; 4],
        sip_port: u16,
        domain: Text<'static>,
        binding_rules: BindingRules,
    ) -> Result<Registrar, AllocError>
        requires some { 1 ≤ length users }
        requires room { length users ≤ max_users }
        requires distinct { IsTrue (are_distinct users) }
        requires least { 1 ≤ binding_rules.min_expires }
        requires bounded { binding_rules.min_expires ≤ max_min_expires }
        requires most { IfSome binding_rules.max_expires (λ most. binding_rules.min_expires ≤ most) }
        ensures stands { IfOk result (λ r. StandsAfter r (rules_given users.entry ip sip_port domain.entry binding_rules) []) }
        ensures key { IfOk result (λ r. r.key ≡ key) }
    {
        let entries = Entries::new(alloc, key, users)?;
        Ok(Registrar {
            alloc,
            entries,
            ip,
            sip_port,
            domain,
            binding_rules,
        })
    }

    /// The user that the To of a REGISTER names: its host is the server's address or its domain (RFC 3261 section
    /// 10.3, steps 1 and 5). The user need not be known. Takes no memory.
    #[tactic(auto, unfolding(crate::specs::Registering::user_of))]
    pub fn user_of<'m, 'a>(&self, to: &'m Uri<'a>) -> Option<&'m Text<'a>>
        ensures { option_copied result ≡ user_of (rules_of self.now) to.now }
    {
        if self.is_own_host(&to.host) {
            to.user.as_ref()
        } else {
            None
        }
    }

    /// Whether this is one of the users. Takes no memory.
    pub fn knows(&self, user: &Text<'_>) -> bool
        ensures { result ≡ is_known (rules_of self.now) user.now }
    {
        self.look_up(user).0
    }

    /// What `apply` returns for a REGISTER, and the change that it would make. Changes nothing.
    #[tactic(auto, unfolding(crate::specs::Registrar::answer_of, crate::specs::Registrar::refusal_of, crate::specs::Registering::answer_by, crate::specs::Registering::early_refusal))]
    pub fn plan(&self, register: &Register<'_>, now: u64) -> Result<Plan, Refusal>
        requires { now < 2 ^ 60 }
        ensures answer { Plans result register.now.user (answer_of self.now register.now now) }
        ensures last { IfOk result (λ plan. AllLast now plan.bindings) }

        // No memory is asked for before it is seen whether the REGISTER is refused as a whole.
        ensures memory { result ≡ Err Refusal.OutOfMemory → refusal_of self.now register.now now ≡ None }
        ensures passes { IfOk result (λ plan. refusal_of self.now register.now now ≡ None) }
    {
        let Some(user) = &register.user else {
            return Err(Refusal::UnknownUser);
        };
        let (is_known, bindings) = self.look_up(user);
        if !is_known {
            return Err(Refusal::UnknownUser);
        }
        let after = self.after_one(bindings, register, now)?;
        Ok(Plan::new(user.keep(self.alloc)?, after))
    }

    /// Makes the change of a plan, and gives the user whose bindings it sets. Takes no memory.
    #[tactic(auto, unfolding(crate::specs::Registrar::after_plan))]
    pub fn carry_out(&mut self, plan: Plan) -> Text<'static>
        ensures table { self.new ≡ after_plan self.old plan }
        ensures user { result ≡ plan.user }
    {
        let (user, bindings) = plan.into_parts();
        self.entries.put_bindings(&user, bindings);
        user
    }

    /// What `make_change` is to change so that these are the users: one who is a user already keeps its bindings.
    /// Changes nothing.
    pub fn listing(&self, users: &[Text<'_>]) -> Result<Listing, AllocError>
        ensures { IfOk result (λ listing. listing ≡ listing_of self.now users.now) }
    {
        Ok(Listing::from_entries(self.entries.for_users(self.alloc, users)?))
    }

    /// Makes a change, and gives the user whose bindings it sets, where it is that of a REGISTER. Takes no memory.
    pub fn make_change(&mut self, change: RegistrarChange) -> Option<Text<'static>>
        ensures table { self.new ≡ after_change self.old change }
        ensures user { result ≡ user_of_change change }
    {
        match change {
            RegistrarChange::Binds(plan) => Some(self.carry_out(plan)),
            RegistrarChange::Lists(listing) => {
                self.entries = listing.into_entries();
                None
            }
        }
    }

    /// Makes these the users from now on: `listing` and `make_change` together. One who is no longer a user loses its
    /// bindings; one who already is keeps them.
    pub fn put_users(&mut self, users: &[Text<'_>]) -> Result<(), AllocError>
        ensures stands { OnOk result ((rules : Rules) (history : List Event) → StandsAfter self.old rules history
            → StandsAfter self.new rules (history ++ Listed users.now ∷ [])) }
        ensures table { OnOk result (self.new ≡ listed self.old users.now) }
        ensures err { OnErr result (self.new ≡ self.old) }
    {
        let listing = self.listing(users)?;
        drop(self.make_change(RegistrarChange::Lists(listing)));
        Ok(())
    }

    /// Takes a REGISTER, and returns the bindings that its user then has, oldest first (RFC 3261 section 10.3):
    /// `plan` and `carry_out` together. The refusals are met in the order B1, B2, B6, then contact by contact B3 and
    /// B4, then B5.
    pub fn apply(&mut self, register: &Register<'_>, now: u64) -> Result<Vec<Binding>, Refusal>
        requires { now < 2 ^ 60 }
        ensures answer { (rules : Rules) (history : List Event) → StandsAfter self.old rules history
            → Gives result (answer_after rules history register.now now) }
        ensures stands { Counts result → (rules : Rules) (history : List Event) → StandsAfter self.old rules history
            → StandsAfter self.new rules (history ++ event register.now now ∷ []) }
        ensures bound { IfOk result (λ bindings. (user : List ℕ) (rules : Rules) (history : List Event) → register.now.user ≡ Some user
            → StandsAfter self.old rules history → bindings.items ≡ bound rules user (history ++ event register.now now ∷ []) now) }
        ensures last { IfOk result (λ bindings. AllLast now bindings.items) }
        ensures err { OnErr result (self.new ≡ self.old) }
        ensures exact { Gives result (answer_of self.old register.now now) }
        ensures table { Counts result → self.new ≡ registered self.old register.now (answer_of self.old register.now now) }
        ensures memory { result ≡ Err Refusal.OutOfMemory → refusal_of self.old register.now now ≡ None }
    {
        self.take(register, now)
    }

    /// The bindings that a user has at a moment, oldest first: none for anyone unknown.
    #[tactic(auto, unfolding(crate::specs::Bound::bound, crate::specs::Registrar::bindings_at))]
    pub fn bindings(&self, user: &Text<'_>, now: u64) -> Result<Vec<Binding>, AllocError>
        ensures bound { IfOk result (λ bindings. (rules : Rules) (history : List Event) → StandsAfter self.now rules history
            → bindings.items ≡ bound rules user.now history now) }
        ensures last { IfOk result (λ bindings. AllLast now bindings.items) }
        ensures exact { IfOk result (λ bindings. bindings.items ≡ bindings_at self.now user.now now) }
    {
        present(self.alloc, self.look_up(user).1, now)
    }

    /// Each user with its bindings, in the order in which the users were given. Takes no memory.
    pub fn users(&self) -> &[UserBindings]
        ensures { result.now ≡ self.now.entries }
    {
        self.entries.as_slice()
    }

    /// Where a call to a user goes: the URI of the binding that was refreshed last, of those that have not expired
    /// (RFC 3261 section 16.5, one target of several). Takes no memory.
    #[tactic(auto, unfolding(crate::specs::Bound::bound, crate::specs::Registrar::bindings_at))]
    pub fn target(&self, user: &Text<'_>, now: u64) -> Option<&Uri<'static>>
        ensures bound { (rules : Rules) (history : List Event) → StandsAfter self.now rules history
            → option_copied result ≡ target_of (bound rules user.now history now) }
        ensures exact { option_copied result ≡ target_of (bindings_at self.now user.now now) }
    {
        target(self.look_up(user).1, now)
    }

    // Whether this is one of the users, and what the user is bound to.
    fn look_up(&self, user: &Text<'_>) -> (bool, &[Binding])
        ensures known { result.0 ≡ is_known (rules_of self.now) user.now }
        ensures bindings { result.1.now ≡ bindings_of self.now.entries user.now }
    {
        self.entries.look_up(user)
    }

    fn is_own_host(&self, host: &Host<'_>) -> bool
        ensures { result ≡ is_own_host (rules_of self.now) host.now }
    {
        match host {
            Host::Ip4(octets) => *octets == self.ip,
            Host::Name(name) => name.as_bytes().eq_ignore_ascii_case(self.domain.as_bytes()),
        }
    }

    #[tactic(auto, unfolding(crate::specs::Registrar::registered))]
    fn take(&mut self, register: &Register<'_>, now: u64) -> Result<Vec<Binding>, Refusal>
        requires { now < 2 ^ 60 }
        ensures answer { Gives result (answer_of self.old register.now now) }
        ensures table { Counts result → self.new ≡ registered self.old register.now (answer_of self.old register.now now) }
        ensures last { IfOk result (λ bindings. AllLast now bindings.items) }
        ensures err { OnErr result (self.new ≡ self.old) }
        ensures memory { result ≡ Err Refusal.OutOfMemory → refusal_of self.old register.now now ≡ None }
    {
        let plan = self.plan(register, now)?;
        let answer = copy_all(self.alloc, plan.bindings())?;
        drop(self.carry_out(plan));
        Ok(answer)
    }

    #[tactic(auto, unfolding(crate::specs::Registering::bindings_after_one, crate::specs::Registering::whole_refusal))]
    fn after_one(
        &self,
        bindings: &[Binding],
        register: &Register<'_>,
        now: u64,
    ) -> Result<Vec<Binding>, Refusal>
        requires { now < 2 ^ 60 }
        ensures answer { Gives result (bindings_after_one (rules_of self.now) register.now now bindings.now) }
        ensures memory { result ≡ Err Refusal.OutOfMemory → whole_refusal (rules_of self.now) register.now now bindings.now ≡ None }
        ensures passes { IfOk result (λ after. whole_refusal (rules_of self.now) register.now now bindings.now ≡ None) }
        ensures last { IfOk result (λ after. AllLast now after.items) }
    {
        if is_star_misused(register) {
            return Err(Refusal::StarMisused);
        }
        if !all_bindable(self.ip, self.sip_port, register.contacts.as_slice()) {
            return Err(Refusal::BadContact);
        }
        if is_star_stale(register, bindings, now) {
            return Err(Refusal::OutOfOrder);
        }
        self.bindings_by(bindings, register, now)
    }

    fn bindings_by(
        &self,
        bindings: &[Binding],
        register: &Register<'_>,
        now: u64,
    ) -> Result<Vec<Binding>, Refusal>
        requires { now < 2 ^ 60 }
        ensures answer { Gives result (bindings_by (rules_of self.now) register.now now bindings.now) }
        ensures last { IfOk result (λ after. AllLast now after.items) }
    {
        if register.star {
            return Ok(Vec::new(self.alloc));
        }
        let first_number = first_number(bindings);
        let kept = drafts_of(self.alloc, bindings, now)?;
        let kept = with_contacts(
            self.alloc,
            kept,
            self.binding_rules,
            register,
            first_number,
            now,
        )?;
        within_limit(self.alloc, self.binding_rules, kept)
    }
}
