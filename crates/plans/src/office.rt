//! What a plan looks at.

ghost use Rattle.std.specs.Prelude.{◌≡◌, ◌<◌, ◌^◌, ℕ, IfOk};
ghost use Rattle.plans.specs.CallRows.{occasion, of_plan};
ghost use Rattle.plans.specs.Effect.{Fits, effect};
ghost use Rattle.plans.specs.Plan.{lists, moves, nothing};
ghost use Rattle.registrar.specs.Changes.{listing_of};

use crate::acks::KeptAck;
use crate::effects_of_events::Doing;
use crate::plan::Plan;
use crate::setting::Setting;
use crate::taken::Taken;
use call_steps::Occasion;
use calls::Calls;
use offer_answer::OwnRange;
use registrar::Registrar;
use sip_uri::Addr;
use std::alloc::{AllocError, Global};
use std::marker::Model;
use text::Text;
use transactions::{Change, Outgoing, Table};

/// An office as an event finds it, borrowed: a plan changes nothing.
#[derive(Drop)]
pub struct Office<'o> {
    pub alloc: Global,
    pub registrar: &'o Registrar,
    pub table: &'o Table,
    pub calls: &'o Calls,
    /// The ACKs of 2xx that are sent again.
    pub acks: &'o [KeptAck],
    /// Where the server is reached.
    pub server: Addr,
    /// The server's address and relay ports.
    pub range: OwnRange,
    /// The least number of seconds that a binding has to last.
    pub least: u32,
    /// How many tokens were made.
    pub tokens: u64,
}

impl<'o> Model for Office<'o> {
    ghost use Rattle.std.specs.Coded.{codes};
    ghost use Rattle.port_pool.specs.Pool.{coded_contents};
    ghost use Rattle.calls.specs.State.{standing};
    ghost use Rattle.plans.specs.Office as offices;

    ghost Value = { offices.Office };

    ghost coded = { Prim.hlevel (codes, coded_contents) };

    ghost view = { λ o. record { registrar = o.registrar.now; table = o.table.now; calls = standing o.calls.now; acks = o.acks.now; server = o.server; range = o.range; least = o.least; tokens = o.tokens } };

    ghost invariant = { λ o. offices.HasTokens o.tokens o.calls.now.begun o.range };
}

impl<'o> Office<'o> {
    pub(crate) fn occasion(&self, setting: Setting) -> Occasion
        ensures { result ≡ occasion self.now setting }
    {
        Occasion {
            server: self.server,
            range: self.range,
            now: setting.now,
            salt: setting.salt,
            tokens: self.tokens,
        }
    }

    /// A transaction does something by itself, and this concerns no call.
    pub fn moves_row(&self, begun: Vec<Change>, send: Option<Outgoing>) -> Result<Doing, AllocError>
        ensures row { (now : ℕ) → IfOk result (λ d. effect self.now.calls self.now.acks now d ≡ of_plan self.now (moves begun.items send)) }
        ensures fits { (now : ℕ) → IfOk result (Fits self.now.calls now) }
    {
        Ok(Doing::alone(Plan::moves(self.alloc, begun, send)?))
    }

    /// The office's users are to be these: one who is a user already keeps its bindings.
    pub fn users_row(&self, users: &[Text<'_>]) -> Result<Doing, AllocError>
        ensures row { (now : ℕ) → IfOk result (λ d. effect self.now.calls self.now.acks now d ≡ of_plan self.now (lists (listing_of self.now.registrar users.now))) }
        ensures fits { (now : ℕ) → IfOk result (Fits self.now.calls now) }
    {
        let listing = self.registrar.listing(users)?;
        Ok(Doing::alone(Plan::lists(self.alloc, listing)))
    }

    /// Nothing is sent, and nothing changes. Takes no memory.
    pub fn drops_row(&self, taken: Taken) -> Doing
        ensures row { (now : ℕ) → effect self.now.calls self.now.acks now result ≡ of_plan self.now (nothing taken) }
        ensures fits { (now : ℕ) → Fits self.now.calls now result }
    {
        Doing::alone(Plan::nothing(self.alloc, taken))
    }
}
