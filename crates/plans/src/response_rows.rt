//! What an ACK, a response and a timer result in for the calls. Each makes values and changes nothing.

ghost use Rattle.std.specs.Prelude.{◌≡◌, ◌<◌, ◌^◌, ◌∷◌, [], IfOk, Some};
ghost use Rattle.std.specs.Option.{option_copied};
ghost use Rattle.transactions.specs.Changes.{fire_of};
ghost use Rattle.call_core.specs.declared.input.Input.TheVariants as inputs;
ghost use Rattle.call_rules.specs.Content.{described};
ghost use Rattle.call_steps.specs.Rows.{answers_leg, fork_row, late_row};
ghost use Rattle.plans.specs.CallRows.{ack_row, acks_again, again, call_timer_at, call_timer_row, occasion, of_plan, response_by_asked, response_row, responds_by, takes, timed_out, timed_out_at, timeout_row, timer_input, times_responses, with_step, without_call_timer};
ghost use Rattle.plans.specs.Effect.{Fits, effect};

use crate::acks::{KeptAck, kept_ack};
use crate::effects_of_events::{Before, Doing};
use crate::note::Note;
use crate::office::Office;
use crate::plan::Plan;
use crate::setting::Setting;
use crate::taken::{Taken, Why};
use call_core::{CallTimer, Input};
use call_rules::{ResponseRule, body_description, response_rule, timeout_rule};
use call_steps::{answers_leg, fork, late_ack};
use calls::CallTimerId;
use events::Sent;
use sip_message::{Request, Response};
use std::alloc::{AllocError, Global};
use transaction_machines::TimerKind;
use transactions::{Change, Outgoing, TimerId, Transaction};

fn timer_input(timer: CallTimer) -> Input<'static>
    ensures { result ≡ timer_input timer }
{
    match timer {
        CallTimer::Limit => Input::Limit,
        CallTimer::Repeat => Input::Repeat,
        CallTimer::Wait => Input::Wait,
        CallTimer::Lifetime => Input::Lifetime,
    }
}

/// Whether this timer times the responses to a request of the server's own.
fn times_responses(kind: TimerKind) -> bool
    ensures { result ≡ times_responses kind }
{
    matches!(kind, TimerKind::B | TimerKind::F)
}

/// The ACK of a 2xx again, where it is kept.
fn again(alloc: Global, ack: Option<&KeptAck>) -> Result<Vec<Sent>, AllocError>
    ensures { IfOk result (λ sends. sends.items ≡ again (option_copied ack.entry)) }
{
    let mut sends = Vec::new(alloc);
    if let Some(ack) = ack {
        let bytes = ack.sent.bytes.keep(alloc)?;
        sends.push(Sent {
            to: ack.sent.to,
            bytes,
        })?;
    }
    Ok(sends)
}

impl<'o> Office<'o> {
    /// What an ACK results in: the call that waits for it takes it.
    #[tactic(auto, unfolding(crate::specs::CallRows::ack_row))]
    pub fn ack_row(
        &self,
        setting: Setting,
        request: &Request<'_>,
        begun: Vec<Change>,
    ) -> Result<Doing, AllocError>
        requires few { self.now.tokens < 2 ^ 63 }
        ensures row { IfOk result (λ d. effect self.now.calls self.now.acks setting.now d ≡ ack_row self.now setting request.now begun.items) }
        ensures fits { IfOk result (Fits self.now.calls setting.now) }
    {
        match self.calls.place_by_ack(request) {
            None => Ok(self.drops_row(Taken::Dropped(Why::Ack))),
            Some(place) => self.takes(setting, Before::alone(begun), place, &Input::Ack, None),
        }
    }

    // ---- responses

    /// The ACK of a 2xx that comes again is sent again.
    fn acks_again(&self, begun: Vec<Change>, id: usize) -> Result<Plan, AllocError>
        ensures { IfOk result (λ p. p ≡ acks_again self.now begun.items id) }
    {
        let sends = again(self.alloc, kept_ack(self.acks, id))?;
        Ok(Plan {
            taken: Taken::Done,
            changes: begun,
            sends,
            registration: None,
            made: 0,
            note: Note::Quiet,
        })
    }

    /// The first 2xx to an offer.
    fn answers_offer(
        &self,
        setting: Setting,
        response: &Response<'_>,
        before: Before,
        asked: &Transaction,
        place: usize,
    ) -> Result<Doing, AllocError>
        requires few { self.now.tokens < 2 ^ 63 }
        ensures row { IfOk result (λ d. effect self.now.calls self.now.acks setting.now d
            ≡ takes self.now setting before.begun.items before.send before.id place (inputs.Answer (described response.now.headers response.now.body)) (answers_leg self.now.calls.calls place asked.now.parts response.now)) }
        ensures fits { IfOk result (Fits self.now.calls setting.now) }
    {
        let leg = answers_leg(self.alloc, self.calls, place, asked, response)?;
        let headers = response.headers.as_slice();
        let answer = Input::Answer(body_description(
            self.alloc,
            headers,
            response.body.as_bytes(),
        )?);
        let doing = self.takes(setting, before, place, &answer, leg);
        drop(answer);
        doing
    }

    /// A 2xx that no call takes.
    fn forks(
        &self,
        setting: Setting,
        response: &Response<'_>,
        before: Before,
        asked: &Transaction,
    ) -> Result<Doing, AllocError>
        requires few { self.now.tokens < 2 ^ 63 }
        ensures row { IfOk result (λ d. effect self.now.calls self.now.acks setting.now d
            ≡ with_step self.now.acks before.begun.items before.send before.id (fork_row self.now.calls (occasion self.now setting) asked.now.parts response.now)) }
        ensures fits { IfOk result (Fits self.now.calls setting.now) }
    {
        let step = fork(self.alloc, self.occasion(setting), asked, response)?;
        Doing::of_step(before, step)
    }

    /// A 2xx to a later INVITE, whose call is gone.
    fn acks_late(
        &self,
        setting: Setting,
        response: &Response<'_>,
        before: Before,
        asked: &Transaction,
    ) -> Result<Doing, AllocError>
        requires few { self.now.tokens < 2 ^ 63 }
        ensures row { IfOk result (λ d. effect self.now.calls self.now.acks setting.now d
            ≡ with_step self.now.acks before.begun.items before.send before.id (late_row self.now.calls (occasion self.now setting) asked.now.parts response.now)) }
        ensures fits { IfOk result (Fits self.now.calls setting.now) }
    {
        let step = late_ack(self.alloc, self.occasion(setting), asked, response)?;
        Doing::of_step(before, step)
    }

    fn responds_by(
        &self,
        setting: Setting,
        response: &Response<'_>,
        begun: Vec<Change>,
        send: Option<Outgoing>,
        id: usize,
        asked: &Transaction,
        rule: ResponseRule,
    ) -> Result<Doing, AllocError>
        requires few { self.now.tokens < 2 ^ 63 }
        ensures row { IfOk result (λ d. effect self.now.calls self.now.acks setting.now d ≡ responds_by self.now setting response.now begun.items send id asked.now rule) }
        ensures fits { IfOk result (Fits self.now.calls setting.now) }
    {
        match rule {
            ResponseRule::Silent => self.moves_row(begun, send),
            ResponseRule::Provisional { place, status } => {
                let before = Before::with_sent(begun, send);
                self.takes_alone(setting, before, place, Input::Provisional(status))
            }
            ResponseRule::Answer { place } => {
                let before = Before::with_kept(begun, send, id);
                self.answers_offer(setting, response, before, asked, place)
            }
            ResponseRule::Again { .. } => Ok(Doing::alone(self.acks_again(begun, id)?)),
            ResponseRule::Fork => self.forks(
                setting,
                response,
                Before::with_sent(begun, send),
                asked,
            ),
            ResponseRule::AckAlone => {
                self.acks_late(setting, response, Before::with_sent(begun, send), asked)
            }
            ResponseRule::Refusal { place, status } => {
                let before = Before::with_sent(begun, send);
                self.takes_alone(setting, before, place, Input::Refusal(status))
            }
        }
    }

    /// What a response to the request of transaction `id` results in.
    #[tactic(auto, unfolding(crate::specs::CallRows::response_row))]
    pub fn response_row(
        &self,
        setting: Setting,
        response: &Response<'_>,
        begun: Vec<Change>,
        send: Option<Outgoing>,
        id: usize,
    ) -> Result<Doing, AllocError>
        requires few { self.now.tokens < 2 ^ 63 }
        ensures row { IfOk result (λ d. effect self.now.calls self.now.acks setting.now d ≡ response_row self.now setting response.now begun.items send id) }
        ensures fits { IfOk result (Fits self.now.calls setting.now) }
    {
        match self.table.transaction(id) {
            None => self.moves_row(begun, send),
            Some(asked) => {
                let rule = response_rule(self.calls, asked, response);
                self.responds_by(setting, response, begun, send, id, asked, rule)
            }
        }
    }

    // ---- timers

    fn timed_out(
        &self,
        setting: Setting,
        begun: Vec<Change>,
        asked: Option<&Transaction>,
    ) -> Result<Doing, AllocError>
        requires few { self.now.tokens < 2 ^ 63 }
        ensures row { IfOk result (λ d. effect self.now.calls self.now.acks setting.now d ≡ timed_out self.now setting begun.items (option_copied asked.entry)) }
        ensures fits { IfOk result (Fits self.now.calls setting.now) }
    {
        let Some(asked) = asked else {
            return self.moves_row(begun, None);
        };
        match timeout_rule(self.calls, asked) {
            None => self.moves_row(begun, None),
            Some(place) => self.takes(setting, Before::alone(begun), place, &Input::TimedOut, None),
        }
    }

    /// No final response came in time to a request of the server's own.
    #[tactic(auto, unfolding(crate::specs::CallRows::timeout_row))]
    pub fn timeout_row(
        &self,
        setting: Setting,
        timer: TimerId,
        begun: Vec<Change>,
    ) -> Result<Doing, AllocError>
        requires few { self.now.tokens < 2 ^ 63 }
        requires begun { begun.items ≡ fire_of timer ∷ [] }
        ensures row { IfOk result (λ d. effect self.now.calls self.now.acks setting.now d ≡ timeout_row self.now setting timer) }
        ensures fits { IfOk result (Fits self.now.calls setting.now) }
    {
        if !times_responses(timer.kind) {
            return self.moves_row(begun, None);
        }
        self.timed_out(setting, begun, self.table.transaction(timer.id))
    }

    /// A timer of the call at this place fires, and is no longer set.
    fn takes_timer(
        &self,
        setting: Setting,
        place: usize,
        timer: CallTimerId,
    ) -> Result<Doing, AllocError>
        requires few { self.now.tokens < 2 ^ 63 }
        ensures row { IfOk result (λ d. effect self.now.calls self.now.acks setting.now d ≡ call_timer_at (without_call_timer timer self.now) setting timer.timer (Some place)) }
        ensures fits { IfOk result (Fits self.now.calls setting.now) }
    {
        let input = timer_input(timer.timer);
        let step = self.step_at(setting, place, &input, None, None);
        drop(input);
        let step = step?;
        let before = Before::alone(Vec::new(self.alloc));
        Doing::of_fired_step(Some(timer), before, step)
    }

    /// What a timer of a call results in.
    #[tactic(auto, unfolding(crate::specs::CallRows::call_timer_row))]
    pub fn call_timer_row(&self, setting: Setting, timer: CallTimerId) -> Result<Doing, AllocError>
        requires few { self.now.tokens < 2 ^ 63 }
        ensures row { IfOk result (λ d. effect self.now.calls self.now.acks setting.now d ≡ call_timer_row self.now setting timer) }
        ensures fits { IfOk result (Fits self.now.calls setting.now) }
    {
        match self.calls.place_by_number(timer.number) {
            None => Ok(Doing::of_fired_timer(
                Plan::moves(self.alloc, Vec::new(self.alloc), None)?,
                timer,
            )),
            Some(place) => self.takes_timer(setting, place, timer),
        }
    }
}
