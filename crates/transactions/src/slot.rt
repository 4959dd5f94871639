//! A place of the table: a transaction, or none.

ghost use Rattle.std.specs.Prelude.{◌≡◌, Some, None, is_none, option_map};
ghost use Rattle.std.specs.Option.{option_copied};
ghost use Rattle.transactions.specs.Slots.{is_serving};
ghost use Rattle.transactions.specs.Transactions.{went};

use crate::transaction::Transaction;
use boxed::Boxed;
use std::marker::Model;
use text::Text;
use transaction_machines::{State, is_server};

/// A place of the table.
#[derive(Drop)]
pub(crate) struct Slot {
    transaction: Option<Boxed<Transaction>>,
}

impl Model for Slot {
    ghost use Rattle.std.specs.Prelude.{Option};
    ghost use Rattle.transactions.specs.declared.transaction.Transaction.{Transaction};

    ghost Value = { Option Transaction };

    ghost view = { λ s. s.transaction };
}

impl Slot {
    /// A place without a transaction.
    pub(crate) fn free() -> Slot
        ensures { result ≡ None }
    {
        Slot { transaction: None }
    }

    pub(crate) fn of(transaction: Boxed<Transaction>) -> Slot
        ensures { result ≡ Some transaction }
    {
        Slot {
            transaction: Some(transaction),
        }
    }

    /// Whether it has a server transaction.
    #[tactic(auto, unfolding(crate::specs::Slots::is_serving))]
    pub(crate) fn is_serving(&self) -> bool
        ensures { result ≡ is_serving self.now }
    {
        match self.transaction() {
            None => false,
            Some(transaction) => is_server(transaction.state),
        }
    }

    pub(crate) fn is_free(&self) -> bool
        ensures { result ≡ is_none self.now }
    {
        self.transaction.is_none()
    }

    pub(crate) fn transaction(&self) -> Option<&Transaction>
        ensures { option_copied result ≡ self.now }
    {
        match &self.transaction {
            None => None,
            Some(transaction) => Some(transaction.get()),
        }
    }

    /// The transaction goes on, where there is one.
    pub(crate) fn advance(&mut self, fresh: Option<Text<'static>>, state: State)
        ensures { self.new ≡ option_map (λ t. went t fresh.entry state) self.old }
    {
        if let Some(transaction) = &mut self.transaction {
            transaction.get_mut().advance(fresh, state);
        }
    }
}
