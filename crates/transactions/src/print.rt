//! Numbers for what a transaction is looked up by: one with another print is skipped without looking at its parts.

ghost use Rattle.std.specs.Prelude.{◌≡◌, Some, None, IsTrue};
ghost use Rattle.std.specs.Option.{option_copied};
ghost use Rattle.transactions.specs.KnownPrints.{IsPrintOf};
ghost use Rattle.transactions.specs.Prints.{ip_print, print_by, branch_print, tag_print, source_print, prints_at};

use crate::transaction::Transaction;
use index::PrintKey;
use sip_message::{Vias, tag_value, top_branch};
use sip_uri::Param;
use text::Text;
use transaction_machines::is_server;

/// The prints of a place of the table, all 0 where it has no transaction.
#[derive(Clone, Copy)]
pub(crate) struct Prints {
    /// Of the branch of the top Via.
    pub(crate) branch: u64,
    /// Of Call-ID.
    pub(crate) call: u64,
    /// Of the tag of From.
    pub(crate) tag: u64,
    /// Of the address that a server transaction's request came from.
    pub(crate) source: u64,
}

/// A print of the branch of a top Via, with the key that it was made under.
#[derive(Clone, Copy)]
pub(crate) struct BranchPrint {
    pub(crate) key: PrintKey,
    pub(crate) print: u64,
}

fn print_by(key: PrintKey, text: Option<&Text<'_>>) -> u64
    ensures { result ≡ print_by key (option_copied text.entry) }
{
    match text {
        None => 0,
        Some(text) => key.print_of(text.as_bytes()),
    }
}

/// The print of the branch of the top Via.
pub(crate) fn branch_print(key: PrintKey, vias: &Vias<'_>) -> u64
    ensures { result ≡ branch_print key vias.now }
{
    print_by(key, top_branch(vias))
}

fn is_same_key(a: PrintKey, b: PrintKey) -> bool
    ensures { IsTrue result → a ≡ b }
{
    a.first == b.first && a.second == b.second
}

// The print of the branch of the top Via: the known one, where that was made under this key.
fn known_or_made(key: PrintKey, vias: &Vias<'_>, known: Option<BranchPrint>) -> u64
    requires { IsPrintOf known vias.now }
    ensures { result ≡ branch_print key vias.now }
{
    match known {
        None => branch_print(key, vias),
        Some(branch) => {
            if is_same_key(branch.key, key) {
                branch.print
            } else {
                branch_print(key, vias)
            }
        }
    }
}

/// The print of the tag among the parameters of From.
fn tag_print(key: PrintKey, params: &[Param<'_>]) -> u64
    ensures { result ≡ tag_print key params.now }
{
    print_by(key, tag_value(params))
}

/// The print of an address, which no other address has, and which is not 0.
#[tactic(auto, unfolding(crate::specs::Shares::ip_number))]
pub(crate) fn ip_print(ip: [u8; 4]) -> u64
    ensures { result ≡ ip_print ip }
{
    1 + u64::from(u32::from_be_bytes(ip))
}

// The print of the address that a server transaction's request came from; 0 of a request of the server's own.
fn source_print(transaction: &Transaction) -> u64
    ensures { result ≡ source_print transaction.now }
{
    if is_server(transaction.state) {
        ip_print(transaction.place.ip)
    } else {
        0
    }
}

impl Prints {
    /// Of a place without a transaction.
    pub(crate) fn none() -> Prints
        ensures { (key : PrintKey) → result ≡ prints_at key None }
    {
        Prints {
            branch: 0,
            call: 0,
            tag: 0,
            source: 0,
        }
    }

    /// Of a transaction, whose branch may have a known print.
    pub(crate) fn of(key: PrintKey, transaction: &Transaction, known: Option<BranchPrint>) -> Prints
        requires { IsPrintOf known transaction.now.parts.vias }
        ensures { result ≡ prints_at key (Some transaction.now) }
    {
        let parts = &transaction.parts;
        Prints {
            branch: known_or_made(key, &parts.vias, known),
            call: key.print_of(parts.call_id.as_bytes()),
            tag: tag_print(key, parts.from.params.as_slice()),
            source: source_print(transaction),
        }
    }
}
