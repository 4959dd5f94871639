//! The dialog that a datagram names (RFC 3261 section 12).

ghost use Rattle.std.specs.Prelude.{◌≡◌, ◌↔◌, IsTrue, IfOk};
ghost use Rattle.call_trace.specs.Dialogs.{is_ours_in_from, our_tag, their_tag, dialog_of};
ghost use Rattle.call_trace.specs.Computed.{names};

use crate::datagram::{Datagram, Dialog, Direction, Kind};
use std::alloc::{AllocError, Global};
use text::Text;

fn is_ours_in_from(direction: Direction, kind: Kind) -> bool
    ensures { result ≡ is_ours_in_from direction kind }
{
    match (direction, kind) {
        (Direction::Sent, Kind::Request) => true,
        (Direction::Sent, Kind::Response(_)) => false,
        (Direction::Taken, Kind::Request) => false,
        (Direction::Taken, Kind::Response(_)) => true,
    }
}

fn our_tag(datagram: &Datagram) -> &Text<'static>
    ensures { result.now ≡ our_tag datagram.now }
{
    if is_ours_in_from(datagram.direction, datagram.message.kind) {
        &datagram.message.from_tag
    } else {
        &datagram.message.to_tag
    }
}

fn their_tag(datagram: &Datagram) -> &Text<'static>
    ensures { result.now ≡ their_tag datagram.now }
{
    if is_ours_in_from(datagram.direction, datagram.message.kind) {
        &datagram.message.to_tag
    } else {
        &datagram.message.from_tag
    }
}

/// The dialog that the datagram's identifiers name.
pub fn dialog_of(alloc: Global, datagram: &Datagram) -> Result<Dialog, AllocError>
    ensures { IfOk result (λ d. d ≡ dialog_of datagram.now) }
{
    Ok(Dialog {
        call_id: datagram.message.call_id.keep(alloc)?,
        ours: our_tag(datagram).keep(alloc)?,
        theirs: their_tag(datagram).keep(alloc)?,
    })
}

#[tactic(auto, unfolding(crate::specs::Computed::names))]
pub(crate) fn names(datagram: &Datagram, dialog: &Dialog) -> bool
    ensures { result ≡ names datagram.now dialog.now }
{
    datagram.message.call_id == dialog.call_id
        && *our_tag(datagram) == dialog.ours
        && *their_tag(datagram) == dialog.theirs
}

/// Whether the datagram's identifiers name this dialog.
pub fn is_named(datagram: &Datagram, dialog: &Dialog) -> bool
    ensures { IsTrue result ↔ (dialog_of datagram.now ≡ dialog.now) }
{
    names(datagram, dialog)
}
