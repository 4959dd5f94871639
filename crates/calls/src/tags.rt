//! The server's own tags of a call, as prints: a tag with another print is skipped without looking at its text.

ghost use Rattle.std.specs.Prelude.{◌≡◌};
ghost use Rattle.std.specs.List.{position};
ghost use Rattle.std.specs.Option.{option_copied};
ghost use Rattle.calls.specs.Tags.{has_print, has_print_at, prints_of, tag_print};

use crate::standing_call::StandingCall;
use call_core::End;
use dialogs::Dialog;
use index::PrintKey;

/// The prints of the server's tags of a call.
#[derive(Clone, Copy)]
pub(crate) struct TagPrints {
    /// Of the leg to the callee.
    pub(crate) leg: u64,
    /// Of the dialog with the caller.
    pub(crate) caller: u64,
    /// Of the dialog with the callee; 0 where there is none.
    pub(crate) callee: u64,
}

fn tag_print(key: PrintKey, dialog: Option<&Dialog>) -> u64
    ensures { result ≡ tag_print key (option_copied dialog.entry) }
{
    match dialog {
        None => 0,
        Some(dialog) => key.print_of(dialog.id.ours.as_bytes()),
    }
}

/// The prints of a call's tags under this key. Takes no memory.
pub(crate) fn prints_of(key: PrintKey, call: &StandingCall) -> TagPrints
    ensures { result ≡ prints_of key call.now }
{
    TagPrints {
        leg: key.print_of(call.callee_tag.as_bytes()),
        caller: tag_print(key, call.call.dialog(End::Caller)),
        callee: tag_print(key, call.call.dialog(End::Callee)),
    }
}

fn has_print(tags: &TagPrints, print: u64) -> bool
    ensures { result ≡ has_print print tags.now }
{
    tags.leg == print || tags.caller == print
}

fn has_print_at(tags: &TagPrints, end: End, print: u64) -> bool
    ensures { result ≡ has_print_at end print tags.now }
{
    match end {
        End::Caller => tags.caller == print,
        End::Callee => tags.callee == print,
    }
}

/// The place of the first whose leg to the callee, or whose dialog with the caller, has a tag of this print. Takes no
/// memory.
pub(crate) fn place_of(tags: &[TagPrints], print: u64) -> Option<usize>
    ensures { result ≡ position (has_print print) tags.now }
{
    tags.iter().position(|tags| has_print(tags, print))
}

/// The place of the first whose dialog with this end has a tag of this print. Takes no memory.
pub(crate) fn place_at(tags: &[TagPrints], end: End, print: u64) -> Option<usize>
    ensures { result ≡ position (has_print_at end print) tags.now }
{
    tags.iter().position(|tags| has_print_at(tags, end, print))
}
