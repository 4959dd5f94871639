//! The users on the page, with the contacts at which they are bound.

ghost use Rattle.std.specs.Prelude.{◌≡◌, ◌++◌, OnOk};
ghost use Rattle.std.specs.List.{flat_map};
ghost use Rattle.pages.specs.Users.{binding_row, unbound_row, user_rows, users_heading, users_table};

use crate::escape::Place;
use crate::piece::{Piece, put_pieces};
use status::{BindingStatus, UserStatus};
use std::alloc::AllocError;

fn put_binding<'a>(
    out: &mut Vec<u8>,
    name: &'a [u8],
    binding: &'a BindingStatus,
) -> Result<(), AllocError>
    ensures { OnOk result (out.new.items ≡ out.old.items ++ binding_row name.now binding.now) }
{
    let pieces = [
        Piece::Markup(b"<tr><td>"),
        Piece::Text(name),
        Piece::Markup(b"</td><td>"),
        Piece::Text(binding.contact.as_bytes()),
        Piece::Markup(b"</td><td>"),
        Piece::Number(binding.seconds_left),
        Piece::Markup(b"</td></tr>\n"),
    ];
    put_pieces(out, Place::Html, &pieces)
}

fn put_unbound(out: &mut Vec<u8>, name: &[u8]) -> Result<(), AllocError>
    ensures { OnOk result (out.new.items ≡ out.old.items ++ unbound_row name.now) }
{
    let pieces = [
        Piece::Markup(b"<tr><td>"),
        Piece::Text(name),
        Piece::Markup(b"</td><td colspan=\"2\" class=\"off\">not registered</td></tr>\n"),
    ];
    put_pieces(out, Place::Html, &pieces)
}

fn put_user(out: &mut Vec<u8>, user: &UserStatus) -> Result<(), AllocError>
    ensures { OnOk result (out.new.items ≡ out.old.items ++ user_rows user.now) }
{
    let bindings = user.bindings.as_slice();
    if bindings.is_empty() {
        return put_unbound(out, user.name.as_bytes());
    }
    put_bindings(out, user.name.as_bytes(), bindings)
}

fn put_bindings(
    out: &mut Vec<u8>,
    name: &[u8],
    bindings: &[BindingStatus],
) -> Result<(), AllocError>
    ensures { OnOk result (out.new.items ≡ out.old.items ++ flat_map (binding_row name.now) bindings.now) }
{
    for binding in bindings {
        put_binding(out, name, binding)?;
    }
    Ok(())
}

fn put_rows(out: &mut Vec<u8>, users: &[UserStatus]) -> Result<(), AllocError>
    ensures { OnOk result (out.new.items ≡ out.old.items ++ flat_map user_rows users.now) }
{
    for user in users {
        put_user(out, user)?;
    }
    Ok(())
}

fn put_heading(out: &mut Vec<u8>, count: usize) -> Result<(), AllocError>
    ensures { OnOk result (out.new.items ≡ out.old.items ++ users_heading count) }
{
    let pieces = [
        Piece::Markup(b"<h2>Users: "),
        Piece::Number(count as u64),
        Piece::Markup(
            b"</h2>\n<div><table>\n<tr><th>User</th><th>Bound at</th><th>Seconds left</th></tr>\n",
        ),
    ];
    put_pieces(out, Place::Html, &pieces)
}

/// Appends the table of users. If memory runs out, a part may be written.
#[tactic(auto, unfolding(crate::specs::Users::users_table))]
pub(crate) fn put_users(out: &mut Vec<u8>, users: &[UserStatus]) -> Result<(), AllocError>
    ensures { OnOk result (out.new.items ≡ out.old.items ++ users_table users.now) }
{
    put_heading(out, users.len())?;
    put_rows(out, users)?;
    out.extend_from_slice(b"</table></div>\n")
}
