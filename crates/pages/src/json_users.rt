//! The users in JSON, with the contacts at which they are bound.

ghost use Rattle.std.specs.Prelude.{◌≡◌, ◌++◌, OnOk};
ghost use Rattle.pages.specs.JsonUsers.{binding_object, user_object, user_start};
ghost use Rattle.pages.specs.Pieces.{behind_comma, listed};

use crate::escape::Place;
use crate::piece::{Piece, put_pieces};
use status::{BindingStatus, UserStatus};
use std::alloc::AllocError;

#[tactic(auto, unfolding(crate::specs::JsonUsers::binding_object))]
fn put_binding(out: &mut Vec<u8>, binding: &BindingStatus) -> Result<(), AllocError>
    ensures { OnOk result (out.new.items ≡ out.old.items ++ binding_object binding.now) }
{
    let pieces = [
        Piece::Markup(b"{\"contact\":\""),
        Piece::Text(binding.contact.as_bytes()),
        Piece::Markup(b"\",\"seconds_left\":"),
        Piece::Number(binding.seconds_left),
        Piece::Markup(b"}"),
    ];
    put_pieces(out, Place::Json, &pieces)
}

fn put_next_binding(out: &mut Vec<u8>, binding: &BindingStatus) -> Result<(), AllocError>
    ensures { OnOk result (out.new.items ≡ out.old.items ++ behind_comma binding_object binding.now) }
{
    out.push(b',')?;
    put_binding(out, binding)
}

fn put_bindings(out: &mut Vec<u8>, bindings: &[BindingStatus]) -> Result<(), AllocError>
    ensures { OnOk result (out.new.items ≡ out.old.items ++ listed binding_object bindings.now) }
{
    let Some((first, rest)) = bindings.split_first() else {
        return Ok(());
    };
    put_binding(out, first)?;
    for binding in rest {
        put_next_binding(out, binding)?;
    }
    Ok(())
}

fn put_name(out: &mut Vec<u8>, user: &UserStatus) -> Result<(), AllocError>
    ensures { OnOk result (out.new.items ≡ out.old.items ++ user_start user.now) }
{
    let pieces = [
        Piece::Markup(b"{\"name\":\""),
        Piece::Text(user.name.as_bytes()),
        Piece::Markup(b"\",\"bindings\":["),
    ];
    put_pieces(out, Place::Json, &pieces)
}

#[tactic(auto, unfolding(crate::specs::JsonUsers::user_object))]
fn put_user(out: &mut Vec<u8>, user: &UserStatus) -> Result<(), AllocError>
    ensures { OnOk result (out.new.items ≡ out.old.items ++ user_object user.now) }
{
    put_name(out, user)?;
    put_bindings(out, user.bindings.as_slice())?;
    out.extend_from_slice(b"]}")
}

fn put_next_user(out: &mut Vec<u8>, user: &UserStatus) -> Result<(), AllocError>
    ensures { OnOk result (out.new.items ≡ out.old.items ++ behind_comma user_object user.now) }
{
    out.push(b',')?;
    put_user(out, user)
}

/// Writes the users with a comma between them. If memory runs out, a part may be written.
pub(crate) fn put_users(out: &mut Vec<u8>, users: &[UserStatus]) -> Result<(), AllocError>
    ensures { OnOk result (out.new.items ≡ out.old.items ++ listed user_object users.now) }
{
    let Some((first, rest)) = users.split_first() else {
        return Ok(());
    };
    put_user(out, first)?;
    for user in rest {
        put_next_user(out, user)?;
    }
    Ok(())
}
