//! What a REGISTER request asks of the registrar.

ghost use Rattle.std.specs.Prelude.{◌≡◌, ◌++◌, ◌∷◌, [], Some, None, IfOk, OnOk, count_by, if◌then◌else◌, nat_lt, option_map};
ghost use Rattle.std.specs.List.{list_any, filter_map};
ghost use Rattle.std.specs.Option.{option_copied, option_to_list};
ghost use Rattle.registrar.specs.Registrar.{rules_of};
ghost use Rattle.responses.specs.Registering.{seconds_of, seconds_by, expires_of, is_star, contact_from, contacts_without_star, contacts_from, register_of};

use registrar::{Contact, Contacts, Register, Registrar};
use sip_message::{ContactValue, FieldValue, Request, contact_values, first_value};
use sip_uri::{NameAddr, Param, param_named};
use std::alloc::{AllocError, Global};
use text::{Text, is_run_of_digits, number_upto};

/// The seconds for a text that is not a number below 2^32.
const UNREADABLE_SECONDS: u32 = 3600;

fn seconds_of(text: &Text<'_>) -> u32
    ensures { result ≡ seconds_of text.now }
{
    if is_run_of_digits(text.as_bytes()) {
        number_upto(u32::MAX, text.as_bytes()).unwrap_or(UNREADABLE_SECONDS)
    } else {
        UNREADABLE_SECONDS
    }
}

fn seconds_by(text: Option<&Text<'_>>) -> u32
    ensures { result ≡ seconds_by (option_copied text.entry) }
{
    match text {
        None => UNREADABLE_SECONDS,
        Some(text) => seconds_of(text),
    }
}

fn expires_of(params: &[Param<'_>]) -> Option<u32>
    ensures { result ≡ expires_of params.now }
{
    match param_named(params, b"expires") {
        None => None,
        Some(param) => Some(seconds_by(param.value.as_ref())),
    }
}

fn is_star(value: &ContactValue<'_>) -> bool
    ensures { result ≡ is_star value.now }
{
    match value {
        ContactValue::Star => true,
        ContactValue::Address(_) | ContactValue::Unreadable => false,
    }
}

fn any_star(values: &[ContactValue<'_>]) -> bool
    ensures { result ≡ list_any is_star values.now }
{
    values.iter().any(|value| is_star(value))
}

fn address_contact(name: NameAddr<'_>) -> Contact<'_>
    ensures { result ≡ record { uri = Some name.entry.uri; expires = expires_of name.entry.params } }
{
    let (uri, params) = name.into_uri_and_params();
    Contact {
        uri: Some(uri),
        expires: expires_of(params.as_slice()),
    }
}

fn contact_from(value: ContactValue<'_>) -> Option<Contact<'_>>
    ensures { result ≡ contact_from value.entry }
{
    match value {
        ContactValue::Star => None,
        ContactValue::Address(name) => Some(address_contact(name)),
        ContactValue::Unreadable => Some(Contact {
            uri: None,
            expires: None,
        }),
    }
}

fn push_contact<'a>(
    contacts: &mut Vec<Contact<'a>>,
    value: ContactValue<'a>,
) -> Result<(), AllocError>
    ensures { OnOk result (contacts.new.items ≡ contacts.old.items ++ option_to_list (contact_from value.entry)) }
{
    match contact_from(value) {
        Some(contact) => Ok(contacts.push(contact)?),
        None => Ok(()),
    }
}

fn contacts_without_star<'a>(
    alloc: Global,
    values: Vec<ContactValue<'a>>,
) -> Result<Vec<Contact<'a>>, AllocError>
    ensures { IfOk result (λ cs. cs.items ≡ contacts_without_star values.entry.items) }
{
    let mut contacts = Vec::new(alloc);
    for value in values {
        push_contact(&mut contacts, value)?;
    }
    Ok(contacts)
}

fn count_of_stars(values: &[ContactValue<'_>]) -> usize
    ensures { result ≡ count_by is_star values.now }
{
    values.iter().filter(|value| is_star(value)).count()
}

fn push_further_star(contacts: &mut Vec<Contact<'_>>, stars: usize) -> Result<(), AllocError>
    ensures { OnOk result (contacts.new.items ≡ contacts.old.items ++ (if nat_lt 1 stars then record { uri = None; expires = None } ∷ [] else [])) }
{
    if stars > 1 {
        contacts.push(Contact {
            uri: None,
            expires: None,
        })?;
    }
    Ok(())
}

fn contacts_from<'a>(
    alloc: Global,
    values: Vec<ContactValue<'a>>,
) -> Result<Contacts<'a>, AllocError>
    ensures { IfOk result (λ cs. cs ≡ contacts_from values.entry.items) }
{
    let stars = count_of_stars(&values);
    let mut contacts = contacts_without_star(alloc, values)?;
    push_further_star(&mut contacts, stars)?;
    Ok(Contacts::from_vec(contacts))
}

/// The same text, borrowed.
fn lent_text<'m>(text: &'m Text<'_>) -> Text<'m>
    ensures { result ≡ text.now }
{
    Text::lent(text.as_bytes())
}

fn header_seconds(alloc: Global, value: Option<&FieldValue<'_>>) -> Result<Option<u32>, AllocError>
    ensures { IfOk result (λ seconds. seconds ≡ option_map seconds_of (option_copied value.entry)) }
{
    match value {
        None => Ok(None),
        Some(value) => Ok(Some(seconds_of(&value.text(alloc)?))),
    }
}

/// What a REGISTER asks of a registrar, borrowed from both.
#[tactic(auto, unfolding(crate::specs::Registering::register_of))]
pub fn register_of<'m>(
    alloc: Global,
    registrar: &'m Registrar,
    request: &'m Request<'m>,
) -> Result<Register<'m>, AllocError>
    ensures { IfOk result (λ r. r ≡ register_of (rules_of registrar.now) request.now) }
{
    let headers = request.headers.as_slice();
    let values = contact_values(alloc, headers)?;
    let expires = header_seconds(alloc, first_value(headers, b"Expires"))?;
    let star = any_star(&values);
    Ok(Register {
        user: registrar
            .user_of(&request.parts.to.uri)
            .map(|user| lent_text(user)),
        star,
        contacts: contacts_from(alloc, values)?,
        expires,
        call_id: lent_text(&request.parts.call_id),
        cseq: request.parts.cseq.number,
    })
}
