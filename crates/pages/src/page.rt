//! The page for a browser.

ghost use Rattle.std.specs.Prelude.{◌≡◌, ◌++◌, OnOk};
ghost use Rattle.pages.specs.Start.{IsStart, PutsStart};
ghost use Rattle.pages.specs.Page.{numbers, page_body, page_foot, page_top, standing, up_text, version_text, IsPage};

use crate::escape::Place;
use crate::page_calls::put_calls;
use crate::page_limits::{put_events, put_limits, put_log};
use crate::page_users::put_users;
use crate::piece::{Piece, put_pieces};
use crate::start::put_start;
use status::{Overview, Status};
use std::alloc::AllocError;
use text::Text;

/// What comes before the version: the page reloads itself every two seconds, and needs no script.
const HEAD: &[u8] = b"<!DOCTYPE html>
<html lang=\"en\">
<head>
<meta charset=\"utf-8\">
<meta http-equiv=\"refresh\" content=\"2\">
<meta name=\"viewport\" content=\"width=device-width, initial-scale=1\">
<title>Office</title>
<style>
:root { color-scheme: light dark; --line: #d0d0d0; --soft: #666; --warn: #b00020; --warn-back: #fde7ea }
@media (prefers-color-scheme: dark) { :root { --line: #444; --soft: #aaa; --warn: #ff8a95; --warn-back: #40161b } }
body { font: 15px/1.4 system-ui, sans-serif; margin: 1rem auto; max-width: 70rem; padding: 0 1rem }
h1 { font-size: 1.3rem; margin: 0 }
h2 { font-size: 1rem; margin: 1.5rem 0 .3rem }
p { color: var(--soft); margin: .2rem 0 }
div { overflow-x: auto }
table { border-collapse: collapse; font-variant-numeric: tabular-nums }
td, th { border-bottom: 1px solid var(--line); padding: .2rem .8rem .2rem 0; text-align: left; vertical-align: top }
th { color: var(--soft); font-weight: 500 }
.off { color: var(--soft) }
.silent { background: var(--warn-back); color: var(--warn); font-weight: 600 }
pre { font-size: .8rem; overflow-x: auto }
</style>
</head>
<body>
<h1>Office ";

fn put_head(out: &mut Vec<u8>) -> Result<(), AllocError>
    ensures { OnOk result (out.new.items ≡ out.old.items ++ HEAD.now) }
{
    out.extend_from_slice(HEAD)
}

fn put_version(out: &mut Vec<u8>, version: &'static str) -> Result<(), AllocError>
    ensures { OnOk result (out.new.items ≡ out.old.items ++ version_text version.now) }
{
    let pieces = [
        Piece::Text(version.as_bytes()),
        Piece::Markup(b"</h1>\n<p>Started "),
    ];
    put_pieces(out, Place::Html, &pieces)
}

#[tactic(auto, unfolding(crate::specs::Page::page_top))]
fn put_top(out: &mut Vec<u8>, version: &'static str) -> Result<(), AllocError>
    ensures { OnOk result (out.new.items ≡ out.old.items ++ page_top version.now) }
{
    put_head(out)?;
    put_version(out, version)
}

#[tactic(auto, unfolding(crate::specs::Page::up_text))]
fn put_up(out: &mut Vec<u8>, moment: u64) -> Result<(), AllocError>
    ensures { OnOk result (out.new.items ≡ out.old.items ++ up_text moment) }
{
    let pieces = [
        Piece::Markup(b", up "),
        Piece::Duration(moment),
        Piece::Markup(b"</p>\n"),
    ];
    put_pieces(out, Place::Html, &pieces)
}

#[tactic(auto, unfolding(crate::specs::Page::standing))]
fn put_standing(out: &mut Vec<u8>, status: &Status) -> Result<(), AllocError>
    ensures { OnOk result (out.new.items ≡ out.old.items ++ standing status.now) }
{
    put_calls(out, status.moment, status.calls.as_slice())?;
    put_users(out, status.users.as_slice())
}

#[tactic(auto, unfolding(crate::specs::Page::numbers))]
fn put_numbers(out: &mut Vec<u8>, status: &Status) -> Result<(), AllocError>
    ensures { OnOk result (out.new.items ≡ out.old.items ++ numbers status.now) }
{
    put_limits(out, status)?;
    put_events(out, status.events.as_slice())
}

#[tactic(auto, unfolding(crate::specs::Page::page_foot))]
fn put_foot(out: &mut Vec<u8>, log: &[Text<'static>]) -> Result<(), AllocError>
    ensures { OnOk result (out.new.items ≡ out.old.items ++ page_foot log.now) }
{
    put_log(out, log)?;
    out.extend_from_slice(b"</body>\n</html>\n")
}

#[tactic(auto, unfolding(crate::specs::Page::page_body))]
fn put_body(out: &mut Vec<u8>, overview: Overview<'_>) -> Result<(), AllocError>
    ensures { OnOk result (out.new.items ≡ out.old.items ++ page_body overview.entry) }
{
    let status = overview.status;
    put_up(out, status.moment)?;
    put_standing(out, status)?;
    put_numbers(out, status)?;
    put_foot(out, overview.log)?;
    Ok(())
}

/// Appends the page: HTML in ASCII. If memory runs out, a part may be written.
pub fn put_page(out: &mut Vec<u8>, overview: Overview<'_>) -> Result<(), AllocError>
    ensures { OnOk result (IsPage overview.entry out.old.items out.new.items) }
{
    put_top(out, overview.version)?;
    put_start(out, overview.started)?;
    put_body(out, overview)?;
    Ok(())
}
