//! The routes, and what a target names by them.

ghost use Rattle.std.specs.Prelude.{◌≡◌, IfOk, option_map};
ghost use Rattle.gm_http.specs.Routes.{before, behind, label_between, method_of, named_on, route_of, routes, target_of};

use crate::status::Allowed;
use gm_metadata::Label;
use matchit::{InsertError, Router};
use std::alloc::{AllocError, Global};

/// A route by itself.
#[derive(Clone, Copy)]
pub(crate) enum Route {
    Status,
    Mirror,
    Metadata,
    Commands,
}

/// What a target names: a route, with the label in its braces.
#[derive(Clone, Copy)]
pub(crate) enum Target {
    Status,
    Mirror(Label),
    Metadata(Label),
    Commands,
}

fn router(alloc: Global) -> Result<Router<Route>, InsertError>
    ensures { IfOk result (λ router. router ≡ routes) }
{
    let mut router = Router::new(alloc);
    router.insert("/status", Route::Status)?;
    router.insert("/mirrors/{name}", Route::Mirror)?;
    router.insert("/providers/{prov}/metadata", Route::Metadata)?;
    router.insert("/commands", Route::Commands)?;
    Ok(router)
}

#[tactic(auto, unfolding(crate::specs::Routes::route_of))]
fn route_of(router: &Router<Route>, text: &str) -> Option<Route>
    requires { router.now ≡ routes }
    ensures { result ≡ route_of text.now }
{
    match router.at(text) {
        Ok(found) => Some(*found.value),
        Err(_) => None,
    }
}

// What comes after a beginning.
fn behind<'a>(front: &str, text: &'a str) -> Option<&'a str>
    ensures { option_map (λ part. part.now) result ≡ behind front.now text.now }
{
    text.strip_prefix(front)
}

// What stands before an end.
fn before<'a>(back: &str, text: &'a str) -> Option<&'a str>
    ensures { option_map (λ part. part.now) result ≡ before back.now text.now }
{
    text.strip_suffix(back)
}

// The label between a beginning and an end of a text.
#[tactic(auto, unfolding(crate::specs::Routes::label_between))]
fn label_between(front: &str, back: &str, text: &str) -> Option<Label>
    ensures { result ≡ label_between front.now back.now text.now }
{
    Label::new(before(back, behind(front, text)?)?)
}

fn named_on(route: Route, text: &str) -> Option<Target>
    ensures { result ≡ named_on route text.now }
{
    match route {
        Route::Status => Some(Target::Status),
        Route::Mirror => Some(Target::Mirror(label_between("/mirrors/", "", text)?)),
        Route::Metadata => Some(Target::Metadata(label_between("/providers/", "/metadata", text)?)),
        Route::Commands => Some(Target::Commands),
    }
}

impl Target {
    /// The one method that it takes.
    pub(crate) fn method(self) -> Allowed
        ensures { result ≡ method_of self }
    {
        match self {
            Target::Status | Target::Mirror(_) | Target::Metadata(_) => Allowed::Get,
            Target::Commands => Allowed::Post,
        }
    }
}

/// What a target names; `None` if no route takes it, or a part in braces isn't a label. Fails
/// for want of memory alone, since the routes are well formed and don't meet.
#[tactic(auto, unfolding(crate::specs::Routes::target_of))]
pub(crate) fn target_of(alloc: Global, text: &str) -> Result<Option<Target>, AllocError>
    ensures { IfOk result (λ target. target ≡ target_of text.now) }
{
    let Ok(router) = router(alloc) else {
        return Err(AllocError);
    };
    let Some(route) = route_of(&router, text) else {
        return Ok(None);
    };
    Ok(named_on(route, text))
}
