//! Requests, answered by the pages of a program.
ghost use Rattle.std.specs.Prelude.{◌≡◌, ◌++◌, [], ◌∷◌, OnOk, IsTrue};
ghost use Rattle.http_server.specs.Response.{IsBlank, fields_of};
ghost use Rattle.http_header.specs.FieldValue.{is_visible_text};
ghost use Rattle.http_header.specs.FieldName.{is_header_name};
ghost use Rattle.http_pages.specs.Answer.{AnswersRequest, IsAnswer, asks, fields_for, method_answer, page_answer};

use crate::content::ContentType;
use crate::page::Page;
use crate::pages::Pages;
use bytes::Bytes;
use http::{HeaderName, HeaderValue, Request, StatusCode};
use http_server::{Response, Service};
use std::alloc::{AllocError, Global};

/// What a browser may load for a page: pictures and documents, from this server alone. It runs the script and the style with these
/// sums, which are those of the page of `live_view`, and no others. A page is in no frame of another, and sends no form.
const POLICY: &str =
    "default-src 'none'; script-src 'sha256-gEe6tNrdoCWCg9Nww8uoDAabtLMuLI7s9apYeF3xVSM='; style-src 'sha256-PD1FBd6N4jZliuRlmko7X0PXi7ykvQPCpICLkXAyc/s='; img-src 'self'; connect-src 'self'; base-uri 'none'; form-action 'none'; frame-ancestors 'none'";

/// The pages of a program, as a service.
#[derive(Drop)]
pub struct Site<P> {
    pub alloc: Global,
    pub pages: P,
}

/// Returns whether a method asks for a page.
fn is_asking(method: &str) -> bool
    ensures { result ≡ asks method.now }
{
    matches!(method, "GET" | "HEAD")
}

/// Adds a field to an answer.
fn add(response: &mut Response, name: &'static str, value: &'static str) -> Result<(), AllocError>
    requires name { IsTrue (is_header_name name.now) }
    requires value { IsTrue (is_visible_text value.now) }
    ensures fields { OnOk result (fields_of response.new ≡ fields_of response.old ++ (name.now, value.now) ∷ []) }
    ensures status { response.new.status ≡ response.old.status }
    ensures body { response.new.body ≡ response.old.body }
{
    let name = HeaderName::from_static(name);
    let value = HeaderValue::from_static(value);
    response.add_header(name, value)?;
    Ok(())
}

/// Adds the fields that every answer has.
fn add_fields(response: &mut Response, content: ContentType) -> Result<(), AllocError>
    ensures fields { OnOk result (fields_of response.new ≡ fields_of response.old ++ fields_for content) }
    ensures status { response.new.status ≡ response.old.status }
    ensures body { response.new.body ≡ response.old.body }
{
    add(response, "content-type", content.as_str())?;
    add(response, "cache-control", "no-store")?;
    add(response, "x-content-type-options", "nosniff")?;
    add(response, "content-security-policy", POLICY)?;
    Ok(())
}

/// Makes the answer to a method that does not ask for a page.
fn refuse_method(response: &mut Response) -> Result<(), AllocError>
    requires { IsBlank response.old }
    ensures { OnOk result (IsAnswer method_answer response.new) }
{
    response.status = StatusCode::METHOD_NOT_ALLOWED;
    add(response, "allow", "GET, HEAD")?;
    add_fields(response, ContentType::Plain)?;
    response
        .body
        .push(Bytes::from_static(b"Pages can only be read.\n"))
}

/// Makes the answer if there is this page, or none.
fn give(response: &mut Response, page: Option<Page>) -> Result<(), AllocError>
    requires { IsBlank response.old }
    ensures { OnOk result (IsAnswer (page_answer page) response.new) }
{
    match page {
        Some(page) => {
            response.status = page.status.code();
            add_fields(response, page.content)?;
            response.body.push(page.bytes)
        }
        None => {
            response.status = StatusCode::NOT_FOUND;
            add_fields(response, ContentType::Plain)?;
            response
                .body
                .push(Bytes::from_static(b"There is no such page.\n"))
        }
    }
}

impl<P: Pages> Service for Site<P> {
    ghost answers = { λ old request response new. (new ≡ old) × AnswersRequest (P.shows old.pages) request response };

    fn call(
        &mut self,
        request: &Request<Bytes>,
        response: &mut Response,
    ) -> Result<(), AllocError> {
        if !is_asking(request.method().as_str()) {
            return refuse_method(response);
        }
        let uri = request.uri();
        let page = self.pages.page(self.alloc, uri.path(), uri.query())?;
        give(response, page)
    }
}
