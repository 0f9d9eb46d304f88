//! What is answered to who asks for the counts.

ghost use Rattle.std.specs.Prelude.{◌≡◌, ◌++◌, OnOk};
ghost use Rattle.gn_metrics.specs.Page.{page_text};
ghost use Rattle.gn_metrics.specs.Scraped.{IsScraped};
ghost use Rattle.gn_metrics.specs.declared.look.Look.{Look};

use crate::drawing::{DRAWING, draw};
use crate::meters::Meters;
use crate::page::push_page;
use bytes::{BufMut, Bytes};
use http::header::{ALLOW, CONNECTION, CONTENT_TYPE};
use http::{HeaderValue, Method, Request, StatusCode};
use http_server::{Response, Service};
use std::alloc::{AllocError, Global};

/// Where the page is.
const PATH: &str = "/metrics";

/// Where it is drawn, for a browser.
const DRAWN: &str = "/";

/// Answers with the page of what is counted by now, and asks to close then.
#[derive(Drop)]
pub(crate) struct Scrape<'a> {
    pub alloc: Global,
    pub meters: &'a Meters,
}

/// Whether a method asks for a page.
fn is_asking(method: &Method) -> bool {
    *method == Method::GET || *method == Method::HEAD
}

impl<'a> Scrape<'a> {
    /// Puts the page into an answer.
    fn answer(&self, response: &mut Response) -> Result<(), AllocError>
        ensures { OnOk result ((look : Look) × (response.new.status ≡ response.old.status)
            × (response.new.body.items ≡ response.old.body.items ++ page_text look)) }
    {
        let form = HeaderValue::from_static("text/plain; version=0.0.4; charset=utf-8");
        response.add_header(CONTENT_TYPE, form)?;
        let mut page = Vec::new(self.alloc);
        push_page(&mut page, &self.meters.look())?;
        response.body.put_slice(&page)
    }
}

impl<'a> Service for Scrape<'a> {
    ghost use Rattle.gn_metrics.specs.declared.drawing.TheConstants.{DRAWING};

    ghost answers = { λ old request response new. IsScraped DRAWING.now response };

    fn call(
        &mut self,
        request: &Request<Bytes>,
        response: &mut Response,
    ) -> Result<(), AllocError> {
        response.add_header(CONNECTION, HeaderValue::from_static("close"))?;
        let path = request.uri().path();
        if path != PATH && path != DRAWN {
            response.status = StatusCode::NOT_FOUND;
            return Ok(());
        }
        if !is_asking(request.method()) {
            response.status = StatusCode::METHOD_NOT_ALLOWED;
            return response.add_header(ALLOW, HeaderValue::from_static("GET, HEAD"));
        }
        if path == DRAWN {
            return draw(response);
        }
        self.answer(response)
    }
}
