//! Worked examples of the definitions. Each is a function that does nothing, and its contract is the example.
ghost use Rattle.std.specs.Prelude.{◌≡◌, [], ◌∷◌, None, Some, codes, false, true};
ghost use Rattle.http_pages.specs.Answer.{asks, content_text, fields_for, method_answer, page_answer};
ghost use Rattle.http_pages.specs.declared.answering.TheConstants.{MAX_BODY, MAX_HEAD, MAX_PENDING};
ghost use Rattle.http_pages.specs.declared.content.ContentType.TheVariants.{Bitmap, Html};
ghost use Rattle.http_pages.specs.declared.page.Status.TheVariants.{BadRequest, Shown};
ghost use Rattle.http_pages.specs.declared.seats.TheConstants.{MAX_CLIENTS};

/// `GET` and `HEAD` ask for a page, in capital letters, and other methods do not.
pub fn methods()
    ensures get { asks (codes "GET") ≡ true }
    ensures head { asks (codes "HEAD") ≡ true }
    ensures small { asks (codes "get") ≡ false }
    ensures longer { asks (codes "GETS") ≡ false }
    ensures post { asks (codes "POST") ≡ false }
{}

/// A page of three bytes, a query that is wrong, no page, and a method that is wrong.
pub fn answers()
    ensures shown { page_answer (Some (record { status = Shown; content = Bitmap; bytes = 1 ∷ 2 ∷ 3 ∷ [] }))
        ≡ record { status = 200; fields = fields_for Bitmap; body = 1 ∷ 2 ∷ 3 ∷ [] } }
    ensures wrong { (page_answer (Some (record { status = BadRequest; content = Html; bytes = [] }))).status ≡ 400 }
    ensures missing { (page_answer None).status ≡ 404 }
    ensures method { method_answer.status ≡ 405 }
    ensures bitmap { content_text Bitmap ≡ codes "image/bmp" }
{}

/// The limits of a request, of what waits to be sent to its client, and of the connections at once, as numbers.
pub fn limits()
    ensures head { MAX_HEAD ≡ 8192 }
    ensures body { MAX_BODY ≡ 8192 }
    ensures pending { MAX_PENDING ≡ 65536 }
    ensures clients { MAX_CLIENTS ≡ 64 }
{}
