//! The pages for the visitors of the viewer.

use crate::door::{Door, Place, Request};
use crate::said::say_log;
use http_pages::{Page, Pages, serve_pages};
use play_viewer::Asked;
use std::alloc::{AllocError, AllocGlobal, Global};
use std::io::{self, Eprint};
use std::random::RandomSource;
use std::sync::{Arc, Wait};
use std::thread::{self, Threads};
use std::time::Clock;

/// Hands each request to the viewer by a door, and waits for the answer.
#[derive(Drop)]
struct Visitors<R: Wait> {
    rt: R,
    door: Arc<Door, Global>,
}

impl<R: Wait + Copy + Send + Drop + 'static> Pages for Visitors<R> {
    ghost shows = { λ _ _ _ _. Unit {0} };

    fn page(
        &self,
        alloc: Global,
        path: &str,
        query: Option<&str>,
    ) -> Result<Option<Page>, AllocError> {
        let place = Arc::new(alloc, Place::new())?;
        let asked = Asked {
            path: String::from_str(alloc, path)?,
            query: match query {
                Some(query) => Some(String::from_str(alloc, query)?),
                None => None,
            },
        };
        let request = Request {
            asked,
            place: Arc::try_clone(&place)?,
        };
        self.door.put(&self.rt, request)?;
        Ok(place.wait(&self.rt))
    }

    fn share(&self) -> Result<Visitors<R>, AllocError> {
        Ok(Visitors {
            rt: self.rt,
            door: Arc::try_clone(&self.door)?,
        })
    }
}

/// Starts the thread that accepts connections once a door is opened. It gives each connection a thread of its own, which
/// hands its requests in at the door. They end with the process.
pub fn start_door<
    R: Threads + Wait + Clock + Eprint + AllocGlobal + RandomSource + Copy + Send + Drop + 'static,
>(rt: &R, alloc: Global) -> io::Result<Arc<Door, Global>> {
    let door = Door::shared(alloc)?;
    let rt = *rt;
    let pages = Visitors {
        rt,
        door: Arc::try_clone(&door)?,
    };
    thread::spawn(&rt, move || { accept(&rt, &pages) })?;
    Ok(door)
}

/// Waits until the door is opened, and accepts connections for as long as the system lets it.
fn accept<
    R: Threads + Wait + Clock + Eprint + AllocGlobal + RandomSource + Copy + Send + Drop + 'static,
>(rt: &R, pages: &Visitors<R>) {
    if let Some(listener) = pages.door.listener(rt) {
        if let Err(error) = serve_pages(rt, &listener, pages) {
            say_log(rt, "listening socket", &error);
        }
    }
    pages.door.fail();
}
