// Bodies in boxes.
ghost use Rattle.std.specs.Prelude.{◌≡◌, map, IfOk};

use pct_ask::{Body, Post};
use std::alloc::{AllocError as NoMemory, Global};

/// A body in a box, as a body.
#[derive(Drop)]
pub struct BoxedBody {
    body: Box<dyn Body + Send>,
}

impl BoxedBody {
    fn new(body: Box<dyn Body + Send>) -> BoxedBody
        ensures { result ≡ record { body = body } }
    {
        BoxedBody { body }
    }
}

impl Body for BoxedBody {
    ghost pending = { λ b. (Body-box b.body).pending b.body.value };

    fn post(&self) -> Post {
        self.body.post()
    }

    fn answer(&mut self, value: i64) {
        self.body.answer(value);
    }
}

/// Each body as one that a worker can run.
pub fn as_bodies(
    alloc: Global,
    bodies: Vec<Box<dyn Body + Send>>,
) -> Result<Vec<BoxedBody>, NoMemory>
    ensures { IfOk result (λ all. all.items ≡ map (λ b. record { body = b }) bodies.items) }
{
    let mut all = Vec::with_capacity(alloc, bodies.len())?;
    for body in bodies {
        all.push(BoxedBody::new(body))?;
    }
    Ok(all)
}
