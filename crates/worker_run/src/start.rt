// A worker's thread.
ghost use Rattle.std.specs.Prelude.{◌≡◌, IfOk, IfErr};

use core::thread::Stack;
use std::thread::{Promise, PromisedHandle, Scope, SpawnError};

/// The stack of a worker, in bytes. The C library keeps stacks of 40 MiB in all for threads that
/// are started later, so those of 64 workers, each with 64 KiB of guard, are mapped once.
const STACK_BYTES: usize = 512 * 1024;

/// Starts a thread of the scope, with a worker's stack. Where none can be started the closure comes
/// back.
pub fn start<'s, E, P: Promise<T> + Drop, F: FnOnce() -> T + Send + 's, T: Send + Drop + 's>(
    scope: &Scope<'s, E>,
    promise: P,
    work: F,
) -> Result<PromisedHandle<T, P>, SpawnError<F>>
    requires runs { F.pre work }
    requires keeps { (r : T) → F.post work r → P.kept_by promise r }
    ensures ok { IfOk result (λ handle. handle.promise ≡ promise) }
    ensures err { IfErr result (λ refused. refused.value ≡ work) }
{
    Stack::new()
        .stack_size(STACK_BYTES)
        .spawn_scoped_with(scope, promise, work)
}
