//! What is lent. It may be anything here, so these prove at little cost.
use crate::Stop;

/// Lends what was made, and drops it.
pub fn with<T: Drop, E, A, F>(made: Result<T, E>, used: F) -> Result<A, Stop>
where
    Stop: From<E>,
    F: FnOnce(&mut T) -> Result<A, Stop>,
    requires { F.IsAlwaysCallable used }
{
    let mut value = made?;
    used(&mut value)
}

/// Lends a value, and drops it.
pub fn lend<T: Drop, F: FnOnce(&mut T)>(mut value: T, used: F)
    requires { F.IsAlwaysCallable used }
{
    used(&mut value);
}
