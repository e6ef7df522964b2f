//! Steps over values of any type.
//!
//! An exit that drops a program, a command or a row takes seconds to prove, and one that drops a value of a type parameter almost nothing. So what
//! may fail while it owns such a value is here, and the tests only look at values.
//!
//! A comparison of one case answers `false` also where memory runs out.

use gp_base::NoMemory;

/// What is seen of a value, which is dropped.
pub(crate) fn inspect<T: Drop, R, F: FnOnce(&T) -> R>(value: T, look: F) -> R
    requires { F.IsAlwaysCallable look }
{
    look(&value)
}

/// The value, and what is made of it.
pub(crate) fn with_made<T: Drop, U, F: FnOnce(&T) -> Result<U, NoMemory>>(
    value: T,
    make: F,
) -> Result<(T, U), NoMemory>
    requires { F.IsAlwaysCallable make }
{
    let made = make(&value)?;
    Ok((value, made))
}

/// Two values that were made.
pub(crate) fn pair<T: Drop, U: Drop>(
    first: Result<T, NoMemory>,
    second: Result<U, NoMemory>,
) -> Result<(T, U), NoMemory> {
    let first = first?;
    Ok((first, second?))
}

/// A value that was made in place of another one.
pub(crate) fn instead<T: Drop, U: Drop>(made: Result<T, NoMemory>, _old: U) -> Result<T, NoMemory> {
    made
}
