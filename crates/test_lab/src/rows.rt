//! Rows of data.

/// Values, each with what is wanted of it.
macro_rules! cases {
    ($($value:expr => $wanted:expr;)*) => { [$(($value, $wanted)),*] };
}

pub(crate) use cases;
