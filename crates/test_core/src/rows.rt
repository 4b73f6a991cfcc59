//! Rows of steps as data.

/// Steps, each by the caller or the seat of a number, what it does, and what it is answered.
macro_rules! steps {
    ($($who:literal $act:expr => $told:expr),* $(,)?) => { [$(($who, $act, $told)),*] };
}

pub(crate) use steps;

/// Steps, each a variant of the `Step` that is in scope.
macro_rules! calls {
    ($($step:ident$(($($at:expr),*))?;)*) => { [$(Step::$step$(($($at),*))?),*] };
}

pub(crate) use calls;

/// Values, each with what it is written as, or whether it fits.
macro_rules! cases {
    ($($value:expr => $wanted:expr;)*) => { [$(($value, $wanted)),*] };
}

pub(crate) use cases;
