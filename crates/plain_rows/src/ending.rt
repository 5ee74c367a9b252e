//! How rows begin and end, as they are written with their stack effects.

/// A row whose stack effect takes the top cell.
macro_rules! from_one {
    ($parts:ident, ($x:ident) -> [$($given:expr),*]) => {{
        let Some($x) = $parts.values.pick(0) else {
            return Outcome::Fault(DATA_UNDERFLOW);
        };
        machine_parts::leaves!($parts, 1, [$($given),*])
    }};
}

/// A row whose stack effect takes the two top cells.
macro_rules! from_two {
    ($parts:ident, ($x:ident, $y:ident) -> [$($given:expr),*]) => {{
        let Some(($x, $y)) = $parts.values.top2() else {
            return Outcome::Fault(DATA_UNDERFLOW);
        };
        machine_parts::leaves!($parts, 2, [$($given),*])
    }};
}

/// A row whose stack effect takes the three top cells.
macro_rules! from_three {
    ($parts:ident, ($x:ident, $y:ident, $z:ident) -> [$($given:expr),*]) => {{
        let Some(($x, $y, $z)) = $parts.values.top3() else {
            return Outcome::Fault(DATA_UNDERFLOW);
        };
        machine_parts::leaves!($parts, 3, [$($given),*])
    }};
}

/// A row whose stack effect takes the four top cells.
macro_rules! from_four {
    ($parts:ident, ($a:ident, $b:ident, $c:ident, $d:ident) -> [$($given:expr),*]) => {{
        let Some(($a, $b, $c, $d)) = $parts.values.top4() else {
            return Outcome::Fault(DATA_UNDERFLOW);
        };
        machine_parts::leaves!($parts, 4, [$($given),*])
    }};
}

pub(crate) use from_four;
pub(crate) use from_one;
pub(crate) use from_three;
pub(crate) use from_two;
