// Six numbers: a generic struct has named fields, since its callers would owe the size of an array.

/// One for each of the six strains, or for each of the six equations, of three forces and three moments.
#[derive(Clone, Copy)]
pub(crate) struct Six<T> {
    pub(crate) ex: T,
    pub(crate) ey: T,
    pub(crate) g: T,
    pub(crate) kx: T,
    pub(crate) ky: T,
    pub(crate) kg: T,
}

/// Two whole ends.
#[derive(Clone, Copy)]
pub(crate) struct Ends {
    pub(crate) low: i128,
    pub(crate) high: i128,
}
