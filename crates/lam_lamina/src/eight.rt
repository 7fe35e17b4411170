// Eight values: a generic struct has named fields, since its callers would owe the size of an
// array.

ghost use Rattle.std.specs.Prelude.{◌≡◌, ◌<◌};
ghost use Rattle.lam_lamina.specs.inside.Eighths.{at};

/// Eight values of a type.
#[derive(Clone, Copy)]
pub(crate) struct Eight<T> {
    pub(crate) e0: T,
    pub(crate) e1: T,
    pub(crate) e2: T,
    pub(crate) e3: T,
    pub(crate) e4: T,
    pub(crate) e5: T,
    pub(crate) e6: T,
    pub(crate) e7: T,
}

impl<T> Eight<T> {
    /// The value at a place.
    pub(crate) fn get(&self, place: usize) -> &T
        requires { place < 8 }
        ensures { result.now ≡ at self.now place }
    {
        match place {
            0 => &self.e0,
            1 => &self.e1,
            2 => &self.e2,
            3 => &self.e3,
            4 => &self.e4,
            5 => &self.e5,
            6 => &self.e6,
            _ => &self.e7,
        }
    }
}
